// How many virtual nodes may be on a node.
ghost use Rattle.std.specs.Prelude.{◌≡◌, ◌<◌, true, nat_le, length};
ghost use Rattle.lab_model.specs.Shapes.{node_at, has_name};
ghost use Rattle.lab_model.specs.Rules.{number_of};

use feas::number_of;
use lab_base::{Name, NodeId};
use node_maps::Place;
use phys_lab::Lab;

/// The types of a node, each with how many virtual nodes may have it there.
fn types_at(lab: &Lab, node: NodeId) -> &[(Name, u16)]
    requires { node.0 < length lab.now.nodes }
    ensures { result.now ≡ (node_at lab.now node).types }
{
    lab.nodes()[node.0 as usize].types.as_slice()
}

/// Whether a node with so many virtual nodes on it has as many as may have a type of it there. That is one at least.
pub(crate) fn is_taken(lab: &Lab, place: Place, hosted: u16) -> bool
    requires node { place.0.0 < length lab.now.nodes }
    requires typed { has_name (node_at lab.now place.0).types place.1 ≡ true }
    ensures { result ≡ nat_le (number_of (node_at lab.now place.0).types place.1) hosted }
{
    // for the prover: it tells what every lab keeps
    let _kept = lab.range();
    if hosted == 0 {
        return false;
    }
    hosted >= number_of(types_at(lab, place.0), place.1)
}
