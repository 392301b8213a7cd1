// The uses of trunks, and the nodes in use.
ghost use Rattle.std.specs.Prelude.{◌≡◌, ◌<◌, ◌≤◌, ◌*◌, ◌==◌, length};
ghost use Rattle.std.specs.List.{list_any};
ghost use Rattle.virt_topo.specs.Soundness.{IsSound};
ghost use Rattle.lab_model.specs.Shapes.{IsShaped};
ghost use Rattle.lab_model.specs.Uses.{use_of};
ghost use Rattle.cost_rule.specs.Cost.{trunk_uses, nodes_in_use};

use lab_base::{Name, NodeId, TrunkId};
use phys_lab::{Lab, MAX_TRUNKS};
use virt_topo::{MAX_ENDS, MAX_KBPS, Mapping, Wiring};

fn trunk_use(lab: &Lab, wiring: &Wiring, mapping: &Mapping, trunk: usize) -> u64
    requires sound { IsSound wiring.now }
    requires shaped { IsShaped lab.now wiring.now mapping.now }
    requires trunk { trunk < length lab.now.trunks }
    ensures used { result ≡ use_of lab.now wiring.now mapping.now trunk }
    ensures bound { result ≤ MAX_ENDS * MAX_KBPS }
{
    // for the prover: it tells what every lab keeps
    let _kept = lab.range();
    mapping.cut_use(wiring, lab.first_side(TrunkId(trunk as u16)))
}

pub(crate) fn trunk_uses(lab: &Lab, wiring: &Wiring, mapping: &Mapping) -> u64
    requires sound { IsSound wiring.now }
    requires shaped { IsShaped lab.now wiring.now mapping.now }
    ensures sum { result ≡ trunk_uses lab.now wiring.now mapping.now }
    ensures bound { result ≤ MAX_TRUNKS * (MAX_ENDS * MAX_KBPS) }
{
    // for the prover: it tells what every lab keeps
    let _kept = lab.range();
    let mut total = 0;
    for trunk in 0..lab.trunks().len() {
        total += trunk_use(lab, wiring, mapping, trunk);
    }
    total
}

/// Whether one of the places is on a node.
pub fn is_on(node: NodeId, places: &[(NodeId, Name)]) -> bool
    ensures { result ≡ list_any (λ p. node.0 == p.0.0) places.now }
{
    places.iter().any(|place| node.0 == place.0.0)
}

/// The number of nodes in use.
pub(crate) fn nodes_in_use(mapping: &Mapping) -> usize
    ensures number { result ≡ nodes_in_use mapping.now }
    ensures few { result ≤ length mapping.now.places }
{
    let mut nodes = 0;
    let mut rest = mapping.places.as_slice();
    while let Some((first, others)) = rest.split_first() {
        nodes += usize::from(!is_on(first.0, others));
        rest = others;
    }
    nodes
}
