// The OS and pipes that a mapping wants, by the number of the node in its lab.
ghost use Rattle.std.specs.Prelude.{◌≡◌, ◌<◌, ◌++◌, ◌∷◌, [], length, map, replicate, slice_index_or, slice_set, Some, IfOk, OnOk};
ghost use Rattle.virt_topo.specs.Soundness.{IsSound};
ghost use Rattle.virt_topo.specs.Wirings.{virt_at};
ghost use Rattle.lab_model.specs.Courses.{node_names};
ghost use Rattle.lab_model.specs.Rules.{place_at};
ghost use Rattle.lab_model.specs.Shapes.{IsShaped};
ghost use Rattle.lab_model.specs.Wants.{os_on};
ghost use Rattle.swap_plan.specs.Plans.{pipes_at};
ghost use Rattle.swap_plan.specs.Tables.{IsTable};

use lab_base::{Items, Memory, Name};
use phys_lab::Lab;
use std::alloc::Global;
use virt_topo::{Mapping, Pipe, Wiring};

/// The OS and the pipes that a mapping wants, by node of the lab.
#[derive(Drop)]
pub(crate) struct NodeTable {
    /// The OS of the first virtual node that is placed on the node.
    pub(crate) oses: Vec<Option<Name>>,
    /// The pipes on the node, in wiring order.
    pub(crate) pipes: Vec<Items<Pipe>>,
}

/// Sets the OS of the node that a virtual node is placed on.
fn set_os(oses: &mut Vec<Option<Name>>, wiring: &Wiring, mapping: &Mapping, virt: usize)
    requires virt { virt < length wiring.now.nodes }
    requires place { virt < length mapping.now.places }
    requires node { (place_at mapping.now virt).0.0 < length oses.old.items }
    ensures { oses.new.items ≡ slice_set oses.old.items (place_at mapping.now virt).0.0 (Some (virt_at wiring.now virt).os) }
{
    let node = mapping.places.as_slice()[virt].0;
    oses[node.0 as usize] = Some(wiring.nodes.as_slice()[virt].os);
}

/// The OS of each node. The first of its virtual nodes sets it last.
pub(crate) fn oses_of(
    alloc: Global,
    lab: &Lab,
    wiring: &Wiring,
    mapping: &Mapping,
) -> Result<Vec<Option<Name>>, Memory>
    requires { IsShaped lab.now wiring.now mapping.now }
    ensures { IfOk result (λ oses. oses.items ≡ map (os_on lab.now wiring.now.nodes mapping.now.places) (node_names lab.now)) }
{
    // for the prover: it tells what every lab keeps
    let _kept = lab.range();
    let virts = wiring.nodes.as_slice();
    let mut oses = vec![in alloc; None; lab.nodes().len()]?;
    for virt in (0..virts.len()).rev() {
        set_os(&mut oses, wiring, mapping, virt);
    }
    Ok(oses)
}

fn no_pipes(alloc: Global, nodes: usize) -> Result<Vec<Items<Pipe>>, Memory>
    ensures { IfOk result (λ lists. lists.items ≡ replicate nodes []) }
{
    let mut lists = Vec::new(alloc);
    for _node in 0..nodes {
        lists.push(Items::new(alloc))?;
    }
    Ok(lists)
}

/// Adds a pipe to those of the node that its virtual node is placed on.
fn add_pipe(lists: &mut Vec<Items<Pipe>>, mapping: &Mapping, pipe: Pipe) -> Result<(), Memory>
    requires place { pipe.node < length mapping.now.places }
    requires node { (place_at mapping.now pipe.node).0.0 < length lists.old.items }
    ensures { OnOk result (lists.new.items
        ≡ slice_set lists.old.items (place_at mapping.now pipe.node).0.0 (slice_index_or lists.old.items (place_at mapping.now pipe.node).0.0 [] ++ pipe ∷ [])) }
{
    let node = mapping.places.as_slice()[pipe.node as usize].0;
    lists[node.0 as usize].push(pipe)?;
    Ok(())
}

/// The pipes of each node.
fn pipes_of(
    alloc: Global,
    lab: &Lab,
    wiring: &Wiring,
    mapping: &Mapping,
) -> Result<Vec<Items<Pipe>>, Memory>
    requires sound { IsSound wiring.now }
    requires shaped { IsShaped lab.now wiring.now mapping.now }
    ensures { IfOk result (λ lists. lists.items ≡ map (pipes_at lab.now wiring.now mapping.now) (node_names lab.now)) }
{
    // for the prover: it tells what every lab keeps
    let _kept = lab.range();
    let mut lists = no_pipes(alloc, lab.nodes().len())?;
    for pipe in wiring.pipes.as_slice() {
        add_pipe(&mut lists, mapping, *pipe)?;
    }
    Ok(lists)
}

impl NodeTable {
    pub(crate) fn of(
        alloc: Global,
        lab: &Lab,
        wiring: &Wiring,
        mapping: &Mapping,
    ) -> Result<NodeTable, Memory>
        requires sound { IsSound wiring.now }
        requires shaped { IsShaped lab.now wiring.now mapping.now }
        ensures { IfOk result (IsTable lab.now wiring.now mapping.now) }
    {
        let oses = oses_of(alloc, lab, wiring, mapping)?;
        let pipes = pipes_of(alloc, lab, wiring, mapping)?;
        Ok(NodeTable { oses, pipes })
    }
}

/// The name of a node.
pub(crate) fn node_name(lab: &Lab, node: usize) -> Name
    requires { node < length lab.now.nodes }
    ensures { result ≡ slice_index_or (node_names lab.now) node [] }
{
    lab.nodes()[node].name
}
