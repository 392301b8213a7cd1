// The switches of nodes' interfaces.
ghost use Rattle.std.specs.Prelude.{◌≡◌, ◌<◌, ◌++◌, ◌∷◌, [], length, map, replicate, slice_index_or, slice_set, IfOk, OnOk};
ghost use Rattle.lab_seen.specs.Claimed.{plugs_of};

use lab_base::{Items, Memory};
use phys_lab::{Iface, Lab};
use std::alloc::Global;

fn no_plugs(alloc: Global, nodes: usize) -> Result<Vec<Items<usize>>, Memory>
    ensures { IfOk result (λ lists. lists.items ≡ replicate nodes []) }
{
    let mut lists = Vec::new(alloc);
    for _node in 0..nodes {
        lists.push(Items::new(alloc))?;
    }
    Ok(lists)
}

/// Adds the switch of an interface to those of its node.
fn add_plug(lists: &mut Vec<Items<usize>>, iface: &Iface) -> Result<(), Memory>
    requires { iface.now.node.0 < length lists.old.items }
    ensures { OnOk result (lists.new.items ≡ slice_set lists.old.items iface.now.node.0
        (slice_index_or lists.old.items iface.now.node.0 [] ++ iface.now.switch.0 ∷ [])) }
{
    lists[iface.node.0 as usize].push(iface.switch.0 as usize)?;
    Ok(())
}

/// By node of a lab, and by interface of the node, in order, the number of its switch.
pub fn plugs_by_node(alloc: Global, lab: &Lab) -> Result<Items<Items<usize>>, Memory>
    ensures { IfOk result (λ plugs. plugs ≡ map (λ node. plugs_of lab.now node.name) lab.now.nodes) }
{
    // for the prover: it tells what every lab keeps
    let _kept = lab.range();
    let mut lists = no_plugs(alloc, lab.nodes().len())?;
    for iface in lab.ifaces() {
        add_plug(&mut lists, iface)?;
    }
    Ok(Items::from_vec(lists))
}
