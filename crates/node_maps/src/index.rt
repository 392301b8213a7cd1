ghost use Rattle.std.specs.Prelude.{◌≡◌, ◌<◌, ◌++◌, ◌∷◌, [], ℕ, true, false, if◌then◌else◌, length, slice_index_or, slice_set, replicate, IfOk, OnOk};
ghost use Rattle.lab_model.specs.Shapes.{Place as PlaceSeen};
ghost use Rattle.node_maps.specs.Indexed.{ifaces_of, IsIndex, HasPlaces};

use crate::lists::Place;
use lab_base::{IfaceId, Items, Memory, NodeId};
use phys_lab::{Iface, Lab};
use std::alloc::Global;
use std::marker::Model;

/// An interface of a node, with its speed.
#[derive(Clone, Copy)]
pub struct NodeIface {
    pub id: IfaceId,
    pub kbps: u64,
}

/// By node of a lab its interfaces, in the lab's order.
#[derive(Drop)]
pub struct NodeIfaces {
    lists: Vec<Items<NodeIface>>,
}

impl Model for NodeIfaces {
    ghost use Rattle.std.specs.Prelude.{List};
    ghost use Rattle.node_maps.specs.declared.index.NodeIface.{NodeIface as NodeIfaceSeen};

    ghost Value = { List (List NodeIfaceSeen) };

    ghost view = { λ a. a.lists.items };
}

fn no_ifaces(alloc: Global, nodes: usize) -> Result<Vec<Items<NodeIface>>, Memory>
    ensures { IfOk result (λ lists. lists.items ≡ replicate nodes []) }
{
    let mut lists = Vec::new(alloc);
    for _node in 0..nodes {
        lists.push(Items::new(alloc))?;
    }
    Ok(lists)
}

fn add_iface(lists: &mut Vec<Items<NodeIface>>, number: u16, iface: &Iface) -> Result<(), Memory>
    requires { iface.now.node.0 < length lists.old.items }
    ensures { OnOk result (lists.new.items ≡ slice_set lists.old.items iface.now.node.0
        (slice_index_or lists.old.items iface.now.node.0 [] ++ record { id = record { 0 = number }; kbps = iface.now.kbps } ∷ [])) }
{
    lists[iface.node.0 as usize].push(NodeIface {
        id: IfaceId(number),
        kbps: iface.kbps,
    })?;
    Ok(())
}

/// Adds an interface, where its node is used.
fn add_used(
    lists: &mut Vec<Items<NodeIface>>,
    used: &[bool],
    number: u16,
    iface: &Iface,
) -> Result<(), Memory>
    requires one_each { length used.now ≡ length lists.old.items }
    requires node { iface.now.node.0 < length lists.old.items }
    ensures { OnOk result (lists.new.items ≡ (if slice_index_or used.now iface.now.node.0 false then slice_set lists.old.items iface.now.node.0
        (slice_index_or lists.old.items iface.now.node.0 [] ++ record { id = record { 0 = number }; kbps = iface.now.kbps } ∷ []) else lists.old.items)) }
{
    if used[iface.node.0 as usize] {
        add_iface(lists, number, iface)?;
    }
    Ok(())
}

/// By node the interfaces of those that are used.
fn lists_of(alloc: Global, lab: &Lab, used: &[bool]) -> Result<Vec<Items<NodeIface>>, Memory>
    requires { length used.now ≡ length lab.now.nodes }
    ensures nodes { IfOk result (λ lists. length lists.items ≡ length lab.now.nodes) }
    ensures each { IfOk result (λ lists. (node : ℕ) → slice_index_or used.now node false ≡ true
        → slice_index_or lists.items node [] ≡ ifaces_of 0 lab.now.ifaces node) }
{
    // for the prover: it tells what every lab keeps
    let _kept = lab.range();
    let ifaces = lab.ifaces();
    let mut lists = no_ifaces(alloc, lab.nodes().len())?;
    for iface in 0..ifaces.len() {
        add_used(&mut lists, used, iface as u16, &ifaces[iface])?;
    }
    Ok(lists)
}

fn mark(used: &mut Vec<bool>, node: NodeId)
    ensures one_each { length used.new.items ≡ length used.old.items }
    ensures marked { node.0 < length used.old.items → slice_index_or used.new.items node.0 false ≡ true }
    ensures others { (n : ℕ) → slice_index_or used.old.items n false ≡ true → slice_index_or used.new.items n false ≡ true }
{
    if (node.0 as usize) < used.len() {
        used[node.0 as usize] = true;
    }
}

/// By node whether it has one of the places.
fn used_nodes(alloc: Global, nodes: usize, places: &[Place]) -> Result<Vec<bool>, Memory>
    ensures one_each { IfOk result (λ used. length used.items ≡ nodes) }
    ensures used { IfOk result (λ used. (k : ℕ) (d : PlaceSeen) → k < length places.now → (slice_index_or places.now k d).0.0 < nodes
        → slice_index_or used.items (slice_index_or places.now k d).0.0 false ≡ true) }
{
    let mut used = vec![in alloc; false; nodes]?;
    for place in places {
        mark(&mut used, place.0);
    }
    Ok(used)
}

impl NodeIfaces {
    /// The interfaces of all nodes of a lab.
    pub fn of_lab(alloc: Global, lab: &Lab) -> Result<NodeIfaces, Memory>
        ensures { IfOk result (λ index. IsIndex lab.now index) }
    {
        let _linked = lab.ifaces();
        let used = vec![in alloc; true; lab.nodes().len()]?;
        let lists = lists_of(alloc, lab, &used)?;
        Ok(NodeIfaces { lists })
    }

    /// The interfaces of the nodes that have one of these places.
    pub(crate) fn of_places(
        alloc: Global,
        lab: &Lab,
        places: &[Place],
    ) -> Result<NodeIfaces, Memory>
        ensures { IfOk result (λ index. HasPlaces lab.now places.now index) }
    {
        let _linked = lab.ifaces();
        let used = used_nodes(alloc, lab.nodes().len(), places)?;
        let lists = lists_of(alloc, lab, &used)?;
        Ok(NodeIfaces { lists })
    }

    /// The interfaces of a node.
    pub fn of(&self, node: NodeId) -> &[NodeIface]
        ensures { result.now ≡ slice_index_or self.now node.0 [] }
    {
        match self.lists.get(node.0 as usize) {
            Some(listed) => listed.as_slice(),
            None => &[],
        }
    }
}
