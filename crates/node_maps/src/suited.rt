// The candidates of a virtual node.
ghost use Rattle.std.specs.Prelude.{◌≡◌, ◌<◌, ◌≤◌, ◌*◌, ◌++◌, map, length, All, IfOk, OnOk, false, slice_index_or};
ghost use Rattle.lab_model.specs.Shapes.{IsFreeOf};
ghost use Rattle.virt_topo.specs.Wirings.{virt_at};
ghost use Rattle.node_maps.specs.NodeMaps.{lab_places, is_candidate, candidates_among, candidates as candidates_in};
ghost use Rattle.node_maps.specs.Kinds.{listed, places_of as numbered, AreNumbers};

use crate::kinds::Kinds;
use crate::lists::{Candidates, Place};
use feas::{is_fixed_at, suits};
use lab_base::{Items, Memory, NodeId};
use lab_model::node_at;
use phys_lab::{Free, Lab, MAX_LAB_NODES, MAX_NODE_TYPES, Node};
use std::alloc::Global;
use virt_topo::{VirtNode, Wiring};

fn push_places(listed: &mut Vec<Place>, id: NodeId, node: &Node) -> Result<(), Memory>
    ensures { OnOk result (listed.new.items ≡ listed.old.items ++ map (λ t. (id, t.0)) node.now.types) }
{
    for kind in node.types.as_slice() {
        listed.push((id, kind.0))?;
    }
    Ok(())
}

/// The places of a lab, by node, then by type.
fn places_of(alloc: Global, lab: &Lab) -> Result<Vec<Place>, Memory>
    ensures places { IfOk result (λ listed. listed.items ≡ lab_places lab.now) }
    ensures few { IfOk result (λ listed. length listed.items ≤ MAX_LAB_NODES * MAX_NODE_TYPES) }
{
    // for the prover: it tells what every lab keeps
    let _kept = lab.range();
    let nodes = lab.nodes();
    let mut listed = Vec::new(alloc);
    for node in 0..nodes.len() {
        push_places(&mut listed, NodeId(node as u16), &nodes[node])?;
    }
    Ok(listed)
}

fn is_free(free: &Free, node: NodeId) -> bool
    requires { node.0 < length free.now.nodes }
    ensures { result ≡ slice_index_or free.now.nodes node.0 false }
{
    free.nodes.as_slice()[node.0 as usize]
}

/// Whether a place is a candidate: its node is free, and the virtual node suits it.
fn is_candidate(lab: &Lab, free: &Free, wiring: &Wiring, virt: &VirtNode, place: &Place) -> bool
    requires free { IsFreeOf lab.now free.now }
    requires place { place.now.0.0 < length lab.now.nodes }
    ensures { result ≡ is_candidate lab.now free.now wiring.now virt.now place.now }
{
    let node = node_at(lab, place.0);
    is_free(free, place.0)
        && suits(wiring, virt, node.features.as_slice(), place.1)
        && is_fixed_at(virt.fixed, node.name)
}

/// The candidates of a virtual node, by their numbers among these places.
fn candidates_of(
    alloc: Global,
    lab: &Lab,
    free: &Free,
    wiring: &Wiring,
    virt: &VirtNode,
    places: &[Place],
) -> Result<Items<u16>, Memory>
    requires free { IsFreeOf lab.now free.now }
    requires places { All (λ p. p.0.0 < length lab.now.nodes) places.now }
    requires few { length places.now ≤ MAX_LAB_NODES * MAX_NODE_TYPES }
    ensures numbers { IfOk result (λ numbers. All (λ k. k < length places.now) numbers) }
    ensures places { IfOk result (λ numbers. numbered places.now numbers ≡ candidates_among lab.now free.now wiring.now places.now virt.now) }
{
    let mut numbers = Items::new(alloc);
    for number in 0..places.len() {
        if is_candidate(lab, free, wiring, virt, &places[number]) {
            numbers.push(number as u16)?;
        }
    }
    Ok(numbers)
}

/// The candidates of the virtual node of a number.
fn candidates_at(
    alloc: Global,
    lab: &Lab,
    free: &Free,
    wiring: &Wiring,
    virt: usize,
    places: &[Place],
) -> Result<Items<u16>, Memory>
    requires free { IsFreeOf lab.now free.now }
    requires virt { virt < length wiring.now.nodes }
    requires places { All (λ p. p.0.0 < length lab.now.nodes) places.now }
    requires few { length places.now ≤ MAX_LAB_NODES * MAX_NODE_TYPES }
    ensures numbers { IfOk result (λ numbers. All (λ k. k < length places.now) numbers) }
    ensures places { IfOk result (λ numbers. numbered places.now numbers
        ≡ candidates_among lab.now free.now wiring.now places.now (virt_at wiring.now virt)) }
{
    let asked = &wiring.nodes.as_slice()[virt];
    candidates_of(alloc, lab, free, wiring, asked, places)
}

/// The candidates of each of these virtual nodes.
fn lists_of(
    alloc: Global,
    lab: &Lab,
    free: &Free,
    wiring: &Wiring,
    ones: &[usize],
    places: &[Place],
) -> Result<Vec<Items<u16>>, Memory>
    requires free { IsFreeOf lab.now free.now }
    requires ones { All (λ v. v < length wiring.now.nodes) ones.now }
    requires places { All (λ p. p.0.0 < length lab.now.nodes) places.now }
    requires few { length places.now ≤ MAX_LAB_NODES * MAX_NODE_TYPES }
    ensures numbers { IfOk result (λ lists. AreNumbers places.now lists.items) }
    ensures places { IfOk result (λ lists. listed places.now lists.items
        ≡ map (λ v. candidates_among lab.now free.now wiring.now places.now (virt_at wiring.now v)) ones.now) }
{
    let mut lists = Vec::new(alloc);
    for one in ones {
        lists.push(candidates_at(alloc, lab, free, wiring, *one, places)?)?;
    }
    Ok(lists)
}

/// By virtual node, its candidates in the lab's order: the free places that it suits and where it may be. The other members of its class don't count.
pub fn candidates(
    alloc: Global,
    lab: &Lab,
    free: &Free,
    wiring: &Wiring,
) -> Result<Candidates, Memory>
    requires { IsFreeOf lab.now free.now }
    ensures { IfOk result (λ listed. listed ≡ candidates_in lab.now free.now wiring.now) }
{
    let places = places_of(alloc, lab)?;
    let kinds = Kinds::of(alloc, wiring.nodes.as_slice())?;
    let lists = lists_of(alloc, lab, free, wiring, &kinds.ones, &places)?;
    Ok(Candidates::of_kinds(places, lists, kinds.kinds))
}
