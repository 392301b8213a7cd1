// The rule on the virtual nodes of one node.
ghost use Rattle.std.specs.Prelude.{◌≡◌, IfSome, true, ◌<◌, ◌≤◌, ◌&&◌, ◌++◌, ◌∷◌, [], ◌==◌, if◌then◌else◌, length, IfOk, OnOk};
ghost use Rattle.std.specs.List.{list_all};
ghost use Rattle.lab_base.specs.Names.{same_name};
ghost use Rattle.lab_model.specs.Shapes.{IsShaped, node_at};
ghost use Rattle.lab_model.specs.Rules.{hosted, number_of, agree, keeps_f2};
ghost use Rattle.lab_model.specs.Feasible.{AllPass, first_below};

use lab_base::{Memory, Name, NodeId};
use lab_model::{node_at, place_at};
use phys_lab::Lab;
use std::alloc::Global;
use virt_topo::{Mapping, VirtNode, Wiring};

fn push_hosted_node(
    listed: &mut Vec<(Name, Name)>,
    place: &(NodeId, Name),
    virt: &VirtNode,
    node: u16,
) -> Result<(), Memory>
    ensures { OnOk result (listed.new.items ≡ listed.old.items ++ (if place.now.0.0 == node then (place.now.1, virt.now.os) ∷ [] else [])) }
{
    if place.0.0 == node {
        listed.push((place.1, virt.os))?;
    }
    Ok(())
}

/// The virtual nodes on a node, each with its type there and its OS.
fn hosted(
    alloc: Global,
    nodes: &[VirtNode],
    places: &[(NodeId, Name)],
    node: u16,
) -> Result<Vec<(Name, Name)>, Memory>
    requires { length places.now ≤ length nodes.now }
    ensures { IfOk result (λ listed. listed.items ≡ hosted nodes.now places.now node) }
{
    let mut listed = Vec::new(alloc);
    for virt in 0..places.len() {
        push_hosted_node(&mut listed, &places[virt], &nodes[virt], node)?;
    }
    Ok(listed)
}

/// The number of the name, 0 where it isn't there.
pub fn number_of(pairs: &[(Name, u16)], name: Name) -> u16
    ensures { result ≡ number_of pairs.now name }
{
    for pair in pairs {
        if pair.0 == name {
            return pair.1;
        }
    }
    0
}

fn are_alike(hosted: &[(Name, Name)], kind: Name, os: Name) -> bool
    ensures { result ≡ list_all (λ h. same_name h.0 kind && same_name h.1 os) hosted.now }
{
    hosted.iter().all(|guest| guest.0 == kind && guest.1 == os)
}

fn agree(types: &[(Name, u16)], hosted: &[(Name, Name)]) -> bool
    ensures { result ≡ agree types.now hosted.now }
{
    match hosted.split_first() {
        Some((first, others)) => {
            are_alike(others, first.0, first.1) && others.len() < number_of(types, first.0) as usize
        }
        None => true,
    }
}

/// Whether the first virtual nodes, which have these places, may share a node. Those on it have one type and one OS, and are at most as many as that
/// type's count there.
pub fn may_share(
    alloc: Global,
    lab: &Lab,
    nodes: &[VirtNode],
    places: &[(NodeId, Name)],
    node: NodeId,
) -> Result<bool, Memory>
    requires few { length places.now ≤ length nodes.now }
    requires node { node.0 < length lab.now.nodes }
    ensures { IfOk result (λ yes. yes ≡ agree (node_at lab.now node).types (hosted nodes.now places.now node.0)) }
{
    let hosted = hosted(alloc, nodes, places, node.0)?;
    let types = node_at(lab, node).types.as_slice();
    Ok(agree(types, &hosted))
}

fn keeps_f2(
    alloc: Global,
    lab: &Lab,
    wiring: &Wiring,
    mapping: &Mapping,
    node: usize,
) -> Result<bool, Memory>
    requires shaped { IsShaped lab.now wiring.now mapping.now }
    requires node { node < length lab.now.nodes }
    ensures { IfOk result (λ kept. kept ≡ keeps_f2 lab.now wiring.now mapping.now node) }
{
    // for the prover: it tells what every lab keeps
    let _kept = lab.range();
    let kept = may_share(
        alloc,
        lab,
        wiring.nodes.as_slice(),
        mapping.places.as_slice(),
        NodeId(node as u16),
    )?;
    Ok(kept)
}

/// Whether the nodes of all virtual nodes are shared as they may be. It is asked where that takes fewer questions than all nodes do.
fn are_shared(alloc: Global, lab: &Lab, wiring: &Wiring, mapping: &Mapping) -> Result<bool, Memory>
    requires { IsShaped lab.now wiring.now mapping.now }
    ensures { IfOk result (λ yes. yes ≡ true → AllPass (length lab.now.nodes) (keeps_f2 lab.now wiring.now mapping.now)) }
{
    if lab.nodes().len() <= mapping.places.len() {
        return Ok(false);
    }
    for virt in 0..mapping.places.len() {
        let node = place_at(mapping, virt).0;
        if !keeps_f2(alloc, lab, wiring, mapping, node.0 as usize)? {
            return Ok(false);
        }
    }
    Ok(true)
}

/// The first of all nodes with virtual nodes of two types or OSes, or with too many of them.
fn first_of_nodes(
    alloc: Global,
    lab: &Lab,
    wiring: &Wiring,
    mapping: &Mapping,
) -> Result<Option<usize>, Memory>
    requires { IsShaped lab.now wiring.now mapping.now }
    ensures first { IfOk result (λ first. first ≡ first_below (length lab.now.nodes) (keeps_f2 lab.now wiring.now mapping.now)) }
    ensures within { IfOk result (λ first. IfSome first (λ node. node < length lab.now.nodes)) }
{
    for node in 0..lab.nodes().len() {
        if !keeps_f2(alloc, lab, wiring, mapping, node)? {
            return Ok(Some(node));
        }
    }
    Ok(None)
}

/// The first node with virtual nodes of two types or OSes, or with too many of them.
pub(crate) fn first_crowded(
    alloc: Global,
    lab: &Lab,
    wiring: &Wiring,
    mapping: &Mapping,
) -> Result<Option<usize>, Memory>
    requires { IsShaped lab.now wiring.now mapping.now }
    ensures first { IfOk result (λ first. first ≡ first_below (length lab.now.nodes) (keeps_f2 lab.now wiring.now mapping.now)) }
    ensures within { IfOk result (λ first. IfSome first (λ node. node < length lab.now.nodes)) }
{
    if are_shared(alloc, lab, wiring, mapping)? {
        return Ok(None);
    }
    first_of_nodes(alloc, lab, wiring, mapping)
}
