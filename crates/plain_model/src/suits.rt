// Whether a mapping suits a lab.
ghost use Rattle.std.specs.Prelude.{◌≡◌, ◌==◌, length, IfOk};
ghost use Rattle.std.specs.List.{list_all};
ghost use Rattle.virt_topo.specs.Ends.{end_nodes};
ghost use Rattle.virt_topo.specs.Soundness.{IsSound};
ghost use Rattle.virt_topo.specs.Wirings.{mapped};
ghost use Rattle.lab_model.specs.Shapes.{IsShaped, has_name, node_at};
ghost use Rattle.plain_model.specs.Holds.{is_sound, is_place, is_plug, is_shaped, unclaimed, keeps_rules, suits, fits_in, fits, all_fit};

use feas::{CheckFault, check};
use lab_base::{IfaceId, Items, Memory, Name, NodeId, VlanId};
use phys_lab::{Free, Lab};
use std::alloc::Global;
use virt_topo::{
    Experiment, MAX_ENDS, MAX_KBPS, MAX_SEGMENTS, Mapped, Mapping, Phase, Segment, Wiring,
};

fn is_sound(wiring: &Wiring) -> bool
    ensures { result ≡ is_sound wiring.now }
{
    match wiring.check() {
        Ok(()) => true,
        Err(_) => false,
    }
}

/// The types of a node, none where there is no such node.
fn types_of(lab: &Lab, node: NodeId) -> &[(Name, u16)]
    ensures { result.now ≡ (node_at lab.now node).types }
{
    match lab.nodes().get(node.0 as usize) {
        Some(node) => node.types.as_slice(),
        None => &[],
    }
}

fn has_type(types: &[(Name, u16)], name: Name) -> bool
    ensures { result ≡ has_name types.now name }
{
    types.iter().any(|kind| kind.0 == name)
}

fn is_place(lab: &Lab, place: &(NodeId, Name)) -> bool
    ensures { result ≡ is_place lab.now place.now }
{
    (place.0.0 as usize) < lab.nodes().len() && has_type(types_of(lab, place.0), place.1)
}

fn are_places(lab: &Lab, places: &[(NodeId, Name)]) -> bool
    ensures { result ≡ list_all (is_place lab.now) places.now }
{
    places.iter().all(|place| is_place(lab, place))
}

fn is_plug(lab: &Lab, plug: IfaceId) -> bool
    ensures { result ≡ is_plug lab.now plug }
{
    (plug.0 as usize) < lab.ifaces().len()
}

fn are_plugs(lab: &Lab, plugs: &[IfaceId]) -> bool
    ensures { result ≡ list_all (is_plug lab.now) plugs.now }
{
    plugs.iter().all(|plug| is_plug(lab, *plug))
}

/// Whether each end of the segments has a plug.
fn are_enough(segments: &[Segment], plugs: &[IfaceId]) -> bool
    ensures { result ≡ (length plugs.now == length (end_nodes segments.now)) }
{
    match segments.split_first() {
        Some((segment, others)) => {
            let ends = segment.ends.len();
            ends <= plugs.len() && are_enough(others, &plugs[ends..])
        }
        None => plugs.is_empty(),
    }
}

fn is_shaped(lab: &Lab, wiring: &Wiring, mapping: &Mapping) -> bool
    ensures { result ≡ is_shaped lab.now wiring.now mapping.now }
{
    mapping.places.len() == wiring.nodes.len()
        && (are_enough(wiring.segments.as_slice(), mapping.plugs.as_slice())
            && (are_places(lab, mapping.places.as_slice())
                && are_plugs(lab, mapping.plugs.as_slice())))
}

/// A lab of which nobody claims anything. No mapping uses more of a trunk than is left, or has more segments than VLAN ids are left.
fn unclaimed(alloc: Global, lab: &Lab) -> Result<Free, Memory>
    ensures { IfOk result (λ free. free ≡ unclaimed lab.now) }
{
    let nodes = vec![in alloc; true; lab.nodes().len()]?;
    let left = vec![in alloc; MAX_ENDS as u64 * MAX_KBPS; lab.trunks().len()]?;
    Ok(Free {
        nodes: Items::from_vec(nodes),
        left: Items::from_vec(left),
        vlans: MAX_SEGMENTS as u16,
    })
}

/// Whether a mapping keeps the rules in which others have no part.
fn keeps_rules(alloc: Global, lab: &Lab, wiring: &Wiring, mapping: &Mapping) -> Result<bool, Memory>
    requires sound { IsSound wiring.now }
    requires shaped { IsShaped lab.now wiring.now mapping.now }
    ensures { IfOk result (λ kept. kept ≡ keeps_rules lab.now wiring.now mapping.now) }
{
    let free = unclaimed(alloc, lab)?;
    match check(alloc, lab, &free, wiring, mapping) {
        Ok(()) => Ok(true),
        Err(CheckFault::Violation { .. }) => Ok(false),
        Err(CheckFault::Memory) => Err(Memory),
    }
}

/// Whether a mapping with these VLAN ids suits a lab.
/// It has the lab's shape and a sound wiring, one id for each segment, and keeps the rules in which others have no part.
fn suits(
    alloc: Global,
    lab: &Lab,
    wiring: &Wiring,
    mapping: &Mapping,
    tags: &[VlanId],
) -> Result<bool, Memory>
    ensures { IfOk result (λ yes. yes ≡ suits lab.now (mapped wiring.now mapping.now tags.now)) }
{
    if !is_sound(wiring) {
        return Ok(false);
    }
    if !is_shaped(lab, wiring, mapping) {
        return Ok(false);
    }
    if tags.len() != wiring.segments.len() {
        return Ok(false);
    }
    keeps_rules(alloc, lab, wiring, mapping)
}

fn fits_in(alloc: Global, lab: &Lab, mapped: &Option<Mapped>) -> Result<bool, Memory>
    ensures { IfOk result (λ yes. yes ≡ fits_in lab.now mapped.now) }
{
    match mapped {
        Some(mapped) => suits(
            alloc,
            lab,
            &mapped.wiring,
            &mapped.mapping,
            mapped.tags.as_slice(),
        ),
        None => Ok(true),
    }
}

fn fits(alloc: Global, lab: &Lab, experiment: &Experiment) -> Result<bool, Memory>
    ensures { IfOk result (λ yes. yes ≡ fits lab.now experiment.now) }
{
    match &experiment.phase {
        Phase::Out => Ok(true),
        Phase::In { mapping, tags } => {
            suits(alloc, lab, &experiment.wiring, mapping, tags.as_slice())
        }
        Phase::Moving { old, new } => {
            let before = fits_in(alloc, lab, old)?;
            let after = fits_in(alloc, lab, new)?;
            Ok(before && after)
        }
    }
}

/// Whether each claimed mapping suits the lab.
pub fn all_fit(alloc: Global, lab: &Lab, experiments: &[Experiment]) -> Result<bool, Memory>
    ensures { IfOk result (λ yes. yes ≡ all_fit lab.now experiments.now) }
{
    match experiments.split_first() {
        Some((experiment, others)) => {
            let here = fits(alloc, lab, experiment)?;
            let later = all_fit(alloc, lab, others)?;
            Ok(here && later)
        }
        None => Ok(true),
    }
}
