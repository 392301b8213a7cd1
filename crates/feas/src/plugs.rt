// The rule on plugs.
ghost use Rattle.std.specs.Prelude.{◌≡◌, IfSome, ◌<◌, ◌&&◌, ◌==◌, length, take, zip, slice_index_or, IfOk};
ghost use Rattle.virt_topo.specs.Soundness.{IsSound};
ghost use Rattle.lab_model.specs.Shapes.{IsShaped};
ghost use Rattle.lab_model.specs.Rules.{keeps_f5, loads_on, may_bear, may_join, place_at, plug_at};
ghost use Rattle.lab_model.specs.Uses.{iface_at};
ghost use Rattle.lab_model.specs.Feasible.{first_below};

use crate::ends::end_nodes;
use lab_base::{IfaceId, Memory};
use lab_model::{iface_at, plug_at};
use phys_lab::Lab;
use std::alloc::Global;
use virt_topo::{Load, Mapping, Wiring, loads_of};

/// The number of the node that a virtual node is placed on.
fn node_of(mapping: &Mapping, virt: u16) -> u16
    ensures { result ≡ (place_at mapping.now virt).0.0 }
{
    match mapping.places.as_slice().get(virt as usize) {
        Some(place) => place.0.0,
        None => 0,
    }
}

/// Whether two loads may be on one interface.
fn may_join(one: &Load, other: &Load) -> bool
    ensures { result ≡ may_join one.now other.now }
{
    one.segment != other.segment && one.multiplexed && other.multiplexed
}

/// Whether an interface of that many kbps may bear a load beside those of the earlier ends that are plugged there.
fn may_bear(loads: &[Load], plugs: &[IfaceId], plug: IfaceId, kbps: u64, load: &Load) -> bool
    requires { length loads.now ≡ length plugs.now }
    ensures { result ≡ may_bear kbps (loads_on plug.0 (zip loads.now plugs.now)) load.now }
{
    if load.kbps > kbps {
        return false;
    }
    let mut left = kbps - load.kbps;
    for end in 0..plugs.len() {
        let other = loads[end];
        let at = plugs[end];
        if at.0 == plug.0 {
            if !may_join(&other, load) || other.kbps > left {
                return false;
            }
            left -= other.kbps;
        }
    }
    true
}

/// Whether the plug of an end of that virtual node keeps the fifth rule.
fn keeps_f5(lab: &Lab, mapping: &Mapping, loads: &[Load], end: usize, virt: u16) -> bool
    requires end { end < length mapping.now.plugs }
    requires loads { length loads.now ≡ length mapping.now.plugs }
    requires plug { (plug_at mapping.now end).0 < length lab.now.ifaces }
    ensures { (d : _) → result ≡ (((iface_at lab.now (plug_at mapping.now end)).node.0 == (place_at mapping.now virt).0.0)
        && may_bear (iface_at lab.now (plug_at mapping.now end)).kbps
        (loads_on (plug_at mapping.now end).0 (zip (take end loads.now) (take end mapping.now.plugs))) (slice_index_or loads.now end d)) }
{
    let plug = plug_at(mapping, end);
    let iface = iface_at(lab, plug);
    let plugs = &mapping.plugs.as_slice()[..end];
    iface.node.0 == node_of(mapping, virt)
        && may_bear(&loads[..end], plugs, plug, iface.kbps, &loads[end])
}

/// The first end whose plug is on another node, or can't bear its load beside the earlier ends.
pub(crate) fn first_misplugged(
    alloc: Global,
    lab: &Lab,
    wiring: &Wiring,
    mapping: &Mapping,
) -> Result<Option<usize>, Memory>
    requires sound { IsSound wiring.now }
    requires shaped { IsShaped lab.now wiring.now mapping.now }
    ensures first { IfOk result (λ first. first ≡ first_below (length mapping.now.plugs) (keeps_f5 lab.now wiring.now mapping.now)) }
    ensures within { IfOk result (λ first. IfSome first (λ end. end < length mapping.now.plugs)) }
{
    let nodes = end_nodes(alloc, wiring.segments.as_slice())?;
    let loads = loads_of(alloc, wiring.segments.as_slice())?;
    for end in 0..mapping.plugs.len() {
        if !keeps_f5(lab, mapping, &loads, end, nodes[end]) {
            return Ok(Some(end));
        }
    }
    Ok(None)
}
