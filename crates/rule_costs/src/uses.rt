// The uses of trunks by the segments with a moved plug.
ghost use Rattle.std.specs.Prelude.{◌≡◌, ◌<◌, ◌≤◌, ◌*◌, length, All};
ghost use Rattle.virt_topo.specs.Cables.{plugs_on, cable_use};
ghost use Rattle.virt_topo.specs.Soundness.{IsSound};
ghost use Rattle.lab_model.specs.Shapes.{IsShaped};
ghost use Rattle.cost_rule.specs.Cost.{trunk_uses};
ghost use Rattle.rule_costs.specs.Moved.{IsDifference};
ghost use Rattle.rule_costs.specs.Uses.{uses_of};

use crate::moved::Moved;
use lab_base::{IfaceId, TrunkId};
use phys_lab::Lab;
use virt_topo::{MAX_KBPS, MAX_SEGMENT_ENDS, Mapping, Segment, Wiring};

/// The number of plugs on a side.
fn plugs_on(side: &[bool], plugs: &[IfaceId]) -> usize
    requires { All (λ i. i.0 < length side.now) plugs.now }
    ensures is { result ≡ plugs_on side.now plugs.now }
    ensures within { result ≤ length plugs.now }
{
    plugs.iter().filter(|plug| side[plug.0 as usize]).count()
}

/// The kbps that a segment with these plugs uses of the cut between a side and the rest.
fn segment_use(side: &[bool], segment: &Segment, plugs: &[IfaceId]) -> u64
    requires within { All (λ i. i.0 < length side.now) plugs.now }
    requires few { length plugs.now ≤ MAX_SEGMENT_ENDS }
    requires slow { segment.now.kbps ≤ MAX_KBPS }
    ensures is { result ≡ cable_use side.now (record { segment = segment.now; plugs = plugs.now }) }
    ensures small { result ≤ MAX_SEGMENT_ENDS * MAX_KBPS }
{
    let on_side = plugs_on(side, plugs);
    on_side.min(plugs.len() - on_side) as u64 * segment.kbps
}

/// The kbps that a segment with these plugs uses of all trunks.
fn segment_uses(lab: &Lab, segment: &Segment, plugs: &[IfaceId]) -> u64
    requires in_lab { All (λ i. i.0 < length lab.now.ifaces) plugs.now }
    requires few { length plugs.now ≤ MAX_SEGMENT_ENDS }
    requires slow { segment.now.kbps ≤ MAX_KBPS }
    ensures { result ≡ uses_of lab.now (record { segment = segment.now; plugs = plugs.now }) }
{
    // for the prover: it tells what every lab keeps
    let _kept = lab.range();
    let mut total = 0;
    for trunk in 0..lab.trunks().len() {
        let side = lab.first_side(TrunkId(trunk as u16));
        total += segment_use(side, segment, plugs);
    }
    total
}

/// The kbps that a segment uses of all trunks with either list of plugs; nothing where the lists are equal.
fn moved_segment(lab: &Lab, segment: &Segment, old: &[IfaceId], new: &[IfaceId]) -> Moved
    requires old { All (λ i. i.0 < length lab.now.ifaces) old.now }
    requires new { All (λ i. i.0 < length lab.now.ifaces) new.now }
    requires few_old { length old.now ≤ MAX_SEGMENT_ENDS }
    requires few_new { length new.now ≤ MAX_SEGMENT_ENDS }
    requires slow { segment.now.kbps ≤ MAX_KBPS }
    ensures difference { IsDifference (uses_of lab.now (record { segment = segment.now; plugs = old.now }))
        (uses_of lab.now (record { segment = segment.now; plugs = new.now })) result }
    ensures before { result.before ≤ uses_of lab.now (record { segment = segment.now; plugs = old.now }) }
    ensures after { result.after ≤ uses_of lab.now (record { segment = segment.now; plugs = new.now }) }
{
    if old == new {
        return Moved::nothing();
    }
    Moved {
        before: segment_uses(lab, segment, old),
        after: segment_uses(lab, segment, new),
    }
}

/// The kbps that the segments with a moved plug use of all trunks.
pub(crate) fn moved_uses(lab: &Lab, wiring: &Wiring, from: &Mapping, to: &Mapping) -> Moved
    requires sound { IsSound wiring.now }
    requires from { IsShaped lab.now wiring.now from.now }
    requires to { IsShaped lab.now wiring.now to.now }
    ensures difference { IsDifference (trunk_uses lab.now wiring.now from.now) (trunk_uses lab.now wiring.now to.now) result }
    ensures before { result.before ≤ trunk_uses lab.now wiring.now from.now }
    ensures after { result.after ≤ trunk_uses lab.now wiring.now to.now }
{
    // for the prover: it tells what every lab keeps
    let _kept = lab.range();
    let mut before = 0;
    let mut after = 0;
    let mut old = from.plugs.as_slice();
    let mut new = to.plugs.as_slice();
    for segment in wiring.segments.as_slice() {
        let (old_plugs, old_rest) = old.split_at(segment.ends.len());
        let (new_plugs, new_rest) = new.split_at(segment.ends.len());
        let moved = moved_segment(lab, segment, old_plugs, new_plugs);
        before += moved.before;
        after += moved.after;
        old = old_rest;
        new = new_rest;
    }
    Moved { before, after }
}
