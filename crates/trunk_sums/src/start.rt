// The running sums of a mapping to begin with.
ghost use Rattle.std.specs.Prelude.{◌≡◌, ◌<◌, ◌≤◌, ◌+◌, ◌*◌, ℕ, true, length, All, IfOk, slice_index_or, sum_by};
ghost use Rattle.virt_topo.specs.Cables.{plugs_on};
ghost use Rattle.virt_topo.specs.Ends.{end_nodes};
ghost use Rattle.virt_topo.specs.Soundness.{keeps_limits};
ghost use Rattle.trunk_sums.specs.Crossed.{side_of};
ghost use Rattle.trunk_sums.specs.Gains.{IsGain, no_gains};
ghost use Rattle.trunk_sums.specs.Summed.{IsSummed, no_segment, own_plugs, used};

use crate::gains::Gains;
use crate::sums::Sums;
use lab_base::{IfaceId, Memory, TrunkId};
use phys_lab::{Lab, MAX_TRUNKS};
use std::alloc::Global;
use virt_topo::{MAX_ENDS, MAX_KBPS, MAX_SEGMENT_ENDS, Mapping, Segment, Wiring};

fn plugs_on(side: &[bool], plugs: &[IfaceId]) -> usize
    requires { All (λ i. i.0 < length side.now) plugs.now }
    ensures is { result ≡ plugs_on side.now plugs.now }
    ensures within { result ≤ length plugs.now }
{
    plugs.iter().filter(|plug| side[plug.0 as usize]).count()
}

/// Counts the plugs of a segment on the first side of each trunk, from a place on.
fn count_row(lab: &Lab, place: usize, plugs: &[IfaceId], counts: &mut Vec<u16>)
    requires room { place + MAX_TRUNKS ≤ length counts.old.items }
    requires in_lab { All (λ i. i.0 < length lab.now.ifaces) plugs.now }
    requires few { length plugs.now ≤ MAX_SEGMENT_ENDS }
    ensures room { length counts.new.items ≡ length counts.old.items }
    ensures row { (t : ℕ) → t < length lab.now.trunks → slice_index_or counts.new.items (place + t) 0 ≡ plugs_on (side_of lab.now t) plugs.now }
    ensures earlier { (k : ℕ) → k < place → slice_index_or counts.new.items k 0 ≡ slice_index_or counts.old.items k 0 }
{
    // for the prover: it tells what every lab keeps
    let _kept = lab.range();
    for trunk in 0..lab.trunks().len() {
        let side = lab.first_side(TrunkId(trunk as u16));
        counts[place + trunk] = plugs_on(side, plugs) as u16;
    }
}

fn counts_of(
    alloc: Global,
    lab: &Lab,
    wiring: &Wiring,
    plugs: &[IfaceId],
) -> Result<Vec<u16>, Memory>
    requires limits { keeps_limits wiring.now ≡ true }
    requires plugged { length plugs.now ≡ length (end_nodes wiring.now.segments) }
    requires in_lab { All (λ i. i.0 < length lab.now.ifaces) plugs.now }
    ensures room { IfOk result (λ counts. length counts.items ≡ MAX_TRUNKS * length wiring.now.segments) }
    ensures each { IfOk result (λ counts. (s t : ℕ) → s < length wiring.now.segments → t < length lab.now.trunks
        → slice_index_or counts.items (MAX_TRUNKS * s + t) 0 ≡ plugs_on (side_of lab.now t) (own_plugs wiring.now.segments plugs.now s)) }
{
    // for the prover: it tells what every lab keeps
    let _kept = lab.range();
    let mut counts = vec![in alloc; 0u16; MAX_TRUNKS * wiring.segments.len()]?;
    let mut rest = plugs;
    let mut place = 0usize;
    for segment in wiring.segments.as_slice() {
        let (own, later) = rest.split_at(segment.ends.len());
        count_row(lab, place, own, &mut counts);
        rest = later;
        place += MAX_TRUNKS;
    }
    Ok(counts)
}

fn use_of(lab: &Lab, wiring: &Wiring, mapping: &Mapping, trunk: usize) -> u64
    requires limits { keeps_limits wiring.now ≡ true }
    requires plugged { length mapping.now.plugs ≡ length (end_nodes wiring.now.segments) }
    requires in_lab { All (λ i. i.0 < length lab.now.ifaces) mapping.now.plugs }
    requires trunk { trunk < length lab.now.trunks }
    ensures { result ≡ used lab.now wiring.now mapping.now.plugs trunk }
{
    // for the prover: it tells what every lab keeps
    let _kept = lab.range();
    mapping.cut_use(wiring, lab.first_side(TrunkId(trunk as u16)))
}

fn uses_of(alloc: Global, lab: &Lab, wiring: &Wiring, mapping: &Mapping) -> Result<Vec<u64>, Memory>
    requires limits { keeps_limits wiring.now ≡ true }
    requires plugged { length mapping.now.plugs ≡ length (end_nodes wiring.now.segments) }
    requires in_lab { All (λ i. i.0 < length lab.now.ifaces) mapping.now.plugs }
    ensures one_each { IfOk result (λ uses. length uses.items ≡ length lab.now.trunks) }
    ensures each { IfOk result (λ uses. (t : ℕ) → t < length lab.now.trunks → slice_index_or uses.items t 0 ≡ used lab.now wiring.now mapping.now.plugs t) }
{
    let mut uses = Vec::new(alloc);
    for trunk in 0..lab.trunks().len() {
        uses.push(use_of(lab, wiring, mapping, trunk))?;
    }
    Ok(uses)
}

fn sum_of(uses: &[u64]) -> u64
    requires few { length uses.now ≤ MAX_TRUNKS }
    requires small { (t : ℕ) → t < length uses.now → slice_index_or uses.now t 0 ≤ MAX_ENDS * MAX_KBPS }
    ensures { result ≡ sum_by (λ (u : ℕ). u) uses.now }
{
    let mut total = 0;
    for used in uses {
        total += *used;
    }
    total
}

/// The gains of a segment, by the counts of its plugs.
fn gains_in(lab: &Lab, number: usize, segment: &Segment, counts: &[u16]) -> Gains
    requires room { MAX_TRUNKS * number + MAX_TRUNKS ≤ length counts.now }
    requires few { length segment.now.ends ≤ MAX_SEGMENT_ENDS }
    ensures { (t : ℕ) → t < length lab.now.trunks → IsGain (length segment.now.ends) (slice_index_or counts.now (MAX_TRUNKS * number + t) 0) t result }
{
    // for the prover: it tells what every lab keeps
    let _kept = lab.range();
    let mut gains = Gains::none();
    for trunk in 0..lab.trunks().len() {
        let on = counts[MAX_TRUNKS * number + trunk];
        gains.mark(trunk as u16, segment.ends.len() as u16, on);
    }
    gains
}

/// By segment its gains.
fn gains_of(alloc: Global, lab: &Lab, wiring: &Wiring, counts: &[u16]) -> Result<Vec<Gains>, Memory>
    requires limits { keeps_limits wiring.now ≡ true }
    requires room { length counts.now ≡ MAX_TRUNKS * length wiring.now.segments }
    ensures one_each { IfOk result (λ gains. length gains.items ≡ length wiring.now.segments) }
    ensures each { IfOk result (λ gains. (s t : ℕ) → s < length wiring.now.segments → t < length lab.now.trunks
        → IsGain (length (slice_index_or wiring.now.segments s no_segment).ends) (slice_index_or counts.now (MAX_TRUNKS * s + t) 0) t
        (slice_index_or gains.items s no_gains)) }
{
    let mut gains = Vec::new(alloc);
    for number in 0..wiring.segments.len() {
        let segment = &wiring.segments.as_slice()[number];
        gains.push(gains_in(lab, number, segment, counts))?;
    }
    Ok(gains)
}

impl Sums {
    /// The sums of a mapping.
    pub fn of(alloc: Global, lab: &Lab, wiring: &Wiring, mapping: &Mapping) -> Result<Sums, Memory>
        requires limits { keeps_limits wiring.now ≡ true }
        requires plugged { length mapping.now.plugs ≡ length (end_nodes wiring.now.segments) }
        requires in_lab { All (λ i. i.0 < length lab.now.ifaces) mapping.now.plugs }
        ensures { IfOk result (λ sums. IsSummed lab.now wiring.now mapping.now.plugs sums) }
    {
        // for the prover: it tells what every lab keeps
        let _kept = lab.range();
        let counts = counts_of(alloc, lab, wiring, mapping.plugs.as_slice())?;
        let uses = uses_of(alloc, lab, wiring, mapping)?;
        let total = sum_of(&uses);
        let gains = gains_of(alloc, lab, wiring, &counts)?;
        Ok(Sums {
            counts,
            gains,
            uses,
            total,
        })
    }
}
