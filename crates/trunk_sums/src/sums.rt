// Running sums over trunks.
ghost use Rattle.std.specs.Prelude.{◌≡◌, ◌<◌, ◌≤◌, ◌+◌, ◌*◌, ◌-◌, ◌⊎◌, ◌^◌, ℕ, true, false, length, slice_index_or, slice_set, All, IsTrue, sum_by};
ghost use Rattle.trunk_sums.specs.Counts.{share, after};
ghost use Rattle.trunk_sums.specs.Crossed.{ups, downs};

use crate::crossing::Crossing;
use crate::gains::{Gains, lesser};
use crate::made::Change;
use crate::table::Crossings;
use lab_base::IfaceId;
use phys_lab::{Lab, MAX_TRUNKS};
use virt_topo::{MAX_ENDS, MAX_KBPS, MAX_SEGMENT_ENDS, Wiring};

/// The segment of an end, the number of ends there, and its kbps.
#[derive(Clone, Copy)]
pub struct EndRow {
    pub kbps: u32,
    pub segment: u16,
    pub ends: u16,
}

/// Running sums of a mapping.
/// `counts` has by segment and trunk the number of plugs on the trunk's first side, those of segment s from `MAX_TRUNKS * s` on, and `gains` by segment what
/// a plug more or less there does. `uses` has by trunk the kbps that the segments use, and `total` their sum.
#[derive(Drop)]
pub struct Sums {
    pub(crate) counts: Vec<u16>,
    pub(crate) gains: Vec<Gains>,
    pub(crate) uses: Vec<u64>,
    pub(crate) total: u64,
}

/// The kbps that a segment uses of a trunk with so many plugs on one side.
#[inline(always)]
pub(crate) fn share_of(ends: u16, on: u16, kbps: u32) -> u64
    requires within { on ≤ ends }
    requires few { ends ≤ MAX_SEGMENT_ENDS }
    requires slow { kbps ≤ MAX_KBPS }
    ensures is { result ≡ share ends on kbps }
    ensures small { result ≤ MAX_SEGMENT_ENDS * MAX_KBPS }
{
    u64::from(lesser(ends, on)) * u64::from(kbps)
}

/// Whether a plug crosses no trunk.
#[inline(always)]
fn crosses_none(crossed: &[Crossing]) -> bool
    ensures { IsTrue result → length crossed.now ≡ 0 }
{
    crossed.is_empty()
}

impl Sums {
    /// Takes a plug of a segment over a trunk, whose count is at that place.
    #[inline(always)]
    fn cross_one(&mut self, place: usize, crossing: Crossing, row: EndRow)
        requires place { place < length self.old.counts.items }
        requires trunk { crossing.trunk < length self.old.uses.items }
        requires few { row.ends ≤ MAX_SEGMENT_ENDS }
        requires slow { row.kbps ≤ MAX_KBPS }
        requires onto { crossing.onto ≡ true → slice_index_or self.old.counts.items place 0 < row.ends }
        requires off { crossing.onto ≡ false → 0 < slice_index_or self.old.counts.items place 0 }
        requires within { slice_index_or self.old.counts.items place 0 ≤ row.ends }
        requires counted { share row.ends (slice_index_or self.old.counts.items place 0) row.kbps ≤ slice_index_or self.old.uses.items crossing.trunk 0 }
        requires summed { share row.ends (slice_index_or self.old.counts.items place 0) row.kbps ≤ self.old.total }
        requires small { slice_index_or self.old.uses.items crossing.trunk 0 ≤ 2 ^ 63 }
        requires whole { self.old.total ≤ 2 ^ 63 }
        ensures counts { self.new.counts.items ≡ slice_set self.old.counts.items place (after crossing.onto (slice_index_or self.old.counts.items place 0)) }
        ensures uses { self.new.uses.items ≡ slice_set self.old.uses.items crossing.trunk (slice_index_or self.old.uses.items crossing.trunk 0
            - share row.ends (slice_index_or self.old.counts.items place 0) row.kbps
            + share row.ends (after crossing.onto (slice_index_or self.old.counts.items place 0)) row.kbps) }
        ensures total { self.new.total ≡ self.old.total - share row.ends (slice_index_or self.old.counts.items place 0) row.kbps
            + share row.ends (after crossing.onto (slice_index_or self.old.counts.items place 0)) row.kbps }
        ensures bound { self.new.total ≤ self.old.total + MAX_SEGMENT_ENDS * MAX_KBPS }
        ensures gains { self.new.gains.items ≡ self.old.gains.items }
    {
        let on = self.counts[place];
        let now = if crossing.onto { on + 1 } else { on - 1 };
        let before = share_of(row.ends, on, row.kbps);
        let behind = share_of(row.ends, now, row.kbps);
        self.counts[place] = now;
        let used = self.uses[crossing.trunk as usize];
        self.uses[crossing.trunk as usize] = used - before + behind;
        self.total = self.total - before + behind;
    }

    /// Takes a plug of a segment over trunks.
    pub fn cross(&mut self, row: EndRow, crossed: &[Crossing])
        requires room { MAX_TRUNKS * row.segment + MAX_TRUNKS ≤ length self.old.counts.items }
        requires one_each { length self.old.uses.items ≤ MAX_TRUNKS }
        requires within { All (λ c. c.trunk < length self.old.uses.items) crossed.now }
        requires short { length crossed.now ≤ MAX_TRUNKS }
        requires few { row.ends ≤ MAX_SEGMENT_ENDS }
        requires slow { row.kbps ≤ MAX_KBPS }
        requires come { (t : ℕ) → t < length self.old.uses.items
            → slice_index_or self.old.counts.items (MAX_TRUNKS * row.segment + t) 0 + ups t crossed.now ≤ row.ends }
        requires gone { (t : ℕ) → t < length self.old.uses.items → downs t crossed.now ≤ slice_index_or self.old.counts.items (MAX_TRUNKS * row.segment + t) 0 }
        requires counted { (t : ℕ) → t < length self.old.uses.items
            → share row.ends (slice_index_or self.old.counts.items (MAX_TRUNKS * row.segment + t) 0) row.kbps ≤ slice_index_or self.old.uses.items t 0 }
        requires small { (t : ℕ) → t < length self.old.uses.items → slice_index_or self.old.uses.items t 0 ≤ MAX_ENDS * MAX_KBPS }
        requires summed { self.old.total ≡ sum_by (λ (u : ℕ). u) self.old.uses.items }
        requires whole { self.old.total ≤ MAX_TRUNKS * (MAX_ENDS * MAX_KBPS) }
        ensures room { length self.new.counts.items ≡ length self.old.counts.items }
        ensures one_each { length self.new.uses.items ≡ length self.old.uses.items }
        ensures row { (t : ℕ) → t < length self.old.uses.items
            → slice_index_or self.new.counts.items (MAX_TRUNKS * row.segment + t) 0 + downs t crossed.now
            ≡ slice_index_or self.old.counts.items (MAX_TRUNKS * row.segment + t) 0 + ups t crossed.now }
        ensures others { (k : ℕ) → (k < MAX_TRUNKS * row.segment) ⊎ (MAX_TRUNKS * row.segment + MAX_TRUNKS ≤ k)
            → slice_index_or self.new.counts.items k 0 ≡ slice_index_or self.old.counts.items k 0 }
        ensures uses { (t : ℕ) → t < length self.old.uses.items
            → slice_index_or self.new.uses.items t 0 + share row.ends (slice_index_or self.old.counts.items (MAX_TRUNKS * row.segment + t) 0) row.kbps
            ≡ slice_index_or self.old.uses.items t 0 + share row.ends (slice_index_or self.new.counts.items (MAX_TRUNKS * row.segment + t) 0) row.kbps }
        ensures summed { self.new.total ≡ sum_by (λ (u : ℕ). u) self.new.uses.items }
        ensures gains { self.new.gains.items ≡ self.old.gains.items }
    {
        for crossing in crossed {
            let place = MAX_TRUNKS * row.segment as usize + crossing.trunk as usize;
            self.cross_one(place, *crossing, row);
        }
    }

    ghost use Rattle.virt_topo.specs.Soundness.{keeps_limits};
    ghost use Rattle.virt_topo.specs.Ends.{end_nodes};
    ghost use Rattle.trunk_sums.specs.Between.{IsTable};
    ghost use Rattle.trunk_sums.specs.Summed.{IsRow, IsSummed};

    /// Takes an end to another plug. The sums are then those of counting anew. Taking it back is a call with the plugs exchanged.
    pub(crate) fn replug(
        &mut self,
        lab: &Lab,
        wiring: &Wiring,
        table: &Crossings,
        plugs: &mut Vec<IfaceId>,
        change: Change,
    )
        requires limits { keeps_limits wiring.now ≡ true }
        requires plugged { length plugs.old.items ≡ length (end_nodes wiring.now.segments) }
        requires in_lab { All (λ i. i.0 < length lab.now.ifaces) plugs.old.items }
        requires table { IsTable lab.now table.now }
        requires row { IsRow wiring.now change.end change.row }
        requires to { change.to.0 < length lab.now.ifaces }
        requires summed { IsSummed lab.now wiring.now plugs.old.items self.old }
        ensures plugs { plugs.new.items ≡ slice_set plugs.old.items change.end change.to }
        ensures summed { IsSummed lab.now wiring.now plugs.new.items self.new }
    {
        // for the prover: it tells what every lab keeps
        let _kept = lab.range();
        // for the prover: it tells that the number of segments fits
        let _count = wiring.segments.len();
        let plug = plugs[change.end as usize];
        let crossed = table.between(lab, plug, change.to);
        if crosses_none(crossed) {
            plugs[change.end as usize] = change.to;
            return;
        }
        let from = table.sides(lab, plug);
        let to = table.sides(lab, change.to);
        self.cross(change.row, crossed);
        self.mark_moved(change.row, crossed, from, to);
        plugs[change.end as usize] = change.to;
    }
}
