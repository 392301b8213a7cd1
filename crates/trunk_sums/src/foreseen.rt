// The sum of the uses after changes that aren't made.
ghost use Rattle.std.specs.Prelude.{◌≡◌, ◌<◌, ◌≤◌, ◌+◌, ◌*◌, true, List, IsTrue, length, slice_set, All};
ghost use Rattle.lab_base.specs.declared.ids.IfaceId.{IfaceId as IfaceSeen};
ghost use Rattle.virt_topo.specs.Ends.{end_nodes};
ghost use Rattle.virt_topo.specs.Soundness.{keeps_limits};
ghost use Rattle.trunk_sums.specs.Between.{IsTable};
ghost use Rattle.trunk_sums.specs.Summed.{IsRow, IsSummed, own_plugs};
ghost use Rattle.trunk_sums.specs.Totals.{used_of_all};
ghost use Rattle.trunk_sums.specs.Remade.{remade, AreChanges};
ghost use Rattle.trunk_sums.specs.Foreseen.{AreApart, AreRising, AreUses};

use crate::gains::kbps_of;
use crate::made::Change;
use crate::sums::Sums;
use crate::table::Crossings;
use lab_base::IfaceId;
use phys_lab::{Lab, MAX_TRUNKS};
use virt_topo::{MAX_KBPS, MAX_SEGMENTS, Wiring};

/// Whether each change is of a later segment than those before it.
fn are_rising(changes: &[Change]) -> bool
    ensures rising { IsTrue result → AreRising changes.now }
    ensures told { AreRising changes.now → IsTrue result }
{
    let mut from = 0u32;
    for change in changes {
        let segment = u32::from(change.row.segment);
        if segment < from {
            return false;
        }
        from = segment + 1;
    }
    true
}

/// Whether no two changes are of one segment, by a table of the segments that are seen.
fn are_seen_once(changes: &[Change]) -> bool
    requires { All (λ c. c.row.segment < MAX_SEGMENTS) changes.now }
    ensures apart { IsTrue result → AreApart changes.now }
    ensures told { AreApart changes.now → IsTrue result }
{
    let mut seen = [false; MAX_SEGMENTS];
    for change in changes {
        let segment = change.row.segment as usize;
        if seen[segment] {
            return false;
        }
        seen[segment] = true;
    }
    true
}

/// Whether no two changes are of one segment.
pub fn are_apart(changes: &[Change]) -> bool
    requires { All (λ c. c.row.segment < MAX_SEGMENTS) changes.now }
    ensures apart { IsTrue result → AreApart changes.now }
    ensures told { AreApart changes.now → IsTrue result }
{
    // those of most moves rise, which asks for no table
    are_rising(changes) || are_seen_once(changes)
}

/// The kbps that a change adds to the uses of all trunks, and those that it takes.
#[derive(Clone, Copy)]
struct Gain {
    adds: u64,
    takes: u64,
}

impl Sums {
    /// The kbps that a change adds to the uses of all trunks, and those that it takes, whatever the plugs of other segments are.
    #[inline(always)]
    fn gain(
        &self,
        lab: &Lab,
        wiring: &Wiring,
        table: &Crossings,
        plugs: &[IfaceId],
        change: Change,
    ) -> Gain
        requires limits { keeps_limits wiring.now ≡ true }
        requires plugged { length plugs.now ≡ length (end_nodes wiring.now.segments) }
        requires in_lab { All (λ i. i.0 < length lab.now.ifaces) plugs.now }
        requires table { IsTable lab.now table.now }
        requires row { IsRow wiring.now change.end change.row }
        requires to { change.to.0 < length lab.now.ifaces }
        requires summed { IsSummed lab.now wiring.now plugs.now self.now }
        ensures is { (others : List IfaceSeen) → length others ≡ length (end_nodes wiring.now.segments)
            → own_plugs wiring.now.segments others change.row.segment ≡ own_plugs wiring.now.segments plugs.now change.row.segment
            → used_of_all lab.now wiring.now (slice_set others change.end change.to) + result.takes ≡ used_of_all lab.now wiring.now others + result.adds }
        ensures small { result.adds ≤ MAX_TRUNKS * MAX_KBPS }
        ensures few { length lab.now.trunks ≤ MAX_TRUNKS }
    {
        // for the prover: it tells what every lab keeps
        let _kept = lab.range();
        // for the prover: it tells that the number of segments fits
        let _count = wiring.segments.len();
        let from = table.sides(lab, plugs[change.end as usize]);
        let to = table.sides(lab, change.to);
        let gains = self.gains[change.row.segment as usize];
        Gain {
            adds: kbps_of(gains.adds(from, to), change.row.kbps),
            takes: kbps_of(gains.takes(from, to), change.row.kbps),
        }
    }

    /// The sum of the uses of all trunks after one change more that isn't made, where no earlier one was of its segment; `uses` is the sum after those.
    #[inline(always)]
    pub fn total_with(
        &self,
        lab: &Lab,
        wiring: &Wiring,
        table: &Crossings,
        plugs: &[IfaceId],
        uses: u64,
        change: Change,
    ) -> u64
        requires limits { keeps_limits wiring.now ≡ true }
        requires plugged { length plugs.now ≡ length (end_nodes wiring.now.segments) }
        requires in_lab { All (λ i. i.0 < length lab.now.ifaces) plugs.now }
        requires table { IsTable lab.now table.now }
        requires row { IsRow wiring.now change.end change.row }
        requires to { change.to.0 < length lab.now.ifaces }
        requires summed { IsSummed lab.now wiring.now plugs.now self.now }
        requires uses { AreUses lab.now wiring.now plugs.now change.row.segment uses }
        ensures { (others : List IfaceSeen) → length others ≡ length (end_nodes wiring.now.segments)
            → own_plugs wiring.now.segments others change.row.segment ≡ own_plugs wiring.now.segments plugs.now change.row.segment
            → uses ≡ used_of_all lab.now wiring.now others → result ≡ used_of_all lab.now wiring.now (slice_set others change.end change.to) }
    {
        let gain = self.gain(lab, wiring, table, plugs, change);
        uses + gain.adds - gain.takes
    }

    /// The sum of the uses of all trunks after changes that aren't made, each of another segment.
    pub fn total_after(
        &self,
        lab: &Lab,
        wiring: &Wiring,
        table: &Crossings,
        plugs: &[IfaceId],
        changes: &[Change],
    ) -> u64
        requires limits { keeps_limits wiring.now ≡ true }
        requires plugged { length plugs.now ≡ length (end_nodes wiring.now.segments) }
        requires in_lab { All (λ i. i.0 < length lab.now.ifaces) plugs.now }
        requires table { IsTable lab.now table.now }
        requires changes { AreChanges lab.now wiring.now changes.now }
        requires apart { AreApart changes.now }
        requires summed { IsSummed lab.now wiring.now plugs.now self.now }
        ensures { result ≡ used_of_all lab.now wiring.now (remade plugs.now changes.now) }
    {
        let mut total = self.total;
        for change in changes {
            total = self.total_with(lab, wiring, table, plugs, total, *change);
        }
        total
    }
}
