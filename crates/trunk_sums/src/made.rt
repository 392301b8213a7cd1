// Changes of plugs, one after another.
ghost use Rattle.std.specs.Prelude.{◌≡◌, ◌<◌, true, All, List, length};
ghost use Rattle.lab_base.specs.declared.ids.IfaceId.{IfaceId as IfaceSeen};
ghost use Rattle.trunk_sums.specs.declared.made.Change.{Change as ChangeSeen};
ghost use Rattle.virt_topo.specs.Soundness.{keeps_limits};
ghost use Rattle.virt_topo.specs.Ends.{end_nodes};
ghost use Rattle.trunk_sums.specs.Between.{IsTable};
ghost use Rattle.trunk_sums.specs.Summed.{IsSummed};
ghost use Rattle.trunk_sums.specs.Totals.{used_of_all};
ghost use Rattle.trunk_sums.specs.Remade.{remade, undone, AreChanges};

use crate::sums::{EndRow, Sums};
use crate::table::Crossings;
use lab_base::IfaceId;
use phys_lab::Lab;
use virt_topo::Wiring;

/// A change of plug: an end goes to another interface. The row stands first, since a change that is copied with gaps between its fields is copied slowly.
#[derive(Clone, Copy)]
pub struct Change {
    pub row: EndRow,
    pub end: u16,
    pub to: IfaceId,
}

/// Changes, and then those that take them back, leave the plugs as they were.
pub fn law_of_taking_back()
    ensures { (plugs : List IfaceSeen) (changes : List ChangeSeen) → remade (remade plugs changes) (undone plugs changes) ≡ plugs }
{}

impl Sums {
    /// The sum of the uses of all trunks.
    pub fn total(&self, _lab: &Lab, _wiring: &Wiring, _plugs: &[IfaceId]) -> u64
        requires { IsSummed _lab.now _wiring.now _plugs.now self.now }
        ensures { result ≡ used_of_all _lab.now _wiring.now _plugs.now }
    {
        self.total
    }

    /// By trunk, the kbps that the segments use of it.
    pub fn uses(&self) -> &[u64]
        ensures { result.now ≡ self.now.uses.items }
    {
        &self.uses
    }

    /// Makes changes, one after another. The sums are then those of counting the plugs anew.
    pub fn make(
        &mut self,
        lab: &Lab,
        wiring: &Wiring,
        table: &Crossings,
        plugs: &mut Vec<IfaceId>,
        changes: &[Change],
    )
        requires limits { keeps_limits wiring.now ≡ true }
        requires plugged { length plugs.old.items ≡ length (end_nodes wiring.now.segments) }
        requires in_lab { All (λ i. i.0 < length lab.now.ifaces) plugs.old.items }
        requires table { IsTable lab.now table.now }
        requires changes { AreChanges lab.now wiring.now changes.now }
        requires summed { IsSummed lab.now wiring.now plugs.old.items self.old }
        ensures plugs { plugs.new.items ≡ remade plugs.old.items changes.now }
        ensures summed { IsSummed lab.now wiring.now plugs.new.items self.new }
    {
        for change in changes {
            self.replug(lab, wiring, table, plugs, *change);
        }
    }
}
