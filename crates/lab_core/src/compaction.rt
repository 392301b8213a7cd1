// The journal's move onto its other side, after the settling of an opening.
ghost use Rattle.std.specs.Prelude.{◌≡◌, ◌↔◌, ◌<◌, ◌≤◌, ◌*◌, ◌-◌, ◌^◌, ◌&&◌, nat_le, nat_lt, false, IfOk, OnOk, IsErrOf, IsTrue};
ghost use Rattle.lab_base.specs.Counts.{Rose};
ghost use Rattle.journal_disk.specs.Epochs.{epoch_of};
ghost use Rattle.journal_disk.specs.Standing.{length_of, limit_of};
ghost use Rattle.journal_rec.specs.Packing.{side_length};
ghost use Rattle.records_model.specs.Labs.{LabState as AnyLabState};
ghost use Rattle.lab_state.specs.Texts.{the_texts};
ghost use Rattle.lab_core.specs.Compaction.{AfterCompaction, AfterMove, IsPacked, IsToMove};
ghost use Rattle.lab_core.specs.Controller.{Works};
ghost use Rattle.swap_turns.specs.Causes.{IsLater};
ghost use Rattle.swap_turns.specs.Running.{AtWork};

use crate::Controller;
use journal_disk::{CompactFault, Journal, OpenFault};
use journal_rec::Packed;
use lab_state::LabState;
use plant::Plant;

/// How long a journal may be that stays on its side.
const LONGEST: u64 = 1_048_576;

/// Whether the journal is long, and has a next epoch.
fn may_move(journal: &Journal) -> bool
    ensures { result ≡ (nat_lt LONGEST (length_of journal.now) && nat_lt (epoch_of journal.now) (2 ^ 64 - 1)) }
{
    journal.length() > LONGEST && journal.epoch() < u64::MAX
}

/// Whether at most half of the journal is needed for these records.
fn is_half(journal: &Journal, packed: &Packed) -> bool
    ensures { result ≡ nat_le (2 * side_length packed.now) (length_of journal.now) }
{
    packed.length() <= journal.length() / 2
}

/// Moves the journal, with these records in the place of its own.
fn move_over<P: Plant>(
    journal: &mut Journal,
    packed: &Packed,
    plant: &mut P,
) -> Result<(), OpenFault>
    requires epoch { epoch_of journal.old < 2 ^ 64 - 1 }
    requires fits { side_length packed.now ≤ limit_of journal.old }
    // the other side has the records, or the call broke off
    ensures after { (s : AnyLabState) → AtWork the_texts (P.seen plant.old).told journal.old s → IsPacked packed.now s
        → IsToMove (length_of journal.old) (epoch_of journal.old) s
        → AfterMove s journal.old (P.seen plant.old).told (P.seen plant.new).told result }
    ensures works { OnOk result ((s : AnyLabState) → AtWork the_texts (P.seen plant.old).told journal.old s → IsPacked packed.now s
        → IsToMove (length_of journal.old) (epoch_of journal.old) s
        → AtWork the_texts (P.seen plant.new).told journal.new s) }
    ensures limit { limit_of journal.new ≡ limit_of journal.old }
    // each fault has its cause
    ensures plant { IsErrOf result OpenFault.Plant → Rose (P.seen plant.old).faults.disk (P.seen plant.new).faults.disk }
    ensures later { IsLater (P.seen plant.old) (P.seen plant.new) }
    ensures stopped { IsErrOf result OpenFault.Stopped ↔ IsTrue (P.seen plant.new).stopped }
{
    match journal.compact(packed, plant) {
        Ok(()) => Ok(()),
        Err(CompactFault::Plant) => Err(OpenFault::Plant),
        Err(CompactFault::Stopped) => Err(OpenFault::Stopped),
    }
}

/// Moves the journal, if it is to move.
fn move_journal<P: Plant>(
    lab: &LabState,
    journal: &mut Journal,
    plant: &mut P,
) -> Result<(), OpenFault>
    requires work { AtWork the_texts (P.seen plant.old).told journal.old lab.now.state }
    requires runs { (P.seen plant.old).stopped ≡ false }
    // it was moved exactly where it is to move, or the call broke off
    ensures after { AfterMove lab.now.state journal.old (P.seen plant.old).told (P.seen plant.new).told result }
    ensures works { OnOk result (AtWork the_texts (P.seen plant.new).told journal.new lab.now.state) }
    ensures limit { limit_of journal.new ≡ limit_of journal.old }
    // each fault has its cause
    ensures plant { IsErrOf result OpenFault.Plant → Rose (P.seen plant.old).faults.disk (P.seen plant.new).faults.disk }
    ensures later { IsLater (P.seen plant.old) (P.seen plant.new) }
    ensures stopped { IsErrOf result OpenFault.Stopped ↔ IsTrue (P.seen plant.new).stopped }
{
    if !may_move(journal) {
        return Ok(());
    }
    let Ok(packed) = lab.pack() else {
        return Err(OpenFault::Memory);
    };
    if !is_half(journal, &packed) {
        return Ok(());
    }
    move_over(journal, &packed, plant)
}

/// Moves the journal onto its other side without the lab's past.
/// It does so where the journal is longer than a mebibyte, at most half of that is needed, and it has a next epoch.
pub(crate) fn compact<P: Plant>(
    mut controller: Controller,
    plant: &mut P,
) -> Result<Controller, OpenFault>
    requires works { Works (P.seen plant.old).told controller }
    requires runs { (P.seen plant.old).stopped ≡ false }
    // the journal was moved exactly where it is to move, or the call broke off
    ensures after { AfterCompaction controller (P.seen plant.old).told (P.seen plant.new).told result }
    // the controller works in the same lab, with the same open swaps
    ensures same { IfOk result (λ moved. moved.lab ≡ controller.lab) }
    ensures works { IfOk result (λ moved. Works (P.seen plant.new).told moved) }
    ensures alone { IfOk result (λ moved. moved.swaps ≡ controller.swaps) }
    ensures limit { IfOk result (λ moved. limit_of moved.journal ≡ limit_of controller.journal) }
    // each fault has its cause
    ensures plant { IsErrOf result OpenFault.Plant → Rose (P.seen plant.old).faults.disk (P.seen plant.new).faults.disk }
    ensures later { IsLater (P.seen plant.old) (P.seen plant.new) }
    ensures stopped { IsErrOf result OpenFault.Stopped ↔ IsTrue (P.seen plant.new).stopped }
{
    match move_journal(&controller.lab, &mut controller.journal, plant) {
        Ok(()) => Ok(controller),
        Err(fault) => Err(fault),
    }
}
