ghost use Rattle.std.specs.Prelude.{◌≡◌, ◌↔◌, ◌≤◌, ◌<◌, ◌+◌, ◌-◌, ◌^◌, ◌∷◌, [], ℕ};
ghost use Rattle.std.specs.Prelude.{Bool, List, length, Option, Result, IfSome, IsErrOf, IsTrue, OnOk, OnErr};
ghost use Rattle.lab_base.specs.Counts.{Rose};
ghost use Rattle.plant.specs.DiskCalls.{DiskCause};
ghost use Rattle.plant.specs.Events.{Event, Wrote, Synced};
ghost use Rattle.plant.specs.Told.{Told, with_steps};
ghost use Rattle.journal_rec.specs.declared.record.Record.{Record};
ghost use Rattle.journal_model.specs.Appends.{other_side};
ghost use Rattle.journal_rec.specs.Packing.{ArePacked, side_length};
ghost use Rattle.journal_disk.specs.Standing.{side_of, length_of, limit_of, IsAt};
ghost use Rattle.journal_disk.specs.Epochs.{epoch_of, HasEpoch};
ghost use Rattle.journal_disk.specs.Compacting.{filling, side_text, ArePieces, BreaksOff};
ghost use Rattle.journal_disk.specs.Compactions.{MovesOver, Compacts, LeavesBegun, Shifts};

use crate::emptying::{empty, lacks_closed_gate};
use crate::heads::OPEN;
use crate::walk::FIRST;
use crate::writing::write_text;
use crate::{CompactFault, Journal};
use journal_rec::Packed;
use plant::{Fault, Plant, Side};

fn other_side(side: Side) -> Side
    ensures { result ≡ other_side side }
{
    match side {
        Side::A => Side::B,
        Side::B => Side::A,
    }
}

/// Opens the header gate in front of a text that is written.
fn raise<P: Plant>(plant: &mut P, side: Side) -> Result<(), Fault>
    ensures ok { OnOk result ((P.seen plant.new).told ≡ with_steps (P.seen plant.old).told (Synced side ∷ Wrote side 0 (OPEN ∷ []) ∷ Synced side ∷ [])) }
    ensures leaves { (base : Option Told) (to_close : Bool) (text : List ℕ) (pieces : List (List ℕ)) → ArePieces text pieces
        → (P.seen plant.old).told ≡ with_steps base (filling side to_close pieces) → BreaksOff side to_close text base (P.seen plant.new).told result }
    ensures cause { DiskCause (P.seen plant.old).faults (P.seen plant.new).faults result }
    ensures stopped { IsErrOf result Fault.Stopped ↔ IsTrue (P.seen plant.new).stopped }
{
    plant.sync(side)?;
    plant.write(side, 0, &[OPEN])?;
    plant.sync(side)
}

/// Moves a journal onto a side. The side is emptied, and its text is written behind the closed gate. Then come a sync, the open gate, and a sync.
fn move_over<P: Plant>(plant: &mut P, side: Side, epoch: u64, records: &[u8]) -> Result<(), Fault>
    requires { FIRST + length records.now < 2 ^ 64 }
    ensures moves { MovesOver side (side_text epoch records.now) (P.seen plant.old).told (P.seen plant.new).told result }
    ensures cause { DiskCause (P.seen plant.old).faults (P.seen plant.new).faults result }
    ensures stopped { IsErrOf result Fault.Stopped ↔ IsTrue (P.seen plant.new).stopped }
{
    let to_close = lacks_closed_gate(plant, side)?;
    empty(plant, side, to_close)?;
    write_text(plant, side, epoch, records)?;
    raise(plant, side)
}

impl Journal {
    /// Moves the journal onto the other side, with these records in the place of its own, as its next epoch. It takes no memory.
    /// After `Plant` or `Stopped` the journal has to be opened anew.
    pub fn compact<P: Plant>(&mut self, packed: &Packed, plant: &mut P) -> Result<(), CompactFault>
        requires epoch { epoch_of self.old < 2 ^ 64 - 1 }
        requires fits { side_length packed.now ≤ limit_of self.old }
        ensures plant { IsErrOf result CompactFault.Plant → Rose (P.seen plant.old).faults.disk (P.seen plant.new).faults.disk }
        ensures later { (P.seen plant.old).faults.disk ≤ (P.seen plant.new).faults.disk }
        ensures devices { (P.seen plant.new).faults.devices ≡ (P.seen plant.old).faults.devices }
        ensures stopped { IsErrOf result CompactFault.Stopped ↔ IsTrue (P.seen plant.new).stopped }
        ensures compacts { (steps : List Event) × ((P.seen plant.new).told ≡ with_steps (P.seen plant.old).told steps)
            × IfSome (P.seen plant.old).told (λ t. Compacts t.trace steps self.old packed.now result) }
        // how the other side reads at each moment, also of a move that is cut off
        ensures begins { (steps : List Event) × ((P.seen plant.new).told ≡ with_steps (P.seen plant.old).told steps)
            × IfSome (P.seen plant.old).told (λ t. LeavesBegun t.trace steps (other_side (side_of self.old))
            (side_text (epoch_of self.old + 1) packed.now) result) }
        ensures moments { (rs ps : List Record) → ArePacked packed.now ps
            → IfSome (P.seen plant.old).told (λ t. IsAt t.trace self.old rs → HasEpoch t.trace self.old
            → (steps : List Event) × ((P.seen plant.new).told ≡ with_steps (P.seen plant.old).told steps)
            × Shifts t.trace steps (side_of self.old) rs ps result) }
        ensures stands { OnOk result ((rs ps : List Record) → ArePacked packed.now ps
            → IfSome (P.seen plant.old).told (λ t. IsAt t.trace self.old rs → HasEpoch t.trace self.old
            → IfSome (P.seen plant.new).told (λ u. IsAt u.trace self.new ps × HasEpoch u.trace self.new))) }
        ensures length { OnOk result (length_of self.new ≡ side_length packed.now) }
        ensures side { OnOk result (side_of self.new ≡ other_side (side_of self.old)) }
        ensures epoch { OnOk result (epoch_of self.new ≡ epoch_of self.old + 1) }
        ensures limit { limit_of self.new ≡ limit_of self.old }
        ensures err { OnErr result (self.new ≡ self.old) }
    {
        let side = other_side(self.side);
        let epoch = self.epoch + 1;
        move_over(plant, side, epoch, packed.bytes())?;
        self.side = side;
        self.epoch = epoch;
        self.gate = packed.length() - 1;
        Ok(())
    }
}
