// Emptying a side: its header gate is closed, and the side is cut after it.
ghost use Rattle.std.specs.Prelude.{◌≡◌, ◌↔◌, ◌≤◌, ◌∷◌, [], Bool, List, ℕ, true, false, length, Option, IfOk, IfSome, OnOk, IsErrOf, IsTrue};
ghost use Rattle.plant.specs.DiskCalls.{missed, DiskCause};
ghost use Rattle.plant.specs.Disks.{disk};
ghost use Rattle.plant.specs.Events.{Cut, Synced};
ghost use Rattle.plant.specs.Told.{Told, with_steps};
ghost use Rattle.journal_disk.specs.Compacting.{lacks_closed_gate, shutting, emptying, BreaksOff};

use crate::heads::OPEN;
use plant::{Fault, Plant, Side};

/// Whether the front of a side is no closed gate: it is empty, or begins with an open one.
pub fn lacks_closed_gate<P: Plant>(plant: &mut P, side: Side) -> Result<bool, Fault>
    ensures trace { (P.seen plant.new).told ≡ with_steps (P.seen plant.old).told (missed side result) }
    ensures to_close { IfOk result (λ to_close. IfSome (P.seen plant.old).told (λ t. to_close ≡ lacks_closed_gate (disk side t.trace).reads)) }
    ensures cause { DiskCause (P.seen plant.old).faults (P.seen plant.new).faults result }
    ensures stopped { IsErrOf result Fault.Stopped ↔ IsTrue (P.seen plant.new).stopped }
{
    if plant.length(side)? == 0 {
        return Ok(true);
    }
    let mut gate = [0u8; 1];
    plant.read(side, 0, &mut gate)?;
    Ok(gate[0] == OPEN)
}

/// Closes the header gate.
fn shut<P: Plant>(plant: &mut P, side: Side) -> Result<(), Fault>
    ensures ok { OnOk result ((P.seen plant.new).told ≡ with_steps (P.seen plant.old).told (shutting side true)) }
    ensures leaves { (text : List ℕ) → BreaksOff side true text (P.seen plant.old).told (P.seen plant.new).told result }
    ensures cause { DiskCause (P.seen plant.old).faults (P.seen plant.new).faults result }
    ensures stopped { IsErrOf result Fault.Stopped ↔ IsTrue (P.seen plant.new).stopped }
{
    plant.write(side, 0, &[0])?;
    plant.sync(side)
}

/// Cuts a side behind its closed gate.
fn shorten<P: Plant>(plant: &mut P, side: Side) -> Result<(), Fault>
    requires { IfSome (P.seen plant.old).told (λ t. 1 ≤ length (disk side t.trace).reads) }
    ensures ok { OnOk result ((P.seen plant.new).told ≡ with_steps (P.seen plant.old).told (Cut side 1 ∷ Synced side ∷ [])) }
    ensures leaves { (base : Option Told) (to_close : Bool) (text : List ℕ) → (P.seen plant.old).told ≡ with_steps base (shutting side to_close)
        → BreaksOff side to_close text base (P.seen plant.new).told result }
    ensures cause { DiskCause (P.seen plant.old).faults (P.seen plant.new).faults result }
    ensures stopped { IsErrOf result Fault.Stopped ↔ IsTrue (P.seen plant.new).stopped }
{
    plant.cut(side, 1)?;
    plant.sync(side)
}

/// Empties a side but for its header gate, which it closes where it is open or isn't there.
pub fn empty<P: Plant>(plant: &mut P, side: Side, to_close: bool) -> Result<(), Fault>
    requires { IfSome (P.seen plant.old).told (λ t. to_close ≡ false → 1 ≤ length (disk side t.trace).reads) }
    ensures ok { OnOk result ((P.seen plant.new).told ≡ with_steps (P.seen plant.old).told (emptying side to_close)) }
    ensures leaves { (text : List ℕ) → BreaksOff side to_close text (P.seen plant.old).told (P.seen plant.new).told result }
    ensures cause { DiskCause (P.seen plant.old).faults (P.seen plant.new).faults result }
    ensures stopped { IsErrOf result Fault.Stopped ↔ IsTrue (P.seen plant.new).stopped }
{
    if to_close {
        shut(plant, side)?;
        shorten(plant, side)
    } else {
        shorten(plant, side)
    }
}
