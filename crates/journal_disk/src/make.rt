ghost use Rattle.std.specs.Prelude.{◌≡◌, ◌↔◌, ◌≤◌, length, true, false, IfSome, OnOk, IsErrOf, IsTrue};
ghost use Rattle.plant.specs.DiskCalls.{DiskCause};
ghost use Rattle.plant.specs.Disks.{disk};
ghost use Rattle.plant.specs.Told.{with_steps};
ghost use Rattle.plant.specs.declared.step.Side.TheVariants.{A};
ghost use Rattle.journal_disk.specs.Opening.{cleared, headed, making, Makes, Closed, InUse};

use crate::heads::OPEN;
use plant::{Fault, Plant, Side};

/// The header of a new journal behind its gate, with the closed gate of the first record.
const MADE: [u8; 17] = *b"LABJRNL1\x01\0\0\0\0\0\0\0\0";

/// Closes the header gate of a side that has no header yet.
fn clear<P: Plant>(plant: &mut P) -> Result<(), Fault>
    ensures ok { OnOk result ((P.seen plant.new).told ≡ with_steps (P.seen plant.old).told (cleared true)) }
    ensures makes { Makes true Closed (P.seen plant.old).told (P.seen plant.new).told result }
    ensures cause { DiskCause (P.seen plant.old).faults (P.seen plant.new).faults result }
    ensures stopped { IsErrOf result Fault.Stopped ↔ IsTrue (P.seen plant.new).stopped }
{
    plant.write(Side::A, 0, &[0])?;
    plant.sync(Side::A)
}

/// Writes the header behind its closed gate, and opens the gate.
fn head<P: Plant>(plant: &mut P) -> Result<(), Fault>
    requires { IfSome (P.seen plant.old).told (λ t. 1 ≤ length (disk A t.trace).reads) }
    ensures ok { OnOk result ((P.seen plant.new).told ≡ with_steps (P.seen plant.old).told headed) }
    ensures makes { Makes false InUse (P.seen plant.old).told (P.seen plant.new).told result }
    ensures cause { DiskCause (P.seen plant.old).faults (P.seen plant.new).faults result }
    ensures stopped { IsErrOf result Fault.Stopped ↔ IsTrue (P.seen plant.new).stopped }
{
    plant.write(Side::A, 1, &MADE)?;
    plant.sync(Side::A)?;
    plant.write(Side::A, 0, &[OPEN])?;
    plant.sync(Side::A)
}

/// Makes a new journal of epoch 1 on side A. Where the side has no header yet, its gate is closed first.
pub fn make<P: Plant>(plant: &mut P, is_short: bool) -> Result<(), Fault>
    requires { IfSome (P.seen plant.old).told (λ t. is_short ≡ false → 1 ≤ length (disk A t.trace).reads) }
    ensures ok { OnOk result ((P.seen plant.new).told ≡ with_steps (P.seen plant.old).told (making is_short)) }
    ensures makes { Makes is_short InUse (P.seen plant.old).told (P.seen plant.new).told result }
    ensures cause { DiskCause (P.seen plant.old).faults (P.seen plant.new).faults result }
    ensures stopped { IsErrOf result Fault.Stopped ↔ IsTrue (P.seen plant.new).stopped }
{
    if is_short {
        clear(plant)?;
        head(plant)
    } else {
        head(plant)
    }
}
