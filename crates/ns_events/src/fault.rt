ghost use Rattle.std.specs.Prelude.{◌≡◌};

use lab_base::Memory;
use std::alloc::{AllocError, AllocFailed};

/// The reason why an event isn't applied.
#[derive(Clone, Copy, Debug, PartialEq, Eq)]
pub enum ApplyFault {
    /// The link has no pipe in the present wiring, or another number of pipes than in the text's.
    Shape,
    Memory,
}

impl From<Memory> for ApplyFault {
    ghost use Rattle.ns_events.specs.declared.fault.ApplyFault.TheVariants as faults;

    ghost from_gives = { λ _ e. e ≡ faults.Memory };

    fn from(_error: Memory) -> ApplyFault {
        ApplyFault::Memory
    }
}
