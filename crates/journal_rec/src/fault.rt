ghost use Rattle.std.specs.Prelude.{◌≡◌};
ghost use Rattle.journal_rec.specs.declared.fault.RecFault.TheVariants as faults;

use std::alloc::{AllocError, AllocFailed};

/// The reason why bytes were not decoded.
#[derive(Clone, Copy, Debug, PartialEq, Eq)]
pub enum RecFault {
    /// The bytes are the payload of no record.
    Bad,
    Memory,
}

impl From<lab_base::Memory> for RecFault {
    ghost from_gives = { λ _ fault. fault ≡ faults.Memory };

    fn from(_error: lab_base::Memory) -> RecFault {
        RecFault::Memory
    }
}

impl From<AllocError> for RecFault {
    ghost from_gives = { λ _ fault. fault ≡ faults.Memory };

    fn from(_error: AllocError) -> RecFault {
        RecFault::Memory
    }
}

impl<T: Drop> From<AllocFailed<T>> for RecFault {
    ghost from_gives = { λ _ fault. fault ≡ faults.Memory };

    fn from(_error: AllocFailed<T>) -> RecFault {
        RecFault::Memory
    }
}
