ghost use Rattle.std.specs.Prelude.{◌≡◌};
ghost use Rattle.journal_disk.specs.Faults.{open_fault, append_fault, compact_fault};
ghost use Rattle.journal_disk.specs.declared.fault.OpenFault.TheVariants as faults;

use plant::{Fault, Side};
use std::alloc::{AllocError, AllocFailed};

/// The reason why a journal was not opened. After each of them it may be opened anew.
#[derive(Clone, Copy, PartialEq, Eq)]
pub enum OpenFault {
    /// The disk failed.
    Plant,
    /// The plant is stopped.
    Stopped,
    /// The sides hold no journal. `at` is the gate of the first record that is none, or 0 for the header.
    Bad { side: Side, at: u64 },
    Memory,
}

/// The reason why a record was not appended. After `Plant` and `Stopped` the journal has to be opened anew.
#[derive(Clone, Copy, Debug, PartialEq, Eq)]
pub enum AppendFault {
    /// The record's size and the journal's length sum up to more than the limit. Nothing was done.
    Full { length: u64, size: u64 },
    /// The disk failed.
    Plant,
    /// The plant is stopped.
    Stopped,
}

/// The reason why a journal was not moved onto the other side. After each of them it has to be opened anew.
#[derive(Clone, Copy, Debug, PartialEq, Eq)]
pub enum CompactFault {
    /// The disk failed.
    Plant,
    /// The plant is stopped.
    Stopped,
}

impl From<Fault> for OpenFault {
    ghost from_gives = { λ fault made. made ≡ open_fault fault };

    fn from(fault: Fault) -> OpenFault {
        match fault {
            Fault::Failed => OpenFault::Plant,
            Fault::Stopped => OpenFault::Stopped,
        }
    }
}

impl From<Fault> for AppendFault {
    ghost from_gives = { λ fault made. made ≡ append_fault fault };

    fn from(fault: Fault) -> AppendFault {
        match fault {
            Fault::Failed => AppendFault::Plant,
            Fault::Stopped => AppendFault::Stopped,
        }
    }
}

impl From<Fault> for CompactFault {
    ghost from_gives = { λ fault made. made ≡ compact_fault fault };

    fn from(fault: Fault) -> CompactFault {
        match fault {
            Fault::Failed => CompactFault::Plant,
            Fault::Stopped => CompactFault::Stopped,
        }
    }
}

impl From<AllocError> for OpenFault {
    ghost from_gives = { λ _ fault. fault ≡ faults.Memory };

    fn from(_error: AllocError) -> OpenFault {
        OpenFault::Memory
    }
}

impl<T: Drop> From<AllocFailed<T>> for OpenFault {
    ghost from_gives = { λ _ fault. fault ≡ faults.Memory };

    fn from(_error: AllocFailed<T>) -> OpenFault {
        OpenFault::Memory
    }
}
