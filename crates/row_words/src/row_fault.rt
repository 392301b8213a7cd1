//! Why a row is not told.
use journal_rec::RecFault;
use lab_base::{BadName, Kind, Memory, TextFault, TextRefused};
use plant::{DrillFault, Fault};
use std::alloc::AllocError;
use std::num::ParseIntError;

/// Why a row is not told.
#[derive(Clone, Copy)]
pub enum RowFault {
    /// A text that it names is refused for this fault, which is what the row tells.
    Text(TextFault),
    /// A word of it has this fault.
    Word(Kind),
    /// A call of the plant failed, or the plant takes no drills.
    Plant,
    Memory,
}

impl From<Memory> for RowFault {
    fn from(_memory: Memory) -> RowFault {
        RowFault::Memory
    }
}

impl From<AllocError> for RowFault {
    fn from(_error: AllocError) -> RowFault {
        RowFault::Memory
    }
}

impl From<DrillFault> for RowFault {
    fn from(fault: DrillFault) -> RowFault {
        match fault {
            DrillFault::CannotPlan => RowFault::Plant,
            DrillFault::Memory => RowFault::Memory,
        }
    }
}

impl From<Kind> for RowFault {
    fn from(kind: Kind) -> RowFault {
        RowFault::Word(kind)
    }
}

impl From<BadName> for RowFault {
    fn from(_bad: BadName) -> RowFault {
        RowFault::Word(Kind::Name)
    }
}

impl From<ParseIntError> for RowFault {
    fn from(_bad: ParseIntError) -> RowFault {
        RowFault::Word(Kind::Number)
    }
}

impl From<TextRefused> for RowFault {
    fn from(refused: TextRefused) -> RowFault {
        match refused {
            TextRefused::Text(fault) => RowFault::Text(fault),
            TextRefused::Memory => RowFault::Memory,
        }
    }
}

impl From<RecFault> for RowFault {
    fn from(fault: RecFault) -> RowFault {
        match fault {
            RecFault::Bad => RowFault::Word(Kind::Word),
            RecFault::Memory => RowFault::Memory,
        }
    }
}

impl From<Fault> for RowFault {
    fn from(_fault: Fault) -> RowFault {
        RowFault::Plant
    }
}
