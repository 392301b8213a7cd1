ghost use Rattle.std.specs.Prelude.{◌≡◌};
ghost use Rattle.lab_state.specs.Answers.{fault_of};

use lab_base::{Memory, TextRefused};

/// The reason why a record was not prepared.
#[derive(Clone, Copy, Debug, PartialEq, Eq)]
pub enum PrepareFault {
    /// The record can't follow.
    Bad,
    Memory,
}

impl From<Memory> for PrepareFault {
    ghost use Rattle.lab_state.specs.declared.fault.PrepareFault.TheVariants as faults;

    ghost from_gives = { λ _ e. e ≡ faults.Memory };

    fn from(_error: Memory) -> PrepareFault {
        PrepareFault::Memory
    }
}

impl From<TextRefused> for PrepareFault {
    ghost from_gives = { λ refused e. e ≡ fault_of refused };

    fn from(refused: TextRefused) -> PrepareFault {
        match refused {
            TextRefused::Text(_) => PrepareFault::Bad,
            TextRefused::Memory => PrepareFault::Memory,
        }
    }
}

/// The reason why records were not replayed.
#[derive(Clone, Copy, Debug, PartialEq, Eq)]
pub enum ReplayFault {
    /// The record of that number, from 0, is the first that can't follow.
    Bad { index: usize },
    Memory,
}
