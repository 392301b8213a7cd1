//! The reasons why a text can't be read.

use lab_base::{Kind, Memory};
use std::alloc::{AllocError, AllocFailed};

/// A fault and the place of its byte.
#[derive(Clone, Copy, PartialEq, Eq, Drop)]
pub struct Flaw {
    pub kind: Kind,
    pub at: usize,
}

/// The reason why a text can't be read.
#[derive(Clone, Copy, PartialEq, Eq, Drop)]
pub enum Broken {
    Flaw(Flaw),
    Memory,
}

impl From<Memory> for Broken {
    ghost use Rattle.std.specs.Prelude.{◌≡◌};
    ghost use Rattle.tcl_words.specs.declared.flaw.Broken.TheVariants.{Memory};

    ghost from_gives = { λ _ e. e ≡ Memory };

    fn from(_error: Memory) -> Broken {
        Broken::Memory
    }
}

impl From<AllocError> for Broken {
    ghost use Rattle.std.specs.Prelude.{◌≡◌};
    ghost use Rattle.tcl_words.specs.declared.flaw.Broken.TheVariants.{Memory};

    ghost from_gives = { λ _ e. e ≡ Memory };

    fn from(_error: AllocError) -> Broken {
        Broken::Memory
    }
}

impl<T: Drop> From<AllocFailed<T>> for Broken {
    ghost use Rattle.std.specs.Prelude.{◌≡◌};
    ghost use Rattle.tcl_words.specs.declared.flaw.Broken.TheVariants.{Memory};

    ghost from_gives = { λ _ e. e ≡ Memory };

    fn from(_error: AllocFailed<T>) -> Broken {
        Broken::Memory
    }
}
