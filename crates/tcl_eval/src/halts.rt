//! The reasons why an evaluation ends early.

use lab_base::{Kind, Memory, TextRefused};
use std::alloc::{AllocError, AllocFailed};
use tcl_words::Broken;

/// The reason why an evaluation ends early.
#[derive(Clone, Copy, PartialEq, Eq, Drop)]
pub enum Halt {
    Fault(Kind),
    Stop,
    Memory,
}

impl From<Kind> for Halt {
    ghost use Rattle.std.specs.Prelude.{◌≡◌};
    ghost use Rattle.tcl_eval.specs.declared.halts.Halt.TheVariants.{Fault};

    ghost from_gives = { λ k e. e ≡ Fault k };

    fn from(kind: Kind) -> Halt {
        Halt::Fault(kind)
    }
}

impl From<Memory> for Halt {
    ghost use Rattle.std.specs.Prelude.{◌≡◌};
    ghost use Rattle.tcl_eval.specs.declared.halts.Halt.TheVariants.{Memory};

    ghost from_gives = { λ _ e. e ≡ Memory };

    fn from(_error: Memory) -> Halt {
        Halt::Memory
    }
}

impl From<AllocError> for Halt {
    ghost use Rattle.std.specs.Prelude.{◌≡◌};
    ghost use Rattle.tcl_eval.specs.declared.halts.Halt.TheVariants.{Memory};

    ghost from_gives = { λ _ e. e ≡ Memory };

    fn from(_error: AllocError) -> Halt {
        Halt::Memory
    }
}

impl<T: Drop> From<AllocFailed<T>> for Halt {
    ghost use Rattle.std.specs.Prelude.{◌≡◌};
    ghost use Rattle.tcl_eval.specs.declared.halts.Halt.TheVariants.{Memory};

    ghost from_gives = { λ _ e. e ≡ Memory };

    fn from(_error: AllocFailed<T>) -> Halt {
        Halt::Memory
    }
}

impl From<Broken> for Halt {
    ghost use Rattle.std.specs.Prelude.{◌≡◌};
    ghost use Rattle.tcl_eval.specs.Halts.{broken_halt};

    ghost from_gives = { λ b e. e ≡ broken_halt b };

    fn from(broken: Broken) -> Halt {
        match broken {
            Broken::Flaw(flaw) => Halt::Fault(flaw.kind),
            Broken::Memory => Halt::Memory,
        }
    }
}

impl From<TextRefused> for Halt {
    ghost use Rattle.std.specs.Prelude.{◌≡◌};
    ghost use Rattle.tcl_eval.specs.Halts.{refused_halt};

    ghost from_gives = { λ r e. e ≡ refused_halt r };

    fn from(refused: TextRefused) -> Halt {
        match refused {
            TextRefused::Text(fault) => Halt::Fault(fault.kind),
            TextRefused::Memory => Halt::Memory,
        }
    }
}
