//! The reasons why a command is refused.

use lab_base::{Kind, Memory};
use std::alloc::{AllocError, AllocFailed};

/// The reason why a command is refused.
#[derive(Clone, Copy, PartialEq, Eq, Drop)]
pub(crate) enum Refusal {
    Kind(Kind),
    Memory,
}

impl From<Kind> for Refusal {
    ghost use Rattle.std.specs.Prelude.{◌≡◌};
    ghost use Rattle.ns_build.specs.declared.refusal.Refusal.TheVariants as refusals;

    ghost from_gives = { λ kind e. e ≡ refusals.Kind kind };

    fn from(kind: Kind) -> Refusal {
        Refusal::Kind(kind)
    }
}

impl From<Memory> for Refusal {
    ghost use Rattle.std.specs.Prelude.{◌≡◌};
    ghost use Rattle.ns_build.specs.declared.refusal.Refusal.TheVariants as refusals;

    ghost from_gives = { λ _ e. e ≡ refusals.Memory };

    fn from(_error: Memory) -> Refusal {
        Refusal::Memory
    }
}

impl From<AllocError> for Refusal {
    ghost use Rattle.std.specs.Prelude.{◌≡◌};
    ghost use Rattle.ns_build.specs.declared.refusal.Refusal.TheVariants as refusals;

    ghost from_gives = { λ _ e. e ≡ refusals.Memory };

    fn from(_error: AllocError) -> Refusal {
        Refusal::Memory
    }
}

impl<T: Drop> From<AllocFailed<T>> for Refusal {
    ghost use Rattle.std.specs.Prelude.{◌≡◌};
    ghost use Rattle.ns_build.specs.declared.refusal.Refusal.TheVariants as refusals;

    ghost from_gives = { λ _ e. e ≡ refusals.Memory };

    fn from(_error: AllocFailed<T>) -> Refusal {
        Refusal::Memory
    }
}
