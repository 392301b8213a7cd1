ghost use Rattle.std.specs.Prelude.{◌≡◌};
ghost use Rattle.feas.specs.declared.fault.CheckFault.TheVariants as faults;

use lab_base::Memory;
use virt_topo::{Broken, Subject};

/// The reason why a mapping was not accepted.
#[derive(Clone, Copy, PartialEq, Eq)]
pub enum CheckFault {
    /// The first broken rule, with its first subject that breaks it.
    Violation { rule: Broken, subject: Subject },
    Memory,
}

impl From<Memory> for CheckFault {
    ghost from_gives = { λ _ e. e ≡ faults.Memory };

    fn from(_error: Memory) -> CheckFault {
        CheckFault::Memory
    }
}
