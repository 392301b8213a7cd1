ghost use Rattle.std.specs.Prelude.{◌≡◌};

use lab_base::{Memory, Name};

/// Why there is no report.
#[derive(Clone, Copy, PartialEq, Eq)]
pub enum AuditFault {
    /// The named device did not tell what it holds.
    Unread(Name),
    Memory,
}

impl From<Memory> for AuditFault {
    ghost use Rattle.lab_audit.specs.declared.fault.AuditFault.TheVariants as faults;

    ghost from_gives = { λ _ e. e ≡ faults.Memory };

    fn from(_error: Memory) -> AuditFault {
        AuditFault::Memory
    }
}
