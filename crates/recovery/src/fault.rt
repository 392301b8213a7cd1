ghost use Rattle.std.specs.Prelude.{◌≡◌};

use lab_base::Memory;

/// The reason why a settling broke off.
#[derive(Clone, Copy, Debug, PartialEq, Eq)]
pub enum SettleFault {
    /// A call of the journal failed: a last record was not written.
    Plant,
    /// The plant stopped.
    Stopped,
    /// Memory was wanting for a plan, before its first command.
    Memory,
}

impl From<Memory> for SettleFault {
    ghost use Rattle.recovery.specs.declared.fault.SettleFault.TheVariants as faults;

    ghost from_gives = { λ _ e. e ≡ faults.Memory };

    fn from(_error: Memory) -> SettleFault {
        SettleFault::Memory
    }
}
