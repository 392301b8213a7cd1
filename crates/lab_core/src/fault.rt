ghost use Rattle.std.specs.Prelude.{◌≡◌};

use lab_base::Memory;

/// Why a command got no reply.
#[derive(Clone, Copy, Debug, PartialEq, Eq)]
pub enum CoreFault {
    /// The plant stopped.
    Stopped,
    /// Memory was wanting.
    Memory,
}

impl From<Memory> for CoreFault {
    ghost use Rattle.lab_core.specs.declared.fault.CoreFault.TheVariants as faults;

    ghost from_gives = { λ _ e. e ≡ faults.Memory };

    fn from(_error: Memory) -> CoreFault {
        CoreFault::Memory
    }
}
