ghost use Rattle.std.specs.Prelude.{◌≡◌};
ghost use Rattle.claims.specs.declared.fault.TakeFault.TheVariants as faults;

use lab_base::Memory;

/// The reason why VLAN ids were not taken.
#[derive(Clone, Copy, Debug, PartialEq, Eq)]
pub enum TakeFault {
    /// Fewer are free than were asked for: that many.
    TooFew(u16),
    Memory,
}

impl From<Memory> for TakeFault {
    ghost from_gives = { λ _ e. e ≡ faults.Memory };

    fn from(_error: Memory) -> TakeFault {
        TakeFault::Memory
    }
}
