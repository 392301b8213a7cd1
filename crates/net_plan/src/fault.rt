ghost use Rattle.std.specs.Prelude.{◌≡◌};

use lab_base::Memory;

/// The reason why a network has no wiring: the first of these, in this order.
#[derive(Clone, Copy, Debug, PartialEq, Eq)]
pub enum PlanFault {
    /// The wiring would have more than 256 virtual nodes, 512 segments or 4,096 ends.
    Limit,
    /// The network has no node.
    Empty,
    /// An explicit address is given twice, or one link or LAN has explicit addresses in two subnets.
    Address,
    /// An end without an explicit address gets none. Its link or LAN has a number above 254 and no explicit address, or no host number is left in its
    /// subnet.
    Subnet,
    Memory,
}

impl From<Memory> for PlanFault {
    ghost use Rattle.net_plan.specs.declared.fault.PlanFault.TheVariants as faults;

    ghost from_gives = { λ _ e. e ≡ faults.Memory };

    fn from(_error: Memory) -> PlanFault {
        PlanFault::Memory
    }
}
