use lab_base::Name;

/// How a device fails.
#[derive(Clone, Copy, PartialEq, Eq)]
pub enum How {
    /// The command is applied, and answered as failed.
    Applied,
    /// The command is not applied.
    Not,
    /// From that poll on the boot state stays as it is, until a Wipe.
    Hang,
    /// The boot state becomes `IsUp` at that poll, which answers it.
    Jump,
    /// The reading of the device's state fails. No command counts for it.
    Read,
}

/// The part of the bytes that aren't durable which a stop leaves.
#[derive(Clone, Copy, PartialEq, Eq)]
pub enum Pick {
    /// Nothing; and the stopped call has no effect.
    Nothing,
    /// All of it.
    All,
    /// All of it, but the last half of each write is garbage.
    Torn,
}

/// A planned failure. It counts from the moment of the plan, from 1, and is used once.
#[derive(Clone, Copy, PartialEq, Eq)]
pub enum Drill {
    /// The nth next command to that device; for `Hang` and `Jump` the nth next poll of it.
    Device { name: Name, nth: u32, how: How },
    /// The nth next call of the disk.
    Disk { nth: u32 },
    /// The nth next write, sync, cut or command.
    Stop { nth: u32, pick: Pick },
}

/// The reason why a failure was not planned.
#[derive(Clone, Copy, Debug, PartialEq, Eq)]
pub enum DrillFault {
    /// The plant takes no drills.
    CannotPlan,
    Memory,
}
