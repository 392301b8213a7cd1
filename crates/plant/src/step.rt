use crate::{Answer, DeviceOp, Fault};
use lab_base::Name;

/// A side of the disk.
#[derive(Clone, Copy, PartialEq, Eq)]
pub enum Side {
    A,
    B,
}

/// A step of the plant. Bytes are named by their range in what the plant keeps.
#[derive(Clone, Copy)]
pub enum Step {
    /// The bytes of that range were left at an offset of a side.
    Wrote {
        side: Side,
        at: u64,
        start: u64,
        end: u64,
    },
    /// A side became durable as it reads.
    Synced {
        side: Side,
    },
    /// A side was cut to a length.
    Cut {
        side: Side,
        length: u64,
    },
    /// A call on a side failed.
    Missed {
        side: Side,
    },
    /// A command was sent, and perhaps applied.
    Did {
        op: DeviceOp,
        applied: bool,
        answer: Result<Answer, Fault>,
    },
    /// The plant was started again, and the sides hold the bytes of these ranges.
    Restarted {
        a: (u64, u64),
        b: (u64, u64),
    },
    /// A reading of a device's state failed.
    Unread {
        device: Name,
    },
}
