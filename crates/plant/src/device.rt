ghost use Rattle.std.specs.Prelude.{◌≡◌};
ghost use Rattle.plant.specs.Calls.{device_of};

use lab_base::{Boot, Name, Rates, VlanId};

/// A command to a device.
#[derive(Clone, Copy)]
pub enum DeviceOp {
    /// The port of the switch gets into the VLAN.
    Join {
        switch: Name,
        port: u16,
        vlan: VlanId,
    },
    /// The port of the switch gets out of the VLAN.
    Leave {
        switch: Name,
        port: u16,
        vlan: VlanId,
    },
    /// The node's pipe of that number joins two of its interfaces.
    Shape {
        node: Name,
        pipe: u16,
        from: Name,
        to: Name,
        there: Rates,
        back: Rates,
    },
    /// The node gets an OS, and is off.
    Load {
        node: Name,
        os: Name,
    },
    /// The node boots.
    Boot {
        node: Name,
    },
    /// The node tells its boot state.
    Poll {
        node: Name,
    },
    /// The node has no OS and no pipe, and is off.
    Wipe {
        node: Name,
    },
}

/// The answer of a device.
#[derive(Clone, Copy, PartialEq, Eq)]
pub enum Answer {
    /// The command was done.
    Done,
    /// To a poll, the boot state.
    State(Boot),
}

/// The reason why a call was not answered.
#[derive(Clone, Copy, Debug, PartialEq, Eq)]
pub enum Fault {
    /// The disk or the device failed.
    Failed,
    /// The plant is stopped.
    Stopped,
}

/// The state of a node: its OS, its boot state and its pipes.
#[derive(Clone, Copy, PartialEq, Eq)]
pub struct NodeRow {
    pub os: Option<Name>,
    pub state: Boot,
    /// The number of pipes that are set.
    pub pipes: u32,
}

impl DeviceOp {
    /// The device that the command goes to.
    pub fn device(&self) -> Name
        ensures { result ≡ device_of self.now }
    {
        match self {
            DeviceOp::Join { switch, .. } | DeviceOp::Leave { switch, .. } => *switch,
            DeviceOp::Shape { node, .. }
            | DeviceOp::Load { node, .. }
            | DeviceOp::Boot { node }
            | DeviceOp::Poll { node }
            | DeviceOp::Wipe { node } => *node,
        }
    }
}
