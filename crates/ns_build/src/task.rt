//! The tasks that commands, and new values of variables, ask for.

use lab_base::Name;
use ns_events::What;
use virt_topo::{AskedLink, Asks, Class};

/// The task that a command, or a variable's new value, asks for. Nodes go by their indexes in the order of creation; so do links and LANs.
#[derive(Drop)]
pub(crate) enum Task {
    /// The command is none of the testbed's.
    NotMine,
    /// The command changes nothing, and its result is empty.
    Nothing,
    /// The command ends the evaluation.
    Stop,
    MakeSimulator,
    /// A node of type `pc`, with the OS `default`.
    AddNode { name: Name },
    AddLink { link: AskedLink },
    AddClass { class: Class },
    AddEvent { event: Planned },
    ChangeNode { index: u16, change: NodeChange },
    ChangeLink { index: usize, change: LinkChange },
}

/// A scheduled event of a link or LAN.
#[derive(Clone, Copy)]
pub(crate) struct Planned {
    /// The time in microseconds.
    pub at: u64,
    /// The index of the link or LAN.
    pub index: usize,
    pub what: What,
    /// The line of the command at the top level that schedules it.
    pub line: u32,
}

/// A change of a node.
#[derive(Clone, Copy)]
pub(crate) enum NodeChange {
    Name(Name),
    Asks(Asks),
    Os(Name),
    /// The node of the lab that it has to be on.
    Fixed(Name),
}

/// A change of a link or LAN.
#[derive(Clone, Copy)]
pub(crate) enum LinkChange {
    Name(Name),
    /// The loss in millionths.
    Loss(u32),
    /// Whether its ends may share interfaces with those of other multiplexed links and LANs.
    Multiplexed(bool),
    /// The address of a node's end.
    Address { node: u16, address: u32 },
}
