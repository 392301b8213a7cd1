/// The most switches of a lab.
pub const MAX_SWITCHES: usize = 64;

/// A bound on the trunks of a lab: they join switches and close no cycle, so there are fewer of them than switches.
pub const MAX_TRUNKS: usize = MAX_SWITCHES;

/// The most nodes of a lab.
pub const MAX_LAB_NODES: usize = 1_024;

/// The most types of a node.
pub const MAX_NODE_TYPES: usize = 8;

/// The most features of a node.
pub const MAX_FEATURES: usize = 8;

/// The most interfaces of a node.
pub const MAX_IFACES: usize = 16;
