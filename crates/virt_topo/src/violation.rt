use lab_base::{NodeId, TrunkId};

/// A rule of mappings.
#[derive(Clone, Copy, PartialEq, Eq)]
pub enum Broken {
    /// A virtual node is on a node that nobody else claims.
    F1,
    /// The virtual nodes of one node have one type and one OS, and are at most as many as that type's count.
    F2,
    /// Types, desires, features and classes agree.
    F3,
    /// A fixed virtual node is where it has to be.
    F4,
    /// A plug is on its virtual node's node, is no earlier end's, and is fast enough.
    F5,
    /// A trunk has room for what crosses it.
    F6,
    /// The switches of a segment are joined by trunks.
    F7,
    /// There are VLAN ids enough.
    F8,
}

/// The subject that breaks a rule.
#[derive(Clone, Copy, PartialEq, Eq)]
pub enum Subject {
    /// A virtual node: `F1`, `F3` and `F4`.
    Virt(u16),
    /// A node: `F2`.
    Node(NodeId),
    /// An end: `F5`.
    End(u16),
    /// A trunk: `F6`.
    Trunk(TrunkId),
    /// A segment: `F7`.
    Segment(u16),
    /// The VLAN ids: `F8`.
    Vlans,
}
