//! Labs: switches, nodes, interfaces and trunks, and the sides of a trunk.
#![tactic(auto)]

mod builder;
mod fault;
mod forest;
mod free;
mod index;
mod lab;
mod laws;
mod limits;
mod parts;
mod tests_of;

pub use builder::LabBuilder;
pub use fault::LabFault;
pub use free::Free;
pub use lab::Lab;
pub use laws::joined_by_lists;
pub use limits::{
    MAX_FEATURES, MAX_IFACES, MAX_LAB_NODES, MAX_NODE_TYPES, MAX_SWITCHES, MAX_TRUNKS,
};
pub use parts::{Iface, Node, Trunk};
