//! Wirings, mappings, the phases of an experiment, and the networks of NS files.
#![tactic(auto)]

mod check;
mod copy;
mod ends;
mod experiment;
mod fault;
mod known;
mod limits;
mod loads;
mod mapping;
mod pipes;
mod repeats;
mod sharing;
mod topo;
mod violation;
mod wiring;

pub use copy::copy_classes;
pub use experiment::{Experiment, Phase};
pub use fault::WiringFault;
pub use known::knows_all;
pub use limits::{
    END_NUMBERS, MAX_CLASSES, MAX_DESIRES, MAX_ENDS, MAX_HOST, MAX_KBPS, MAX_MICROS, MAX_PPM,
    MAX_SEGMENT_ENDS, MAX_SEGMENTS, MAX_SOFT_WEIGHT, MAX_TOPOLOGY_NODES, MAX_TYPES, MAX_WEIGHT,
    keeps_limits, limits_class, limits_node, limits_pipe, limits_segment,
};
pub use loads::{Load, loads_of};
pub use mapping::{Mapped, Mapping};
pub use pipes::{has_bad_pipe, is_multiplexed_at, owner_at};
pub use repeats::{has_same, has_twice, repeat_desire, repeat_node_of, repeat_type};
pub use sharing::has_multiplexed;
pub use topo::{AskedLink, AskedNode, Topo};
pub use violation::{Broken, Subject};
pub use wiring::{Asks, Class, Pipe, Segment, VirtEnd, VirtNode, Wiring};
