//! The plant: the disk with its two sides, the devices, and the drills that make them fail.
#![tactic(auto)]

mod device;
mod drill;
mod laws;
mod moment;
mod pipe_row;
mod plant;
mod step;
mod tables;

pub use device::{Answer, DeviceOp, Fault, NodeRow};
pub use drill::{Drill, DrillFault, How, Pick};
pub use laws::{answers_are_one, possible_images};
pub use moment::{Faults, Moment, Taken};
pub use pipe_row::{MAX_PIPES, PipeRow, ReadFailed};
pub use plant::Plant;
pub use step::{Side, Step};
pub use tables::Tables;
