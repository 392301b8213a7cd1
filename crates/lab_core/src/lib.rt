//! The controller of a lab: it obeys the commands of a script one after another.
//!
//! A command is judged by `lab_judge`, and then done. One that is a list of commands, or only reads the devices, joins by a
//! case of `DoesCommand` in `specs/Commands.antt`, and one of `Controller::obey`.
#![tactic(auto)]

mod auditing;
mod compaction;
mod controller;
mod fault;
mod laws;
mod perform;
mod play;
mod serve;
mod sides;
mod swapping;

pub use controller::Controller;
pub use fault::CoreFault;
pub use journal_disk::OpenFault;
pub use laws::{lab_steps, labs_are_kept, open_swaps, promises, recoveries, solutions};
pub use sides::journals;
