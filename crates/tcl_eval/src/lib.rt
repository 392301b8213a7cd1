//! The evaluation of a Tcl subset over a host.
#![tactic(auto)]

mod branches;
mod commands;
mod evaluation;
mod halts;
mod hosts;
mod laws;
mod limits;
mod lists;
mod literals;
mod machine;
mod numbers;
mod openings;
mod operators;
mod runs;

pub use hosts::{Called, Host, HostFault};
pub use laws::meaning_is_one;
pub use limits::BUDGET;
pub use machine::Machine;
pub use runs::Ran;
