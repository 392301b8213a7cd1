//! From the text of an NS file to the wiring of its network.
#![tactic(auto)]

mod laws;
mod read;

pub use laws::{script_is_one, wiring_is_one};
pub use read::{Printed, Script, read_and_print, read_network, read_script};
