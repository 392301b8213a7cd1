//! The expansion of the network that an NS file asks for into a wiring.
#![tactic(auto)]

mod addresses;
mod expansion;
mod explicit;
mod fault;
mod laws;
mod limits;
mod names;
mod nodes;
mod pipes;
mod segments;
mod used;

pub use expansion::expand;
pub use fault::PlanFault;
pub use laws::{addresses_are_least, expansions_are_sound};
pub use limits::{MAX_LINKS, MAX_MEMBERS};
pub use pipes::{lan_pipe, link_pipe};
