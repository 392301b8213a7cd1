//! The states of one swap, each consumed by its turn.
#![tactic(auto)]

mod at;
mod ended;
mod last;
mod laws;
mod live;
mod named;
mod planned;
mod position;
mod sending;
mod stage;
mod state;
mod turned;
mod watched;
mod way_back;
mod work;
mod write;

pub use at::{Begun, Booting, Cabling, Clearing, Loading, Ready, Undoing, Undone};
pub use ended::Ended;
pub use laws::facts_alone;
pub use live::Live;
pub use planned::Planned;
pub use turned::Turned;
