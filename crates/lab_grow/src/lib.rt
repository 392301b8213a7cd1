//! The experiments of a lab over another lab: the same ones, with the same places, plugs and VLAN ids.
#![tactic(auto)]

mod growing;
mod laws;
mod obstacle;
mod reasons;
mod sides;
mod standing;
mod words;

pub use growing::{Grown, grow};
pub use laws::{devices_stay, grown_labs_are_the_same};
pub use obstacle::Obstacle;
pub use sides::{Carried, carry_over};
pub use words::told;
