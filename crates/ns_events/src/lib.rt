//! Scheduled link events: those that are due in a span of time, and the wiring that each leaves.
#![tactic(auto)]

mod applied;
mod event;
mod fault;
mod laws;
mod pipes;
mod rates;
mod schedules;

pub use applied::{apply, lacks_shape};
pub use event::{Event, What};
pub use fault::ApplyFault;
pub use laws::{
    applied_is_one, given_rates_are_shaped, schedule_is_one, shapes_stay, wirings_stay_sound,
};
pub use schedules::schedule;
