//! Annealing and descent from a feasible node map.
#![tactic(auto)]

mod descent;
mod known;
mod moves;
mod notes;
mod prepared;
mod priced;
mod resting;
mod step;
mod tried;
mod walk;

pub use descent::{descend, descend_by};
pub use moves::cost_of;
pub use prepared::Prepared;
pub use priced::Priced;
pub use walk::{anneal, anneal_by};
