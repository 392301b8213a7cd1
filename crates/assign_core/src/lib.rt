//! The search: FirstFit, the exact search, and what is answered where candidates are few or many.
#![tactic(auto)]

mod begin;
mod exact;
mod first;
mod prefix;
mod whole;

pub use exact::{MAX_CHOICES, best_of_all};
pub use first::first_fit;
pub use node_maps::{Candidates, candidates};
pub use whole::{Solved, are_few, solve};
