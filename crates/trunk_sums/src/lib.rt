//! The uses of trunks by a mapping, kept as running sums while plugs change.
#![tactic(auto)]

mod crossing;
mod foreseen;
mod gains;
mod made;
mod start;
mod sums;
mod table;

pub use crossing::Crossing;
pub use foreseen::are_apart;
pub use gains::Gains;
pub use made::{Change, law_of_taking_back};
pub use sums::{EndRow, Sums};
pub use table::Crossings;
