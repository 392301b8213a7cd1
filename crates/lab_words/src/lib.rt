//! The command line of the program: which folder, which cost rule and which script its words choose.
#![tactic(auto)]

mod place;
mod words;

pub use place::{Place, PlaceFault, place_of};
pub use words::{Chosen, read_words};
