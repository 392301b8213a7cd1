//! Runs of the program over a folder, one after another, however each of them ends.
#![tactic(auto)]

mod after;
mod laws;

pub use after::{After, run_over};
pub use laws::folders;
