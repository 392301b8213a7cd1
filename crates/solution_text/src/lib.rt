//! Mappings as solution text: reading one, with the first fault and its line, and printing the canonical one.
#![tactic(auto)]

mod by_node;
mod ends;
mod given;
mod laws;
mod lines;
mod names;
mod near;
mod print;
mod read;

pub use laws::{texts_are_of_one, texts_are_read_back};
pub use print::{print_end, print_solution};
pub use read::read_solution;
