//! Wirings as top text: reading one, with the first fault and its line, and printing the canonical one.
#![tactic(auto)]

mod adding;
mod judge;
mod keyed;
mod laws;
mod lines;
mod print;
mod read;
mod so_far;
mod tables;

pub use laws::{texts_are_of_one, texts_are_read_back};
pub use print::{print_top, virt_name};
pub use read::read_top;
