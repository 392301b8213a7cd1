//! Labs as ptop text: reading one, with the first fault and its line, and printing the canonical one.
#![tactic(auto)]

mod device;
mod link;
mod print;
mod read;
mod so_far;

pub use print::print_ptop;
pub use read::read_ptop;
