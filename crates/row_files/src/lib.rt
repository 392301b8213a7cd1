//! Files that rows name: scripts, with their marked lines, and ends of runs.
#![tactic(auto)]

mod files;
mod marked;

pub use files::{bytes_in, ends_of, is_there, letters_in, remove, script_of, scripts_of, text_in};
pub use marked::Marked;
