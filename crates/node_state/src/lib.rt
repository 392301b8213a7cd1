//! The boot states of nodes: which may follow which, and how long a booting node is watched.
#![tactic(auto)]

mod pairs;
mod watch;

pub use pairs::lawful;
pub use watch::{MAX_POLLS, Seen, Watch};
