//! The sides of a journal as bytes that somebody read: their heads, the records behind open gates, and those behind closed ones.
#![tactic(auto)]

mod body;
mod closed;
mod heads;
mod read;
mod walking;

pub use closed::behind;
pub use heads::{is_cut, shut_head};
pub use read::{Read, bytes_of, read_sides};
pub use walking::{Ended, Walked, walk};
