//! The journal on both sides of the disk: its opening, its gates, appending, and its move onto the other side.
#![tactic(auto)]

mod compact;
mod emptying;
mod fault;
mod heads;
mod journal;
mod make;
mod open;
mod sides;
mod walk;
mod writing;

pub use fault::{AppendFault, CompactFault, OpenFault};
pub use heads::{HEADER, Head, LiveSide, OPEN, head_after, head_of, place_in};
pub use journal::Journal;
pub use open::Opened;
pub use walk::FIRST;
