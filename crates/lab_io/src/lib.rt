//! Where the script comes from and where the replies go.
#![tactic(auto)]

mod limits;
mod lines;
mod mem;
mod outside;
mod reader;
mod standard;

pub use limits::{MAX_LINE, MAX_PENDING, MAX_SCRIPT};
pub use mem::{MemSink, MemSource};
pub use outside::{Failed, Sink, Source, write_all};
pub use reader::{Line, LineFault, LineReader};
pub use standard::{StdSink, StdSource};
