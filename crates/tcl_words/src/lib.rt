//! The commands and words of a Tcl text.
//!
//! `split` reads a text into its commands. It passes over brackets and indexes inside words. The evaluation of a word splits them in their turn.
#![tactic(auto)]

mod flaw;
mod frame;
mod laws;
mod nesting;
mod parts;
mod splitting;
mod tokens;
mod word;
mod words;

pub use flaw::{Broken, Flaw};
pub use laws::splittings;
pub use parts::{reference_at, script_end};
pub use splitting::{line_of, split};
pub use word::{Command, Part, Reference, Word, WordKind};
