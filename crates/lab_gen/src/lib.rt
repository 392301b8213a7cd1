//! A generated run: its script, by its number, and the summary of its replies.
#![tactic(auto)]

mod lines;
mod script;
mod source;
mod tally;

pub use script::generate;
pub use source::TextSource;
pub use tally::{Tally, words_of_replies};
