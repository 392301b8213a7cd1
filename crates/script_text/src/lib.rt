//! Scripts and replies: the commands of a script's lines, and the text of each reply.
//!
//! A command joins by a variant of `Command` and a row of the table of words, `head_by`. A swap, which may have `open` before it, joins by `swap_by`.
//! A command with a block also joins by a variant of `OneBlock`, and one with two by one of `TwoBlocks`. A reply joins by a variant of `Reply` and
//! its text.
#![tactic(auto)]

mod command;
mod drill_heads;
mod heads;
mod next;
mod played;
mod replies;
mod reply;
mod served;
mod words;

pub use command::Command;
pub use heads::{MAX_LINES, MAX_MOMENT};
pub use next::{Next, ScriptFault, read_command};
pub use played::{played_all, played_until};
pub use replies::reply_text;
pub use reply::{AuditLine, FailedEnd, PhaseWord, Placed, Reply, Served, StatusLine, TagLine};
