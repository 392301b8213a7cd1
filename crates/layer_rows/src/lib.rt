//! Rows of the layers below the controller, each a line, over the plant in memory: commands and drills, the journal and its records, and swaps.
//! The module `row` lists their forms.
#![tactic(auto)]

mod answers;
mod boots;
mod bytes;
mod devices;
mod disk;
mod drills;
mod journals;
mod moves;
mod plans;
mod readings;
mod records;
mod row;
mod swaps;

pub use answers::{boot_word, done_word, letters, yes_or_no};
pub use bytes::{bytes_of, push_spelled};
pub use row::{told, told_of_plant};
