//! Laws over the whole run. Where nothing goes wrong outside, it is done and complete. The course of an open swap is its experiment's own commands.
//! While it is open, a swap is turned no more often than it has commands.
#![tactic(auto)]

mod laws;

pub use laws::{
    batches, completeness, courses, cut_courses, few_commands, quiet_commands, swaps_end,
    turns_have_room,
};
