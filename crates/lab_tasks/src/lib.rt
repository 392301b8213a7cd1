//! The task of a command, or what refuses it: the checks in their order, and what is judged of a mapping that is given.
//!
//! Nothing is searched and nothing is done here, and there is no plant.
#![tactic(auto)]

mod case;
mod change;
mod laws;
mod needs;
mod play;
mod subjects;
mod swap;
mod task;
mod ways;

pub use case::{Case, Present};
pub use change::{change_to, judge_modify_with};
pub use laws::link_events;
pub use needs::{
    bad_text, in_slot, need_found, need_idle_in, need_idle_out, need_lab, need_lab_and_name,
    need_none, need_open, need_room,
};
pub use play::{Play, Span, judge_event, judge_play};
pub use swap::{judge_swapin_with, swap_to};
pub use task::{NewSwap, Refusal, Task};
