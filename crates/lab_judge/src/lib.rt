//! The judgement of a command in a lab: the first refusal in order, or its task.
//!
//! What searches nothing for a swap is judged by `lab_tasks`. A command joins by a case of `Judged` in `specs/Judge.antt`, and one of `judge`.
#![tactic(auto)]

mod command;
mod laws;
mod records;
mod replies;
mod run;
mod search;
mod space;
mod views;

pub use command::judge;
pub use laws::searches;
pub use run::{Queue, judge_batch, judge_run};
pub use space::Space;
