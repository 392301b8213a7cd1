//! The lab that the records of a journal stand for, kept in memory: a record is judged, then entered.
#![tactic(auto)]

mod claimed_lab;
mod ending;
mod entering;
mod experiments;
mod fault;
mod judging;
mod laws;
mod packing;
mod prepared;
mod replaying;
mod state;
mod texts;

pub use fault::{PrepareFault, ReplayFault};
pub use laws::{endings, texts_are_canonical};
pub use prepared::Prepared;
pub use state::LabState;
