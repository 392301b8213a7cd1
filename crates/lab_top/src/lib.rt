//! One run of the program: the script is read command by command, and each is obeyed and answered before the next.
#![tactic(auto)]

mod command;
mod commands;
mod generated;
mod laws;
mod plants;
mod reply_takers;
mod session;
mod status;
mod top;

pub use lab_words::{Place, PlaceFault, place_of};
pub use laws::{audits, bad_journals, recoveries, runs, turns};
pub use plants::every_plant;
pub use status::Status;
pub use top::labctl;
