//! A look at the sides of a lab's journal, without a change: its lab as text, and what its sides hold.
#![tactic(auto)]

mod beside;
mod checking;
mod damage;
mod laws;
mod looked;
mod records;
mod report;
mod seats;
mod seen;
mod tables;
mod text;
mod trunks;

pub use beside::Beside;
pub use checking::{CheckLines, CheckOptions, check};
pub use damage::is_damaged;
pub use laws::{colours_are_claims, free_is_unclaimed, lost_gates_are_told};
pub use looked::{Looked, look};
pub use records::LISTED;
pub use report::{Report, SideReport, Standing, report_of};
pub use seen::view_of;
pub use tables::TablesSeen;
pub use text::{Shown, text_in, text_of};
