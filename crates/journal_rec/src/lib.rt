//! Records of the journal, their one spelling as bytes, and records in one piece, as a side holds them after its header.
#![tactic(auto)]

mod encoded;
mod fault;
mod laws;
mod limits;
mod packed;
mod reading;
mod record;
mod writing;

pub use encoded::Encoded;
pub use fault::RecFault;
pub use laws::one_spelling;
pub use limits::{LAST_RECORD, LAST_RECORDS, MAX_JOURNAL};
pub use packed::Packed;
pub use reading::decode;
pub use record::{Found, Record, Way};
pub use writing::encode;
