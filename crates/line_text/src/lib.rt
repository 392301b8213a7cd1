//! Fields, addresses and faults of lines, as the readers and printers of all texts of lines share them.
#![tactic(auto)]

mod address;
mod fields;
mod line_fault;
mod numbers;
mod pairs;
mod printing;
mod rates;
mod reading;

pub use address::address_in;
pub use fields::{counts, field_at, fields_after, name_at};
pub use line_fault::{LineFault, refusal};
pub use numbers::{short_in, weight_in};
pub use pairs::{has_byte, numbered_short, numbered_weight, pair_in};
pub use printing::{push_count, push_field, push_numbered, push_word};
pub use rates::{RateLimits, both_rates_at, push_both_rates};
pub use reading::{AddLine, read_lines};
