//! The words of NS files: quantities, addresses and the names of objects.
#![tactic(auto)]

mod addresses;
mod laws;
mod names;
mod numeral;
mod quantities;
mod units;

pub use addresses::address;
pub use laws::values_are_one;
pub use names::{Numbered, numbered_name, object_name};
pub use quantities::{MAX_TIME, bandwidth, delay, loss, time};
