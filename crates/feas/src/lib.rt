//! The checker of the eight rules of mappings.
#![tactic(auto)]

mod ends;
mod fault;
mod nodes;
mod places;
mod plugs;
mod segments;
mod trunks;
mod whole;

pub use fault::CheckFault;
pub use nodes::{may_share, number_of};
pub use places::{is_fixed_at, suits};
pub use whole::check;
