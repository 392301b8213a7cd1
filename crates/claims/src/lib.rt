//! The claims of a lab's experiments, and the rest that they leave.
#![tactic(auto)]

mod claim;
mod claims;
mod fault;
mod hold;
mod laws;
mod left;
mod tables;
mod tags;

pub use claim::Claim;
pub use claims::{Claims, MAX_EXPERIMENTS};
pub use fault::TakeFault;
pub use hold::Hold;
pub use laws::{
    dropped, few, free_tags, gone, left_by_others, made, may_add, narrowed, none, owners, put,
};
