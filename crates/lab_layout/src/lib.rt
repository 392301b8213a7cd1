//! Where everything stands in the picture of a lab: its switches as trees from left to right, and at the right of each switch its machines
//! in rows.
#![tactic(auto)]

mod apart;
mod columns;
mod drawn;
mod layout;
mod limits;
mod lists;
mod machines;
mod px;
mod rows;
mod tree;
mod trunks;
mod ways;
mod within;

pub use drawn::geometry_of;
pub use limits::{LEAST_HIGH, LEAST_WIDE, MAX_CELLS};
