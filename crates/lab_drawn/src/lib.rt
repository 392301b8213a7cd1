//! The picture of the lab of two sides.
#![tactic(auto)]

mod picture;

pub use picture::{picture_in, picture_of};
