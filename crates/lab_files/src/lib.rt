//! The files of a lab's folder, opened to be read alone.
#![tactic(auto)]

mod reading;

pub use reading::{file, tables_in};
