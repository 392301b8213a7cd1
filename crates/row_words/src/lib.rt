//! Words of the rows of all layers, and why one is not told.
#![tactic(auto)]

mod action;
mod row_fault;
mod words;

pub use action::Words;
pub use row_fault::RowFault;
pub use words::{
    Halves, at_bar, number, number_at, pair_of, parts_of, push_answer, push_number, push_numbers,
    text_of,
};
