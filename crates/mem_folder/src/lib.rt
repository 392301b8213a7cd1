//! The files of a folder in memory, which tell what they hold and what happened to them. The folder stops, and loses power, where its user chooses.
#![tactic(auto)]

mod losing;
mod mem_calls;
mod mem_folder;
mod sides;
mod texts;

pub use mem_folder::MemFolder;
