//! A plant in the files of a folder: the two sides of the journal, and a text of what the devices hold.
#![tactic(auto)]

mod answers;
mod boots;
mod entry;
mod folder_lab;
mod lab_plant;
mod lab_tables;
mod laws;
mod lines;
mod lines_kept;
mod marks;
mod obey;
mod print;
mod read;
mod readings;
mod ready;
mod sending;
mod tables;
mod tells;

pub use entry::{Entry, Key};
pub use folder_lab::{FileLab, FolderLab};
pub use laws::{folders_keep, tables_are_read_back, tables_hold_a_world};
pub use lines_kept::{Line, Spot};
pub use tables::{Obeyed, Tables};
