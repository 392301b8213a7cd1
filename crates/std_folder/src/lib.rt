//! A folder of std's files. No clause tells what these do, so what is here is trusted.
#![tactic(auto)]

mod std_files;
mod std_folder;

pub use std_folder::StdFolder;
