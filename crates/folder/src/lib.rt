//! The folder of a lab: what its files hold, what they tell, and which of them has the text of the tables.
#![tactic(auto)]

mod folder;
mod folder_files;
mod named_calls;
mod named_folder;
mod paths;
mod settling;

pub use folder::Folder;
pub use folder_files::{FolderFiles, Stamp, TextName};
pub use named_folder::{Durable, NamedFolder};
pub use paths::Paths;
pub use settling::is_torn;
