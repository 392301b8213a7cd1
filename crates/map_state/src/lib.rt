//! A node map that tries change in place.
//! It keeps by node the number of its virtual nodes, by class and type the number of members, by trunk the use, and the parts of its cost.
#![tactic(auto)]

mod chosen;
mod full;
mod give;
mod hosting;
mod joints;
mod members;
mod placing;
mod predicted;
mod remake;
mod search;
mod serving;
mod softs;
mod spare;
mod speeds;
mod state;
mod table;
mod ties;

pub use chosen::Chosen;
pub use hosting::{Hosting, Outcome};
pub use placing::Placing;
pub use predicted::Predicted;
pub use search::Search;
pub use state::MapState;
pub use table::Table;
