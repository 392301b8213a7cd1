//! The networks that NS files ask for.
//!
//! `read_ns` runs a text over a host of testbed commands. A command joins by a keyword, a case of `judged` in
//! `specs/`, and a method of `Network` that judges it.
#![tactic(auto)]

mod asked;
mod changes;
mod checks;
mod classes;
mod events;
mod host;
mod judging;
mod keywords;
mod laws;
mod links;
mod naming;
mod network;
mod objects;
mod refusal;
mod settings;
mod task;
mod words;

pub use asked::{Asked, read_ns};
pub use events::MAX_EVENTS;
pub use laws::{meaning_is_one, words_stand_for_objects};
