//! A lab as an operator sees it: who holds which machine, what is claimed of each trunk, whose each VLAN id is; and its text.
#![tactic(auto)]

mod counts;
mod flags;
mod laws;
mod lines;
mod runs;
mod view;

pub use counts::{count_under, free_ids, free_machines, free_under, home_of};
pub use flags::{Flag, MAX_FLAGS, TINTS, flag_of, flag_of_exp, tints_of};
pub use laws::{experiments_differ, flags_differ, flags_stay, tints_differ};
pub use lines::lines_of;
pub use runs::{begins_run, owner_at, run_length};
pub use view::{Exp, Held, MAX_IDS, Machine, Seat, Stand, Trunk, View};
