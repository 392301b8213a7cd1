//! The claims of experiments on a lab, as a look tells them: machine by machine, VLAN id by VLAN id, and in numbers.
#![tactic(auto)]

mod claimed;
mod counts;
mod placed;
mod plugs;

pub use claimed::{has_tag, how_held, stand_of};
pub use counts::{ids_claimed, nodes_claimed};
pub use placed::hosted;
pub use plugs::plugs_by_node;
