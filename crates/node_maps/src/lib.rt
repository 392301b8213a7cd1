//! Node maps: the candidates of virtual nodes, the interface rule, and the mapping of a node map.
#![tactic(auto)]

mod divisor;
mod ends;
mod ifaces;
mod index;
mod kinds;
mod lists;
mod mapped;
mod mapper;
mod marked;
mod rooms;
mod suited;

pub use ends::{End, ends_of};
pub use ifaces::{Given, serve};
pub use index::{NodeIface, NodeIfaces};
pub use kinds::Kinds;
pub use lists::{Candidates, Place};
pub use mapped::{copy_places, is_feasible, node_map};
pub use mapper::{Mapper, has_room};
pub use marked::{Marked, marked_numbers};
pub use rooms::{Room, Rooms};
pub use suited::candidates;
