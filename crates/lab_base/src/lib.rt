//! Names, numbers, lists and texts of a lab, and the faults of a text.
#![tactic(auto)]

mod boot;
mod fault;
mod fields;
mod ids;
mod items;
mod lines;
mod memory;
mod name;
mod number;
mod parts;
mod pieces;
mod rates;
mod text;
mod what;

pub use boot::Boot;
pub use fault::{Kind, TextFault, TextRefused, both};
pub use fields::{Parts, fields_in, parted};
pub use ids::{IfaceId, NodeId, SwitchId, TrunkId, VlanId};
pub use items::{Items, Tags};
pub use lines::{FirstLine, first_line, is_skipped};
pub use memory::Memory;
pub use name::{BadName, MAX_NAME, Name};
pub use number::{BadNumber, read_number};
pub use parts::{ListRead, add_read, name_in, number_in};
pub use pieces::{Piece, push_pieces, text_of_pieces};
pub use rates::Rates;
pub use text::{MAX_PAYLOAD_TEXT, TEXT_LIMIT, Text};
pub use what::What;
