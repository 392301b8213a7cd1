// A search.
use crate::table::Table;
use node_maps::{Candidates, Mapper, Rooms};

/// A wiring that is mapped onto the free rest of a lab, with its candidates and the tables that tries use.
#[derive(Clone, Copy)]
pub struct Search<'a> {
    pub mapper: Mapper<'a>,
    pub table: &'a Table,
    pub candidates: &'a Candidates,
    /// The rooms of the candidates.
    pub rooms: &'a Rooms,
}
