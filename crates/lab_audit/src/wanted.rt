use swap_plan::Port;

/// A row that a claimed mapping wants.
#[derive(Drop)]
pub struct Wanted {
    pub row: Port,
    /// Whether it is a mapping with which an experiment stands in the lab, and none of one that moves.
    pub stands: bool,
}
