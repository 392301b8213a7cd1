use lab_base::{Name, Rates};

/// The most pipes of a node: 16 bits number them.
pub const MAX_PIPES: u32 = 65_536;

/// A pipe that a node holds, with its number.
#[derive(Clone, Copy, PartialEq, Eq)]
pub struct PipeRow {
    pub pipe: u16,
    pub from: Name,
    pub to: Name,
    pub there: Rates,
    pub back: Rates,
}

/// A device did not tell what it holds.
#[derive(Clone, Copy, Debug, PartialEq, Eq)]
pub struct ReadFailed;
