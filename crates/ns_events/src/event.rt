use lab_base::{Name, Rates};

/// The kind of a link's or LAN's event.
#[derive(Clone, Copy)]
pub enum What {
    /// The link loses everything from then on.
    Down,
    /// The link has the rates of its text again.
    Up,
    /// The link has these rates.
    Rates(Rates),
}

/// A scheduled event of a link or LAN.
#[derive(Clone, Copy)]
pub struct Event {
    /// The time in microseconds, at most 1,000,000,000,000.
    pub at: u64,
    /// The link or LAN.
    pub link: Name,
    pub what: What,
    /// The line of the text, from 1.
    pub line: u32,
}
