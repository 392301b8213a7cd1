use lab_base::{Name, What};

/// No swap of that name is open.
#[derive(Clone, Copy, PartialEq, Eq)]
pub struct NotOpen;

/// The reason why a swap was not opened.
#[derive(Clone, Copy, PartialEq, Eq)]
pub enum NotOpened {
    /// The experiment has an open swap.
    Busy(Name),
    /// So many swaps are open that there is no room for another.
    TooManyOpen(u16),
    /// Begin could not be written.
    Stuck(What),
    /// The plant stopped.
    Stopped,
}
