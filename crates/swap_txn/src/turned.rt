use crate::{Live, Undoing};
use lab_base::What;

/// The answer of a turn.
#[derive(Drop)]
pub enum Turned<T> {
    /// The swap is in the state as before, with work left.
    Same(T),
    /// The swap is in the first later state with work left.
    Next(Live),
    /// The swap met trouble, and its undo begins.
    Trouble(Undoing, What),
    /// The swap stands still: neither this state nor an undo leads on.
    Stuck(T, What),
    /// The plant is stopped.
    Stopped,
}
