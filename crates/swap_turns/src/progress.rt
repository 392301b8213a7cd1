ghost use Rattle.std.specs.Prelude.{◌≡◌};

use lab_base::What;
use swap_txn::Ended;

/// The outcome of a turn, or of all turns to a swap's end.
#[derive(Clone, Copy, PartialEq, Eq)]
pub enum Progress {
    /// The swap is still open.
    More,
    /// The swap met that trouble, and its undo begins.
    Trouble(What),
    /// The swap has ended: its last record is durable.
    Ended(Ended),
    /// The experiment still moves, and its swap is closed; or a call of the journal failed.
    Stuck(What),
    /// The plant stopped.
    Stopped,
}

impl Progress {
    ghost use Rattle.swap_turns.specs.Telling.{over_of};

    /// The end of the swap, if its last record is durable.
    pub fn ended(&self) -> Option<Ended>
        ensures { result ≡ over_of self.now }
    {
        match self {
            Progress::Ended(ended) => Some(*ended),
            Progress::More | Progress::Trouble(_) | Progress::Stuck(_) | Progress::Stopped => None,
        }
    }
}
