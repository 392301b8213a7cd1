// One turn of an open swap, and what it left.
ghost use Rattle.std.specs.Prelude.{◌≡◌, ◌↔◌, IfSome, IsTrue};
ghost use Rattle.journal_disk.specs.Standing.{limit_of};
ghost use Rattle.journal_disk.specs.declared.journal.Journal.{Journal as AnyJournal};
ghost use Rattle.records_model.specs.Labs.{LabState as AnyLabState, Texts};
ghost use Rattle.plant.specs.Seen.{Seen};
ghost use Rattle.swap_txn.specs.Facts.{exp_of};
ghost use Rattle.swap_txn.specs.Steps.{live_of};
ghost use Rattle.swap_turns.specs.Running.{OpenSwap};
ghost use Rattle.swap_turns.specs.Finishing.{IsOnWay};
ghost use Rattle.swap_turns.specs.OneTurn.{CanTurn, HasMade, IsLeftOnWay, IsReached, IsLeftBy, IsStop, TurnsLess, open_in};

use crate::Progress;
use journal_disk::Journal;
use lab_base::What;
use plant::Plant;
use swap_txn::{Ended, Live, Turned};

/// An open swap as a turn left it.
#[derive(Drop)]
pub enum TurnedSwap {
    /// The swap is still open. With trouble, the turn met that, and the undo begins.
    Open(Live, Option<What>),
    /// The swap has ended: its last record is durable.
    Over(Ended),
    /// The experiment still moves, and its swap is closed; or a call of the journal failed.
    Stuck(What),
    /// The plant stopped.
    Stopped,
}

impl TurnedSwap {
    ghost use Rattle.swap_turns.specs.Telling.{IsStop as IsStopTold, progress_of};

    /// The outcome of the turn.
    pub fn progress(&self) -> Progress
        ensures is { result ≡ progress_of self.now }
        ensures stopped { IsStopTold result ↔ IsStop self.now }
    {
        match self {
            TurnedSwap::Open(_, None) => Progress::More,
            TurnedSwap::Open(_, Some(what)) => Progress::Trouble(*what),
            TurnedSwap::Over(ended) => Progress::Ended(*ended),
            TurnedSwap::Stuck(what) => Progress::Stuck(*what),
            TurnedSwap::Stopped => Progress::Stopped,
        }
    }
}

fn reached(live: Live) -> TurnedSwap
    ensures { IsReached live result }
{
    match live {
        Live::Ended(ended) => TurnedSwap::Over(ended),
        live => TurnedSwap::Open(live, None),
    }
}

/// An open swap, by the answer of its state's turn.
pub(crate) fn left_of(turned: Turned<Live>) -> TurnedSwap
    ensures { IsLeftBy turned result }
{
    match turned {
        Turned::Same(next) => TurnedSwap::Open(next, None),
        Turned::Next(next) => reached(next),
        Turned::Trouble(undoing, what) => TurnedSwap::Open(Live::Undoing(undoing), Some(what)),
        Turned::Stuck(_live, what) => TurnedSwap::Stuck(what),
        Turned::Stopped => TurnedSwap::Stopped,
    }
}

/// Makes one turn of an open swap, at any place of any leg.
pub fn one_turn<P: Plant>(live: Live, journal: &mut Journal, plant: &mut P) -> TurnedSwap
    requires can { CanTurn (P.seen plant.old).told journal.old live }
    // The turn, what it left, and which experiment's swap that is.
    ensures turns { HasMade live (P.seen plant.old) (P.seen plant.new) journal.old journal.new result }
    ensures named { IfSome (open_in result) (λ x. exp_of x ≡ exp_of live) }
    // A swap on its way.
    ensures after { (t : Texts) (s : AnyLabState) (o : OpenSwap) (before : Seen) (first : AnyJournal)
        → IsOnWay t s o before (P.seen plant.old) first journal.old live
        → IsLeftOnWay t s o before (P.seen plant.new) first journal.new result }
    ensures less { TurnsLess live result }
    ensures stopped { IsStop result ↔ IsTrue (P.seen plant.new).stopped }
    // The journal's own.
    ensures limit { limit_of journal.new ≡ limit_of journal.old }
    ensures live { live_of journal.new ≡ live_of journal.old }
{
    left_of(live.turn(journal, plant))
}
