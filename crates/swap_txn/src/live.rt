use crate::last::last_of;
use crate::named::any;
use crate::sending::Sending;
use crate::work::Work;
use crate::{Begun, Booting, Cabling, Clearing, Ended, Loading, Ready, Turned, Undoing, Undone};
use journal_disk::Journal;
use journal_rec::LAST_RECORD;
use lab_base::{Memory, Name};
use plant::Plant;
use std::alloc::Global;
use swap_plan::Ops;

/// A swap whose Begin is durable, in its present state.
#[derive(Drop)]
pub enum Live {
    Begun(Begun),
    Clearing(Clearing),
    Cabling(Cabling),
    Loading(Loading),
    Booting(Booting),
    Ready(Ready),
    Undoing(Undoing),
    Undone(Undone),
    Ended(Ended),
}

impl Live {
    ghost use Rattle.std.specs.Prelude.{◌≡◌, ◌≤◌, ◌+◌, ◌↔◌, IfOk, IsTrue, List};
    ghost use Rattle.plant.specs.Events.{Event};
    ghost use Rattle.journal_disk.specs.Standing.{length_of, limit_of};
    ghost use Rattle.journal_disk.specs.declared.journal.Journal.{Journal as AnyJournal};
    ghost use Rattle.swap_txn.specs.Facts.{HandsOn, StartsAt, exp_of};
    ghost use Rattle.swap_txn.specs.Steps.{Stands, live_of};
    ghost use Rattle.swap_txn.specs.Turns.{Turns, Fits, HasWork, IsStopped, IfStanding, begun_again};

    /// The experiment of the swap. The last record of a swap makes the journal at most 39 bytes longer.
    pub fn exp(&self) -> Name
        ensures exp { result ≡ exp_of self.now }
        ensures room { (j : AnyJournal) → length_of j + LAST_RECORD ≤ limit_of j → Fits self.now j }
    {
        let exp = self.name();
        // A name has at most 32 bytes.
        let _bytes = exp.bytes();
        exp
    }

    fn name(&self) -> Name
        ensures { result ≡ exp_of self.now }
    {
        match self {
            Live::Begun(state) => state.work.exp,
            Live::Clearing(state) => state.work.exp,
            Live::Cabling(state) => state.work.exp,
            Live::Loading(state) => state.work.exp,
            Live::Booting(state) => state.work.exp,
            Live::Ready(state) => state.work.exp,
            Live::Undoing(state) => state.work.exp,
            Live::Undone(state) => state.work.exp,
            Live::Ended(ended) => ended.exp,
        }
    }

    /// A swap whose Begin is durable already, as it is begun again. A swap-out, where `out`, goes on from its beginning. A swap-in or a change begins
    /// its undo.
    pub fn again(alloc: Global, exp: Name, ops: Ops, out: bool) -> Result<Live, Memory>
        ensures live { IfOk result (λ live. live ≡ begun_again exp ops.commands ops.undo ops.inside out) }
        ensures facts { IfOk result (λ live. (trace : List Event) → StartsAt trace live) }
    {
        let last = match last_of(alloc, exp, out) {
            Ok(last) => last,
            Err(memory) => {
                drop(ops);
                return Err(memory);
            }
        };
        let Ops {
            commands,
            undo,
            inside,
        } = ops;
        let work = if out {
            drop(undo);
            Work {
                exp,
                sending: Sending::new(commands),
                last,
                commit: true,
                inside: false,
                why: None,
                back: None,
            }
        } else {
            drop(commands);
            Work {
                exp,
                sending: Sending::new(undo),
                last,
                commit: false,
                inside,
                why: None,
                back: None,
            }
        };
        Ok(work.live())
    }

    /// Makes one turn of the present state. A swap that ended stays as it is.
    pub fn turn<P: Plant>(self, journal: &mut Journal, plant: &mut P) -> Turned<Live>
        requires stands { Stands (P.seen plant.old).told journal.old }
        requires fits { Fits self journal.old }
        ensures turns { Turns self (P.seen plant.old) (P.seen plant.new) journal.old journal.new result }
        ensures stopped { HasWork self → (IsStopped result ↔ IsTrue (P.seen plant.new).stopped) }
        ensures stands { IfStanding result (Stands (P.seen plant.new).told journal.new) }
        ensures facts { HandsOn (P.seen plant.old).told (P.seen plant.new).told self result }
        ensures limit { limit_of journal.new ≡ limit_of journal.old }
        ensures live { live_of journal.new ≡ live_of journal.old }
    {
        match self {
            Live::Begun(state) => any(state.turn(journal, plant)),
            Live::Clearing(state) => any(state.turn(journal, plant)),
            Live::Cabling(state) => any(state.turn(journal, plant)),
            Live::Loading(state) => any(state.turn(journal, plant)),
            Live::Booting(state) => any(state.turn(journal, plant)),
            Live::Ready(state) => any(state.turn(journal, plant)),
            Live::Undoing(state) => any(state.turn(journal, plant)),
            Live::Undone(state) => any(state.turn(journal, plant)),
            Live::Ended(ended) => Turned::Same(Live::Ended(ended)),
        }
    }
}
