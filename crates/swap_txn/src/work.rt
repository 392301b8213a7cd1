// A swap with work left.
use crate::at::At;
use crate::sending::Sending;
use crate::stage::Stage;
use crate::way_back::WayBack;
use crate::write::write;
use crate::{Ended, Live, Turned};
use journal_disk::{AppendFault, Journal};
use journal_rec::Encoded;
use lab_base::{Name, What};
use plant::{Answer, Fault, Plant};
use std::marker::Model;

/// A swap with work left, on its way or on its way back.
pub struct Work {
    pub(crate) exp: Name,
    pub(crate) sending: Sending,
    /// The record that ends the swap.
    pub(crate) last: Encoded,
    /// Whether that record is Commit; else it is Abort.
    pub(crate) commit: bool,
    /// Whether the experiment is in the lab afterwards.
    pub(crate) inside: bool,
    /// The trouble that began it.
    pub(crate) why: Option<What>,
    /// The way back that trouble begins.
    pub(crate) back: Option<WayBack>,
}

impl Model for Work {
    ghost use Rattle.swap_txn.specs.States.{View};
    ghost use Rattle.swap_txn.specs.Ways.{view_in, HasRecords};

    ghost Value = { View };

    ghost view = { view_in };

    ghost invariant = { HasRecords };
}

impl Drop for Work {
    // Written out, so that a state that is dropped is one call to its callers.
    fn drop(self) {
        let Work {
            exp: _,
            sending,
            last,
            commit: _,
            inside: _,
            why: _,
            back,
        } = self;
        drop(sending);
        drop(last);
        drop(back);
    }
}

impl Work {
    ghost use Rattle.std.specs.Prelude.{◌≡◌, Result, Ok, Some, true, false};
    ghost use Rattle.plant.specs.Calls.{Fits as IsAnswer};
    ghost use Rattle.plant.specs.declared.device.DeviceOp.{DeviceOp as AnyOp};
    ghost use Rattle.journal_disk.specs.declared.fault.AppendFault.{AppendFault as Unwritten};
    ghost use Rattle.lab_model.specs.Courses.{answered, next, nothing_left};
    ghost use Rattle.swap_txn.specs.declared.stage.Stage.TheVariants.{Done};
    ghost use Rattle.swap_txn.specs.States.{stage_of};
    ghost use Rattle.swap_txn.specs.Steps.{Stands, Writes};
    ghost use Rattle.swap_txn.specs.Turns.{TurnOf, SentBy, EndedBy, HasRoom, last_of, state_of};
    ghost use Rattle.swap_txn.specs.Going.{CutBack, StaysAt};

    /// The list in which the next command stands.
    pub(crate) fn stage(&self) -> Stage
        ensures { result ≡ stage_of self.now.plan self.now.left }
    {
        self.sending.stage()
    }

    fn forth(self) -> Live
        requires { self.commit ≡ true }
        ensures { result ≡ state_of self }
    {
        match self.stage() {
            Stage::Clear => Live::Clearing(At::of(self)),
            Stage::Cable => Live::Cabling(At::of(self)),
            Stage::Load => Live::Loading(At::of(self)),
            Stage::Boot => Live::Booting(At::of(self)),
            Stage::Done => Live::Ready(At::of(self)),
        }
    }

    fn back(self) -> Live
        requires { self.commit ≡ false }
        ensures { result ≡ state_of self }
    {
        if self.stage() == Stage::Done {
            Live::Undone(At::of(self))
        } else {
            Live::Undoing(At::of(self))
        }
    }

    /// The state of the swap, by the work that is left.
    pub(crate) fn live(self) -> Live
        ensures { result ≡ state_of self }
    {
        if self.commit {
            self.forth()
        } else {
            self.back()
        }
    }

    /// Begins the way back, where there is one.
    fn turn_back(mut self, what: What) -> Turned<Work>
        ensures { CutBack self what self.undo result }
    {
        match self.back.take() {
            Some(back) => Turned::Trouble(back.undoing(self.exp, &what), what),
            None => Turned::Stuck(self, what),
        }
    }

    /// Goes on by the answer to the next command.
    fn go_on(mut self, answer: Answer) -> Turned<Work>
        requires is_left { stage_of self.plan self.left ≡ Done → ⊥ }
        requires fits { (op : AnyOp) → next self.left.todo self.left.watch self.left.boot ≡ Some op → IsAnswer op answer }
        ensures goes { SentBy self (answered self.left.todo self.left.watch self.left.boot (Ok answer)) result }
        ensures stays { StaysAt self result }
    {
        match self.sending.go_on(answer) {
            Ok(()) => Turned::Same(self),
            Err(what) => self.turn_back(what),
        }
    }

    /// Appends the last record.
    fn end<P: Plant>(self, journal: &mut Journal, plant: &mut P) -> Turned<Work>
        requires stands { Stands (P.seen plant.old).told journal.old }
        requires fits { HasRoom journal.old (last_of self) }
        ensures writes { (answer : Result (Unit {0}) Unwritten) × Writes (last_of self) (P.seen plant.old) (P.seen plant.new) journal.old journal.new answer
            × EndedBy self answer result }
        ensures stays { StaysAt self result }
    {
        match write(&self.last, journal, plant) {
            Ok(()) => Turned::Next(Live::Ended(Ended {
                exp: self.exp,
                inside: self.inside,
                committed: self.commit,
                why: self.why,
            })),
            Err(AppendFault::Plant) => Turned::Stuck(self, What::Journal),
            Err(AppendFault::Stopped) => Turned::Stopped,
            Err(AppendFault::Full { .. }) => unreachable!(),
        }
    }

    /// Sends the next command. Where none is left, it appends the last record.
    pub(crate) fn turn<P: Plant>(self, journal: &mut Journal, plant: &mut P) -> Turned<Work>
        requires stands { Stands (P.seen plant.old).told journal.old }
        requires fits { self.left ≡ nothing_left → HasRoom journal.old (last_of self) }
        ensures turns { TurnOf self (P.seen plant.old) (P.seen plant.new) journal.old journal.new result }
        ensures stays { StaysAt self result }
    {
        if self.stage() == Stage::Done {
            return self.end(journal, plant);
        }
        let op = self.sending.next();
        match plant.command(op) {
            Ok(answer) => self.go_on(answer),
            Err(Fault::Failed) => self.turn_back(What::Device(op.device())),
            Err(Fault::Stopped) => Turned::Stopped,
        }
    }
}
