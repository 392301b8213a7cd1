// A swap: it begins, is turned, and ends.
ghost use Rattle.std.specs.Result.{IfErr};
ghost use Rattle.std.specs.Prelude.{◌≡◌, ◌↔◌, ◌≤◌, ◌+◌, ◌<◌, IsTrue, IfOk, OnErr, OnOk, length, List, ℕ};
ghost use Rattle.journal_rec.specs.Payloads.{IsBody, IsRecord, IsShort};
ghost use Rattle.journal_rec.specs.declared.record.Record.{Record as AnyRecord};
ghost use Rattle.journal_rec.specs.declared.record.Record.TheVariants as records;
ghost use Rattle.journal_rec.specs.declared.record.Way.{Way as AnyWay};
ghost use Rattle.journal_disk.specs.Standing.{limit_of, length_of};
ghost use Rattle.records_model.specs.Labs.{Follows, Move, Sane};
ghost use Rattle.swap_txn.specs.States.{unsent};
ghost use Rattle.swap_txn.specs.Steps.{Stands};
ghost use Rattle.swap_txn.specs.declared.live.Live.{Live};
ghost use Rattle.swap_turns.specs.Running.{OpenSwap as RunningSwap, Working};
ghost use Rattle.swap_turns.specs.Swaps.{Swap as SwapOf};
ghost use Rattle.swap_mgr.specs.Managing.{Holds, IfNothingSent, IfSent, IsAfterOpening, IsManagingFor, IsStopOpening};
ghost use Rattle.swap_mgr.specs.Open.{HasOpen};
ghost use Rattle.swap_mgr.specs.Turns.{IsStop};
ghost use Rattle.lab_state.specs.Changes.{after, CanEnter};
ghost use Rattle.lab_state.specs.Texts.{the_texts};
ghost use Rattle.lab_core.specs.Swapping.{HasEndedIn, HasTried, HasTurnedIn, IsPlanned, progress_answer, reply_of_done, reply_of_over, undone_by, unopened_answer};
ghost use Rattle.lab_tasks.specs.Tasks.{IsBegin, MayFollow};

use crate::perform::prepare;
use crate::{Controller, CoreFault};
use journal_disk::Journal;
use journal_rec::Record;
use lab_base::{Memory, Name};
use lab_state::{LabState, Prepared};
use lab_tasks::NewSwap;
use plant::Plant;
use recovery::end_move;
use script_text::{FailedEnd, Reply};
use std::alloc::Global;
use swap_mgr::{MAX_OPEN, Manager, NotOpened, Progress};
use swap_plan::Ops;
use swap_txn::{Ended, Planned};

/// Plans the swap of a record Begin.
fn plan_swap(alloc: Global, begin: Record, ops: Ops) -> Result<Planned, Memory>
    requires short { IsShort begin }
    requires begins { IsBegin begin }
    ensures body { IfOk result (λ p. IsBody p.begin begin) }
    ensures forth { (exp : List ℕ) (way : AnyWay) → begin ≡ records.Begin exp way → IfOk result (λ p. p.forth ≡ unsent exp way ops.commands ops.undo) }
{
    let Record::Begin { exp, way } = begin else {
        unreachable!()
    };
    Planned::new(alloc, exp, ops, way)
}

/// A swap that was prepared and planned.
#[derive(Drop)]
pub(crate) struct ReadySwap {
    pub(crate) prepared: Prepared,
    pub(crate) planned: Planned,
}

/// Prepares and plans the swap of a record Begin.
fn ready_swap(
    alloc: Global,
    lab: &mut LabState,
    begin: Record,
    ops: Ops,
) -> Result<ReadySwap, Memory>
    requires record { IsRecord begin }
    requires begins { IsBegin begin }
    requires follows { MayFollow lab.old.state begin }
    // its record can be entered
    ensures ok { IfOk result (λ r. Follows the_texts lab.old.state begin (after lab.old.state r.prepared)) }
    ensures enters { IfOk result (λ r. CanEnter lab.new r.prepared) }
    ensures sane { Sane lab.old.state }
    // it is planned whole
    ensures body { IfOk result (λ r. IsBody r.planned.begin begin) }
    ensures forth { (exp : List ℕ) (way : AnyWay) → begin ≡ records.Begin exp way → IfOk result (λ r. r.planned.forth ≡ unsent exp way ops.commands ops.undo) }
    // nothing is done yet
    ensures unchanged { lab.new.state ≡ lab.old.state }
{
    let prepared = match prepare(lab, &begin) {
        Ok(prepared) => prepared,
        Err(memory) => {
            drop(begin);
            drop(ops);
            return Err(memory);
        }
    };
    match plan_swap(alloc, begin, ops) {
        Ok(planned) => Ok(ReadySwap { prepared, planned }),
        Err(memory) => {
            drop(prepared);
            Err(memory)
        }
    }
}

/// Prepares and plans a swap.
pub(crate) fn prepare_swap(
    alloc: Global,
    lab: &mut LabState,
    swap: NewSwap,
) -> Result<ReadySwap, Memory>
    requires record { IsRecord (records.Begin swap.exp swap.way) }
    requires follows { MayFollow lab.old.state (records.Begin swap.exp swap.way) }
    // its record can be entered
    ensures follows { IfOk result (λ r. Follows the_texts lab.old.state (records.Begin swap.exp swap.way) (after lab.old.state r.prepared)) }
    ensures enters { IfOk result (λ r. CanEnter lab.new r.prepared) }
    ensures sane { Sane lab.old.state }
    // it is planned whole
    ensures body { IfOk result (λ r. IsBody r.planned.begin (records.Begin swap.exp swap.way)) }
    ensures forth { IfOk result (λ r. r.planned.forth ≡ unsent swap.exp swap.way swap.ops.commands swap.ops.undo) }
    // nothing is done yet
    ensures unchanged { lab.new.state ≡ lab.old.state }
{
    let NewSwap { exp, way, ops } = swap;
    ready_swap(alloc, lab, Record::Begin { exp, way }, ops)
}

/// Opens a swap whose Begin was prepared for the lab.
pub(crate) fn open_swap<P: Plant>(
    lab: &mut LabState,
    journal: &mut Journal,
    swaps: &mut Manager,
    ready: ReadySwap,
    plant: &mut P,
) -> Result<(), NotOpened>
    // the journal has room for its record
    requires stands { Stands (P.seen plant.old).told journal.old }
    requires fits { length_of journal.old + length ready.planned.begin ≤ limit_of journal.old }
    // the record can be entered, and no other swap is in its way
    requires enters { CanEnter lab.old ready.prepared }
    requires idle { HasOpen swaps.old ready.planned.forth.exp → ⊥ }
    requires room { length swaps.old < MAX_OPEN }
    // it is open and its record entered, or it was tried
    ensures tried { IfErr result HasTried }
    ensures begun { (pairs : List (RunningSwap × Live)) (p : SwapOf) (entry : AnyRecord) (move : Move)
        → Working the_texts (P.seen plant.old).told journal.old lab.old.state pairs → Holds swaps.old pairs
        → IsPlanned lab.old.state (after lab.old.state ready.prepared) journal.old ready.planned p entry move
        → IsAfterOpening the_texts pairs p lab.old.state (after lab.old.state ready.prepared) entry move
        (P.seen plant.old) (P.seen plant.new) journal.old journal.new swaps.new result }
    ensures lab { OnOk result (lab.new.state ≡ after lab.old.state ready.prepared) }
    // where it is not opened, the lab and the open swaps stay
    ensures unchanged { OnErr result ((lab.new.state ≡ lab.old.state) × (swaps.new ≡ swaps.old)) }
    ensures nothing { IfNothingSent result ((plant.new ≡ plant.old) × (journal.new ≡ journal.old)) }
    // the plant stopped exactly where that is told, and the limit stays
    ensures stopped { IfSent result (IsStopOpening result ↔ IsTrue (P.seen plant.new).stopped) }
    ensures limit { limit_of journal.new ≡ limit_of journal.old }
{
    let ReadySwap { prepared, planned } = ready;
    match swaps.open(planned, journal, plant) {
        Ok(()) => {
            lab.enter(prepared);
            Ok(())
        }
        Err(fault) => {
            drop(prepared);
            Err(fault)
        }
    }
}

impl Controller {
    /// Makes one turn of an open swap.
    pub(crate) fn turn_swap<P: Plant>(&mut self, exp: Name, plant: &mut P) -> Progress
        requires managed { IsManagingFor the_texts (P.seen plant.old).told self.old.journal self.old.lab self.old.swaps }
        requires is_open { HasOpen self.old.swaps exp }
        ensures turned { (pairs : List (RunningSwap × Live)) → Working the_texts (P.seen plant.old).told self.old.journal self.old.lab pairs
            → Holds self.old.swaps pairs
            → HasTurnedIn self.old.lab pairs exp (P.seen plant.old) (P.seen plant.new) self.old.journal self.new.journal result self.new.swaps self.new.lab }
        ensures stopped { IsStop result ↔ IsTrue (P.seen plant.new).stopped }
        ensures limit { limit_of self.new.journal ≡ limit_of self.old.journal }
    {
        // It is open.
        let Ok(progress) = self.swaps.turn(exp, &mut self.journal, plant) else {
            unreachable!()
        };
        end_move(&mut self.lab, exp, progress.ended());
        progress
    }

    /// Turns an open swap to its end.
    pub(crate) fn finish_swap<P: Plant>(&mut self, exp: Name, plant: &mut P) -> Progress
        requires managed { IsManagingFor the_texts (P.seen plant.old).told self.old.journal self.old.lab self.old.swaps }
        requires is_open { HasOpen self.old.swaps exp }
        ensures ended { (pairs : List (RunningSwap × Live)) → Working the_texts (P.seen plant.old).told self.old.journal self.old.lab pairs
            → Holds self.old.swaps pairs
            → HasEndedIn self.old.lab pairs exp (P.seen plant.old) (P.seen plant.new) self.old.journal self.new.journal result self.new.swaps self.new.lab }
        ensures stopped { IsStop result ↔ IsTrue (P.seen plant.new).stopped }
        ensures limit { limit_of self.new.journal ≡ limit_of self.old.journal }
    {
        // It is open.
        let Ok(progress) = self.swaps.finish(exp, &mut self.journal, plant) else {
            unreachable!()
        };
        end_move(&mut self.lab, exp, progress.ended());
        progress
    }
}

/// `in E` where the experiment is in, and `out E` where it is out.
fn reply_of_done(exp: Name, inside: bool) -> Reply
    ensures { result ≡ reply_of_done exp inside }
{
    if inside {
        Reply::In { exp }
    } else {
        Reply::Out { exp }
    }
}

/// Where the experiment is whose swap was undone.
fn undone_by(inside: bool) -> FailedEnd
    ensures { result ≡ undone_by inside }
{
    if inside {
        FailedEnd::In
    } else {
        FailedEnd::Out
    }
}

/// The reply after a swap that is over: the side on which the experiment is, or the trouble that began the undo.
fn reply_of_over(exp: Name, ended: Ended) -> Reply
    ensures { result ≡ reply_of_over exp ended.inside ended.why }
{
    let Ended { inside, why, .. } = ended;
    match why {
        None => reply_of_done(exp, inside),
        Some(what) => Reply::Failed {
            exp,
            end: undone_by(inside),
            what,
        },
    }
}

/// The reply after a turn.
pub(crate) fn reply_of_progress(exp: Name, progress: Progress) -> Result<Reply, CoreFault>
    ensures { result ≡ progress_answer exp progress }
{
    match progress {
        Progress::More => Ok(Reply::More { exp }),
        Progress::Trouble(what) => Ok(Reply::Trouble { exp, what }),
        Progress::Ended(ended) => Ok(reply_of_over(exp, ended)),
        Progress::Stuck(what) => Ok(Reply::Failed {
            exp,
            end: FailedEnd::Stuck,
            what,
        }),
        Progress::Stopped => Err(CoreFault::Stopped),
    }
}

/// The reply where a swap was not opened.
pub(crate) fn reply_of_unopened(exp: Name, fault: NotOpened) -> Result<Option<Reply>, CoreFault>
    requires { HasTried fault }
    ensures { result ≡ unopened_answer exp fault }
{
    match fault {
        NotOpened::Stuck(what) => Ok(Some(Reply::Failed {
            exp,
            end: FailedEnd::Stuck,
            what,
        })),
        NotOpened::Stopped => Err(CoreFault::Stopped),
        // It has none, and there is room for one more.
        NotOpened::Busy(_) | NotOpened::TooManyOpen(_) => unreachable!(),
    }
}
