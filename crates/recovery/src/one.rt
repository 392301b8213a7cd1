// The settling of one experiment.
ghost use Rattle.std.specs.Prelude.{◌≡◌, ◌↔◌, ◌⊎◌, IfOk, OnErr, IsErrOf, IsSome, IsTrue, false, is_none, is_some};
ghost use Rattle.journal_disk.specs.Standing.{limit_of};
ghost use Rattle.lab_model.specs.Courses.{commands, undo};
ghost use Rattle.records_model.specs.Labs.{lab_in};
ghost use Rattle.lab_state.specs.Texts.{the_texts};
ghost use Rattle.swap_txn.specs.Steps.{live_of};
ghost use Rattle.swap_txn.specs.Turns.{begun_again};
ghost use Rattle.swap_turns.specs.Causes.{IsLater};
ghost use Rattle.swap_turns.specs.Running.{AtWork};
ghost use Rattle.swap_turns.specs.Swaps.{IsSwap, Swap, Moves};
ghost use Rattle.swap_turns.specs.Telling.{IsClosed, IsStop};
ghost use Rattle.recovery.specs.One.{SuitsIf, IsMoving, EndsBy, CanEndBy, IsFinishedAs, IsAnswerOf, IsOverAs};

use crate::SettleFault;
use journal_disk::Journal;
use lab_base::{Memory, Name, What};
use lab_state::LabState;
use phys_lab::Lab;
use plant::Plant;
use std::alloc::Global;
use swap_plan::{Ops, plan_change, plan_in, plan_out};
use swap_turns::{Progress, finish};
use swap_txn::{Ended, Live};
use virt_topo::{Mapped, Phase};

/// The end of one experiment's settling.
#[derive(Clone, Copy, PartialEq, Eq)]
pub enum One {
    /// The experiment is settled, and out.
    Out,
    /// The experiment is settled, and in as before.
    In,
    /// The course was cut by that trouble, and the experiment still moves.
    Stuck(What),
}

/// The commands that settle a move: those of a swap-out, or of a swap-in or a change with its undo.
fn settling_ops(
    alloc: Global,
    lab: &Lab,
    old: &Option<Mapped>,
    new: &Option<Mapped>,
) -> Result<Ops, Memory>
    requires is_swap { IsSwap old.now new.now }
    requires old_suits { SuitsIf lab.now old.now }
    requires new_suits { SuitsIf lab.now new.now }
    ensures commands { IfOk result (λ ops. ops.commands ≡ commands lab.now old.now new.now) }
    ensures undo { IsSome new.now → IfOk result (λ ops. ops.undo ≡ undo lab.now old.now new.now) }
    ensures inside { IfOk result (λ ops. ops.inside ≡ is_some old.now) }
{
    match (old, new) {
        (None, Some(m)) => plan_in(alloc, lab, &m.wiring, &m.mapping, &m.tags),
        (Some(m), None) => plan_out(alloc, lab, &m.wiring, &m.mapping, &m.tags),
        (Some(from), Some(to)) => plan_change(alloc, lab, from, to),
        (None, None) => unreachable!(),
    }
}

/// The state in which the settling of a move begins.
fn again(alloc: Global, state: &LabState, exp: Name) -> Result<Live, Memory>
    requires { IsMoving state.now.state exp }
    ensures { IfOk result (λ live. (p : Swap) → p.name ≡ exp → Moves p state.now.state
        → live ≡ begun_again p.name (commands (lab_in state.now.state.lab) p.old p.new) (undo (lab_in state.now.state.lab) p.old p.new) (is_some p.old)
        (is_none p.new)) }
{
    let (Some(lab), Some(experiment)) = (state.lab(), state.experiment(exp)) else {
        unreachable!()
    };
    let Phase::Moving { old, new } = &experiment.phase else {
        unreachable!()
    };
    let ops = settling_ops(alloc, lab, old, new)?;
    Live::again(alloc, exp, ops, new.is_none())
}

/// Ends an experiment's move by the end of its swap. Where the swap has none, the lab stays as it is.
pub fn end_move(state: &mut LabState, exp: Name, end: Option<Ended>)
    requires { CanEndBy state.old.state exp end }
    ensures { EndsBy state.old.state exp end state.new.state }
{
    match end {
        Some(ended) => state.end_move(exp, ended.committed),
        None => {}
    }
}

/// Begins the settling of an experiment, and turns it to its end.
fn turned_to_end<P: Plant>(
    alloc: Global,
    state: &mut LabState,
    exp: Name,
    journal: &mut Journal,
    plant: &mut P,
) -> Result<Progress, Memory>
    requires work { AtWork the_texts (P.seen plant.old).told journal.old state.old.state }
    requires moves { IsMoving state.old.state exp }
    ensures over { IfOk result (λ end. (p : Swap) → p.name ≡ exp → Moves p state.old.state
        → IsFinishedAs the_texts state.old.state p (P.seen plant.old) (P.seen plant.new) journal.old journal.new state.new.state end) }
    ensures err { OnErr result ((state.new.state ≡ state.old.state) × (journal.new ≡ journal.old) × (plant.new ≡ plant.old)) }
    ensures closed { IfOk result IsClosed }
    ensures stopped { IfOk result (λ end. IsStop end ↔ IsTrue (P.seen plant.new).stopped) }
    ensures limit { limit_of journal.new ≡ limit_of journal.old }
    ensures live { live_of journal.new ≡ live_of journal.old }
{
    let live = again(alloc, state, exp)?;
    let finished = finish(live, journal, plant);
    end_move(state, exp, finished.ended());
    Ok(finished)
}

fn answer(finished: Progress) -> Result<One, SettleFault>
    requires { IsClosed finished }
    ensures { IsAnswerOf finished result }
{
    match finished {
        Progress::Ended(ended) => Ok(if ended.inside { One::In } else { One::Out }),
        Progress::Stuck(What::Journal) => Err(SettleFault::Plant),
        Progress::Stuck(what) => Ok(One::Stuck(what)),
        Progress::Stopped => Err(SettleFault::Stopped),
        Progress::More | Progress::Trouble(_) => unreachable!(),
    }
}

/// Settles one experiment that moves. A swap-out is sent from its beginning. A swap-in or a change is undone, however far it came.
///
/// Where memory is wanting, nothing was sent or written yet. After `Plant` and `Stopped` the state is to be dropped.
pub fn settle_one<P: Plant>(
    alloc: Global,
    state: &mut LabState,
    exp: Name,
    journal: &mut Journal,
    plant: &mut P,
) -> Result<One, SettleFault>
    requires work { AtWork the_texts (P.seen plant.old).told journal.old state.old.state }
    requires moves { IsMoving state.old.state exp }
    ensures over { (p : Swap) → p.name ≡ exp → Moves p state.old.state
        → IsOverAs the_texts state.old.state p (P.seen plant.old) (P.seen plant.new) journal.old journal.new state.new.state result }
    ensures memory { IsErrOf result SettleFault.Memory → (state.new.state ≡ state.old.state) × (journal.new ≡ journal.old) × (plant.new ≡ plant.old) }
    ensures stopped { (P.seen plant.old).stopped ≡ false → (IsErrOf result SettleFault.Stopped ↔ IsTrue (P.seen plant.new).stopped) }
    ensures stops { IsErrOf result SettleFault.Memory ⊎ (IsErrOf result SettleFault.Stopped ↔ IsTrue (P.seen plant.new).stopped) }
    ensures later { IsLater (P.seen plant.old) (P.seen plant.new) }
    ensures limit { limit_of journal.new ≡ limit_of journal.old }
    ensures live { live_of journal.new ≡ live_of journal.old }
{
    let finished = turned_to_end(alloc, state, exp, journal, plant)?;
    answer(finished)
}
