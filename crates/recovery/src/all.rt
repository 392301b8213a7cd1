// The settling of all experiments that move.
ghost use Rattle.std.specs.Prelude.{◌≡◌, ◌≤◌, ◌<◌, ◌^◌, ◌↔◌, ◌⊎◌, [], length, slice_get, IfSome, IsErrOf, IsTrue, Ok, false};
ghost use Rattle.journal_disk.specs.Standing.{limit_of};
ghost use Rattle.lab_state.specs.Texts.{the_texts};
ghost use Rattle.swap_txn.specs.Steps.{live_of};
ghost use Rattle.swap_turns.specs.Causes.{IsLater};
ghost use Rattle.swap_turns.specs.Running.{AtWork};
ghost use Rattle.recovery.specs.Due.{due, due_in, name_of, swaps_of};
ghost use Rattle.recovery.specs.Settle.{CountedBy, AfterAll};

use crate::{One, SettleFault, settle_one};
use journal_disk::Journal;
use lab_base::{MAX_NAME, Name};
use lab_state::LabState;
use plant::Plant;
use std::alloc::Global;
use virt_topo::{Experiment, Phase};

/// The number of experiments that were settled, and of those that still move.
#[derive(Clone, Copy, PartialEq, Eq)]
pub struct Settled {
    pub done: u32,
    pub stuck: u32,
}

/// The name of an experiment, which is short.
fn short_name(experiment: &Experiment) -> Name
    ensures name { result ≡ (experiment.now).name }
    ensures short { length result ≤ MAX_NAME }
{
    let _named = experiment.name.bytes();
    experiment.name
}

/// The name of an experiment, if it moves and isn't busy.
fn due(experiment: &Experiment, busy: &[Name]) -> Option<Name>
    ensures due { result ≡ name_of (due busy.now experiment.now) }
    ensures short { IfSome result (λ name. length name ≤ MAX_NAME) }
{
    let name = short_name(experiment);
    if busy.contains(&name) {
        return None;
    }
    match &experiment.phase {
        Phase::Moving { .. } => Some(name),
        Phase::Out | Phase::In { .. } => None,
    }
}

/// The name of the experiment of that number, if it moves and isn't busy.
fn due_at(state: &LabState, busy: &[Name], n: u16) -> Option<Name>
    ensures due { result ≡ name_of (due_in busy.now (slice_get state.now.state.experiments n)) }
    ensures short { IfSome result (λ name. length name ≤ MAX_NAME) }
{
    match state.nth(n) {
        Some(experiment) => due(experiment, busy),
        None => None,
    }
}

/// The counts with one experiment more.
fn counted(settled: Settled, one: &One) -> Settled
    requires done { settled.done < 2 ^ 31 }
    requires stuck { settled.stuck < 2 ^ 31 }
    ensures { CountedBy settled one.now result }
{
    match one {
        One::Out | One::In => Settled {
            done: settled.done + 1,
            stuck: settled.stuck,
        },
        One::Stuck(_) => Settled {
            done: settled.done,
            stuck: settled.stuck + 1,
        },
    }
}

/// Settles all experiments that move, but the busy ones, in order of creation.
///
/// A settling appends records, so the journal is at work: with the lab's records, its epoch, and over a sound trace with images that stand for the lab.
///
/// One whose course is cut still moves, and the others go on. A failed call of the journal, a stop, or want of memory between two of them breaks it
/// off. After `Plant` and `Stopped` the state is to be dropped.
///
/// Over a plant that is already stopped it answers `Stopped` where an experiment is to be settled, if memory suffices, and zero counts where none is.
pub fn settle<P: Plant>(
    alloc: Global,
    state: &mut LabState,
    busy: &[Name],
    journal: &mut Journal,
    plant: &mut P,
) -> Result<Settled, SettleFault>
    requires { AtWork the_texts (P.seen plant.old).told journal.old state.old.state }
    ensures after { AfterAll the_texts state.old.state busy.now (P.seen plant.old) (P.seen plant.new) journal.old journal.new state.new.state result }
    ensures stopped { (P.seen plant.old).stopped ≡ false → (IsErrOf result SettleFault.Stopped ↔ IsTrue (P.seen plant.new).stopped) }
    ensures stops { (swaps_of busy.now state.old.state.experiments ≡ [])
        ⊎ (IsErrOf result SettleFault.Memory ⊎ (IsErrOf result SettleFault.Stopped ↔ IsTrue (P.seen plant.new).stopped)) }
    ensures idle { swaps_of busy.now state.old.state.experiments ≡ []
        → (result ≡ Ok (record { done = 0; stuck = 0 })) × (journal.new ≡ journal.old) × (plant.new ≡ plant.old) }
    ensures later { IsLater (P.seen plant.old) (P.seen plant.new) }
    ensures limit { limit_of journal.new ≡ limit_of journal.old }
    ensures live { live_of journal.new ≡ live_of journal.old }
{
    let mut settled = Settled { done: 0, stuck: 0 };
    let count = state.len() as u16;
    for n in 0..count {
        let Some(exp) = due_at(state, busy, n) else {
            continue;
        };
        let one = settle_one(alloc, state, exp, journal, plant)?;
        settled = counted(settled, &one);
    }
    Ok(settled)
}
