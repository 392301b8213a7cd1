ghost use Rattle.std.specs.Prelude.{◌≡◌, IsTrue, refl};
ghost use Rattle.swap_txn.specs.declared.live.Live.{Live as AnyState};
ghost use Rattle.swap_txn.specs.declared.live.Live.TheVariants as lives;
ghost use Rattle.swap_txn.specs.declared.turned.Turned.TheVariants as turns;
ghost use Rattle.swap_txn.specs.States.{View, stage_of};
ghost use Rattle.swap_txn.specs.Turns.{held, same_state, state_of, turned_by};
ghost use Rattle.swap_txn.specs.Going.{IfStuck, IsName};

use crate::at::At;
use crate::stage::Stage;
use crate::state::{Abort, Boot, Cable, Clear, Commit, First, Load, State, Undo};
use crate::work::Work;
use crate::{Live, Turned};

/// A state by its name among all.
pub trait Named: State {
    /// The work in this state, as a state among all.
    ghost named: { View → AnyState };

    /// The work in this state, among all states with work left.
    fn live(work: Work) -> Live
        requires { Self.Suits work.commit (stage_of work.plan work.left) }
        ensures { result ≡ named work };

    /// Whether work is in this state after a command, by the record that ends it and the list in which its next command stands.
    fn is_at(commit: bool, stage: Stage) -> bool
        ensures same { (v : View) → v.commit ≡ commit → stage_of v.plan v.left ≡ stage → result ≡ same_state (named v) (state_of v) }
        ensures suits { IsTrue result → Self.Suits commit stage };

    ghost is_name: { IsName named };
}

impl Named for First {
    ghost named = { λ v. lives.Begun v };

    ghost is_name = { record { sees = λ v. refl; keeps = λ v w. refl } };

    fn live(work: Work) -> Live {
        Live::Begun(At::of(work))
    }

    fn is_at(_commit: bool, _stage: Stage) -> bool {
        false
    }
}

impl Named for Clear {
    ghost named = { λ v. lives.Clearing v };

    ghost is_name = { record { sees = λ v. refl; keeps = λ v w. refl } };

    fn live(work: Work) -> Live {
        Live::Clearing(At::of(work))
    }

    fn is_at(commit: bool, stage: Stage) -> bool {
        commit && stage == Stage::Clear
    }
}

impl Named for Cable {
    ghost named = { λ v. lives.Cabling v };

    ghost is_name = { record { sees = λ v. refl; keeps = λ v w. refl } };

    fn live(work: Work) -> Live {
        Live::Cabling(At::of(work))
    }

    fn is_at(commit: bool, stage: Stage) -> bool {
        commit && stage == Stage::Cable
    }
}

impl Named for Load {
    ghost named = { λ v. lives.Loading v };

    ghost is_name = { record { sees = λ v. refl; keeps = λ v w. refl } };

    fn live(work: Work) -> Live {
        Live::Loading(At::of(work))
    }

    fn is_at(commit: bool, stage: Stage) -> bool {
        commit && stage == Stage::Load
    }
}

impl Named for Boot {
    ghost named = { λ v. lives.Booting v };

    ghost is_name = { record { sees = λ v. refl; keeps = λ v w. refl } };

    fn live(work: Work) -> Live {
        Live::Booting(At::of(work))
    }

    fn is_at(commit: bool, stage: Stage) -> bool {
        commit && stage == Stage::Boot
    }
}

impl Named for Commit {
    ghost named = { λ v. lives.Ready v };

    ghost is_name = { record { sees = λ v. refl; keeps = λ v w. refl } };

    fn live(work: Work) -> Live {
        Live::Ready(At::of(work))
    }

    fn is_at(_commit: bool, _stage: Stage) -> bool {
        false
    }
}

impl Named for Undo {
    ghost named = { λ v. lives.Undoing v };

    ghost is_name = { record { sees = λ v. refl; keeps = λ v w. refl } };

    fn live(work: Work) -> Live {
        Live::Undoing(At::of(work))
    }

    fn is_at(commit: bool, stage: Stage) -> bool {
        !commit && stage != Stage::Done
    }
}

impl Named for Abort {
    ghost named = { λ v. lives.Undone v };

    ghost is_name = { record { sees = λ v. refl; keeps = λ v w. refl } };

    fn live(work: Work) -> Live {
        Live::Undone(At::of(work))
    }

    fn is_at(_commit: bool, _stage: Stage) -> bool {
        false
    }
}

/// The answer of a state's turn, as one of any state.
pub(crate) fn any<S: Named>(turned: Turned<At<S>>) -> Turned<Live>
    ensures { result ≡ held S.named turned }
{
    match turned {
        Turned::Same(state) => Turned::Same(S::live(state.work)),
        Turned::Next(live) => Turned::Next(live),
        Turned::Trouble(undoing, what) => Turned::Trouble(undoing, what),
        Turned::Stuck(state, what) => Turned::Stuck(S::live(state.work), what),
        Turned::Stopped => Turned::Stopped,
    }
}

/// The answer for work that goes on. The state keeps its name, or takes that of the first later state with work left.
fn on<S: Named>(work: Work) -> Turned<At<S>>
    ensures { held S.named result ≡ turned_by S.named (turns.Same work) }
{
    if S::is_at(work.commit, work.stage()) {
        Turned::Same(At::of(work))
    } else {
        Turned::Next(work.live())
    }
}

/// The answer of a state of this name, for that of its work.
pub(crate) fn turned<S: Named>(answer: Turned<Work>) -> Turned<At<S>>
    requires { IfStuck answer (λ v. S.Suits v.commit (stage_of v.plan v.left)) }
    ensures { held S.named result ≡ turned_by S.named answer }
{
    match answer {
        Turned::Same(work) => on(work),
        Turned::Next(live) => Turned::Next(live),
        Turned::Trouble(undoing, what) => Turned::Trouble(undoing, what),
        Turned::Stuck(work, what) => Turned::Stuck(At::of(work), what),
        Turned::Stopped => Turned::Stopped,
    }
}
