// The states of a swap with work left: one value, whatever the state.
use crate::Turned;
use crate::named::{Named, turned};
use crate::state::{Abort, Boot, Cable, Clear, Commit, First, Load, State, Undo};
use crate::work::Work;
use journal_disk::Journal;
use plant::Plant;
use std::marker::{Model, PhantomData};

/// A swap with work left, in that state.
#[derive(Drop)]
pub struct At<S: State> {
    pub(crate) work: Work,
    state: PhantomData<S>,
}

impl<S: State> Model for At<S> {
    ghost use Rattle.swap_txn.specs.States.{View, stage_of};

    ghost Value = { View };

    ghost view = { λ s. s.work };

    ghost invariant = { λ s. S.Suits s.work.commit (stage_of s.work.plan s.work.left) };
}

impl<S: State> At<S> {
    ghost use Rattle.std.specs.Prelude.{◌≡◌};
    ghost use Rattle.swap_txn.specs.States.{stage_of};

    /// The work, in this state.
    pub(crate) fn of(work: Work) -> At<S>
        requires { S.Suits work.commit (stage_of work.plan work.left) }
        ensures { result ≡ work }
    {
        At {
            work,
            state: PhantomData,
        }
    }
}

impl<S: Named> At<S> {
    ghost use Rattle.std.specs.Prelude.{◌≡◌, ◌↔◌, IsTrue};
    ghost use Rattle.swap_txn.specs.declared.stage.Stage.TheVariants.{Done};
    ghost use Rattle.swap_txn.specs.States.{stage_of};
    ghost use Rattle.swap_txn.specs.Facts.{HandsOn};
    ghost use Rattle.swap_txn.specs.Steps.{Stands};
    ghost use Rattle.swap_txn.specs.Turns.{Turns, Fits, held, IsStopped, IfStanding};

    /// Makes one turn of this state. Room for the last record is asked of a state in which nothing may be left.
    pub fn turn<P: Plant>(self, journal: &mut Journal, plant: &mut P) -> Turned<Self>
        requires stands { Stands (P.seen plant.old).told journal.old }
        requires fits { S.Suits self.commit Done → Fits (S.named self) journal.old }
        ensures suits { S.Suits self.commit (stage_of self.plan self.left) }
        ensures turns { Turns (S.named self) (P.seen plant.old) (P.seen plant.new) journal.old journal.new (held S.named result) }
        ensures stopped { IsStopped result ↔ IsTrue (P.seen plant.new).stopped }
        ensures stands { IfStanding result (Stands (P.seen plant.new).told journal.new) }
        ensures facts { HandsOn (P.seen plant.old).told (P.seen plant.new).told (S.named self) (held S.named result) }
    {
        turned(self.work.turn(journal, plant))
    }
}

/// The state of a swap whose Begin is durable, before its first command. Its turn sends the first command of the first list that has one. Where none
/// has, it appends Commit.
pub type Begun = At<First>;

/// The state in which rows are left and nodes are wiped. Its turn sends one Leave or one Wipe.
pub type Clearing = At<Clear>;

/// The state in which rows are joined. Its turn sends one Join.
pub type Cabling = At<Cable>;

/// The state in which nodes are loaded and their pipes are set. Its turn sends one Load or one Shape.
pub type Loading = At<Load>;

/// The state in which nodes are booted and polled until they are up, one after another. Its turn sends one Boot or one Poll.
pub type Booting = At<Boot>;

/// The state in which all commands are acknowledged, and Commit is still to be appended. Its turn appends Commit.
pub type Ready = At<Commit>;

/// The state in which the undo is sent. Its turn sends one command of the undo. Where it has none, it appends Abort.
pub type Undoing = At<Undo>;

/// The state in which all commands of the undo are acknowledged, and Abort is still to be appended. Its turn appends Abort.
pub type Undone = At<Abort>;
