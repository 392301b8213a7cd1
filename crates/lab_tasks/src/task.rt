ghost use Rattle.std.specs.Prelude.{◌≡◌};
ghost use Rattle.records_model.specs.Labs.{LabState as AnyLabState};
ghost use Rattle.lab_tasks.specs.Mappings.{begun_as};
ghost use Rattle.lab_tasks.specs.Tasks.{CanDo, task_of};

use journal_rec::{Record, Way};
use lab_base::{Memory, Name};
use script_text::Reply;
use swap_plan::Ops;

/// A swap that is to begin: of that experiment, that way, by these device commands.
#[derive(Drop)]
pub struct NewSwap {
    pub exp: Name,
    pub way: Way,
    pub ops: Ops,
}

/// The task of a command that nothing refuses.
#[derive(Drop)]
pub enum Task {
    /// It tells something.
    Tell(Reply),
    /// It appends a record, and tells that it is made.
    Append { entry: Record, reply: Reply },
    /// It begins a swap, and turns it to its end.
    Swap(NewSwap),
    /// It begins one, which later commands turn.
    BeginOnly(NewSwap),
    /// It makes one turn of the experiment's open swap.
    Turn { exp: Name },
    /// It turns the experiment's open swap to its end.
    Finish { exp: Name },
    /// It settles all experiments that move and have no open swap.
    Recover,
}

impl Task {
    /// A swap is only begun where that is said.
    pub(crate) fn begun_as(self, only_begin: bool) -> Task
        ensures task { task_of result ≡ begun_as only_begin (task_of self) }
        ensures can { (s : AnyLabState) → CanDo s self → CanDo s result }
    {
        if !only_begin {
            return self;
        }
        match self {
            Task::Swap(swap) => Task::BeginOnly(swap),
            task => task,
        }
    }
}

/// Why a command has no task.
#[derive(Drop)]
pub enum Refusal {
    /// A reply refuses it.
    Refused(Reply),
    Memory,
}

impl From<Memory> for Refusal {
    ghost use Rattle.std.specs.Prelude.{◌≡◌};
    ghost use Rattle.lab_tasks.specs.declared.task.Refusal.TheVariants as refusals;

    ghost from_gives = { λ _ e. e ≡ refusals.Memory };

    fn from(_error: Memory) -> Refusal {
        Refusal::Memory
    }
}
