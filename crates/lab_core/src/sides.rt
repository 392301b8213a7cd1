// The journal of two sides, or none.
ghost use Rattle.std.specs.Prelude.{◌≡◌, ℕ, List, ◌++◌};
ghost use Rattle.plant.specs.Disks.{disk};
ghost use Rattle.plant.specs.Events.{Event};
ghost use Rattle.plant.specs.declared.step.Side.{Side};
ghost use Rattle.plant.specs.declared.step.Side.TheVariants.{A, B};
ghost use Rattle.journal_model.specs.Journals.{New, head, live};
ghost use Rattle.records_model.specs.Labs.{LabState};
ghost use Rattle.lab_core.specs.Moments.{IsLiveAt, IsNoJournal};
ghost use Rattle.lab_core.specs.Opening.{HasRead, IsJournal};

/// Two sides that are no journal are none at one place alone, and then they are no journal with room.
/// Where both are blank, after an opening that reads them side A is live, with epoch 1, and no other.
pub fn journals()
    ensures not_both { (a b : List ℕ) (limit : ℕ) (side : Side) (at : ℕ) → IsJournal a b limit → IsNoJournal a b limit side at → ⊥ }
    ensures one_place { (a b : List ℕ) (limit : ℕ) (side other : Side) (at place : ℕ) → IsNoJournal a b limit side at → IsNoJournal a b limit other place
        → (side ≡ other) × (at ≡ place) }
    ensures first { (trace reading : List Event) (limit : ℕ) (start : LabState) (side : Side) (epoch : ℕ) → HasRead trace reading limit start
        → live (head (disk A trace).reads) (head (disk B trace).reads) ≡ New → IsLiveAt (trace ++ reading) side epoch → (side ≡ A) × (epoch ≡ 1) }
{}
