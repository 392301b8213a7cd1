//! The journal on two sides: its records, and the images that a stop may leave at each moment of an append and of an opening.
#![tactic(auto)]

ghost use Rattle.std.specs.Prelude.{◌≡◌, ◌⊎◌, ◌++◌, ◌∷◌, [], ℕ, List};
ghost use Rattle.plant.specs.Events.{Event, Synced};
ghost use Rattle.plant.specs.Disks.{ArePossible, disk};
ghost use Rattle.plant.specs.declared.step.Side.{Side};
ghost use Rattle.journal_rec.specs.declared.record.Record.{Record};
ghost use Rattle.journal_rec.specs.Payloads.{IsRecord};
ghost use Rattle.journal_model.specs.Journals.{Records, Bad, AreBytes, gate_after};
ghost use Rattle.journal_model.specs.Appends.{Known, Rests, Run, added, AfterRun, IsLawful, IsReadable};

/// Two sides of bytes have one list of records, or are bad at one position, and never both.
pub fn one_reading()
    ensures records { (a b : List ℕ) (rs ss : List Record) → Records a b rs → Records a b ss → rs ≡ ss }
    ensures not_both { (a b : List ℕ) (rs : List Record) (side : Side) (at : ℕ) → Records a b rs → Bad a b side at → ⊥ }
    ensures bad { (a b : List ℕ) (side tide : Side) (at au : ℕ) → Bad a b side at → Bad a b tide au → (side ≡ tide) × (at ≡ au) }
    ensures one_of_both { (a b : List ℕ) → AreBytes a → AreBytes b
        → ((rs : List Record) × Records a b rs) ⊎ ((side : Side) × (at : ℕ) × Bad a b side at) }
{}

/// The records of each image after each part of an append, also one that failed or stopped with any bytes in its range.
/// They are the old records, or while the gate is unsynced the old and the new one, and after the last sync the new ones.
pub fn append_images()
    ensures { (trace : List Event) (side : Side) (epoch : List ℕ) (rs : List Record) (r : Record) (run : Run) → Known trace side epoch rs
        → Rests (disk side trace) epoch rs → IsRecord r → (a b : List ℕ) → ArePossible (trace ++ added side (gate_after rs) r run) a b
        → AfterRun side a b rs r run }
{}

/// Along a lawful trace, the bytes that a side reads as are a possible image. A sync leaves only images that were possible before.
pub fn synced_sides()
    ensures lawful { (side : Side) (trace : List Event) → IsLawful side trace → IsReadable (disk side trace) }
    ensures fewer { (side : Side) (trace : List Event) (a b : List ℕ) → IsReadable (disk side trace)
        → ArePossible (trace ++ Synced side ∷ []) a b → ArePossible trace a b }
{}
