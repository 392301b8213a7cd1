//! The lab that the records of a journal stand for, and the facts that hold of it at every moment.
#![tactic(auto)]

ghost use Rattle.std.specs.Prelude.{ℕ, ◌≡◌, ◌≤◌, ◌+◌, Bool, List, [], ◌∷◌, ◌++◌, Result};
ghost use Rattle.lab_base.specs.Lists.{Has};
ghost use Rattle.virt_topo.specs.declared.experiment.Experiment.{Experiment};
ghost use Rattle.plant.specs.Worlds.{World, world_of};
ghost use Rattle.plant.specs.Events.{Event, Wrote, Synced, Missed, Did, Restarted};
ghost use Rattle.plant.specs.Disks.{ArePossible, disk};
ghost use Rattle.plant.specs.declared.step.Side.TheVariants.{A, B};
ghost use Rattle.plant.specs.declared.device.DeviceOp.{DeviceOp};
ghost use Rattle.plant.specs.declared.device.Answer.{Answer};
ghost use Rattle.plant.specs.declared.device.Fault.{Fault};
ghost use Rattle.plant.specs.declared.step.Side.{Side};
ghost use Rattle.journal_rec.specs.declared.record.Record.{Record};
ghost use Rattle.lab_model.specs.Holding.{Holding};
ghost use Rattle.lab_model.specs.Parts.{Part};
ghost use Rattle.lab_model.specs.Courses.{IsCommandOf};
ghost use Rattle.lab_model.specs.Leavings.{did};
ghost use Rattle.lab_model.specs.Sound.{Standing};
ghost use Rattle.journal_model.specs.Appends.{Run, All, added, IsReadable};
ghost use Rattle.journal_model.specs.Making.{IsClosed, made_header};
ghost use Rattle.journal_model.specs.Journals.{gate_after, size};
ghost use Rattle.records_model.specs.Labs.{LabState, Texts, AreCanonical, StopsAt, Follows, FoldsTo, LabOf, Sane, IsRightFor, KeepsParts, lab_in};
ghost use Rattle.records_model.specs.Appends.{StandFor};
ghost use Rattle.records_model.specs.Openings.{Blanks, Finds};
ghost use Rattle.records_model.specs.Works.{IsSound, AtWork, HasRoom, MayAppend};

use journal_rec::{LAST_RECORDS, MAX_JOURNAL};

/// The lab of records: one record more is one step more, the lab is unique, and its claims are held.
pub fn lab_of_records()
    ensures pushed { (t : Texts) (s mid end : LabState) (rs : List Record) (r : Record) → FoldsTo t s rs mid → Follows t mid r end
        → FoldsTo t s (rs ++ r ∷ []) end }
    ensures split { (t : Texts) (s end : LabState) (rs : List Record) (r : Record) → FoldsTo t s (rs ++ r ∷ []) end
        → (mid : LabState) × FoldsTo t s rs mid × Follows t mid r end }
    ensures once { (t : Texts) (s u v : LabState) (rs : List Record) → AreCanonical t → FoldsTo t s rs u → FoldsTo t s rs v → u ≡ v }
    ensures stands { (t : Texts) (a b : List ℕ) (x y : Standing) → AreCanonical t → StandFor t a b x → StandFor t a b y → x ≡ y }
    ensures stops { (t : Texts) (s u : LabState) (rs : List Record) (n : ℕ) → AreCanonical t → FoldsTo t s rs u → StopsAt t s rs n → ⊥ }
    ensures stops_once { (t : Texts) (s : LabState) (rs : List Record) (m n : ℕ) → AreCanonical t → StopsAt t s rs m → StopsAt t s rs n → m ≡ n }
    ensures sane { (t : Texts) (rs : List Record) (s : LabState) → LabOf t rs s → Sane s }
    ensures holding { (t : Texts) (rs : List Record) (s : LabState) → LabOf t rs s → Holding (lab_in s.lab) s.experiments }
    ensures parts { (t : Texts) (s u : LabState) (r : Record) (w : World) → Sane s → (f : Follows t s r u) → IsRightFor s w f.move
        → KeepsParts w s → KeepsParts w u }
    ensures room { (rs : List Record) (r : Record) (u : LabState) → Sane u → gate_after rs + 1 + size r + LAST_RECORDS ≤ MAX_JOURNAL
        → HasRoom (rs ++ r ∷ []) u }
{}

/// An append keeps the trace sound in each part of it, also where it failed or stopped. Done whole, it leads to the next lab.
pub fn appends()
    ensures sound { (t : Texts) (trace : List Event) (side : Side) (rs : List Record) (s u : LabState) (r : Record) → AtWork t trace side rs s
        → MayAppend t trace rs s r u → (run : Run) → IsSound t (trace ++ added side (gate_after rs) r run) }
    ensures works { (t : Texts) (trace : List Event) (side : Side) (rs : List Record) (s u : LabState) (r : Record) → AtWork t trace side rs s
        → MayAppend t trace rs s r u → AtWork t (trace ++ added side (gate_after rs) r All) side (rs ++ r ∷ []) u }
    ensures missed { (t : Texts) (trace : List Event) (side : Side) → IsSound t trace → IsSound t (trace ++ Missed side ∷ []) }
{}

/// A device command of one experiment, applied or not, with any answer, where that experiment's part stays.
pub fn commands_sent()
    ensures { (t : Texts) (trace : List Event) (side : Side) (rs : List Record) (s : LabState) (e : Experiment) (op : DeviceOp) (applied : Bool)
        (answer : Result Answer Fault) → AtWork t trace side rs s → Has s.experiments e → IsCommandOf (lab_in s.lab) e op
        → (Part (lab_in s.lab) (world_of trace) e → Part (lab_in s.lab) (did (world_of trace) op applied answer) e)
        → AtWork t (trace ++ Did op applied answer ∷ []) side rs s }
{}

/// An opening: both syncs leave fewer images and keep the trace sound. Then the live side is at rest, or there is no journal yet.
pub fn openings()
    ensures synced { (t : Texts) (trace : List Event) → IsReadable (disk A trace) → IsReadable (disk B trace) → IsSound t trace
        → IsSound t (trace ++ Synced A ∷ []) × IsSound t ((trace ++ Synced A ∷ []) ++ Synced B ∷ []) }
    ensures found { (t : Texts) (trace : List Event) → IsReadable (disk A trace) → IsReadable (disk B trace) → IsSound t trace
        → Finds t ((trace ++ Synced A ∷ []) ++ Synced B ∷ []) }
    ensures restarted { (t : Texts) (trace : List Event) (a b : List ℕ) → ArePossible trace a b → IsSound t trace
        → IsSound t (trace ++ Restarted a b ∷ []) × Finds t (((trace ++ Restarted a b ∷ []) ++ Synced A ∷ []) ++ Synced B ∷ []) }
    ensures made { (t : Texts) (trace : List Event) → Blanks trace → IsSound t trace → IsClosed (disk A trace)
        → (s : LabState) × AtWork t ((((trace ++ Wrote A 1 made_header ∷ []) ++ Synced A ∷ []) ++ Wrote A 0 (165 ∷ []) ∷ []) ++ Synced A ∷ []) A [] s }
{}
