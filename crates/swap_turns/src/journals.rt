// Runs of a journal over a whole trace: openings, appends, moves onto the other side, and starts of a stopped plant.
ghost use Rattle.std.specs.Prelude.{◌≡◌, ◌↔◌, ◌≤◌, ◌+◌, ◌*◌, ℕ, Bool, true, false, List, [], ◌∷◌, ◌++◌, count_by, Result, Ok, Err};
ghost use Rattle.std.specs.Global.{Vec};
ghost use Rattle.plant.specs.Disks.{disk, ArePossible};
ghost use Rattle.plant.specs.Events.{Event, Did, Restarted};
ghost use Rattle.plant.specs.declared.device.Answer.{Answer};
ghost use Rattle.plant.specs.declared.device.DeviceOp.{DeviceOp};
ghost use Rattle.plant.specs.declared.device.Fault.{Fault};
ghost use Rattle.plant.specs.declared.step.Side.{Side};
ghost use Rattle.plant.specs.declared.step.Side.TheVariants.{A, B};
ghost use Rattle.journal_rec.specs.declared.record.Record.{Record};
ghost use Rattle.journal_rec.specs.declared.record.Found.{Found};
ghost use Rattle.lab_model.specs.Sound.{is_moving};
ghost use Rattle.journal_model.specs.Journals.{Records, Bad, On, live, head, journal_length, size};
ghost use Rattle.journal_model.specs.Appends.{Run, All, added};
ghost use Rattle.records_model.specs.Labs.{LabState, Texts, AreCanonical, LabOf, StopsAt, at_first};
ghost use Rattle.records_model.specs.Works.{AtWork, IsSound, HasRoom, MayAppend};
ghost use Rattle.journal_rec.specs.Packing.{ArePacked, side_length};
ghost use Rattle.journal_disk.specs.Before.{IsOpening, AreAsBefore, AreSettled, ReadAlike, are_synced};
ghost use Rattle.journal_disk.specs.Compactions.{Compacts, Shifts};
ghost use Rattle.journal_disk.specs.Epochs.{HasEpoch};
ghost use Rattle.journal_disk.specs.Standing.{IsAt, side_of, gate_of, length_of, Ends};
ghost use Rattle.journal_disk.specs.declared.fault.CompactFault.{CompactFault};
ghost use Rattle.journal_disk.specs.declared.fault.CompactFault.TheVariants as compacting;
ghost use Rattle.journal_disk.specs.declared.fault.OpenFault.{OpenFault};
ghost use Rattle.journal_disk.specs.declared.fault.OpenFault.TheVariants as opening;
ghost use Rattle.journal_disk.specs.declared.fault.AppendFault.{AppendFault};
ghost use Rattle.journal_disk.specs.declared.fault.AppendFault.TheVariants as appending;
ghost use Rattle.journal_disk.specs.declared.journal.Journal.{Journal};
ghost use Rattle.swap_turns.specs.Lengths.{appended};
ghost use Rattle.swap_turns.specs.Pieces.{has_command, has_miss, has_outer};
ghost use Rattle.swap_turns.specs.Working.{StandForLab, AllStandFor, StandForEither, Works};

use journal_rec::{LAST_RECORD, MAX_JOURNAL};

/// An opening sends no device command, starts no plant, and has no failed reading of a device. No call failed after `Ok`, and one did after `Plant`.
/// A sound trace stays sound, and after `Ok` the journal is at work. With any answer, both sides read alike before it and after it.
pub fn openings()
    ensures quiet { (trace steps : List Event) (result : Result (Journal × Vec Found) OpenFault) → IsOpening trace steps result
        → (has_command steps ≡ false) × (has_outer steps ≡ false) }
    ensures opened { (trace steps : List Event) (opened : Journal × Vec Found) → IsOpening trace steps (Ok opened) → has_miss steps ≡ false }
    ensures failed { (trace steps : List Event) → IsOpening trace steps (Err opening.Plant) → has_miss steps ≡ true }
    ensures sound { (t : Texts) (trace steps : List Event) (result : Result (Journal × Vec Found) OpenFault) → IsOpening trace steps result
        → IsSound t trace → IsSound t (trace ++ steps) }
    ensures works { (t : Texts) (trace steps : List Event) (result : Result (Journal × Vec Found) OpenFault) (j : Journal) (rs : List Record)
        → IsOpening trace steps result → IsAt (trace ++ steps) j rs → IsSound t trace → (s : LabState) × Works t (trace ++ steps) j rs s }
    ensures lab { (t : Texts) (trace steps : List Event) (result : Result (Journal × Vec Found) OpenFault) (j : Journal) (rs : List Record) (s : LabState)
        → IsOpening trace steps result → IsAt (trace ++ steps) j rs → IsSound t trace → AreCanonical t → LabOf t rs s → Works t (trace ++ steps) j rs s }
    ensures alike { (trace steps : List Event) (result : Result (Journal × Vec Found) OpenFault) → IsOpening trace steps result
        → ArePossible (trace ++ steps) (disk A (trace ++ steps)).reads (disk B (trace ++ steps)).reads
        → ReadAlike (disk A (trace ++ steps)).reads (disk B (trace ++ steps)).reads (disk A trace).reads (disk B trace).reads }
{}

/// An append of a record that may follow: after `Ok` the journal is at work with the record. Else each image stands for the lab before it or after
/// it.
/// It sends no device command, starts no plant, and has no failed reading. No call failed after `Ok`, and one did after `Plant`.
/// A whole one makes the journal longer by the record's size.
pub fn appends()
    ensures done { (t : Texts) (trace more : List Event) (j : Journal) (rs : List Record) (s u : LabState) (r : Record) (run : Run) (done : Unit {0})
        → Works t trace j rs s → MayAppend t trace rs s r u → Ends (side_of j) (Ok done) run more
        → AtWork t (trace ++ (added (side_of j) (gate_of j) r run ++ more)) (side_of j) (rs ++ r ∷ []) u }
    ensures stands { (t : Texts) (trace more : List Event) (j k : Journal) (rs : List Record) (s u : LabState) (r : Record) (run : Run) (done : Unit {0})
        → Works t trace j rs s → MayAppend t trace rs s r u → Ends (side_of j) (Ok done) run more → side_of k ≡ side_of j
        → IsAt (trace ++ (added (side_of j) (gate_of j) r run ++ more)) k (rs ++ r ∷ [])
        → Works t (trace ++ (added (side_of j) (gate_of j) r run ++ more)) k (rs ++ r ∷ []) u }
    ensures broken { (t : Texts) (trace more : List Event) (j : Journal) (rs : List Record) (s u : LabState) (r : Record) (run : Run)
        (result : Result (Unit {0}) AppendFault) → Works t trace j rs s → MayAppend t trace rs s r u → Ends (side_of j) result run more
        → IsSound t (trace ++ (added (side_of j) (gate_of j) r run ++ more))
        × StandForEither t (trace ++ (added (side_of j) (gate_of j) r run ++ more)) s u }
    ensures quiet { (j : Journal) (r : Record) (run : Run) → (has_command (added (side_of j) (gate_of j) r run) ≡ false)
        × (has_outer (added (side_of j) (gate_of j) r run) ≡ false) × (has_miss (added (side_of j) (gate_of j) r run) ≡ false) }
    ensures ended { (j : Journal) (r : Record) (run : Run) (more : List Event) (result : Result (Unit {0}) AppendFault) → Ends (side_of j) result run more
        → (has_command (added (side_of j) (gate_of j) r run ++ more) ≡ false) × (has_outer (added (side_of j) (gate_of j) r run ++ more) ≡ false) }
    ensures appended { (j : Journal) (r : Record) (run : Run) (more : List Event) (done : Unit {0}) → Ends (side_of j) (Ok done) run more
        → has_miss (added (side_of j) (gate_of j) r run ++ more) ≡ false }
    ensures failed { (j : Journal) (r : Record) (run : Run) (more : List Event) → Ends (side_of j) (Err appending.Plant) run more
        → has_miss (added (side_of j) (gate_of j) r run ++ more) ≡ true }
    ensures size { (j : Journal) (r : Record) → appended (added (side_of j) (gate_of j) r All) ≡ size r }
{}

/// A move of the journal onto the other side, with records of the same lab for which there is room.
/// A sound trace stays sound through each of its steps, and each image stands for that lab. After `Ok` the journal is at work with these records. It
/// sends no device command, starts no plant, and has no failed reading. No call failed after `Ok`, and one did after `Plant`. There is room for
/// records that are no longer than the journal.
pub fn compactions()
    ensures sound { (t : Texts) (trace steps : List Event) (j : Journal) (rs ps : List Record) (s : LabState) (packed : List ℕ)
        (result : Result (Unit {0}) CompactFault) → Works t trace j rs s → LabOf t ps s → HasRoom ps s → Compacts trace steps j packed result
        → Shifts trace steps (side_of j) rs ps result → IsSound t (trace ++ steps) }
    ensures stand { (t : Texts) (trace steps : List Event) (j : Journal) (rs ps : List Record) (s : LabState) (result : Result (Unit {0}) CompactFault)
        → Works t trace j rs s → LabOf t ps s → Shifts trace steps (side_of j) rs ps result → AllStandFor t (trace ++ steps) s }
    ensures works { (t : Texts) (trace steps : List Event) (j k : Journal) (rs ps : List Record) (s : LabState) (packed : List ℕ)
        (result : Result (Unit {0}) CompactFault) → Works t trace j rs s → LabOf t ps s → HasRoom ps s → Compacts trace steps j packed result
        → Shifts trace steps (side_of j) rs ps result → AreCanonical t → IsAt (trace ++ steps) k ps → Works t (trace ++ steps) k ps s }
    ensures quiet { (trace steps : List Event) (j : Journal) (packed : List ℕ) (result : Result (Unit {0}) CompactFault)
        → Compacts trace steps j packed result → (has_command steps ≡ false) × (has_outer steps ≡ false) }
    ensures done { (trace steps : List Event) (j : Journal) (packed : List ℕ) (done : Unit {0}) → Compacts trace steps j packed (Ok done)
        → has_miss steps ≡ false }
    ensures failed { (trace steps : List Event) (j : Journal) (packed : List ℕ) → Compacts trace steps j packed (Err compacting.Plant)
        → has_miss steps ≡ true }
    ensures room { (t : Texts) (trace : List Event) (j : Journal) (rs ps : List Record) (s : LabState) (packed : List ℕ) → Works t trace j rs s
        → ArePacked packed ps → side_length packed ≤ length_of j → HasRoom ps s }
{}

/// A device command leaves the epoch of a journal as it is.
pub fn epochs()
    ensures { (trace : List Event) (j : Journal) (op : DeviceOp) (applied : Bool) (answer : Result Answer Fault) → HasEpoch trace j
        → HasEpoch (trace ++ Did op applied answer ∷ []) j }
{}

/// Both sides at rest, as the last call of a journal left them. The bytes that they read as are a possible image, with its records on its side.
pub fn at_rest()
    ensures possible { (trace : List Event) (j : Journal) (rs : List Record) → IsAt trace j rs
        → ArePossible trace (disk A trace).reads (disk B trace).reads }
    ensures records { (trace : List Event) (j : Journal) (rs : List Record) → IsAt trace j rs → Records (disk A trace).reads (disk B trace).reads rs }
    ensures live { (trace : List Event) (j : Journal) (rs : List Record) → IsAt trace j rs
        → live (head (disk A trace).reads) (head (disk B trace).reads) ≡ On (side_of j) }
    ensures length { (trace : List Event) (j : Journal) (rs : List Record) → IsAt trace j rs
        → journal_length (disk A trace).reads (disk B trace).reads rs ≡ length_of j }
{}

/// A journal at work: each possible image stands for its lab, and so do the sides as they read.
pub fn working()
    ensures images { (t : Texts) (trace : List Event) (j : Journal) (rs : List Record) (s : LabState) → Works t trace j rs s → AllStandFor t trace s }
    ensures reads { (t : Texts) (trace : List Event) (j : Journal) (rs : List Record) (s : LabState) → Works t trace j rs s
        → StandForLab t (disk A trace).reads (disk B trace).reads s }
    ensures at { (t : Texts) (trace : List Event) (j : Journal) (rs : List Record) (s : LabState) → Works t trace j rs s → IsAt trace j rs }
{}

/// The empty trace is sound. A start of a stopped plant keeps a trace sound.
/// Then the images that it was started with are the only ones, and all images stand for the lab that those stand for.
pub fn starts()
    ensures nothing { (t : Texts) → IsSound t [] }
    ensures sound { (t : Texts) (trace : List Event) (a b : List ℕ) → ArePossible trace a b → IsSound t trace → IsSound t (trace ++ Restarted a b ∷ []) }
    ensures reads { (trace : List Event) (a b : List ℕ)
        → ((disk A (trace ++ Restarted a b ∷ [])).reads ≡ a) × ((disk B (trace ++ Restarted a b ∷ [])).reads ≡ b) }
    ensures possible { (trace : List Event) (a b : List ℕ) → ArePossible (trace ++ Restarted a b ∷ []) a b }
    ensures stand { (t : Texts) (trace : List Event) (a b : List ℕ) (s : LabState) → StandForLab t a b s → AllStandFor t (trace ++ Restarted a b ∷ []) s }
    ensures alone { (trace : List Event) (a b c d : List ℕ) → ArePossible (trace ++ Restarted a b ∷ []) c d → (c ≡ a) × (d ≡ b) }
{}

/// Over a sound trace each possible image is a journal: it stands for a lab, is bad nowhere, and each of its records can follow. It has room for the
/// last records of the experiments that move.
pub fn sound_traces()
    ensures stands { (t : Texts) (trace : List Event) (a b : List ℕ) → ArePossible trace a b → IsSound t trace → (s : LabState) × StandForLab t a b s }
    ensures not_bad { (t : Texts) (trace : List Event) (a b : List ℕ) (side : Side) (at : ℕ) → ArePossible trace a b → IsSound t trace
        → Bad a b side at → ⊥ }
    ensures follows { (t : Texts) (trace : List Event) (a b : List ℕ) (rs : List Record) (n : ℕ) → ArePossible trace a b → IsSound t trace
        → AreCanonical t → Records a b rs → StopsAt t at_first rs n → ⊥ }
    ensures room { (t : Texts) (trace : List Event) (a b : List ℕ) (rs : List Record) (s : LabState) → ArePossible trace a b → IsSound t trace
        → AreCanonical t → Records a b rs → LabOf t rs s → journal_length a b rs + LAST_RECORD * count_by is_moving s.experiments ≤ MAX_JOURNAL }
{}

/// Two sides stand for one lab, and sides that read alike for the same. So each image in an opening stands for the lab of an image before it. Once
/// both sides are synced, it stands for the lab of the sides as they read before.
pub fn labs_of_sides()
    ensures once { (t : Texts) (a b : List ℕ) (s u : LabState) → AreCanonical t → StandForLab t a b s → StandForLab t a b u → s ≡ u }
    ensures alike { (t : Texts) (a b x y : List ℕ) (s : LabState) → ReadAlike a b x y → StandForLab t a b s ↔ StandForLab t x y s }
    ensures before { (t : Texts) (trace steps : List Event) (a b : List ℕ) → AreAsBefore trace steps → ArePossible (trace ++ steps) a b
        → IsSound t trace
        → (x y : List ℕ) × (s : LabState) × ArePossible trace x y × StandForLab t x y s × StandForLab t a b s }
    ensures settled { (t : Texts) (trace steps : List Event) (a b : List ℕ) (s : LabState) → AreSettled trace steps → are_synced steps ≡ true
        → ArePossible (trace ++ steps) a b → StandForLab t (disk A trace).reads (disk B trace).reads s → StandForLab t a b s }
{}
