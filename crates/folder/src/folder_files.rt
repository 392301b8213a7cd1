ghost use Rattle.std.specs.Prelude.{◌≡◌, ◌↔◌, ◌≤◌, ◌+◌, ℕ, List, [], ◌∷◌, Bool, Option, false, length, take, drop, option_map, IsTrue, IsFalse, IsErrOf, IfOk, IfSome, OnOk, OnErr, Err};
ghost use Rattle.std.specs.Option.{ForSome};
ghost use Rattle.plant.specs.Disks.{disk, ArePossible};
ghost use Rattle.plant.specs.DiskCalls.{missed, WriteSteps, SyncSteps, CutSteps};
ghost use Rattle.plant.specs.Events.{Event, Did, Missed, Restarted, Unread};
ghost use Rattle.plant.specs.declared.step.Side.TheVariants.{A, B};
ghost use Rattle.folder.specs.Folders.{with_steps, with_mark, IsDurable};
ghost use Rattle.folder.specs.Files.{Filed, HasTables, IsBeside, WhereTold, Changed, Written, Renamed, as_held, file_of, filed_sure, files_of, made, named};

use lab_base::{Memory, Name};
use plant::{Answer, DeviceOp, Fault, Faults, Side};
use std::time::SystemTime;

/// A file of a text.
#[derive(Clone, Copy)]
pub enum TextName {
    /// `tables`, which has the text of the tables.
    Tables,
    /// `tables.new`, the next text while it is written.
    Beside,
    /// `tables.old`, the last text that is durable, where a newer one isn't.
    Older,
}

/// The length and time of a file, by which it is known to be as it was left.
#[derive(Clone, Copy, PartialEq)]
pub struct Stamp {
    pub length: u64,
    pub time: SystemTime,
}

/// The files of a lab's folder by their names: the two sides of the journal, and three files of texts. It decides nothing.
///
/// It may tell what its files hold and what happened to it. Its calls on sides and its notes are those of a `Folder`.
pub trait FolderFiles {
    /// All that the folder has and that happened to it, where it tells it.
    ghost told: { Self → Option Filed };

    /// Whether it is stopped: no call changes it then.
    ghost is_stopped: { Self → Bool };

    /// The length of a side, as it reads.
    fn length(&mut self, side: Side) -> Result<u64, Fault>
        ensures told { as_held (told self.new) ≡ with_steps (as_held (told self.old)) (missed side result) }
        ensures files { files_of (told self.new) ≡ files_of (told self.old) }
        ensures length { IfSome (as_held (told self.old)) (λ h. IfOk result (λ n. n ≡ length (disk side h.past.trace).reads)) }
        ensures stopped { IsErrOf result Fault.Stopped ↔ IsTrue (is_stopped self.new) }
        ensures still { is_stopped self.new ≡ is_stopped self.old };

    /// Fills the buffer with the bytes that a side reads as, from that place on.
    fn read(&mut self, side: Side, at: u64, into: &mut [u8]) -> Result<(), Fault>
        requires { IfSome (as_held (told self.old)) (λ h. at + length into.old ≤ length (disk side h.past.trace).reads) }
        ensures told { as_held (told self.new) ≡ with_steps (as_held (told self.old)) (missed side result) }
        ensures files { files_of (told self.new) ≡ files_of (told self.old) }
        ensures read { IfSome (as_held (told self.old)) (λ h. OnOk result (into.new ≡ take (length into.old) (drop at (disk side h.past.trace).reads))) }
        ensures stopped { IsErrOf result Fault.Stopped ↔ IsTrue (is_stopped self.new) }
        ensures still { is_stopped self.new ≡ is_stopped self.old };

    /// Writes bytes over those of a side from that place on, and past its end. Where it fails or stops, the side has its old length, or the whole
    /// range is there. The text of the tables is durable.
    fn write(&mut self, side: Side, at: u64, bytes: &[u8]) -> Result<(), Fault>
        requires at { IfSome (as_held (told self.old)) (λ h. at ≤ length (disk side h.past.trace).reads) }
        requires sure { ForSome (as_held (told self.old)) IsDurable }
        ensures told { (steps : List Event) × (as_held (told self.new) ≡ with_steps (as_held (told self.old)) steps)
            × WriteSteps side at bytes.now (is_stopped self.old) result steps }
        ensures files { files_of (told self.new) ≡ files_of (told self.old) }
        ensures stopped { IsErrOf result Fault.Stopped ↔ IsTrue (is_stopped self.new) };

    /// Makes a side durable as it reads. The text of the tables is durable.
    fn sync(&mut self, side: Side) -> Result<(), Fault>
        requires sure { ForSome (as_held (told self.old)) IsDurable }
        ensures told { (steps : List Event) × (as_held (told self.new) ≡ with_steps (as_held (told self.old)) steps)
            × SyncSteps side (is_stopped self.old) result steps }
        ensures files { files_of (told self.new) ≡ files_of (told self.old) }
        ensures stopped { IsErrOf result Fault.Stopped ↔ IsTrue (is_stopped self.new) };

    /// Cuts a side to a length. The text of the tables is durable.
    fn cut(&mut self, side: Side, size: u64) -> Result<(), Fault>
        requires size { IfSome (as_held (told self.old)) (λ h. size ≤ length (disk side h.past.trace).reads) }
        requires sure { ForSome (as_held (told self.old)) IsDurable }
        ensures told { (steps : List Event) × (as_held (told self.new) ≡ with_steps (as_held (told self.old)) steps)
            × CutSteps side size (is_stopped self.old) result steps }
        ensures files { files_of (told self.new) ≡ files_of (told self.old) }
        ensures stopped { IsErrOf result Fault.Stopped ↔ IsTrue (is_stopped self.new) };

    /// The bytes of a file of a text; None where it is missing.
    fn bytes(&mut self, name: TextName) -> Result<Option<Vec<u8>>, Fault>
        ensures told { told self.new ≡ told self.old }
        ensures bytes { ForSome (told self.old) (λ k. IfOk result (λ found. option_map (λ bytes. bytes.items) found ≡ file_of name k.files)) }
        ensures stopped { IsErrOf result Fault.Stopped ↔ IsTrue (is_stopped self.new) }
        ensures still { is_stopped self.new ≡ is_stopped self.old };

    /// The stamp of `tables`; None where it can't be told.
    fn stamp(&mut self) -> Option<Stamp>
        ensures told { told self.new ≡ told self.old }
        ensures still { is_stopped self.new ≡ is_stopped self.old };

    /// Makes an empty `tables` where there is none.
    fn make_tables(&mut self) -> Result<(), Fault>
        ensures told { WhereTold (Changed made result) (told self.old) (told self.new) }
        ensures stopped { IsErrOf result Fault.Stopped ↔ IsTrue (is_stopped self.new) }
        ensures still { is_stopped self.new ≡ is_stopped self.old };

    /// Gives a file that is there the name `tables`.
    fn name_tables(&mut self, from: TextName) -> Result<(), Fault>
        ensures told { WhereTold (Changed (named from) result) (told self.old) (told self.new) }
        ensures stopped { IsErrOf result Fault.Stopped ↔ IsTrue (is_stopped self.new) }
        ensures still { is_stopped self.new ≡ is_stopped self.old };

    /// Writes a text as `tables.new`, beside `tables`.
    fn write_beside(&mut self, text: &[u8]) -> Result<(), Fault>
        requires tables { ForSome (files_of (told self.old)) HasTables }
        ensures told { WhereTold (Written text.now result) (told self.old) (told self.new) }
        ensures stopped { IsErrOf result Fault.Stopped ↔ IsTrue (is_stopped self.new) };

    /// Takes the name `tables` from its file, which is kept as `tables.old` or removed, and gives it to `tables.new`, for a command and its answer.
    /// A text that is durable is kept, and no other: so one always is.
    fn rename(
        &mut self,
        op: &DeviceOp,
        answer: Answer,
        text: &[u8],
        keep: bool,
    ) -> Result<(), Fault>
        requires tables { ForSome (files_of (told self.old)) HasTables }
        requires beside { ForSome (files_of (told self.old)) (IsBeside text.now) }
        requires keep { ForSome (as_held (told self.old)) (λ h. IsTrue keep ↔ IsDurable h) }
        ensures told { WhereTold (Renamed op.now answer keep (is_stopped self.old) result) (told self.old) (told self.new) }
        ensures stopped { IsErrOf result Fault.Stopped ↔ IsTrue (is_stopped self.new) };

    /// Makes `tables` durable, with its name.
    fn sync_tables(&mut self) -> Result<(), Fault>
        requires tables { ForSome (files_of (told self.old)) HasTables }
        ensures ok { OnOk result (told self.new ≡ filed_sure (told self.old)) }
        ensures err { OnErr result (told self.new ≡ told self.old) }
        ensures stopped { IsErrOf result Fault.Stopped ↔ IsTrue (is_stopped self.new) };

    /// Notes a command that failed before its text took the name.
    fn unsent(&mut self, op: &DeviceOp)
        ensures told { as_held (told self.new) ≡ with_steps (as_held (told self.old)) (Did op.now false (Err Fault.Failed) ∷ []) }
        ensures files { files_of (told self.new) ≡ files_of (told self.old) }
        ensures still { is_stopped self.new ≡ is_stopped self.old };

    /// Notes a call that failed before it came to its side.
    fn miss(&mut self, side: Side)
        ensures told { as_held (told self.new) ≡ with_steps (as_held (told self.old)) (Missed side ∷ []) }
        ensures files { files_of (told self.new) ≡ files_of (told self.old) }
        ensures still { is_stopped self.new ≡ is_stopped self.old };

    /// Notes a reading that failed.
    fn unread(&mut self, device: Name)
        ensures told { as_held (told self.new) ≡ with_steps (as_held (told self.old)) (Unread device ∷ []) }
        ensures files { files_of (told self.new) ≡ files_of (told self.old) }
        ensures still { is_stopped self.new ≡ is_stopped self.old };

    /// Notes the present moment.
    fn mark(&mut self, faults: Faults) -> Result<(), Memory>
        ensures ok { OnOk result (as_held (told self.new) ≡ with_mark (as_held (told self.old)) faults) }
        ensures err { OnErr result (as_held (told self.new) ≡ as_held (told self.old)) }
        ensures files { files_of (told self.new) ≡ files_of (told self.old) }
        ensures still { is_stopped self.new ≡ is_stopped self.old };

    /// The next program begins, on what the stop left. The files of texts are as they were.
    fn restart(&mut self) -> Result<(), Memory>
        requires { IsTrue (is_stopped self.old) }
        ensures ok { OnOk result ((a b : List ℕ) × (as_held (told self.new) ≡ with_steps (as_held (told self.old)) (Restarted a b ∷ []))
            × IfSome (as_held (told self.old)) (λ h. ArePossible h.past.trace a b)) }
        ensures goes_on { OnOk result (IsFalse (is_stopped self.new)) }
        ensures err { OnErr result ((as_held (told self.new) ≡ as_held (told self.old)) × (is_stopped self.new ≡ is_stopped self.old)) }
        ensures files { files_of (told self.new) ≡ files_of (told self.old) };

    fn stopped(&self) -> bool
        ensures { result ≡ is_stopped self.now };

    /// The bytes that the sides read as are possible at each moment.
    ghost reads_possible: { (folder : Self) → IfSome (as_held (told folder)) (λ h. ArePossible h.past.trace (disk A h.past.trace).reads (disk B h.past.trace).reads) };
}
