ghost use Rattle.std.specs.Prelude.{◌≡◌, ◌↔◌, ◌≤◌, ◌+◌, ℕ, List, [], ◌∷◌, Bool, Option, false, length, take, drop, IsTrue, IsFalse, IsErrOf, IfOk, IfSome, OnOk, OnErr, Err};
ghost use Rattle.std.specs.Option.{ForSome};
ghost use Rattle.plant.specs.Disks.{disk, ArePossible};
ghost use Rattle.plant.specs.DiskCalls.{missed, WriteSteps, SyncSteps, CutSteps};
ghost use Rattle.plant.specs.Events.{Event, Did, Missed, Restarted, Unread};
ghost use Rattle.plant.specs.declared.step.Side.TheVariants.{A, B};
ghost use Rattle.folder.specs.Folders.{Held, with_steps, with_mark, made_sure, IsDurable, IsSent};

use lab_base::{Memory, Name, TextFault};
use plant::{Answer, DeviceOp, Fault, Faults, Side};

/// The files of a lab's folder: the two sides of the journal, and a text of tables.
///
/// A folder may tell what it holds and what happened to it, whichever program did it. A program that is killed inside a call leaves the
/// folder stopped in that call; the next program begins after `restart`.
pub trait Folder {
    /// All that the folder holds and that happened to it, where it tells it.
    ghost told: { Self → Option Held };

    /// Whether it is stopped: no call changes it then.
    ghost is_stopped: { Self → Bool };

    /// The length of a side, as it reads.
    fn length(&mut self, side: Side) -> Result<u64, Fault>
        ensures told { told self.new ≡ with_steps (told self.old) (missed side result) }
        ensures length { IfSome (told self.old) (λ h. IfOk result (λ n. n ≡ length (disk side h.past.trace).reads)) }
        ensures stopped { IsErrOf result Fault.Stopped ↔ IsTrue (is_stopped self.new) }
        ensures still { is_stopped self.new ≡ is_stopped self.old };

    /// Fills the buffer with the bytes that a side reads as, from that place on.
    fn read(&mut self, side: Side, at: u64, into: &mut [u8]) -> Result<(), Fault>
        requires { IfSome (told self.old) (λ h. at + length into.old ≤ length (disk side h.past.trace).reads) }
        ensures told { told self.new ≡ with_steps (told self.old) (missed side result) }
        ensures read { IfSome (told self.old) (λ h. OnOk result (into.new ≡ take (length into.old) (drop at (disk side h.past.trace).reads))) }
        ensures stopped { IsErrOf result Fault.Stopped ↔ IsTrue (is_stopped self.new) }
        ensures still { is_stopped self.new ≡ is_stopped self.old };

    /// Writes bytes over those of a side from that place on, and past its end. Where it fails or stops, the side has its old length, or the whole
    /// range is there. The text of the tables is durable.
    fn write(&mut self, side: Side, at: u64, bytes: &[u8]) -> Result<(), Fault>
        requires at { IfSome (told self.old) (λ h. at ≤ length (disk side h.past.trace).reads) }
        requires sure { ForSome (told self.old) IsDurable }
        ensures told { (steps : List Event) × (told self.new ≡ with_steps (told self.old) steps)
            × WriteSteps side at bytes.now (is_stopped self.old) result steps }
        ensures stopped { IsErrOf result Fault.Stopped ↔ IsTrue (is_stopped self.new) };

    /// Makes a side durable as it reads. The text of the tables is durable.
    fn sync(&mut self, side: Side) -> Result<(), Fault>
        requires sure { ForSome (told self.old) IsDurable }
        ensures told { (steps : List Event) × (told self.new ≡ with_steps (told self.old) steps)
            × SyncSteps side (is_stopped self.old) result steps }
        ensures stopped { IsErrOf result Fault.Stopped ↔ IsTrue (is_stopped self.new) };

    /// Cuts a side to a length. The text of the tables is durable.
    fn cut(&mut self, side: Side, size: u64) -> Result<(), Fault>
        requires size { IfSome (told self.old) (λ h. size ≤ length (disk side h.past.trace).reads) }
        requires sure { ForSome (told self.old) IsDurable }
        ensures told { (steps : List Event) × (told self.new ≡ with_steps (told self.old) steps)
            × CutSteps side size (is_stopped self.old) result steps }
        ensures stopped { IsErrOf result Fault.Stopped ↔ IsTrue (is_stopped self.new) };

    /// The text of the tables. No text where there is none.
    fn text(&mut self) -> Result<Vec<u8>, Fault>
        ensures told { told self.new ≡ told self.old }
        ensures text { IfSome (told self.old) (λ h. IfOk result (λ bytes. bytes.items ≡ h.text)) }
        ensures stopped { IsErrOf result Fault.Stopped ↔ IsTrue (is_stopped self.new) }
        ensures still { is_stopped self.new ≡ is_stopped self.old };

    /// Whether the text is as this value left it.
    fn is_as_left(&mut self) -> bool
        ensures told { told self.new ≡ told self.old }
        ensures still { is_stopped self.new ≡ is_stopped self.old };

    /// Puts a text in the place of the old one, for a command and its answer.
    fn send(&mut self, op: &DeviceOp, answer: Answer, text: &[u8]) -> Result<(), Fault>
        ensures told { IsSent op.now answer text.now (is_stopped self.old) result (told self.old) (told self.new) }
        ensures stopped { IsErrOf result Fault.Stopped ↔ IsTrue (is_stopped self.new) };

    /// Makes the text durable.
    fn sync_text(&mut self) -> Result<(), Fault>
        ensures ok { OnOk result (told self.new ≡ made_sure (told self.old)) }
        ensures err { OnErr result (told self.new ≡ told self.old) }
        ensures stopped { IsErrOf result Fault.Stopped ↔ IsTrue (is_stopped self.new) };

    /// Notes a command that failed before its text was put.
    fn unsent(&mut self, op: &DeviceOp)
        ensures told { told self.new ≡ with_steps (told self.old) (Did op.now false (Err Fault.Failed) ∷ []) }
        ensures still { is_stopped self.new ≡ is_stopped self.old };

    /// Notes a call that failed before it came to its side.
    fn miss(&mut self, side: Side)
        ensures told { told self.new ≡ with_steps (told self.old) (Missed side ∷ []) }
        ensures still { is_stopped self.new ≡ is_stopped self.old };

    /// Notes a reading that failed.
    fn unread(&mut self, device: Name)
        ensures told { told self.new ≡ with_steps (told self.old) (Unread device ∷ []) }
        ensures still { is_stopped self.new ≡ is_stopped self.old };

    /// Notes that the text is of no tables, by its first line of another form.
    fn refused(&mut self, fault: TextFault)
        ensures told { told self.new ≡ told self.old }
        ensures still { is_stopped self.new ≡ is_stopped self.old };

    /// Notes the present moment.
    fn mark(&mut self, faults: Faults) -> Result<(), Memory>
        ensures ok { OnOk result (told self.new ≡ with_mark (told self.old) faults) }
        ensures err { OnErr result (told self.new ≡ told self.old) }
        ensures still { is_stopped self.new ≡ is_stopped self.old };

    /// The next program begins, on what the stop left. The text is as it was.
    fn restart(&mut self) -> Result<(), Memory>
        requires { IsTrue (is_stopped self.old) }
        ensures ok { OnOk result ((a b : List ℕ) × (told self.new ≡ with_steps (told self.old) (Restarted a b ∷ []))
            × IfSome (told self.old) (λ h. ArePossible h.past.trace a b)) }
        ensures goes_on { OnOk result (IsFalse (is_stopped self.new)) }
        ensures err { OnErr result ((told self.new ≡ told self.old) × (is_stopped self.new ≡ is_stopped self.old)) };

    fn stopped(&self) -> bool
        ensures { result ≡ is_stopped self.now };

    /// The bytes that the sides read as are possible at each moment.
    ghost reads_possible: { (folder : Self) → IfSome (told folder) (λ h. ArePossible h.past.trace (disk A h.past.trace).reads (disk B h.past.trace).reads) };
}
