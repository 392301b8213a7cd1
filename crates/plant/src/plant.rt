ghost use Rattle.std.specs.Prelude.{◌≡◌, ◌↔◌, ◌≤◌, ◌+◌, ℕ, List, [], ◌∷◌, length, take, drop, Bool, IsTrue, IsFalse, IsErrOf, IfOk, IfSome, OnOk, OnErr};
ghost use Rattle.plant.specs.Disks.{disk, ArePossible};
ghost use Rattle.plant.specs.DiskCalls.{missed, DiskCause, WriteSteps, SyncSteps, CutSteps};
ghost use Rattle.plant.specs.Events.{Event, Restarted};
ghost use Rattle.plant.specs.Seen.{Seen};
ghost use Rattle.plant.specs.Told.{with_steps, with_mark, with_drill};
ghost use Rattle.plant.specs.Calls.{CommandSteps, DeviceCause};
ghost use Rattle.plant.specs.declared.step.Side.TheVariants.{A, B};

use crate::{Answer, DeviceOp, Drill, DrillFault, Fault, Side};
use lab_base::Memory;

/// The plant of a controller: the disk and the devices.
/// The disk has two sides. The effect of a call is the step that it adds to the trace.
///
/// All that is seen of a plant is one member, so that each call has one equation.
pub trait Plant {
    /// The past of the plant, where it tells it, both counts of faults, and whether it is stopped.
    ghost seen: { Self → Seen };

    /// Whether plants of this type take drills.
    ghost takes_drills: { Bool };

    /// The length of a side, as it reads.
    fn length(&mut self, side: Side) -> Result<u64, Fault>
        ensures trace { (seen self.new).told ≡ with_steps (seen self.old).told (missed side result) }
        ensures length { IfSome (seen self.old).told (λ t. IfOk result (λ n. n ≡ length (disk side t.trace).reads)) }
        ensures cause { DiskCause (seen self.old).faults (seen self.new).faults result }
        ensures stopped { IsErrOf result Fault.Stopped ↔ IsTrue (seen self.new).stopped }
        ensures still { (seen self.new).stopped ≡ (seen self.old).stopped };

    /// Fills the buffer with the bytes that a side reads as, from that place on.
    fn read(&mut self, side: Side, at: u64, into: &mut [u8]) -> Result<(), Fault>
        requires { IfSome (seen self.old).told (λ t. at + length into.old ≤ length (disk side t.trace).reads) }
        ensures trace { (seen self.new).told ≡ with_steps (seen self.old).told (missed side result) }
        ensures read { IfSome (seen self.old).told (λ t. OnOk result (into.new ≡ take (length into.old) (drop at (disk side t.trace).reads))) }
        ensures cause { DiskCause (seen self.old).faults (seen self.new).faults result }
        ensures stopped { IsErrOf result Fault.Stopped ↔ IsTrue (seen self.new).stopped }
        ensures still { (seen self.new).stopped ≡ (seen self.old).stopped };

    /// Writes bytes over those of a side from that place on, and past its end.
    fn write(&mut self, side: Side, at: u64, bytes: &[u8]) -> Result<(), Fault>
        requires { IfSome (seen self.old).told (λ t. at ≤ length (disk side t.trace).reads) }
        ensures trace { (steps : List Event) × ((seen self.new).told ≡ with_steps (seen self.old).told steps)
            × WriteSteps side at bytes.now (seen self.old).stopped result steps }
        ensures cause { DiskCause (seen self.old).faults (seen self.new).faults result }
        ensures stopped { IsErrOf result Fault.Stopped ↔ IsTrue (seen self.new).stopped };

    /// Makes a side durable as it reads.
    fn sync(&mut self, side: Side) -> Result<(), Fault>
        ensures trace { (steps : List Event) × ((seen self.new).told ≡ with_steps (seen self.old).told steps)
            × SyncSteps side (seen self.old).stopped result steps }
        ensures cause { DiskCause (seen self.old).faults (seen self.new).faults result }
        ensures stopped { IsErrOf result Fault.Stopped ↔ IsTrue (seen self.new).stopped };

    /// Cuts a side to a length.
    fn cut(&mut self, side: Side, size: u64) -> Result<(), Fault>
        requires { IfSome (seen self.old).told (λ t. size ≤ length (disk side t.trace).reads) }
        ensures trace { (steps : List Event) × ((seen self.new).told ≡ with_steps (seen self.old).told steps)
            × CutSteps side size (seen self.old).stopped result steps }
        ensures cause { DiskCause (seen self.old).faults (seen self.new).faults result }
        ensures stopped { IsErrOf result Fault.Stopped ↔ IsTrue (seen self.new).stopped };

    /// Starts a stopped plant again. Its devices are as they were, and each side has an image that was possible.
    fn restart(&mut self) -> Result<(), Memory>
        requires { IsTrue (seen self.old).stopped }
        ensures ok { OnOk result ((a b : List ℕ) × ((seen self.new).told ≡ with_steps (seen self.old).told (Restarted a b ∷ []))
            × IfSome (seen self.old).told (λ t. ArePossible t.trace a b)) }
        ensures goes_on { OnOk result (IsFalse (seen self.new).stopped) }
        ensures faults { (seen self.new).faults ≡ (seen self.old).faults }
        ensures err { OnErr result (seen self.new ≡ seen self.old) };

    /// Sends a command to its device. After `Failed` and `Stopped` it is open whether it was applied.
    fn command(&mut self, op: DeviceOp) -> Result<Answer, Fault>
        ensures trace { (steps : List Event) × ((seen self.new).told ≡ with_steps (seen self.old).told steps)
            × CommandSteps op (seen self.old).stopped result steps }
        ensures cause { DeviceCause (seen self.old).faults (seen self.new).faults result }
        ensures stopped { IsErrOf result Fault.Stopped ↔ IsTrue (seen self.new).stopped };

    /// Plans a failure.
    fn drill(&mut self, drill: Drill) -> Result<(), DrillFault>
        ensures ok { OnOk result (seen self.new ≡ record (seen self.old) { told = with_drill (seen self.old).told drill }) }
        ensures err { OnErr result (seen self.new ≡ seen self.old) }
        ensures cannot { IsErrOf result DrillFault.CannotPlan ↔ IsFalse takes_drills };

    /// Notes the present moment.
    fn mark(&mut self) -> Result<(), Memory>
        ensures ok { OnOk result (seen self.new ≡ record (seen self.old) { told = with_mark (seen self.old).told (seen self.old).faults }) }
        ensures err { OnErr result (seen self.new ≡ seen self.old) };

    /// Whether the plant is stopped.
    fn stopped(&self) -> bool
        ensures { result ≡ (seen self.now).stopped };

    /// Whether the plant takes drills.
    fn drills(&self) -> bool
        ensures { result ≡ takes_drills };

    /// The bytes that the sides read as are possible at each moment, since every write begins within its side.
    ghost reads_possible: { (plant : Self) → IfSome (seen plant).told (λ t. ArePossible t.trace (disk A t.trace).reads (disk B t.trace).reads) };
}
