use crate::mem::MemLab;
use crate::plans::add_plan;
use crate::stops::{add_disk_plan, add_stop};
use lab_base::Memory;
use plant::{Answer, DeviceOp, Drill, DrillFault, Fault, Moment, Plant, Side, Taken};

impl Plant for MemLab {
    ghost use Rattle.std.specs.Prelude.{◌≡◌, ◌↔◌, ◌≤◌, ◌+◌, ℕ, List, [], ◌∷◌, length, take, drop, true, Some, IfOk, OnOk, OnErr, IsErrOf, IsTrue, IsFalse};
    ghost use Rattle.plant.specs.Calls.{CommandSteps, DeviceCause};
    ghost use Rattle.plant.specs.Disks.{disk, ArePossible};
    ghost use Rattle.plant.specs.DiskCalls.{missed, DiskCause, WriteSteps, SyncSteps, CutSteps};
    ghost use Rattle.plant.specs.Events.{Event, Wrote, Synced, Cut, Restarted};
    ghost use Rattle.plant.specs.Told.{with_steps, with_mark, with_drill};
    ghost use Rattle.plant_mem.specs.Commands.{after_command, answer_command, drilled, marked, restarted};
    ghost use Rattle.plant_mem.specs.CallEnds.{call_end, read_end, answered, after_call, after_read};
    ghost use Rattle.plant_mem.specs.Held.{held_of};
    ghost use Rattle.plant_mem.specs.MemLab.{told_of, seen_of, faults_of, stopped_of};
    ghost use Rattle.plant_mem.specs.Possible.{reads_possible_of};
    ghost use Rattle.plant_mem.specs.Rooms.{rooms_of, can_step, can_write, can_sync, can_cut, can_command, HasRooms, KeepsRooms};

    ghost seen = { seen_of };

    ghost takes_drills = { true };

    ghost reads_possible = { reads_possible_of };

    /// Fails exactly where a drill says so, while there is room for a step.
    fn length(&mut self, side: Side) -> Result<u64, Fault>
        ensures trace { Some (told_of self.new) ≡ with_steps (Some (told_of self.old)) (missed side result) }
        ensures length { IfOk result (λ n. n ≡ length (disk side (told_of self.old).trace).reads) }
        ensures cause { DiskCause (faults_of self.old) (faults_of self.new) result }
        ensures stopped { IsErrOf result Fault.Stopped ↔ IsTrue (stopped_of self.new) }
        ensures still { stopped_of self.new ≡ stopped_of self.old }
        ensures answer { result ≡ answered (read_end (can_step self.old) (held_of self.old)) (length (disk side (told_of self.old).trace).reads) }
        ensures leaves { held_of self.new ≡ after_read (can_step self.old) side (held_of self.old) }
        ensures rooms { KeepsRooms 1 0 (rooms_of self.old) (rooms_of self.new) }
    {
        let length = self.past.length(side) as u64;
        let call_end = self.count_read();
        self.end(call_end, side, length)
    }

    /// Fails exactly where a drill says so, while there is room for a step.
    fn read(&mut self, side: Side, at: u64, into: &mut [u8]) -> Result<(), Fault>
        requires { at + length into.old ≤ length (disk side (told_of self.old).trace).reads }
        ensures trace { Some (told_of self.new) ≡ with_steps (Some (told_of self.old)) (missed side result) }
        ensures read { OnOk result (into.new ≡ take (length into.old) (drop at (disk side (told_of self.old).trace).reads)) }
        ensures cause { DiskCause (faults_of self.old) (faults_of self.new) result }
        ensures stopped { IsErrOf result Fault.Stopped ↔ IsTrue (stopped_of self.new) }
        ensures still { stopped_of self.new ≡ stopped_of self.old }
        ensures answer { result ≡ answered (read_end (can_step self.old) (held_of self.old)) tt }
        ensures leaves { held_of self.new ≡ after_read (can_step self.old) side (held_of self.old) }
        ensures rooms { KeepsRooms 1 0 (rooms_of self.old) (rooms_of self.new) }
    {
        let call_end = self.count_read();
        self.read_if(call_end.has_effect(), side, at, into);
        self.end(call_end, side, ())
    }

    /// Fails or stops exactly where a drill says so, while there is room; else it stops, without effect.
    fn write(&mut self, side: Side, at: u64, bytes: &[u8]) -> Result<(), Fault>
        ensures trace { (steps : List Event) × (Some (told_of self.new) ≡ with_steps (Some (told_of self.old)) steps)
            × WriteSteps side at bytes.now (stopped_of self.old) result steps }
        ensures cause { DiskCause (faults_of self.old) (faults_of self.new) result }
        ensures stopped { IsErrOf result Fault.Stopped ↔ IsTrue (stopped_of self.new) }
        ensures answer { result ≡ answered (call_end (can_write self.old side at (length bytes.now)) (held_of self.old)) tt }
        ensures leaves { held_of self.new ≡ after_call (can_write self.old side at (length bytes.now)) side (Wrote side at bytes.now) (held_of self.old) }
        ensures rooms { KeepsRooms 1 (length bytes.now) (rooms_of self.old) (rooms_of self.new) }
    {
        let has_room = self.can_write(side, at, bytes.len());
        let call_end = self.count_call(has_room);
        self.write_if(call_end.has_effect(), side, at, bytes);
        self.end(call_end, side, ())
    }

    /// Fails or stops exactly where a drill says so, while there is room; else it stops, without effect.
    fn sync(&mut self, side: Side) -> Result<(), Fault>
        ensures trace { (steps : List Event) × (Some (told_of self.new) ≡ with_steps (Some (told_of self.old)) steps)
            × SyncSteps side (stopped_of self.old) result steps }
        ensures cause { DiskCause (faults_of self.old) (faults_of self.new) result }
        ensures stopped { IsErrOf result Fault.Stopped ↔ IsTrue (stopped_of self.new) }
        ensures answer { result ≡ answered (call_end (can_sync self.old side) (held_of self.old)) tt }
        ensures leaves { held_of self.new ≡ after_call (can_sync self.old side) side (Synced side) (held_of self.old) }
        ensures rooms { KeepsRooms 1 0 (rooms_of self.old) (rooms_of self.new) }
    {
        let has_room = self.can_sync(side);
        let call_end = self.count_call(has_room);
        self.sync_if(call_end.has_effect(), side);
        self.end(call_end, side, ())
    }

    /// Fails or stops exactly where a drill says so, while there is room; else it stops, without effect.
    fn cut(&mut self, side: Side, size: u64) -> Result<(), Fault>
        ensures trace { (steps : List Event) × (Some (told_of self.new) ≡ with_steps (Some (told_of self.old)) steps)
            × CutSteps side size (stopped_of self.old) result steps }
        ensures cause { DiskCause (faults_of self.old) (faults_of self.new) result }
        ensures stopped { IsErrOf result Fault.Stopped ↔ IsTrue (stopped_of self.new) }
        ensures answer { result ≡ answered (call_end (can_cut self.old side size) (held_of self.old)) tt }
        ensures leaves { held_of self.new ≡ after_call (can_cut self.old side size) side (Cut side size) (held_of self.old) }
        ensures rooms { KeepsRooms 1 0 (rooms_of self.old) (rooms_of self.new) }
    {
        let has_room = self.can_cut(side, size);
        let call_end = self.count_call(has_room);
        self.cut_if(call_end.has_effect(), side, size);
        self.end(call_end, side, ())
    }

    /// Leaves of each side the part that the stop's pick says, and makes the rooms of a blank plant anew.
    fn restart(&mut self) -> Result<(), Memory>
        ensures ok { OnOk result ((a b : List ℕ) × (Some (told_of self.new) ≡ with_steps (Some (told_of self.old)) (Restarted a b ∷ []))
            × ArePossible (told_of self.old).trace a b) }
        ensures goes_on { OnOk result (IsFalse (stopped_of self.new)) }
        ensures faults { faults_of self.new ≡ faults_of self.old }
        ensures err { OnErr result (seen_of self.new ≡ seen_of self.old) }
        ensures leaves { OnOk result (held_of self.new ≡ restarted (held_of self.old)) }
        ensures same { OnErr result (held_of self.new ≡ held_of self.old) }
        ensures rooms { OnOk result (HasRooms (told_of self.new).trace (rooms_of self.new)) }
    {
        self.start_again()
    }

    /// Fails, hangs, jumps or stops exactly where a drill says so, while there is room; else it stops, without effect.
    fn command(&mut self, op: DeviceOp) -> Result<Answer, Fault>
        ensures trace { (steps : List Event) × (Some (told_of self.new) ≡ with_steps (Some (told_of self.old)) steps)
            × CommandSteps op (stopped_of self.old) result steps }
        ensures cause { DeviceCause (faults_of self.old) (faults_of self.new) result }
        ensures stopped { IsErrOf result Fault.Stopped ↔ IsTrue (stopped_of self.new) }
        ensures answer { result ≡ answer_command (can_command self.old) op (held_of self.old) }
        ensures leaves { held_of self.new ≡ after_command (can_command self.old) op (held_of self.old) }
        ensures rooms { KeepsRooms 1 0 (rooms_of self.old) (rooms_of self.new) }
    {
        self.perform(&op)
    }

    fn drill(&mut self, drill: Drill) -> Result<(), DrillFault>
        ensures ok { OnOk result (seen_of self.new ≡ record (seen_of self.old) { told = with_drill (seen_of self.old).told drill }) }
        ensures err { OnErr result (seen_of self.new ≡ seen_of self.old) }
        ensures cannot { IsErrOf result DrillFault.CannotPlan ↔ IsFalse true }
        ensures leaves { OnOk result (held_of self.new ≡ drilled drill (held_of self.old)) }
        ensures same { OnErr result (held_of self.new ≡ held_of self.old) }
        ensures rooms { rooms_of self.new ≡ rooms_of self.old }
    {
        if self.taken.try_reserve(1).is_err()
            || self.plans.try_reserve(1).is_err()
            || self.disk_plans.try_reserve(1).is_err()
        {
            return Err(DrillFault::Memory);
        }
        add_plan(&mut self.plans, &drill);
        add_disk_plan(&mut self.disk_plans, &drill);
        add_stop(&mut self.stop, &drill);
        let at = self.past.steps.len();
        self.taken.push_reserved(Taken { at, drill });
        Ok(())
    }

    fn mark(&mut self) -> Result<(), Memory>
        ensures ok { OnOk result (seen_of self.new ≡ record (seen_of self.old) { told = with_mark (seen_of self.old).told (seen_of self.old).faults }) }
        ensures err { OnErr result (seen_of self.new ≡ seen_of self.old) }
        ensures leaves { OnOk result (held_of self.new ≡ marked (held_of self.old)) }
        ensures same { OnErr result (held_of self.new ≡ held_of self.old) }
        ensures rooms { rooms_of self.new ≡ rooms_of self.old }
    {
        let at = self.past.steps.len();
        self.marks.push(Moment {
            at,
            faults: self.faults,
        })?;
        Ok(())
    }

    fn stopped(&self) -> bool {
        self.stopped
    }

    fn drills(&self) -> bool {
        true
    }
}
