ghost use Rattle.std.specs.Prelude.{◌≡◌, ◌≤◌, ◌+◌, length, take, drop, true, IsTrue, IsFalse};
ghost use Rattle.plant.specs.DiskCalls.{DiskCause};
ghost use Rattle.plant.specs.Disks.{disk};
ghost use Rattle.plant.specs.Events.{Wrote, Synced, Cut};
ghost use Rattle.plant_mem.specs.CallEnds.{call_end, read_end, answered, ended, counted_call, counted_read};
ghost use Rattle.plant_mem.specs.Held.{held_of, with_events, effect_if};
ghost use Rattle.plant_mem.specs.MemLab.{told_of, faults_of, mem_side_of};
ghost use Rattle.plant_mem.specs.Rooms.{rooms_of, can_step, can_write, can_sync, can_cut, can_command, KeepsRooms};
ghost use Rattle.plant_mem.specs.declared.call_end.CallEnd.TheVariants.{Fails};

use crate::call_end::{CallEnd, count_call};
use crate::mem::MemLab;
use crate::mem_side::MemSide;
use crate::stops::count_disk;
use plant::{Fault, Pick, Side};

impl MemLab {
    fn mem_side(&self, side: Side) -> &MemSide
        ensures { result.now ≡ mem_side_of self.now side }
    {
        match side {
            Side::A => &self.past.a,
            Side::B => &self.past.b,
        }
    }

    pub(crate) fn can_step(&self) -> bool
        ensures { result ≡ can_step self.now }
    {
        self.past.steps.len() < self.last_step
    }

    pub(crate) fn can_command(&self) -> bool
        ensures { result ≡ can_command self.now }
    {
        let nodes = self.past.nodes.room();
        let rows = self.past.rows.capacity() - self.past.rows.len();
        self.can_step() && 0 < nodes.min(rows)
    }

    #[tactic(auto, using(crate::proofs::Sides::reads_len))]
    pub(crate) fn can_write(&self, side: Side, at: u64, size: usize) -> bool
        ensures { result ≡ can_write self.now side at size }
    {
        let mem_side = self.mem_side(side);
        self.can_step()
            && size <= self.last_byte.saturating_sub(self.past.bytes.len())
            && at <= mem_side.reads.len() as u64
            && size <= mem_side.reads.capacity() - at as usize
            && 0 < mem_side.written.capacity() - mem_side.written.len()
    }

    #[tactic(auto, using(crate::proofs::Sides::reads_len))]
    pub(crate) fn can_sync(&self, side: Side) -> bool
        ensures { result ≡ can_sync self.now side }
    {
        let mem_side = self.mem_side(side);
        self.can_step() && mem_side.reads.len() <= mem_side.durable.capacity()
    }

    #[tactic(auto, using(crate::proofs::Sides::reads_len))]
    pub(crate) fn can_cut(&self, side: Side, size: u64) -> bool
        ensures { result ≡ can_cut self.now side size }
    {
        self.can_step() && size <= self.mem_side(side).reads.len() as u64
    }

    /// Counts a write, a sync or a cut, and answers its end.
    pub(crate) fn count_call(&mut self, has_room: bool) -> CallEnd
        ensures call_end { result ≡ call_end has_room (held_of self.old) }
        ensures held { held_of self.new ≡ counted_call has_room (held_of self.old) }
        ensures past { self.new.past ≡ self.old.past }
        ensures last_step { self.new.last_step ≡ self.old.last_step }
        ensures last_byte { self.new.last_byte ≡ self.old.last_byte }
    {
        if self.stopped {
            CallEnd::AlreadyStopped
        } else if has_room {
            count_call(&mut self.stop, &mut self.disk_plans)
        } else {
            CallEnd::Stops(Pick::Nothing)
        }
    }

    /// Counts a call that reads, and answers its end.
    pub(crate) fn count_read(&mut self) -> CallEnd
        ensures call_end { result ≡ read_end (can_step self.old) (held_of self.old) }
        ensures held { held_of self.new ≡ counted_read (held_of self.old) }
        ensures past { self.new.past ≡ self.old.past }
        ensures last_step { self.new.last_step ≡ self.old.last_step }
        ensures last_byte { self.new.last_byte ≡ self.old.last_byte }
    {
        if self.stopped {
            return CallEnd::AlreadyStopped;
        }
        let fails = count_disk(&mut self.disk_plans);
        if fails && self.can_step() {
            CallEnd::Fails
        } else {
            CallEnd::Done
        }
    }

    /// Ends a call so.
    pub(crate) fn end<T: Copy>(
        &mut self,
        call_end: CallEnd,
        side: Side,
        value: T,
    ) -> Result<T, Fault>
        requires { call_end ≡ Fails → can_step self.old ≡ true }
        ensures answer { result ≡ answered call_end value }
        ensures cause { DiskCause (faults_of self.old) (faults_of self.new) result }
        ensures held { held_of self.new ≡ ended call_end side (held_of self.old) }
        ensures rooms { KeepsRooms 1 0 (rooms_of self.old) (rooms_of self.new) }
        ensures same { (call_end ≡ Fails → ⊥) → rooms_of self.new ≡ rooms_of self.old }
    {
        match call_end {
            CallEnd::Done => Ok(value),
            CallEnd::Fails => {
                self.faults.disk = self.faults.disk.saturating_add(1);
                self.past.missed(side);
                Err(Fault::Failed)
            }
            CallEnd::Stops(pick) => {
                self.halt(pick);
                Err(Fault::Stopped)
            }
            CallEnd::AlreadyStopped => Err(Fault::Stopped),
        }
    }

    /// Stops.
    pub(crate) fn halt(&mut self, pick: Pick)
        ensures { self.new ≡ record self.old { stopped = true; pick = pick } }
    {
        self.stopped = true;
        self.pick = pick;
    }

    /// Reads a part of a side, where the call is applied.
    pub(crate) fn read_if(&self, applied: bool, side: Side, at: u64, into: &mut [u8])
        requires { at + length into.old ≤ length (disk side (told_of self.now).trace).reads }
        ensures { IsTrue applied → into.new ≡ take (length into.old) (drop at (disk side (told_of self.now).trace).reads) }
    {
        if applied {
            self.past.read(side, at as usize, into);
        }
    }

    /// Notes a write, applied or not.
    pub(crate) fn write_if(&mut self, applied: bool, side: Side, at: u64, bytes: &[u8])
        requires { IsTrue applied → can_write self.old side at (length bytes.now) ≡ true }
        ensures held { held_of self.new ≡ with_events (effect_if applied (Wrote side at bytes.now)) (held_of self.old) }
        ensures rooms { KeepsRooms 1 (length bytes.now) (rooms_of self.old) (rooms_of self.new) }
        ensures same { IsFalse applied → rooms_of self.new ≡ rooms_of self.old }
    {
        if applied {
            self.past.wrote(side, at as usize, bytes);
        }
    }

    /// Notes a sync, applied or not.
    pub(crate) fn sync_if(&mut self, applied: bool, side: Side)
        requires { IsTrue applied → can_sync self.old side ≡ true }
        ensures held { held_of self.new ≡ with_events (effect_if applied (Synced side)) (held_of self.old) }
        ensures rooms { KeepsRooms 1 0 (rooms_of self.old) (rooms_of self.new) }
        ensures same { IsFalse applied → rooms_of self.new ≡ rooms_of self.old }
    {
        if applied {
            self.past.synced(side);
        }
    }

    /// Notes a cut, applied or not.
    pub(crate) fn cut_if(&mut self, applied: bool, side: Side, size: u64)
        requires { IsTrue applied → can_cut self.old side size ≡ true }
        ensures held { held_of self.new ≡ with_events (effect_if applied (Cut side size)) (held_of self.old) }
        ensures rooms { KeepsRooms 1 0 (rooms_of self.old) (rooms_of self.new) }
        ensures same { IsFalse applied → rooms_of self.new ≡ rooms_of self.old }
    {
        if applied {
            self.past.cut(side, size as usize);
        }
    }
}
