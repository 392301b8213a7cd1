// Readings of what the devices hold.
ghost use Rattle.std.specs.Prelude.{◌≡◌, Some};
ghost use Rattle.plant.specs.Told.{with_steps};
ghost use Rattle.plant.specs.Worlds.{world_of};
ghost use Rattle.plant.specs.Readings.{unread, ReadCause, TellsRow, TellsNode, TellsPipe, RowsFit, PipesFit, pipe_of};
ghost use Rattle.plant_mem.specs.Held.{held_of};
ghost use Rattle.plant_mem.specs.MemLab.{told_of, faults_of};
ghost use Rattle.plant_mem.specs.Readings.{after_reading, fails_reading, read_answer};
ghost use Rattle.plant_mem.specs.Rooms.{rooms_of, can_step, KeepsRooms};

use crate::mem::MemLab;
use crate::plans::{count_readings, fails_reading};
use crate::row_table::nth_on;
use lab_base::{Name, VlanId};
use plant::{NodeRow, PipeRow, ReadFailed};

impl MemLab {
    /// Counts a reading, and answers it, where it doesn't fail.
    pub(crate) fn end_reading<T: Copy>(&mut self, device: Name, value: T) -> Result<T, ReadFailed>
        ensures answer { result ≡ read_answer (fails_reading (can_step self.old) device (held_of self.old)) value }
        ensures trace { Some (told_of self.new) ≡ with_steps (Some (told_of self.old)) (unread device result) }
        ensures cause { ReadCause (faults_of self.old) (faults_of self.new) result }
        ensures held { held_of self.new ≡ after_reading (can_step self.old) device (held_of self.old) }
        ensures rooms { KeepsRooms 1 0 (rooms_of self.old) (rooms_of self.new) }
    {
        let fails = fails_reading(&self.plans, &device) && self.can_step();
        count_readings(&mut self.plans, &device);
        if !fails {
            return Ok(value);
        }
        self.faults.devices = self.faults.devices.saturating_add(1);
        self.past.unread(device);
        Err(ReadFailed)
    }

    pub(crate) fn nth_row(&self, switch: Name, nth: u32) -> Option<(u16, VlanId)>
        ensures tells { TellsRow (world_of (told_of self.now).trace) switch nth result }
        ensures fits { RowsFit (world_of (told_of self.now).trace) switch }
    {
        nth_on(&self.past.rows, &switch, nth)
    }

    pub(crate) fn told_node(&self, node: Name) -> NodeRow
        ensures { TellsNode ((world_of (told_of self.now).trace).node node) result }
    {
        // for the prover: no number is greater than a pipe may have
        let _end = self.pipes_end();
        self.node_row(node)
    }

    pub(crate) fn nth_pipe(&self, node: Name, nth: u16) -> Option<PipeRow>
        ensures tells { TellsPipe ((world_of (told_of self.now).trace).node node) nth result }
        ensures fits { PipesFit ((world_of (told_of self.now).trace).node node) }
    {
        let mut left = nth;
        for number in 0..self.pipes_end() {
            if let Some(pipe) = self.pipe_at(&node, number as u16) {
                if left == 0 {
                    return Some(numbered(number as u16, &pipe));
                }
                left -= 1;
            }
        }
        None
    }
}

/// A pipe with that number.
fn numbered(number: u16, pipe: &PipeRow) -> PipeRow
    ensures number { result.pipe ≡ number }
    ensures pipe { pipe_of result ≡ pipe_of pipe.now }
{
    PipeRow {
        pipe: number,
        from: pipe.from,
        to: pipe.to,
        there: pipe.there,
        back: pipe.back,
    }
}
