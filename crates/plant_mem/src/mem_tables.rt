use crate::mem::MemLab;
use lab_base::{Name, VlanId};
use plant::{NodeRow, PipeRow, ReadFailed, Tables};

/// A reading fails exactly where a drill says so, while there is room for a step.
impl Tables for MemLab {
    ghost use Rattle.std.specs.Prelude.{◌≡◌, IfOk, OnOk, Some, is_err};
    ghost use Rattle.plant.specs.Told.{with_steps};
    ghost use Rattle.plant.specs.Worlds.{world_of};
    ghost use Rattle.plant.specs.Readings.{unread, ReadCause, TellsRow, TellsNode, TellsPipe, RowsFit, PipesFit};
    ghost use Rattle.plant_mem.specs.Held.{held_of};
    ghost use Rattle.plant_mem.specs.MemLab.{told_of, faults_of, stopped_of};
    ghost use Rattle.plant_mem.specs.Readings.{after_reading, fails_reading};
    ghost use Rattle.plant_mem.specs.Rooms.{rooms_of, can_step, KeepsRooms};

    fn row(&mut self, switch: Name, nth: u32) -> Result<Option<(u16, VlanId)>, ReadFailed>
        ensures trace { Some (told_of self.new) ≡ with_steps (Some (told_of self.old)) (unread switch result) }
        ensures row { IfOk result (TellsRow (world_of (told_of self.old).trace) switch nth) }
        ensures fits { OnOk result (RowsFit (world_of (told_of self.old).trace) switch) }
        ensures cause { ReadCause (faults_of self.old) (faults_of self.new) result }
        ensures still { stopped_of self.new ≡ stopped_of self.old }
        ensures fails { is_err result ≡ fails_reading (can_step self.old) switch (held_of self.old) }
        ensures leaves { held_of self.new ≡ after_reading (can_step self.old) switch (held_of self.old) }
        ensures rooms { KeepsRooms 1 0 (rooms_of self.old) (rooms_of self.new) }
    {
        let found = self.nth_row(switch, nth);
        self.end_reading(switch, found)
    }

    fn node(&mut self, node: Name) -> Result<NodeRow, ReadFailed>
        ensures trace { Some (told_of self.new) ≡ with_steps (Some (told_of self.old)) (unread node result) }
        ensures node { IfOk result (TellsNode ((world_of (told_of self.old).trace).node node)) }
        ensures cause { ReadCause (faults_of self.old) (faults_of self.new) result }
        ensures still { stopped_of self.new ≡ stopped_of self.old }
        ensures fails { is_err result ≡ fails_reading (can_step self.old) node (held_of self.old) }
        ensures leaves { held_of self.new ≡ after_reading (can_step self.old) node (held_of self.old) }
        ensures rooms { KeepsRooms 1 0 (rooms_of self.old) (rooms_of self.new) }
    {
        let found = self.told_node(node);
        self.end_reading(node, found)
    }

    fn pipe(&mut self, node: Name, nth: u16) -> Result<Option<PipeRow>, ReadFailed>
        ensures trace { Some (told_of self.new) ≡ with_steps (Some (told_of self.old)) (unread node result) }
        ensures pipe { IfOk result (TellsPipe ((world_of (told_of self.old).trace).node node) nth) }
        ensures fits { OnOk result (PipesFit ((world_of (told_of self.old).trace).node node)) }
        ensures cause { ReadCause (faults_of self.old) (faults_of self.new) result }
        ensures still { stopped_of self.new ≡ stopped_of self.old }
        ensures fails { is_err result ≡ fails_reading (can_step self.old) node (held_of self.old) }
        ensures leaves { held_of self.new ≡ after_reading (can_step self.old) node (held_of self.old) }
        ensures rooms { KeepsRooms 1 0 (rooms_of self.old) (rooms_of self.new) }
    {
        let found = self.nth_pipe(node, nth);
        self.end_reading(node, found)
    }
}
