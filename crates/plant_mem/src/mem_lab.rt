// The calls of a plant in memory that are its own, and its commands.
ghost use Rattle.std.specs.Prelude.{◌≡◌, IfOk, OnOk, OnErr, Err, true};
ghost use Rattle.plant.specs.Calls.{DeviceCause};
ghost use Rattle.plant.specs.Events.{Did};
ghost use Rattle.plant.specs.Worlds.{world_of};
ghost use Rattle.plant_mem.specs.Boots.{state_sent};
ghost use Rattle.plant_mem.specs.Commands.{answer_sent, sent, stopped_at, restarted, after_command, answer_command};
ghost use Rattle.plant_mem.specs.Held.{held_of, at_first, with_events, effect_if};
ghost use Rattle.plant_mem.specs.MemLab.{told_of, faults_of, bytes_of, state_of};
ghost use Rattle.plant_mem.specs.Rooms.{rooms_of, can_command, HasRooms, KeepsRooms};
ghost use Rattle.plant_mem.specs.Steps.{trace_of};

use crate::boot_step::BootStep;
use crate::mem::{BYTES, MORE_BYTES, MORE_ROOM, MemLab, ROOM};
use crate::past::Past;
use crate::plans::{boot_step_of, count_down, failure_of};
use crate::rows::Row;
use crate::stops::{count_stop, is_done};
use lab_base::{Memory, Name, VlanId};
use plant::{Answer, DeviceOp, Fault, Faults, Pick, Step};
use std::alloc::Global;

impl MemLab {
    /// A plant in which nothing has happened.
    pub fn blank(alloc: Global) -> Result<MemLab, Memory>
        ensures holds { IfOk result (λ lab. held_of lab ≡ at_first) }
        ensures rooms { IfOk result (λ lab. HasRooms (told_of lab).trace (rooms_of lab)) }
    {
        Ok(MemLab {
            past: Past::new(alloc, ROOM + MORE_ROOM, BYTES + MORE_BYTES)?,
            last_step: ROOM,
            last_byte: BYTES,
            marks: Vec::new(alloc),
            taken: Vec::new(alloc),
            plans: Vec::new(alloc),
            disk_plans: Vec::new(alloc),
            stop: None,
            pick: Pick::Nothing,
            faults: Faults {
                disk: 0,
                devices: 0,
            },
            stopped: false,
        })
    }

    /// The steps so far.
    pub fn trace(&self) -> &[Step]
        ensures { trace_of (bytes_of self.now) result.now ≡ (told_of self.now).trace }
    {
        &self.past.steps
    }

    /// The bytes of which the steps name ranges.
    pub fn bytes(&self) -> &[u8]
        ensures { result.now ≡ bytes_of self.now }
    {
        &self.past.bytes
    }

    /// Whether the port of the switch is in the VLAN.
    pub fn has_row(&self, switch: Name, port: u16, vlan: VlanId) -> bool
        ensures { result ≡ (world_of (told_of self.now).trace).rows (record { switch = switch; port = port; vlan = vlan.0 }) }
    {
        let row = Row { switch, port, vlan };
        let mut there = false;
        for step in &self.past.steps {
            there = row.after(step, there);
        }
        there
    }

    /// Sends a command for which there is room.
    pub(crate) fn send(&mut self, op: &DeviceOp) -> Result<Answer, Fault>
        requires { can_command self.old ≡ true }
        ensures answer { result ≡ answer_sent op.now (held_of self.old) }
        ensures cause { DeviceCause (faults_of self.old) (faults_of self.new) result }
        ensures held { held_of self.new ≡ sent op.now (held_of self.old) }
        ensures rooms { KeepsRooms 1 0 (rooms_of self.old) (rooms_of self.new) }
    {
        let boot_step = boot_step_of(&self.plans, op);
        let failure = failure_of(&self.plans, op);
        count_down(&mut self.plans, op, failure.unwrap_or(true));
        match failure {
            None => Ok(self.past.done(op, boot_step)),
            Some(applied) => {
                self.faults.devices = self.faults.devices.saturating_add(1);
                self.past.failed(op, boot_step, applied, Fault::Failed);
                Err(Fault::Failed)
            }
        }
    }

    /// Stops at a command for which there is room. The pick tells whether the command is applied.
    pub(crate) fn stop_at(&mut self, op: &DeviceOp, pick: Pick)
        requires { can_command self.old ≡ true }
        ensures held { held_of self.new ≡ stopped_at op.now pick (held_of self.old) }
        ensures rooms { KeepsRooms 1 0 (rooms_of self.old) (rooms_of self.new) }
    {
        let boot_step = boot_step_of(&self.plans, op);
        count_down(&mut self.plans, op, is_done(pick));
        self.apply_if(is_done(pick), op, boot_step);
        self.halt(pick);
    }

    /// Notes a command at which the plant stops, applied or not.
    fn apply_if(&mut self, applied: bool, op: &DeviceOp, boot_step: BootStep)
        requires { can_command self.old ≡ true }
        ensures held { held_of self.new
            ≡ record (with_events (effect_if applied (Did op.now true (Err Fault.Stopped))) (held_of self.old))
            { state = λ node. state_sent op.now boot_step applied node (state_of self.old node) } }
        ensures rooms { KeepsRooms 1 0 (rooms_of self.old) (rooms_of self.new) }
    {
        if applied {
            self.past.failed(op, boot_step, true, Fault::Stopped);
        }
    }

    /// Starts again, with the part of each side that the stop's pick leaves, and with the rooms of a blank plant.
    pub(crate) fn start_again(&mut self) -> Result<(), Memory>
        ensures ok { OnOk result (held_of self.new ≡ restarted (held_of self.old)) }
        ensures err { OnErr result (held_of self.new ≡ held_of self.old) }
        ensures rooms { OnOk result (HasRooms (told_of self.new).trace (rooms_of self.new)) }
    {
        self.past.make_room(ROOM, BYTES)?;
        self.past.restarted(self.pick);
        self.last_step = self.past.steps.len() + ROOM;
        self.last_byte = self.past.bytes.len() + BYTES;
        self.pick = Pick::Nothing;
        self.stopped = false;
        Ok(())
    }

    /// Sends a command, where there is room for it and the plant doesn't stop at it.
    pub(crate) fn perform(&mut self, op: &DeviceOp) -> Result<Answer, Fault>
        ensures answer { result ≡ answer_command (can_command self.old) op.now (held_of self.old) }
        ensures cause { DeviceCause (faults_of self.old) (faults_of self.new) result }
        ensures held { held_of self.new ≡ after_command (can_command self.old) op.now (held_of self.old) }
        ensures rooms { KeepsRooms 1 0 (rooms_of self.old) (rooms_of self.new) }
    {
        if self.stopped {
            return Err(Fault::Stopped);
        }
        if !self.can_command() {
            self.halt(Pick::Nothing);
            return Err(Fault::Stopped);
        }
        match count_stop(&mut self.stop) {
            None => self.send(op),
            Some(pick) => {
                self.stop_at(op, pick);
                Err(Fault::Stopped)
            }
        }
    }
}
