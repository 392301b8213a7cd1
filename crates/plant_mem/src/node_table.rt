// The tables of nodes and of their pipes.
ghost use Rattle.std.specs.Prelude.{◌≡◌, ◌<◌, ◌≤◌, ◌+◌, [], List, ℕ, IfOk, OnOk, option_map, if◌then◌else◌};
ghost use Rattle.plant.specs.Readings.{pipe_of};
ghost use Rattle.plant_mem.specs.Boots.{state_in, state_after, state_sent, os_in, os_after, answer_of, NodesRise};
ghost use Rattle.plant_mem.specs.Pipes.{pipe_in, pipe_after, EndsAt, PipesRise};

use crate::boot_step::BootStep;
use crate::nodes::NodeState;
use crate::pipes::PipeState;
use crate::{nodes, pipes};
use lab_base::Memory;
use plant::{Answer, DeviceOp};
use std::alloc::Global;

/// The nodes and the pipes of a plant in memory, by name.
#[derive(Drop)]
pub struct NodeTable {
    pub nodes: Vec<NodeState>,
    pub pipes: Vec<PipeState>,
    /// The number from which on no pipe is set.
    pub end: u32,
    ghost nodes_rise: { NodesRise nodes.items },
    ghost pipes_rise: { PipesRise pipes.items },
    ghost small: { end ≤ 65536 },
    ghost ends: { EndsAt end pipes.items },
}

impl NodeTable {
    ghost use Rattle.plant_mem.specs.NodeRooms.{node_room};

    /// Empty tables, with room for so many entries of each.
    pub fn new(alloc: Global, room: usize) -> Result<NodeTable, Memory>
        ensures nodes { IfOk result (λ table. table.nodes.items ≡ []) }
        ensures pipes { IfOk result (λ table. table.pipes.items ≡ []) }
        ensures room { IfOk result (λ table. room ≤ node_room table) }
    {
        Ok(NodeTable {
            nodes: Vec::with_capacity(alloc, room)?,
            pipes: Vec::with_capacity(alloc, room)?,
            end: 0,
        })
    }

    /// Makes room for so many entries more of each.
    pub fn make_room(&mut self, room: usize) -> Result<(), Memory>
        ensures nodes { self.new.nodes.items ≡ self.old.nodes.items }
        ensures pipes { self.new.pipes.items ≡ self.old.pipes.items }
        ensures ok { OnOk result (room ≤ node_room self.new) }
    {
        self.nodes.try_reserve(room)?;
        self.pipes.try_reserve(room)?;
        Ok(())
    }

    /// For how many entries of each there is room.
    pub fn room(&self) -> usize
        ensures { result ≡ node_room self.now }
    {
        let nodes = self.nodes.capacity() - self.nodes.len();
        let pipes = self.pipes.capacity() - self.pipes.len();
        nodes.min(pipes)
    }

    /// Applies a command, and answers it.
    pub fn apply(&mut self, op: &DeviceOp, boot_step: BootStep) -> Answer
        requires { 0 < node_room self.old }
        ensures states { (name : List ℕ) → state_in name self.new.nodes.items ≡ state_after op.now boot_step name (state_in name self.old.nodes.items) }
        ensures oses { (name : List ℕ) → os_in name self.new.nodes.items ≡ os_after op.now name (os_in name self.old.nodes.items) }
        ensures set { (name : List ℕ) (k : ℕ) → option_map pipe_of (pipe_in name k self.new.pipes.items)
            ≡ pipe_after op.now name k (option_map pipe_of (pipe_in name k self.old.pipes.items)) }
        ensures answer { result ≡ answer_of op.now boot_step (λ name. state_in name self.old.nodes.items) }
        ensures room { node_room self.old ≤ node_room self.new + 1 }
    {
        self.end = pipes::apply(&mut self.pipes, self.end, op);
        nodes::apply(&mut self.nodes, op, boot_step)
    }

    /// Applies a command, or not.
    pub fn apply_if(&mut self, applied: bool, op: &DeviceOp, boot_step: BootStep)
        requires { 0 < node_room self.old }
        ensures states { (name : List ℕ) → state_in name self.new.nodes.items ≡ state_sent op.now boot_step applied name (state_in name self.old.nodes.items) }
        ensures oses { (name : List ℕ) → os_in name self.new.nodes.items ≡ (if applied then os_after op.now name (os_in name self.old.nodes.items) else os_in name self.old.nodes.items) }
        ensures set { (name : List ℕ) (k : ℕ) → option_map pipe_of (pipe_in name k self.new.pipes.items)
            ≡ (if applied then pipe_after op.now name k (option_map pipe_of (pipe_in name k self.old.pipes.items))
            else option_map pipe_of (pipe_in name k self.old.pipes.items)) }
        ensures room { node_room self.old ≤ node_room self.new + 1 }
    {
        if applied {
            let _answer = self.apply(op, boot_step);
        }
    }
}
