ghost use Rattle.std.specs.Prelude.{◌≡◌, ◌<◌, ◌≤◌, ◌+◌, ◌++◌, [], ◌∷◌, ℕ, true, length, vec_len, vec_capacity};
ghost use Rattle.plant.specs.Disks.{disk, wrote, synced, shortened, on_side, same_side};
ghost use Rattle.plant.specs.Sides.{of_side};
ghost use Rattle.plant_mem.specs.MemSides.{disk_of, KeepsRoom, HasMore};
ghost use Rattle.plant_mem.specs.Knows.{Knows};
ghost use Rattle.plant_mem.specs.Picks.{left_by};
ghost use Rattle.plant_mem.specs.RowTables.{AreRows};
ghost use Rattle.plant_mem.specs.Steps.{trace_of, are_within};
ghost use Rattle.plant.specs.Worlds.{world_of};
ghost use Rattle.plant.specs.declared.drill.Pick.{Pick};
ghost use Rattle.plant.specs.declared.step.Side.TheVariants.{A, B};

use crate::boot_step::BootStep;
use crate::mem_side::{MemSide, most};
use crate::node_table::NodeTable;
use crate::row_table;
use crate::rows::Row;
use lab_base::{Memory, Name};
use plant::{Answer, DeviceOp, Fault, Pick, Side, Step};
use std::alloc::Global;

/// Room is made for fewer steps than this at once.
const STEPS_LIMIT: usize = 1_000_000;

/// The steps of a plant in memory, with the sides that they made, the boot states of nodes and the rows that stand.
#[derive(Drop)]
pub struct Past {
    pub steps: Vec<Step>,
    pub bytes: Vec<u8>,
    pub a: MemSide,
    pub b: MemSide,
    pub nodes: NodeTable,
    pub rows: Vec<Row>,
    ghost within: { are_within (length bytes.items) steps.items ≡ true },
    ghost a_is: { disk_of a ≡ disk A (trace_of bytes.items steps.items) },
    ghost b_is: { disk_of b ≡ disk B (trace_of bytes.items steps.items) },
    ghost known: { Knows (trace_of bytes.items steps.items) nodes.nodes.items nodes.pipes.items },
    ghost rows_are: { AreRows (world_of (trace_of bytes.items steps.items)) rows.items },
}

/// Adds a step for which there is room.
fn add_step(steps: &mut Vec<Step>, step: &Step)
    requires { vec_len steps.old < vec_capacity steps.old }
    ensures items { steps.new.items ≡ steps.old.items ++ step.now ∷ [] }
    ensures len { vec_len steps.new ≡ vec_len steps.old + 1 }
    ensures capacity { vec_capacity steps.new ≡ vec_capacity steps.old }
{
    // The check of this function has to meet the type.
    let _op: Option<&DeviceOp> = None;
    steps.push_reserved(*step);
}

/// The most bytes that a stop may leave of a side.
fn most_of(mem_side: &MemSide) -> usize
    ensures { (pick : Pick) → length (left_by pick (disk_of mem_side.now)) ≤ result }
{
    most(mem_side.durable.len(), mem_side.reads.len())
}

/// Writes on that one of both sides.
fn put_on(a: &mut MemSide, b: &mut MemSide, side: Side, at: usize, bytes: &[u8])
    requires at { at ≤ vec_len (of_side side a.old b.old).reads }
    requires room { at + length bytes.now ≤ vec_capacity (of_side side a.old b.old).reads }
    requires table { vec_len (of_side side a.old b.old).written < vec_capacity (of_side side a.old b.old).written }
    ensures a { disk_of a.new ≡ on_side (same_side side A) (λ d. wrote d at bytes.now) (disk_of a.old) }
    ensures b { disk_of b.new ≡ on_side (same_side side B) (λ d. wrote d at bytes.now) (disk_of b.old) }
    ensures a_room { KeepsRoom a.old a.new }
    ensures b_room { KeepsRoom b.old b.new }
{
    match side {
        Side::A => a.put(at, bytes),
        Side::B => b.put(at, bytes),
    }
}

/// Makes that one of both sides durable.
fn sync_on(a: &mut MemSide, b: &mut MemSide, side: Side)
    requires { vec_len (of_side side a.old b.old).reads ≤ vec_capacity (of_side side a.old b.old).durable }
    ensures a { disk_of a.new ≡ on_side (same_side side A) synced (disk_of a.old) }
    ensures b { disk_of b.new ≡ on_side (same_side side B) synced (disk_of b.old) }
    ensures a_room { KeepsRoom a.old a.new }
    ensures b_room { KeepsRoom b.old b.new }
{
    match side {
        Side::A => a.sync(),
        Side::B => b.sync(),
    }
}

/// Cuts that one of both sides.
fn shorten_on(a: &mut MemSide, b: &mut MemSide, side: Side, size: usize)
    requires { size ≤ vec_len (of_side side a.old b.old).reads }
    ensures a { disk_of a.new ≡ on_side (same_side side A) (λ d. shortened d size) (disk_of a.old) }
    ensures b { disk_of b.new ≡ on_side (same_side side B) (λ d. shortened d size) (disk_of b.old) }
    ensures a_room { KeepsRoom a.old a.new }
    ensures b_room { KeepsRoom b.old b.new }
{
    match side {
        Side::A => a.shorten(size),
        Side::B => b.shorten(size),
    }
}

impl Past {
    ghost use Rattle.std.specs.Prelude.{◌≡◌, ◌≤◌, ◌<◌, ◌+◌, ◌++◌, ℕ, List, [], ◌∷◌, length};
    ghost use Rattle.std.specs.Prelude.{take, drop, true, Ok, Err, IfOk, OnOk, vec_len, vec_capacity};
    ghost use Rattle.plant_mem.specs.Boots.{state_in, state_after, state_sent, answer_of};
    ghost use Rattle.plant.specs.Events as events;
    ghost use Rattle.plant.specs.Disks.{disk};
    ghost use Rattle.plant.specs.Sides.{of_side};
    ghost use Rattle.plant_mem.specs.MemSides.{disk_of, KeepsRoom, HasMore};
    ghost use Rattle.plant_mem.specs.NodeRooms.{node_room};
    ghost use Rattle.plant_mem.specs.Picks.{left_by};
    ghost use Rattle.plant_mem.specs.Steps.{trace_of};
    ghost use Rattle.plant.specs.declared.drill.Pick.{Pick};

    /// The past of a blank plant, with room for so many steps, each with a node. It has room for so many bytes, and for so many on each side.
    pub fn new(alloc: Global, steps: usize, bytes: usize) -> Result<Past, Memory>
        ensures trace { IfOk result (λ past. trace_of past.bytes.items past.steps.items ≡ []) }
        ensures bytes { IfOk result (λ past. past.bytes.items ≡ []) }
        ensures steps_room { IfOk result (λ past. vec_len past.steps + steps ≤ vec_capacity past.steps) }
        ensures bytes_room { IfOk result (λ past. vec_len past.bytes + bytes ≤ vec_capacity past.bytes) }
        ensures a { IfOk result (λ past. HasMore steps bytes past.a) }
        ensures b { IfOk result (λ past. HasMore steps bytes past.b) }
        ensures nodes { IfOk result (λ past. past.nodes.nodes.items ≡ []) }
        ensures nodes_room { IfOk result (λ past. steps ≤ node_room past.nodes) }
        ensures rows_room { IfOk result (λ past. vec_len past.rows + steps ≤ vec_capacity past.rows) }
    {
        Ok(Past {
            steps: Vec::with_capacity(alloc, steps)?,
            bytes: Vec::with_capacity(alloc, bytes)?,
            a: MemSide::new(alloc, steps, bytes)?,
            b: MemSide::new(alloc, steps, bytes)?,
            nodes: NodeTable::new(alloc, steps)?,
            rows: Vec::with_capacity(alloc, steps)?,
        })
    }

    /// Notes a command that is applied, and answers it.
    pub fn done(&mut self, op: &DeviceOp, boot_step: BootStep) -> Answer
        requires steps { vec_len self.old.steps < vec_capacity self.old.steps }
        requires nodes { 0 < node_room self.old.nodes }
        requires rows { vec_len self.old.rows < vec_capacity self.old.rows }
        ensures answer { result ≡ answer_of op.now boot_step (λ name. state_in name self.old.nodes.nodes.items) }
        ensures trace { trace_of self.new.bytes.items self.new.steps.items
            ≡ trace_of self.old.bytes.items self.old.steps.items ++ events.Did op.now true (Ok result) ∷ [] }
        ensures states { (name : List ℕ) → state_in name self.new.nodes.nodes.items
            ≡ state_after op.now boot_step name (state_in name self.old.nodes.nodes.items) }
        ensures steps { vec_len self.new.steps ≡ vec_len self.old.steps + 1 }
        ensures capacity { vec_capacity self.new.steps ≡ vec_capacity self.old.steps }
        ensures nodes { node_room self.old.nodes ≤ node_room self.new.nodes + 1 }
        ensures rows { vec_len self.new.rows ≤ vec_len self.old.rows + 1 }
        ensures rows_capacity { vec_capacity self.new.rows ≡ vec_capacity self.old.rows }
        ensures bytes { self.new.bytes ≡ self.old.bytes }
        ensures a { self.new.a ≡ self.old.a }
        ensures b { self.new.b ≡ self.old.b }
    {
        row_table::apply(&mut self.rows, op);
        let answer = self.nodes.apply(op, boot_step);
        add_step(
            &mut self.steps,
            &Step::Did {
                op: *op,
                applied: true,
                answer: Ok(answer),
            },
        );
        answer
    }

    /// Notes a command with that fault, applied or not.
    pub fn failed(&mut self, op: &DeviceOp, boot_step: BootStep, applied: bool, fault: Fault)
        requires steps { vec_len self.old.steps < vec_capacity self.old.steps }
        requires nodes { 0 < node_room self.old.nodes }
        requires rows { vec_len self.old.rows < vec_capacity self.old.rows }
        ensures trace { trace_of self.new.bytes.items self.new.steps.items
            ≡ trace_of self.old.bytes.items self.old.steps.items ++ events.Did op.now applied (Err fault) ∷ [] }
        ensures states { (name : List ℕ) → state_in name self.new.nodes.nodes.items
            ≡ state_sent op.now boot_step applied name (state_in name self.old.nodes.nodes.items) }
        ensures steps { vec_len self.new.steps ≡ vec_len self.old.steps + 1 }
        ensures capacity { vec_capacity self.new.steps ≡ vec_capacity self.old.steps }
        ensures nodes { node_room self.old.nodes ≤ node_room self.new.nodes + 1 }
        ensures rows { vec_len self.new.rows ≤ vec_len self.old.rows + 1 }
        ensures rows_capacity { vec_capacity self.new.rows ≡ vec_capacity self.old.rows }
        ensures bytes { self.new.bytes ≡ self.old.bytes }
        ensures a { self.new.a ≡ self.old.a }
        ensures b { self.new.b ≡ self.old.b }
    {
        row_table::apply_if(applied, &mut self.rows, op);
        self.nodes.apply_if(applied, op, boot_step);
        add_step(
            &mut self.steps,
            &Step::Did {
                op: *op,
                applied,
                answer: Err(fault),
            },
        );
    }

    /// Notes a call on a side that failed.
    pub fn missed(&mut self, side: Side)
        requires { vec_len self.old.steps < vec_capacity self.old.steps }
        ensures trace { trace_of self.new.bytes.items self.new.steps.items ≡ trace_of self.old.bytes.items self.old.steps.items ++ events.Missed side ∷ [] }
        ensures steps { vec_len self.new.steps ≡ vec_len self.old.steps + 1 }
        ensures capacity { vec_capacity self.new.steps ≡ vec_capacity self.old.steps }
        ensures bytes { self.new.bytes ≡ self.old.bytes }
        ensures a { self.new.a ≡ self.old.a }
        ensures b { self.new.b ≡ self.old.b }
        ensures nodes { self.new.nodes ≡ self.old.nodes }
        ensures rows { self.new.rows ≡ self.old.rows }
    {
        add_step(&mut self.steps, &Step::Missed { side });
    }

    /// Notes a reading of a device that failed.
    pub fn unread(&mut self, device: Name)
        requires { vec_len self.old.steps < vec_capacity self.old.steps }
        ensures trace { trace_of self.new.bytes.items self.new.steps.items ≡ trace_of self.old.bytes.items self.old.steps.items ++ events.Unread device ∷ [] }
        ensures steps { vec_len self.new.steps ≡ vec_len self.old.steps + 1 }
        ensures capacity { vec_capacity self.new.steps ≡ vec_capacity self.old.steps }
        ensures bytes { self.new.bytes ≡ self.old.bytes }
        ensures a { self.new.a ≡ self.old.a }
        ensures b { self.new.b ≡ self.old.b }
        ensures nodes { self.new.nodes ≡ self.old.nodes }
        ensures rows { self.new.rows ≡ self.old.rows }
    {
        add_step(&mut self.steps, &Step::Unread { device });
    }

    /// Notes and applies a write.
    pub fn wrote(&mut self, side: Side, at: usize, bytes: &[u8])
        requires steps { vec_len self.old.steps < vec_capacity self.old.steps }
        requires bytes { vec_len self.old.bytes + length bytes.now ≤ vec_capacity self.old.bytes }
        requires at { at ≤ vec_len (of_side side self.old.a self.old.b).reads }
        requires room { at + length bytes.now ≤ vec_capacity (of_side side self.old.a self.old.b).reads }
        requires table { vec_len (of_side side self.old.a self.old.b).written < vec_capacity (of_side side self.old.a self.old.b).written }
        ensures trace { trace_of self.new.bytes.items self.new.steps.items
            ≡ trace_of self.old.bytes.items self.old.steps.items ++ events.Wrote side at bytes.now ∷ [] }
        ensures steps { vec_len self.new.steps ≡ vec_len self.old.steps + 1 }
        ensures capacity { vec_capacity self.new.steps ≡ vec_capacity self.old.steps }
        ensures bytes { vec_len self.new.bytes ≡ vec_len self.old.bytes + length bytes.now }
        ensures room { vec_capacity self.old.bytes ≤ vec_capacity self.new.bytes }
        ensures a { KeepsRoom self.old.a self.new.a }
        ensures b { KeepsRoom self.old.b self.new.b }
        ensures nodes { self.new.nodes ≡ self.old.nodes }
        ensures rows { self.new.rows ≡ self.old.rows }
    {
        put_on(&mut self.a, &mut self.b, side, at, bytes);
        let start = self.bytes.len();
        self.bytes.extend_from_slice(bytes).unwrap();
        let end = self.bytes.len();
        add_step(
            &mut self.steps,
            &Step::Wrote {
                side,
                at: at as u64,
                start: start as u64,
                end: end as u64,
            },
        );
    }

    /// Notes and applies a sync.
    pub fn synced(&mut self, side: Side)
        requires steps { vec_len self.old.steps < vec_capacity self.old.steps }
        requires room { vec_len (of_side side self.old.a self.old.b).reads ≤ vec_capacity (of_side side self.old.a self.old.b).durable }
        ensures trace { trace_of self.new.bytes.items self.new.steps.items ≡ trace_of self.old.bytes.items self.old.steps.items ++ events.Synced side ∷ [] }
        ensures steps { vec_len self.new.steps ≡ vec_len self.old.steps + 1 }
        ensures capacity { vec_capacity self.new.steps ≡ vec_capacity self.old.steps }
        ensures bytes { self.new.bytes ≡ self.old.bytes }
        ensures a { KeepsRoom self.old.a self.new.a }
        ensures b { KeepsRoom self.old.b self.new.b }
        ensures nodes { self.new.nodes ≡ self.old.nodes }
        ensures rows { self.new.rows ≡ self.old.rows }
    {
        sync_on(&mut self.a, &mut self.b, side);
        add_step(&mut self.steps, &Step::Synced { side });
    }

    /// Notes and applies a cut.
    pub fn cut(&mut self, side: Side, size: usize)
        requires steps { vec_len self.old.steps < vec_capacity self.old.steps }
        requires size { size ≤ vec_len (of_side side self.old.a self.old.b).reads }
        ensures trace { trace_of self.new.bytes.items self.new.steps.items ≡ trace_of self.old.bytes.items self.old.steps.items ++ events.Cut side size ∷ [] }
        ensures steps { vec_len self.new.steps ≡ vec_len self.old.steps + 1 }
        ensures capacity { vec_capacity self.new.steps ≡ vec_capacity self.old.steps }
        ensures bytes { self.new.bytes ≡ self.old.bytes }
        ensures a { KeepsRoom self.old.a self.new.a }
        ensures b { KeepsRoom self.old.b self.new.b }
        ensures nodes { self.new.nodes ≡ self.old.nodes }
        ensures rows { self.new.rows ≡ self.old.rows }
    {
        shorten_on(&mut self.a, &mut self.b, side, size);
        let length = size as u64;
        add_step(&mut self.steps, &Step::Cut { side, length });
    }

    /// Makes room for so many steps more, each with a node, and for so many bytes more. It follows a restart.
    pub fn make_room(&mut self, steps: usize, bytes: usize) -> Result<(), Memory>
        requires { steps < STEPS_LIMIT }
        ensures trace { trace_of self.new.bytes.items self.new.steps.items ≡ trace_of self.old.bytes.items self.old.steps.items }
        ensures states { self.new.nodes.nodes.items ≡ self.old.nodes.nodes.items }
        ensures table { self.new.rows.items ≡ self.old.rows.items }
        ensures a_is { disk_of self.new.a ≡ disk_of self.old.a }
        ensures b_is { disk_of self.new.b ≡ disk_of self.old.b }
        ensures steps_stay { vec_capacity self.old.steps ≤ vec_capacity self.new.steps }
        ensures bytes_stay { vec_capacity self.old.bytes ≤ vec_capacity self.new.bytes }
        ensures steps { OnOk result (vec_len self.new.steps + (steps + 1) ≤ vec_capacity self.new.steps) }
        ensures bytes { OnOk result ((pick : Pick)
            → (vec_len self.new.bytes + length (left_by pick (disk_of self.new.a))) + length (left_by pick (disk_of self.new.b)) + bytes ≤ vec_capacity
            self.new.bytes) }
        ensures nodes { OnOk result (steps ≤ node_room self.new.nodes) }
        ensures rows { OnOk result (vec_len self.new.rows + steps ≤ vec_capacity self.new.rows) }
        ensures a { OnOk result (HasMore steps bytes self.new.a) }
        ensures b { OnOk result (HasMore steps bytes self.new.b) }
    {
        self.a.make_room(steps, bytes)?;
        self.b.make_room(steps, bytes)?;
        self.steps.try_reserve(steps + 1)?;
        self.nodes.make_room(steps)?;
        self.rows.try_reserve(steps)?;
        let most = most_of(&self.a).saturating_add(most_of(&self.b));
        self.bytes.try_reserve(most.saturating_add(bytes))?;
        Ok(())
    }

    /// Starts again, with the part of each side that the stop's pick leaves.
    pub fn restarted(&mut self, pick: Pick)
        requires steps { vec_len self.old.steps < vec_capacity self.old.steps }
        requires bytes { (vec_len self.old.bytes + length (left_by pick (disk_of self.old.a))) + length (left_by pick (disk_of self.old.b)) ≤ vec_capacity
            self.old.bytes }
        requires a { HasMore 0 0 self.old.a }
        requires b { HasMore 0 0 self.old.b }
        ensures trace { trace_of self.new.bytes.items self.new.steps.items
            ≡ trace_of self.old.bytes.items self.old.steps.items
            ++ events.Restarted (left_by pick (disk_of self.old.a)) (left_by pick (disk_of self.old.b)) ∷ [] }
        ensures steps { vec_len self.new.steps ≡ vec_len self.old.steps + 1 }
        ensures capacity { vec_capacity self.new.steps ≡ vec_capacity self.old.steps }
        ensures bytes { vec_len self.new.bytes
            ≡ (vec_len self.old.bytes + length (left_by pick (disk_of self.old.a))) + length (left_by pick (disk_of self.old.b)) }
        ensures room { vec_capacity self.old.bytes ≤ vec_capacity self.new.bytes }
        ensures a { (writes bytes : ℕ) → HasMore writes bytes self.old.a → HasMore writes bytes self.new.a }
        ensures b { (writes bytes : ℕ) → HasMore writes bytes self.old.b → HasMore writes bytes self.new.b }
        ensures nodes { self.new.nodes ≡ self.old.nodes }
        ensures rows { self.new.rows ≡ self.old.rows }
    {
        self.a.restore(pick);
        self.b.restore(pick);
        let start = self.bytes.len();
        self.bytes.extend_from_slice(&self.a.reads).unwrap();
        let middle = self.bytes.len();
        self.bytes.extend_from_slice(&self.b.reads).unwrap();
        let end = self.bytes.len();
        add_step(
            &mut self.steps,
            &Step::Restarted {
                a: (start as u64, middle as u64),
                b: (middle as u64, end as u64),
            },
        );
    }

    /// The length of a side, as it reads.
    pub fn length(&self, side: Side) -> usize
        ensures { result ≡ length (disk side (trace_of self.now.bytes.items self.now.steps.items)).reads }
    {
        match side {
            Side::A => self.a.reads.len(),
            Side::B => self.b.reads.len(),
        }
    }

    /// Reads a part of a side.
    pub fn read(&self, side: Side, at: usize, into: &mut [u8])
        requires { at + length into.old ≤ vec_len (of_side side self.now.a self.now.b).reads }
        ensures { into.new ≡ take (length into.old) (drop at (disk side (trace_of self.now.bytes.items self.now.steps.items)).reads) }
    {
        match side {
            Side::A => into.copy_from_slice(&self.a.reads[at..at + into.len()]),
            Side::B => into.copy_from_slice(&self.b.reads[at..at + into.len()]),
        }
    }
}
