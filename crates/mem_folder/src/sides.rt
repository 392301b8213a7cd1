ghost use Rattle.std.specs.Prelude.{◌≡◌, ◌≤◌, ◌+◌, length, take, drop, IfOk, OnOk, OnErr};
ghost use Rattle.plant.specs.Disks.{IsImage, at_once, on_side, same_side, shortened, synced, wrote};
ghost use Rattle.plant.specs.Sides.{of_side};
ghost use Rattle.plant.specs.declared.step.Side.TheVariants.{A, B};
ghost use Rattle.plant_mem.specs.MemSides.{disk_of};
ghost use Rattle.plant_mem.specs.Picks.{left_by};

use lab_base::Memory;
use plant::{Pick, Side};
use plant_mem::MemSide;
use std::alloc::Global;

/// Both sides of the journal.
#[derive(Drop)]
pub(crate) struct Sides {
    pub(crate) a: MemSide,
    pub(crate) b: MemSide,
}

/// Writes on a side, where there is memory.
fn put(mem_side: &mut MemSide, at: usize, bytes: &[u8]) -> Result<(), Memory>
    requires { at ≤ length (disk_of mem_side.old).reads }
    ensures ok { OnOk result (disk_of mem_side.new ≡ wrote (disk_of mem_side.old) at bytes.now) }
    ensures written { OnOk result (take (length bytes.now) (drop at mem_side.new.reads.items) ≡ bytes.now) }
    ensures err { OnErr result (disk_of mem_side.new ≡ disk_of mem_side.old) }
{
    mem_side.make_room(1, bytes.len())?;
    mem_side.put(at, bytes);
    Ok(())
}

/// Makes a side durable, where there is memory.
fn sync(mem_side: &mut MemSide) -> Result<(), Memory>
    ensures ok { OnOk result (disk_of mem_side.new ≡ synced (disk_of mem_side.old)) }
    ensures err { OnErr result (disk_of mem_side.new ≡ disk_of mem_side.old) }
{
    mem_side.make_room(0, 0)?;
    mem_side.sync();
    Ok(())
}

impl Sides {
    ghost use Rattle.std.specs.Prelude.{[]};

    /// Empty sides.
    pub(crate) fn new(alloc: Global) -> Result<Sides, Memory>
        ensures a { IfOk result (λ sides. disk_of sides.a ≡ at_once []) }
        ensures b { IfOk result (λ sides. disk_of sides.b ≡ at_once []) }
    {
        Ok(Sides {
            a: MemSide::new(alloc, 0, 0)?,
            b: MemSide::new(alloc, 0, 0)?,
        })
    }

    pub(crate) fn length(&self, side: Side) -> usize
        ensures { result ≡ length (of_side side (disk_of self.now.a) (disk_of self.now.b)).reads }
    {
        match side {
            Side::A => self.a.reads.len(),
            Side::B => self.b.reads.len(),
        }
    }

    /// Fills the buffer with the bytes that a side reads as, from that place on.
    pub(crate) fn read(&self, side: Side, at: usize, into: &mut [u8])
        requires { at + length into.old ≤ length (of_side side (disk_of self.now.a) (disk_of self.now.b)).reads }
        ensures { into.new ≡ take (length into.old) (drop at (of_side side (disk_of self.now.a) (disk_of self.now.b)).reads) }
    {
        match side {
            Side::A => into.copy_from_slice(&self.a.reads[at..at + into.len()]),
            Side::B => into.copy_from_slice(&self.b.reads[at..at + into.len()]),
        }
    }

    /// Writes on a side, over its bytes from that place on and past its end.
    pub(crate) fn write(&mut self, side: Side, at: usize, bytes: &[u8]) -> Result<(), Memory>
        requires { at ≤ length (of_side side (disk_of self.old.a) (disk_of self.old.b)).reads }
        ensures a { OnOk result (disk_of self.new.a ≡ on_side (same_side side A) (λ d. wrote d at bytes.now) (disk_of self.old.a)) }
        ensures b { OnOk result (disk_of self.new.b ≡ on_side (same_side side B) (λ d. wrote d at bytes.now) (disk_of self.old.b)) }
        ensures written { OnOk result (take (length bytes.now) (drop at (of_side side self.new.a self.new.b).reads.items) ≡ bytes.now) }
        ensures err_a { OnErr result (disk_of self.new.a ≡ disk_of self.old.a) }
        ensures err_b { OnErr result (disk_of self.new.b ≡ disk_of self.old.b) }
    {
        match side {
            Side::A => put(&mut self.a, at, bytes),
            Side::B => put(&mut self.b, at, bytes),
        }
    }

    /// Makes a side durable as it reads.
    pub(crate) fn sync(&mut self, side: Side) -> Result<(), Memory>
        ensures a { OnOk result (disk_of self.new.a ≡ on_side (same_side side A) synced (disk_of self.old.a)) }
        ensures b { OnOk result (disk_of self.new.b ≡ on_side (same_side side B) synced (disk_of self.old.b)) }
        ensures err_a { OnErr result (disk_of self.new.a ≡ disk_of self.old.a) }
        ensures err_b { OnErr result (disk_of self.new.b ≡ disk_of self.old.b) }
    {
        match side {
            Side::A => sync(&mut self.a),
            Side::B => sync(&mut self.b),
        }
    }

    /// Cuts a side to a length.
    pub(crate) fn cut(&mut self, side: Side, size: usize)
        requires { size ≤ length (of_side side (disk_of self.old.a) (disk_of self.old.b)).reads }
        ensures a { disk_of self.new.a ≡ on_side (same_side side A) (λ d. shortened d size) (disk_of self.old.a) }
        ensures b { disk_of self.new.b ≡ on_side (same_side side B) (λ d. shortened d size) (disk_of self.old.b) }
    {
        match side {
            Side::A => self.a.shorten(size),
            Side::B => self.b.shorten(size),
        }
    }

    /// Leaves of each side what a stop leaves by its pick.
    pub(crate) fn restore(&mut self, pick: Pick) -> Result<(), Memory>
        ensures a { OnOk result (disk_of self.new.a ≡ at_once (left_by pick (disk_of self.old.a))) }
        ensures b { OnOk result (disk_of self.new.b ≡ at_once (left_by pick (disk_of self.old.b))) }
        ensures err_a { OnErr result (disk_of self.new.a ≡ disk_of self.old.a) }
        ensures err_b { OnErr result (disk_of self.new.b ≡ disk_of self.old.b) }
        ensures possible_a { OnOk result (IsImage (disk_of self.old.a) (left_by pick (disk_of self.old.a))) }
        ensures possible_b { OnOk result (IsImage (disk_of self.old.b) (left_by pick (disk_of self.old.b))) }
    {
        self.a.make_room(0, 0)?;
        self.b.make_room(0, 0)?;
        self.a.restore(pick);
        self.b.restore(pick);
        Ok(())
    }
}
