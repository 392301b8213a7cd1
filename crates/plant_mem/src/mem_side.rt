ghost use Rattle.std.specs.Prelude.{◌≡◌, ◌≤◌, ◌<◌, ◌+◌, ℕ, length, max, min, take, reverse, OnOk, vec_len, vec_capacity};
ghost use Rattle.plant.specs.Disks.{IsImage, put};
ghost use Rattle.plant_mem.specs.Picks.{garbled, torn};

use lab_base::Memory;
use plant::Pick;
use std::alloc::Global;

/// A side of the disk in memory: its bytes as they are durable, and as they read.
#[derive(Drop)]
pub struct MemSide {
    pub durable: Vec<u8>,
    pub reads: Vec<u8>,
    /// The ranges written since the last sync, each with its end, in order.
    pub written: Vec<(usize, usize)>,
    /// The number of bytes at the front that are durable as they read.
    pub same: usize,
    ghost within: { same ≤ vec_len reads },
    ghost alike: { take same durable.items ≡ take same reads.items },
    ghost readable: { IsImage (record { durable = durable.items; reads = reads.items; written = reverse written.items }) reads.items },
}

fn least(a: usize, b: usize) -> usize
    ensures { result ≡ min a b }
{
    std::cmp::min(a, b)
}

/// Writes bytes over those from a place on, and past the end.
fn put(bytes: &mut Vec<u8>, at: usize, new: &[u8])
    requires at { at ≤ vec_len bytes.old }
    requires room { at + length new.now ≤ vec_capacity bytes.old }
    ensures put { bytes.new.items ≡ put bytes.old.items at new.now }
    ensures capacity { vec_capacity bytes.old ≤ vec_capacity bytes.new }
{
    let left = bytes.len() - at;
    if new.len() <= left {
        bytes[at..at + new.len()].copy_from_slice(new);
    } else {
        let (front, back) = new.split_at(left);
        bytes[at..].copy_from_slice(front);
        bytes.extend_from_slice(back).unwrap();
    }
}

/// Garbles the bytes of a range, as far as there are any.
fn garble(bytes: &mut Vec<u8>, from: usize, end: usize)
    ensures garbled { bytes.new.items ≡ garbled bytes.old.items from end }
    ensures len { vec_len bytes.new ≡ vec_len bytes.old }
    ensures capacity { vec_capacity bytes.new ≡ vec_capacity bytes.old }
{
    let end = least(end, bytes.len());
    if from < end {
        bytes[from..end].fill(0xa5);
    }
}

/// Garbles the last half of each range.
fn tear(bytes: &mut Vec<u8>, written: &[(usize, usize)])
    ensures torn { bytes.new.items ≡ torn (reverse written.now) bytes.old.items }
    ensures len { vec_len bytes.new ≡ vec_len bytes.old }
    ensures capacity { vec_capacity bytes.new ≡ vec_capacity bytes.old }
{
    for range in written {
        let (at, end) = *range;
        garble(bytes, at + end.saturating_sub(at) / 2, end);
    }
}

/// The greater of two sizes.
pub(crate) fn most(a: usize, b: usize) -> usize
    ensures { result ≡ max a b }
{
    std::cmp::max(a, b)
}

/// Makes room for `most` bytes and so many more.
fn make_room(bytes: &mut Vec<u8>, most: usize, more: usize) -> Result<(), Memory>
    requires { vec_len bytes.old ≤ most }
    ensures items { bytes.new.items ≡ bytes.old.items }
    ensures len { vec_len bytes.new ≡ vec_len bytes.old }
    ensures capacity { vec_capacity bytes.old ≤ vec_capacity bytes.new }
    ensures ok { OnOk result (most + more ≤ vec_capacity bytes.new) }
{
    bytes.try_reserve((most - bytes.len()).saturating_add(more))?;
    Ok(())
}

impl MemSide {
    ghost use Rattle.std.specs.Prelude.{◌≡◌, ◌≤◌, ◌<◌, ◌+◌, [], ℕ, length, take, reverse, IfOk, OnOk, vec_len, vec_capacity};
    ghost use Rattle.plant.specs.Disks.{at_once, wrote, synced, shortened, IsImage};
    ghost use Rattle.plant_mem.specs.Picks.{left_by, torn};
    ghost use Rattle.plant_mem.specs.MemSides.{disk_of, HasMore};

    /// An empty side, with room for so many writes and so many bytes.
    pub fn new(alloc: Global, writes: usize, bytes: usize) -> Result<MemSide, Memory>
        ensures disk { IfOk result (λ mem_side. disk_of mem_side ≡ at_once []) }
        ensures durable { IfOk result (λ mem_side. bytes ≤ vec_capacity mem_side.durable) }
        ensures reads { IfOk result (λ mem_side. bytes ≤ vec_capacity mem_side.reads) }
        ensures written { IfOk result (λ mem_side. writes ≤ vec_capacity mem_side.written) }
    {
        Ok(MemSide {
            durable: Vec::with_capacity(alloc, bytes)?,
            reads: Vec::with_capacity(alloc, bytes)?,
            written: Vec::with_capacity(alloc, writes)?,
            same: 0,
        })
    }

    /// Writes bytes over those from a place on, and past the end.
    pub fn put(&mut self, at: usize, bytes: &[u8])
        requires at { at ≤ vec_len self.old.reads }
        requires room { at + length bytes.now ≤ vec_capacity self.old.reads }
        requires table { vec_len self.old.written < vec_capacity self.old.written }
        ensures wrote { disk_of self.new ≡ wrote (disk_of self.old) at bytes.now }
        ensures durable { self.new.durable ≡ self.old.durable }
        ensures reads { vec_capacity self.old.reads ≤ vec_capacity self.new.reads }
        ensures written { vec_capacity self.old.written ≡ vec_capacity self.new.written }
        ensures writes { vec_len self.new.written ≡ vec_len self.old.written + 1 }
    {
        put(&mut self.reads, at, bytes);
        self.written.push_reserved((at, at + bytes.len()));
        self.same = least(self.same, at);
    }

    /// Makes the side durable as it reads.
    pub fn sync(&mut self)
        requires { vec_len self.old.reads ≤ vec_capacity self.old.durable }
        ensures synced { disk_of self.new ≡ synced (disk_of self.old) }
        ensures durable { vec_capacity self.old.durable ≤ vec_capacity self.new.durable }
        ensures reads { self.new.reads ≡ self.old.reads }
        ensures written { vec_capacity self.new.written ≡ vec_capacity self.old.written }
        ensures writes { vec_len self.new.written ≡ 0 }
    {
        self.durable.truncate(self.same);
        self.durable
            .extend_from_slice(&self.reads[self.same..])
            .unwrap();
        self.written.clear();
        self.same = self.reads.len();
    }

    /// Cuts the side to a length.
    pub fn shorten(&mut self, size: usize)
        requires { size ≤ vec_len self.old.reads }
        ensures shortened { disk_of self.new ≡ shortened (disk_of self.old) size }
        ensures durable { self.new.durable ≡ self.old.durable }
        ensures reads { vec_capacity self.new.reads ≡ vec_capacity self.old.reads }
        ensures written { self.new.written ≡ self.old.written }
    {
        self.reads.truncate(size);
        self.same = least(self.same, size);
    }

    /// Makes room for so many writes more, and for so many bytes more than the side has as it is durable or as it reads.
    pub fn make_room(&mut self, writes: usize, bytes: usize) -> Result<(), Memory>
        ensures disk { disk_of self.new ≡ disk_of self.old }
        ensures more { OnOk result (HasMore writes bytes self.new) }
    {
        let most = most(self.durable.len(), self.reads.len());
        make_room(&mut self.durable, most, bytes)?;
        make_room(&mut self.reads, most, bytes)?;
        self.written.try_reserve(writes)?;
        Ok(())
    }

    /// Leaves the part of the side that a stop leaves by its pick.
    pub fn restore(&mut self, pick: Pick)
        requires reads { vec_len self.old.durable ≤ vec_capacity self.old.reads }
        requires durable { vec_len self.old.reads ≤ vec_capacity self.old.durable }
        ensures left { disk_of self.new ≡ at_once (left_by pick (disk_of self.old)) }
        ensures possible { IsImage (disk_of self.old) (left_by pick (disk_of self.old)) }
        ensures more { (writes bytes : ℕ) → HasMore writes bytes self.old → HasMore writes bytes self.new }
    {
        match pick {
            Pick::Nothing => self.forget(),
            Pick::All => self.sync(),
            Pick::Torn => {
                self.shred();
                self.sync();
            }
        }
    }

    /// Garbles the last half of each write since the last sync.
    fn shred(&mut self)
        ensures torn { disk_of self.new ≡ record (disk_of self.old) { reads = torn (reverse self.old.written.items) self.old.reads.items } }
        ensures reads { vec_capacity self.new.reads ≡ vec_capacity self.old.reads }
        ensures len { vec_len self.new.reads ≡ vec_len self.old.reads }
        ensures durable { self.new.durable ≡ self.old.durable }
        ensures written { self.new.written ≡ self.old.written }
    {
        tear(&mut self.reads, &self.written);
        self.same = 0;
    }

    /// Makes the side read as it is durable.
    fn forget(&mut self)
        requires { vec_len self.old.durable ≤ vec_capacity self.old.reads }
        ensures left { disk_of self.new ≡ at_once self.old.durable.items }
        ensures reads { vec_capacity self.old.reads ≤ vec_capacity self.new.reads }
        ensures durable { self.new.durable ≡ self.old.durable }
        ensures written { vec_capacity self.new.written ≡ vec_capacity self.old.written }
        ensures writes { vec_len self.new.written ≡ 0 }
    {
        self.reads.truncate(self.same);
        self.reads
            .extend_from_slice(&self.durable[self.same..])
            .unwrap();
        self.written.clear();
        self.same = self.durable.len();
    }
}
