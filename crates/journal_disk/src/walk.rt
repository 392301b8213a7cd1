ghost use Rattle.std.specs.Prelude.{◌≡◌, ◌<◌, ◌≤◌, length, take};
ghost use Rattle.journal_rec.specs.Payloads.{number};
ghost use Rattle.journal_disk.specs.Walks.{IsBlock, IsWalk};

use crate::heads::{HEADER, OPEN};
use journal_rec::{Found, RecFault, Record, decode};
use std::alloc::Global;

/// The position of the first record's gate.
pub const FIRST: usize = 17;

/// The records of a side, and the position of the closed gate after them.
#[derive(Drop)]
pub struct Walked {
    pub found: Vec<Found>,
    pub gate: u64,
}

/// The reason why records were not read.
#[derive(Clone, Copy)]
pub enum WalkFault {
    /// No record stands behind the open gate at that position.
    Bad(u64),
    Memory,
}

fn length_in(bytes: &[u8]) -> u32
    requires { 4 ≤ length bytes.now }
    ensures { result ≡ number (take 4 bytes.now) }
{
    u32::from_le_bytes([bytes[0], bytes[1], bytes[2], bytes[3]])
}

/// The record behind the gate at the front, with its size; None where the gate is closed.
fn block_at(alloc: Global, bytes: &[u8]) -> Result<Option<(Record, usize)>, RecFault>
    requires { 0 < length bytes.now }
    ensures { IsBlock bytes.now result }
{
    if bytes[0] != OPEN {
        return Ok(None);
    }
    if bytes.len() < 5 {
        return Err(RecFault::Bad);
    }
    let len = length_in(&bytes[1..]) as usize;
    if bytes.len() - 5 <= len {
        return Err(RecFault::Bad);
    }
    let entry = decode(alloc, &bytes[5..5 + len])?;
    Ok(Some((entry, len + 5)))
}

/// The records behind open gates, up to the first closed one.
pub fn walk(alloc: Global, bytes: &[u8]) -> Result<Walked, WalkFault>
    requires { HEADER ≤ length bytes.now }
    ensures { IsWalk bytes.now result }
{
    let mut found = Vec::new(alloc);
    let mut gate = FIRST;
    'gates: loop {
        match block_at(alloc, &bytes[gate..]) {
            Ok(None) => {
                let gate = gate as u64;
                return Ok(Walked { found, gate });
            }
            Ok(Some((entry, size))) => {
                let at = gate as u64;
                let Ok(()) = found.push(Found { at, entry }) else {
                    return Err(WalkFault::Memory);
                };
                gate += size;
            }
            Err(RecFault::Bad) => return Err(WalkFault::Bad(gate as u64)),
            Err(RecFault::Memory) => return Err(WalkFault::Memory),
        }
    }
}
