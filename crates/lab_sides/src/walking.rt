// The records of a side, gate after gate.
ghost use Rattle.std.specs.Prelude.{◌≤◌, length, IfOk};
ghost use Rattle.lab_sides.specs.Walks.{IsWalk};

use crate::body::record_in;
use journal_disk::{FIRST, HEADER, OPEN};
use journal_rec::Found;
use lab_base::{Items, Memory};
use std::alloc::Global;

/// Records one after another, and the position of the gate after them.
#[derive(Drop)]
pub struct Walked {
    pub found: Items<Found>,
    pub gate: u64,
}

/// How the records of a side end.
#[derive(Drop)]
pub enum Ended {
    /// With a closed gate.
    Whole(Walked),
    /// With an open gate after which no record stands.
    Torn(Walked),
}

/// The records behind open gates.
pub fn walk(alloc: Global, bytes: &[u8]) -> Result<Ended, Memory>
    requires { HEADER ≤ length bytes.now }
    ensures { IfOk result (IsWalk bytes.now) }
{
    let mut found = Items::new(alloc);
    let mut gate = FIRST;
    'gates: loop {
        if bytes[gate] != OPEN {
            let gate = gate as u64;
            return Ok(Ended::Whole(Walked { found, gate }));
        }
        match record_in(alloc, &bytes[gate + 1..]) {
            Ok(Some((entry, size))) => {
                let at = gate as u64;
                let Ok(()) = found.push(Found { at, entry }) else {
                    return Err(Memory);
                };
                gate += size + 1;
            }
            Ok(None) => {
                let gate = gate as u64;
                return Ok(Ended::Torn(Walked { found, gate }));
            }
            Err(Memory) => return Err(Memory),
        }
    }
}
