// Whole records whatever stands in their gates.
ghost use Rattle.std.specs.Prelude.{◌<◌, length, IfOk};
ghost use Rattle.lab_sides.specs.Walks.{AreThere};

use crate::body::record_in;
use journal_rec::Found;
use lab_base::{Items, Memory};
use std::alloc::Global;

/// The whole records from a gate on, whatever stands in the gates.
pub fn behind(alloc: Global, bytes: &[u8], from: usize) -> Result<Items<Found>, Memory>
    requires { from < length bytes.now }
    ensures { IfOk result (AreThere bytes.now from) }
{
    let mut found = Items::new(alloc);
    let mut gate = from;
    'gates: loop {
        match record_in(alloc, &bytes[gate + 1..]) {
            Ok(Some((entry, size))) => {
                let at = gate as u64;
                let Ok(()) = found.push(Found { at, entry }) else {
                    return Err(Memory);
                };
                gate += size + 1;
            }
            Ok(None) => return Ok(found),
            Err(Memory) => return Err(Memory),
        }
    }
}
