// The bytes behind a gate.
ghost use Rattle.std.specs.Prelude.{◌≡◌, ◌≤◌, length, take, IfOk};
ghost use Rattle.journal_rec.specs.Payloads.{number};
ghost use Rattle.lab_sides.specs.Walks.{IsBody};

use journal_rec::{RecFault, Record, decode};
use lab_base::Memory;
use std::alloc::Global;

fn length_in(bytes: &[u8]) -> u32
    requires { 4 ≤ length bytes.now }
    ensures { result ≡ number (take 4 bytes.now) }
{
    u32::from_le_bytes([bytes[0], bytes[1], bytes[2], bytes[3]])
}

/// The record that these bytes, those behind a gate, begin with, and how many bytes it has; None where no whole record with a
/// next gate stands there.
pub(crate) fn record_in(alloc: Global, bytes: &[u8]) -> Result<Option<(Record, usize)>, Memory>
    ensures { IfOk result (IsBody bytes.now) }
{
    if bytes.len() < 4 {
        return Ok(None);
    }
    let len = length_in(bytes) as usize;
    if bytes.len() - 4 <= len {
        return Ok(None);
    }
    match decode(alloc, &bytes[4..4 + len]) {
        Ok(entry) => Ok(Some((entry, len + 4))),
        Err(RecFault::Bad) => Ok(None),
        Err(RecFault::Memory) => Err(Memory),
    }
}
