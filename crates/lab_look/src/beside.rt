// The side beside the live one.
ghost use Rattle.std.specs.Prelude.{◌≡◌, ◌↔◌, true, IfOk};
ghost use Rattle.lab_base.specs.Lists.{Has};
ghost use Rattle.journal_rec.specs.declared.record.Found.{Found as AnyFound};
ghost use Rattle.journal_rec.specs.Payloads.{IsRecord};
ghost use Rattle.lab_state.specs.Replays.{records_of};
ghost use Rattle.lab_look.specs.Beside.{is_later, is_next, is_ahead, is_beginning, is_begun, is_end, IsBegunBy, IsBeside};

use journal_disk::{FIRST, Head, head_of};
use journal_rec::{Found, Record};
use lab_base::Memory;
use lab_sides::shut_head;
use lab_state::{LabState, ReplayFault};
use std::alloc::Global;

/// The side beside the live one.
#[derive(Clone, Copy)]
pub enum Beside {
    /// No header of a later epoch behind a closed gate.
    Behind,
    /// A move that was cut off: behind the closed gate stands a beginning of what a move of the live side's lab writes, as that lab is,
    /// or as it was before its last records, where these only end moves of experiments.
    Begun,
    /// Something else stands there: the side was the live one, and its header gate was lost.
    Lost,
}

fn is_later(live: Head, other: Head) -> bool
    ensures { result ≡ is_later live other }
{
    match live {
        Head::Headed(m) => match other {
            Head::Headed(n) => m < n,
            _ => false,
        },
        _ => false,
    }
}

/// Whether the other one's epoch is the next one.
pub(crate) fn is_next(live: Head, other: Head) -> bool
    ensures { result ≡ is_next live other }
{
    match live {
        Head::Headed(m) => match other {
            Head::Headed(n) => m < n && n - m == 1,
            _ => false,
        },
        _ => false,
    }
}

/// Whether a header of a later epoch than the live side's stands behind a closed gate.
fn is_ahead(live: &[u8], other: &[u8]) -> bool
    ensures { result ≡ is_ahead live.now other.now }
{
    match head_of(other) {
        Head::Blank => is_later(head_of(live), shut_head(other)),
        _ => false,
    }
}

#[tactic(auto, using(crate::proofs::Holes::places))]
fn is_beginning(bytes: &[u8], text: &[u8]) -> bool
    ensures { result ≡ is_beginning bytes.now text.now }
{
    if bytes.len() > text.len() {
        return false;
    }
    for n in 0..bytes.len() {
        if bytes[n] != text[n] && bytes[n] != 0 {
            return false;
        }
    }
    true
}

/// Whether the next epoch stands behind the gate, and then a beginning of these packed records.
fn is_begun(live: &[u8], other: &[u8], packed: &[u8]) -> bool
    ensures { result ≡ is_begun live.now other.now packed.now }
{
    is_next(head_of(live), shut_head(other))
        && other.len() >= FIRST
        && is_beginning(&other[FIRST..], packed)
}

fn is_end(entry: &Record) -> bool
    ensures { result ≡ is_end entry.now }
{
    match entry {
        Record::Commit { .. } | Record::Abort { .. } => true,
        _ => false,
    }
}

/// Whether a beginning of what a move of the lab of these records writes stands behind the gate.
fn is_begun_by(alloc: Global, live: &[u8], other: &[u8], found: &[Found]) -> Result<bool, Memory>
    requires { (f : AnyFound) → Has found.now f → IsRecord f.entry }
    ensures { IfOk result (λ yes. (yes ≡ true) ↔ IsBegunBy live.now other.now (records_of found.now)) }
{
    match LabState::replay(alloc, found) {
        Ok(state) => {
            let packed = state.pack()?;
            Ok(is_begun(live, other, packed.bytes()))
        }
        Err(ReplayFault::Bad { .. }) => Ok(false),
        Err(ReplayFault::Memory) => Err(Memory),
    }
}

/// A move that was cut off, or a lost gate. The lab of all records is tried, and then without the last one, while that ends a move.
fn begun_or_lost(
    alloc: Global,
    live: &[u8],
    other: &[u8],
    found: &[Found],
) -> Result<Beside, Memory>
    requires ahead { is_ahead live.now other.now ≡ true }
    requires records { (f : AnyFound) → Has found.now f → IsRecord f.entry }
    ensures { IfOk result (IsBeside live.now other.now (records_of found.now)) }
{
    let mut count = found.len();
    'fronts: loop {
        if is_begun_by(alloc, live, other, &found[..count])? {
            return Ok(Beside::Begun);
        }
        if count == 0 || !is_end(&found[count - 1].entry) {
            return Ok(Beside::Lost);
        }
        count -= 1;
    }
}

/// The side beside a live one with these records.
pub(crate) fn stands_beside(
    alloc: Global,
    live: &[u8],
    other: &[u8],
    found: &[Found],
) -> Result<Beside, Memory>
    requires { (f : AnyFound) → Has found.now f → IsRecord f.entry }
    ensures { IfOk result (IsBeside live.now other.now (records_of found.now)) }
{
    if is_ahead(live, other) {
        begun_or_lost(alloc, live, other, found)
    } else {
        Ok(Beside::Behind)
    }
}
