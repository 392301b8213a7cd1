// The records of a swap.
ghost use Rattle.std.specs.Prelude.{◌≡◌, IfOk, true};
ghost use Rattle.journal_rec.specs.Payloads.{IsBody, IsShort};
ghost use Rattle.journal_rec.specs.declared.record.Record.TheVariants as records;
ghost use Rattle.swap_txn.specs.States.{undo_by, last_by};
ghost use Rattle.swap_txn.specs.Ways.{undo_of, HasAbortBy};

use crate::way_back::WayBack;
use journal_rec::{Encoded, Record, Way, encode};
use lab_base::{Memory, Name};
use std::alloc::Global;
use swap_plan::Commands;

/// A record as it is appended.
fn encoded(alloc: Global, entry: Record) -> Result<Encoded, Memory>
    requires { IsShort entry }
    ensures { IfOk result (λ encoded. IsBody encoded entry) }
{
    let encoded = encode(alloc, &entry);
    drop(entry);
    encoded
}

/// The record Commit, or else Abort.
pub(crate) fn last_of(alloc: Global, exp: Name, commit: bool) -> Result<Encoded, Memory>
    ensures { IfOk result (λ encoded. IsBody encoded (last_by commit exp)) }
{
    // A name is short, and so is the record.
    let _name = exp.bytes();
    if commit {
        encoded(alloc, Record::Commit { exp })
    } else {
        encoded(alloc, Record::Abort { exp })
    }
}

/// The record Begin of a swap, and the record Commit.
pub(crate) fn begin_and_commit(
    alloc: Global,
    exp: Name,
    way: Way,
) -> Result<(Encoded, Encoded), Memory>
    requires { IsShort (records.Begin exp way) }
    ensures begin { IfOk result (λ encoded. IsBody encoded.0 (records.Begin exp way)) }
    ensures commit { IfOk result (λ encoded. IsBody encoded.1 (last_by true exp)) }
{
    let begin = encoded(alloc, Record::Begin { exp, way })?;
    let commit = last_of(alloc, exp, true)?;
    Ok((begin, commit))
}

/// The way back of a move; a swap-out has none.
pub(crate) fn way_back(
    alloc: Global,
    exp: Name,
    way: &Way,
    undo: Commands,
) -> Result<Option<WayBack>, Memory>
    ensures undo { IfOk result (λ back. undo_of back ≡ undo_by way.now undo) }
    ensures abort { IfOk result (λ back. HasAbortBy exp back) }
{
    let inside = match way {
        Way::In { .. } => false,
        Way::Out => {
            drop(undo);
            return Ok(None);
        }
        Way::Change { .. } | Way::Change2 { .. } => true,
    };
    match last_of(alloc, exp, false) {
        Ok(abort) => Ok(Some(WayBack {
            commands: undo,
            abort,
            inside,
        })),
        Err(memory) => {
            drop(undo);
            Err(memory)
        }
    }
}
