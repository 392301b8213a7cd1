// The lab of two sides.
ghost use Rattle.std.specs.Prelude.{◌≡◌, ◌<◌, length, map, slice_get, Some, IfOk, List};
ghost use Rattle.journal_rec.specs.declared.record.Record.{Record as AnyRecord};
ghost use Rattle.lab_sides.specs.Reads.{Stands};
ghost use Rattle.lab_look.specs.Looks.{IsLook};

use journal_rec::Found;
use lab_base::{Items, Memory};
use lab_sides::{Read, Walked, read_sides};
use lab_state::{LabState, ReplayFault};
use plant::Side;
use std::alloc::Global;

/// The finding of a look at two sides.
#[derive(Drop)]
pub enum Looked {
    /// Both are blank.
    New,
    /// The journal with its records, and their lab.
    Found(Side, Walked, LabState),
    /// No journal, since a side has a fault at a gate, or at 0 in its header; with the records before it.
    Bad(Side, u64, Items<Found>),
    /// A journal with a record that can't follow, at its gate.
    Wrong(Side, u64, Walked),
}

/// The gate of the record of that number.
fn gate_of(found: &[Found], index: usize) -> u64
    requires { index < length found.now }
    ensures { slice_get (map (λ f. f.at) found.now) index ≡ Some result }
{
    found[index].at
}

/// The lab of a journal.
fn followed(alloc: Global, a: &[u8], b: &[u8], side: Side, walked: Walked) -> Result<Looked, Memory>
    requires { (rs : List AnyRecord) × Stands a.now b.now side walked rs }
    ensures { IfOk result (IsLook a.now b.now) }
{
    match LabState::replay(alloc, walked.found.as_slice()) {
        Ok(state) => Ok(Looked::Found(side, walked, state)),
        Err(ReplayFault::Bad { index }) => {
            let at = gate_of(walked.found.as_slice(), index);
            Ok(Looked::Wrong(side, at, walked))
        }
        Err(ReplayFault::Memory) => Err(Memory),
    }
}

/// The finding of a look at two sides.
pub fn look(alloc: Global, a: &[u8], b: &[u8]) -> Result<Looked, Memory>
    ensures { IfOk result (IsLook a.now b.now) }
{
    match read_sides(alloc, a, b) {
        Ok(Read::New) => Ok(Looked::New),
        Ok(Read::Bad { side, at, before }) => Ok(Looked::Bad(side, at, before)),
        Ok(Read::On(side, walked)) => followed(alloc, a, b, side, walked),
        Err(Memory) => Err(Memory),
    }
}
