// Writing the text of a side behind its closed gate, piece after piece.
ghost use Rattle.std.specs.Prelude.{◌≡◌, ◌↔◌, ◌≤◌, ◌<◌, ◌+◌, ◌^◌, ◌++◌, List, length, IfSome, IsErrOf, IsTrue};
ghost use Rattle.plant.specs.DiskCalls.{DiskCause, WriteSteps};
ghost use Rattle.plant.specs.Disks.{disk};
ghost use Rattle.plant.specs.Events.{Event};
ghost use Rattle.plant.specs.Told.{with_steps};
ghost use Rattle.journal_rec.specs.Payloads.{le};
ghost use Rattle.journal_model.specs.Journals.{magic};
ghost use Rattle.journal_disk.specs.Compacting.{side_text, WritesText};

use crate::sides::{PIECE, piece_of};
use crate::walk::FIRST;
use plant::{Fault, Plant, Side};

/// The number of bytes of a header between its gate and the gate of the first record.
const HEAD: usize = 16;

/// The bytes of a header of that epoch between these gates.
fn header_of(epoch: u64) -> [u8; HEAD]
    ensures { result ≡ magic ++ le 8 epoch }
{
    let [a, b, c, d, e, f, g, h] = epoch.to_le_bytes();
    [
        b'L', b'A', b'B', b'J', b'R', b'N', b'L', b'1', a, b, c, d, e, f, g, h,
    ]
}

/// Puts these bytes, and bytes of records after them.
fn put_head(text: &mut [u8], epoch: u64, records: &[u8])
    requires { length text.old ≡ HEAD + length records.now }
    ensures { text.new ≡ side_text epoch records.now }
{
    let (head, rest) = text.split_at_mut(HEAD);
    head.copy_from_slice(&header_of(epoch));
    rest.copy_from_slice(records);
}

/// Writes the first piece: the rest of the header, and the first bytes of the records.
fn write_head<P: Plant>(plant: &mut P, side: Side, epoch: u64, records: &[u8]) -> Result<(), Fault>
    requires within { IfSome (P.seen plant.old).told (λ t. 1 ≤ length (disk side t.trace).reads) }
    requires short { HEAD + length records.now ≤ PIECE }
    ensures trace { (steps : List Event) × ((P.seen plant.new).told ≡ with_steps (P.seen plant.old).told steps)
        × WriteSteps side 1 (side_text epoch records.now) (P.seen plant.old).stopped result steps }
    ensures cause { DiskCause (P.seen plant.old).faults (P.seen plant.new).faults result }
    ensures stopped { IsErrOf result Fault.Stopped ↔ IsTrue (P.seen plant.new).stopped }
{
    let mut piece = [0u8; PIECE];
    let text = &mut piece[..HEAD + records.len()];
    put_head(text, epoch, records);
    plant.write(side, 1, text)
}

/// Writes bytes from there on, piece after piece.
fn write_rest<P: Plant>(plant: &mut P, side: Side, at: u64, bytes: &[u8]) -> Result<(), Fault>
    requires within { IfSome (P.seen plant.old).told (λ t. at ≤ length (disk side t.trace).reads) }
    requires fits { at + length bytes.now < 2 ^ 64 }
    requires goes_on { IsTrue (P.seen plant.old).stopped → ⊥ }
    ensures writes_text { WritesText side at bytes.now (P.seen plant.old).told (P.seen plant.new).told result }
    ensures cause { DiskCause (P.seen plant.old).faults (P.seen plant.new).faults result }
    ensures stopped { IsErrOf result Fault.Stopped ↔ IsTrue (P.seen plant.new).stopped }
{
    let mut done = 0;
    while done < bytes.len() {
        let size = piece_of(bytes.len() - done);
        plant.write(side, at + done as u64, &bytes[done..done + size])?;
        done += size;
    }
    Ok(())
}

/// The number of bytes of records in the first piece, of so many in all.
fn first_of(all: usize) -> usize
    ensures within { result ≤ all }
    ensures short { HEAD + result ≤ PIECE }
    ensures full { result < all → HEAD + result ≡ PIECE }
{
    if all < PIECE - HEAD {
        all
    } else {
        PIECE - HEAD
    }
}

/// Writes the text of a side of that epoch behind its gate.
pub fn write_text<P: Plant>(
    plant: &mut P,
    side: Side,
    epoch: u64,
    records: &[u8],
) -> Result<(), Fault>
    requires within { IfSome (P.seen plant.old).told (λ t. 1 ≤ length (disk side t.trace).reads) }
    requires fits { FIRST + length records.now < 2 ^ 64 }
    ensures writes_text { WritesText side 1 (side_text epoch records.now) (P.seen plant.old).told (P.seen plant.new).told result }
    ensures cause { DiskCause (P.seen plant.old).faults (P.seen plant.new).faults result }
    ensures stopped { IsErrOf result Fault.Stopped ↔ IsTrue (P.seen plant.new).stopped }
{
    let size = first_of(records.len());
    let (first, rest) = records.split_at(size);
    write_head(plant, side, epoch, first)?;
    write_rest(plant, side, (1 + HEAD + size) as u64, rest)
}
