ghost use Rattle.std.specs.Prelude.{◌≡◌, ◌↔◌, ◌≤◌, ◌<◌, ◌+◌, ◌++◌, length, min, take, drop, vec_len, IfOk, IfSome, OnOk, IsErrOf, IsTrue};
ghost use Rattle.plant.specs.DiskCalls.{DiskCause};
ghost use Rattle.plant.specs.Disks.{disk};
ghost use Rattle.plant.specs.Sides.{of_side};
ghost use Rattle.plant.specs.Told.{with_steps};
ghost use Rattle.plant.specs.declared.step.Side.{Side as AnySide};
ghost use Rattle.journal_disk.specs.Opening.{both_synced, Syncs, MayMiss};
ghost use Rattle.journal_disk.specs.Faults.{ReadCause};
ghost use Rattle.journal_disk.specs.Seen.{AreSeen};

use crate::OpenFault;
use crate::heads::{HEADER, LiveSide, place_in};
use plant::{Fault, Plant, Side};
use std::alloc::Global;

/// The most bytes that are read or written at a time.
pub const PIECE: usize = 65_536;

/// Makes both sides durable as they read.
pub fn sync_sides<P: Plant>(plant: &mut P) -> Result<(), Fault>
    ensures ok { OnOk result ((P.seen plant.new).told ≡ with_steps (P.seen plant.old).told both_synced) }
    ensures syncs { Syncs (P.seen plant.old).told (P.seen plant.new).told result }
    ensures cause { DiskCause (P.seen plant.old).faults (P.seen plant.new).faults result }
    ensures stopped { IsErrOf result Fault.Stopped ↔ IsTrue (P.seen plant.new).stopped }
{
    plant.sync(Side::A)?;
    plant.sync(Side::B)
}

/// Reads the next bytes of a side, so many of them.
fn read_piece<P: Plant>(
    plant: &mut P,
    side: Side,
    bytes: &mut Vec<u8>,
    size: usize,
) -> Result<(), OpenFault>
    requires piece { size ≤ PIECE }
    requires within { IfSome (P.seen plant.old).told (λ t. vec_len bytes.old + size ≤ length (disk side t.trace).reads) }
    ensures trace { MayMiss side (P.seen plant.old).told (P.seen plant.new).told result }
    ensures read { IfSome (P.seen plant.old).told
        (λ t. OnOk result (bytes.new.items ≡ bytes.old.items ++ take size (drop (vec_len bytes.old) (disk side t.trace).reads))) }
    ensures len { OnOk result (vec_len bytes.new ≡ vec_len bytes.old + size) }
    ensures more { OnOk result (take (vec_len bytes.old) bytes.new.items ≡ bytes.old.items) }
    ensures cause { ReadCause (P.seen plant.old).faults (P.seen plant.new).faults result }
    ensures stopped { IsErrOf result OpenFault.Stopped ↔ IsTrue (P.seen plant.new).stopped }
    ensures still { (P.seen plant.new).stopped ≡ (P.seen plant.old).stopped }
{
    let mut piece = [0u8; PIECE];
    plant.read(side, bytes.len() as u64, &mut piece[..size])?;
    bytes.extend_from_slice(&piece[..size])?;
    Ok(())
}

/// The number of bytes that are read or written next, of so many that are left.
pub fn piece_of(left: usize) -> usize
    requires { 0 < left }
    ensures some { 0 < result }
    ensures piece { result ≤ PIECE }
    ensures within { result ≤ left }
    ensures full { result < left → result ≡ PIECE }
{
    if left < PIECE { left } else { PIECE }
}

/// Reads on from where the bytes end, piece after piece, until there are so many.
fn read_to<P: Plant>(
    plant: &mut P,
    side: Side,
    bytes: &mut Vec<u8>,
    size: usize,
) -> Result<(), OpenFault>
    requires running { ¬ IsTrue (P.seen plant.old).stopped }
    requires more { vec_len bytes.old ≤ size }
    requires within { IfSome (P.seen plant.old).told (λ t. size ≤ length (disk side t.trace).reads) }
    requires read { IfSome (P.seen plant.old).told (λ t. bytes.old.items ≡ take (vec_len bytes.old) (disk side t.trace).reads) }
    ensures trace { MayMiss side (P.seen plant.old).told (P.seen plant.new).told result }
    ensures read { OnOk result (IfSome (P.seen plant.old).told (λ t. bytes.new.items ≡ take size (disk side t.trace).reads)) }
    ensures len { OnOk result (vec_len bytes.new ≡ size) }
    ensures front { OnOk result (take (vec_len bytes.old) bytes.new.items ≡ bytes.old.items) }
    ensures cause { ReadCause (P.seen plant.old).faults (P.seen plant.new).faults result }
    ensures stopped { IsErrOf result OpenFault.Stopped ↔ IsTrue (P.seen plant.new).stopped }
{
    bytes.reserve(size - bytes.len())?;
    while bytes.len() < size {
        let piece = piece_of(size - bytes.len());
        read_piece(plant, side, bytes, piece)?;
    }
    Ok(())
}

/// The front of a side: the bytes of its header, or as many as it has, and the size of the whole side.
#[derive(Drop)]
struct Front {
    bytes: Vec<u8>,
    size: usize,
}

/// Reads the front of a side.
fn read_front<P: Plant>(alloc: Global, plant: &mut P, side: Side) -> Result<Front, OpenFault>
    ensures trace { MayMiss side (P.seen plant.old).told (P.seen plant.new).told result }
    ensures size { IfOk result (λ front. IfSome (P.seen plant.old).told (λ t. front.size ≡ length (disk side t.trace).reads)) }
    ensures front { IfOk result (λ front. IfSome (P.seen plant.old).told (λ t. front.bytes.items ≡ take HEADER (disk side t.trace).reads)) }
    ensures len { IfOk result (λ front. vec_len front.bytes ≡ min front.size HEADER) }
    ensures cause { ReadCause (P.seen plant.old).faults (P.seen plant.new).faults result }
    ensures stopped { IsErrOf result OpenFault.Stopped ↔ IsTrue (P.seen plant.new).stopped }
{
    let size = plant.length(side)? as usize;
    let mut bytes = Vec::new(alloc);
    read_to(plant, side, &mut bytes, size.min(HEADER))?;
    Ok(Front { bytes, size })
}

/// The bytes of a whole side, the front of which is read.
fn read_whole<P: Plant>(plant: &mut P, side: Side, front: Front) -> Result<Vec<u8>, OpenFault>
    requires running { ¬ IsTrue (P.seen plant.old).stopped }
    requires size { IfSome (P.seen plant.old).told (λ t. front.size ≡ length (disk side t.trace).reads) }
    requires front { IfSome (P.seen plant.old).told (λ t. front.bytes.items ≡ take HEADER (disk side t.trace).reads) }
    requires len { vec_len front.bytes ≡ min front.size HEADER }
    ensures trace { MayMiss side (P.seen plant.old).told (P.seen plant.new).told result }
    ensures bytes { IfOk result (λ bytes. IfSome (P.seen plant.old).told (λ t. bytes.items ≡ (disk side t.trace).reads)) }
    ensures front { IfOk result (λ bytes. take HEADER bytes.items ≡ front.bytes.items) }
    ensures cause { ReadCause (P.seen plant.old).faults (P.seen plant.new).faults result }
    ensures stopped { IsErrOf result OpenFault.Stopped ↔ IsTrue (P.seen plant.new).stopped }
{
    let mut bytes = front.bytes;
    read_to(plant, side, &mut bytes, front.size)?;
    Ok(bytes)
}

/// The sides as an opening reads them: where the journal stands, and of its live side all bytes.
#[derive(Drop)]
pub struct Sides {
    pub live_side: LiveSide,
    /// Side A is shorter than a header.
    pub is_short: bool,
    /// The bytes of the live side; none where no side is live.
    pub live: Vec<u8>,
}

/// The sides where none is live.
fn no_live(alloc: Global, live_side: LiveSide, is_short: bool) -> Sides
    ensures live_side { result.live_side ≡ live_side }
    ensures is_short { result.is_short ≡ is_short }
{
    Sides {
        live_side,
        is_short,
        live: Vec::new(alloc),
    }
}

/// The front of a side, of those of both.
fn front_of(side: Side, a: Front, b: Front) -> Front
    ensures { result ≡ of_side side a b }
{
    match side {
        Side::A => a,
        Side::B => b,
    }
}

/// Reads the header of each side, and the rest of the one that is live.
pub fn read_sides<P: Plant>(alloc: Global, plant: &mut P) -> Result<Sides, OpenFault>
    ensures trace { (side : AnySide) × MayMiss side (P.seen plant.old).told (P.seen plant.new).told result }
    ensures sides { IfOk result (λ sides. AreSeen (P.seen plant.old).told sides) }
    ensures cause { ReadCause (P.seen plant.old).faults (P.seen plant.new).faults result }
    ensures stopped { IsErrOf result OpenFault.Stopped ↔ IsTrue (P.seen plant.new).stopped }
{
    let a = read_front(alloc, plant, Side::A)?;
    let b = read_front(alloc, plant, Side::B)?;
    let live_side = place_in(&a.bytes, &b.bytes);
    let is_short = a.bytes.len() < HEADER;
    match live_side {
        LiveSide::On(side) => {
            let live = read_whole(plant, side, front_of(side, a, b))?;
            Ok(Sides {
                live_side,
                is_short,
                live,
            })
        }
        LiveSide::New => Ok(no_live(alloc, live_side, is_short)),
        LiveSide::Wrong(_) => Ok(no_live(alloc, live_side, is_short)),
    }
}
