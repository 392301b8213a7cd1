ghost use Rattle.std.specs.Prelude.{IfOk, IsErrOf};
ghost use Rattle.journal_rec.specs.Payloads.{Decodes, IsReadAs, IsShort};
ghost use Rattle.journal_rec.specs.Reading.{Gives, byte_at, number_at, part_at, name_of, field_at, text_at, each_at, tags_at, in_at, change_at};
ghost use Rattle.journal_rec.specs.Reading.{change2_at, way_at, lab_at, create_at, create2_at, begin_at, delete_at, commit_at, abort_at, record_at, all_of};
ghost use Rattle.journal_rec.specs.declared.record.Record.{Record as AnyRecord};

use crate::{RecFault, Record, Way};
use lab_base::{Items, Name, Tags, Text, VlanId};
use std::alloc::Global;

/// A bound above each payload's length.
const TOO_LONG: usize = 1 << 32;

fn byte_of(bytes: &[u8]) -> Result<(u8, &[u8]), RecFault>
    ensures { Gives (λ x. (x.0, x.1.now)) result (byte_at bytes.now) }
{
    match bytes {
        [] => Err(RecFault::Bad),
        [byte, rest @ ..] => Ok((*byte, rest)),
    }
}

fn short_of(bytes: &[u8]) -> Result<(u16, &[u8]), RecFault>
    ensures { Gives (λ x. (x.0, x.1.now)) result (number_at 2 bytes.now) }
{
    if bytes.len() < 2 {
        return Err(RecFault::Bad);
    }
    let (front, rest) = bytes.split_at(2);
    Ok((u16::from_le_bytes([front[0], front[1]]), rest))
}

fn long_of(bytes: &[u8]) -> Result<(u32, &[u8]), RecFault>
    ensures { Gives (λ x. (x.0, x.1.now)) result (number_at 4 bytes.now) }
{
    if bytes.len() < 4 {
        return Err(RecFault::Bad);
    }
    let (front, rest) = bytes.split_at(4);
    let number = u32::from_le_bytes([front[0], front[1], front[2], front[3]]);
    Ok((number, rest))
}

fn part_of(bytes: &[u8], len: usize) -> Result<(&[u8], &[u8]), RecFault>
    ensures { Gives (λ x. (x.0.now, x.1.now)) result (part_at len bytes.now) }
{
    if bytes.len() < len {
        return Err(RecFault::Bad);
    }
    Ok(bytes.split_at(len))
}

fn name_in(part: &[u8]) -> Result<Name, RecFault>
    ensures { Gives (λ name. name) result (name_of part.now) }
{
    match Name::read(part) {
        Ok(name) => Ok(name),
        Err(_) => Err(RecFault::Bad),
    }
}

#[tactic(auto, unfolding(crate::specs::Reading::field_at))]
fn field_of(bytes: &[u8]) -> Result<(&[u8], &[u8]), RecFault>
    ensures { Gives (λ x. (x.0.now, x.1.now)) result (field_at bytes.now) }
{
    let (len, rest) = byte_of(bytes)?;
    part_of(rest, len as usize)
}

#[tactic(auto, unfolding(crate::specs::Reading::text_at))]
fn text_of(alloc: Global, bytes: &[u8]) -> Result<(Text, &[u8]), RecFault>
    ensures { Gives (λ x. (x.0, x.1.now)) result (text_at bytes.now) }
{
    let (len, rest) = long_of(bytes)?;
    let (part, rest) = part_of(rest, len as usize)?;
    Ok((Text::from_slice(alloc, part)?, rest))
}

fn each_of(alloc: Global, count: u16, bytes: &[u8]) -> Result<(Tags, &[u8]), RecFault>
    ensures { Gives (λ x. (x.0, x.1.now)) result (each_at count bytes.now) }
{
    let mut tags = Items::new(alloc);
    let mut rest = bytes;
    for _ in 0..count {
        let (tag, after) = short_of(rest)?;
        tags.push(VlanId(tag))?;
        rest = after;
    }
    Ok((tags, rest))
}

#[tactic(auto, unfolding(crate::specs::Reading::tags_at))]
fn tags_of(alloc: Global, bytes: &[u8]) -> Result<(Tags, &[u8]), RecFault>
    ensures { Gives (λ x. (x.0, x.1.now)) result (tags_at bytes.now) }
{
    let (count, rest) = short_of(bytes)?;
    each_of(alloc, count, rest)
}

#[tactic(auto, unfolding(crate::specs::Reading::in_at))]
fn in_of(alloc: Global, bytes: &[u8]) -> Result<(Way, &[u8]), RecFault>
    ensures { Gives (λ x. (x.0, x.1.now)) result (in_at bytes.now) }
{
    let (map, rest) = text_of(alloc, bytes)?;
    let (tags, rest) = tags_of(alloc, rest)?;
    Ok((Way::In { map, tags }, rest))
}

#[tactic(auto, unfolding(crate::specs::Reading::change_at))]
fn change_of(alloc: Global, bytes: &[u8]) -> Result<(Way, &[u8]), RecFault>
    ensures { Gives (λ x. (x.0, x.1.now)) result (change_at bytes.now) }
{
    let (top, rest) = text_of(alloc, bytes)?;
    let (map, rest) = text_of(alloc, rest)?;
    let (tags, rest) = tags_of(alloc, rest)?;
    Ok((Way::Change { top, map, tags }, rest))
}

#[tactic(auto, unfolding(crate::specs::Reading::change2_at))]
fn change2_of(alloc: Global, bytes: &[u8]) -> Result<(Way, &[u8]), RecFault>
    ensures { Gives (λ x. (x.0, x.1.now)) result (change2_at bytes.now) }
{
    let (top, rest) = text_of(alloc, bytes)?;
    let (map, rest) = text_of(alloc, rest)?;
    let (tags, rest) = tags_of(alloc, rest)?;
    Ok((Way::Change2 { top, map, tags }, rest))
}

#[tactic(auto, unfolding(crate::specs::Reading::way_at))]
fn way_of(alloc: Global, bytes: &[u8]) -> Result<(Way, &[u8]), RecFault>
    ensures { Gives (λ x. (x.0, x.1.now)) result (way_at bytes.now) }
{
    let (kind, rest) = byte_of(bytes)?;
    match kind {
        1 => in_of(alloc, rest),
        2 => Ok((Way::Out, rest)),
        3 => change_of(alloc, rest),
        4 => change2_of(alloc, rest),
        _ => Err(RecFault::Bad),
    }
}

#[tactic(auto, unfolding(crate::specs::Reading::lab_at))]
fn lab_of(alloc: Global, bytes: &[u8]) -> Result<(Record, &[u8]), RecFault>
    ensures { Gives (λ x. (x.0, x.1.now)) result (lab_at bytes.now) }
{
    let (ptop, rest) = text_of(alloc, bytes)?;
    Ok((Record::Lab { ptop }, rest))
}

#[tactic(auto, unfolding(crate::specs::Reading::create_at))]
fn create_of(alloc: Global, bytes: &[u8]) -> Result<(Record, &[u8]), RecFault>
    ensures { Gives (λ x. (x.0, x.1.now)) result (create_at bytes.now) }
{
    let (part, rest) = field_of(bytes)?;
    let exp = name_in(part)?;
    let (top, rest) = text_of(alloc, rest)?;
    Ok((Record::Create { exp, top }, rest))
}

#[tactic(auto, unfolding(crate::specs::Reading::create2_at))]
fn create2_of(alloc: Global, bytes: &[u8]) -> Result<(Record, &[u8]), RecFault>
    ensures { Gives (λ x. (x.0, x.1.now)) result (create2_at bytes.now) }
{
    let (part, rest) = field_of(bytes)?;
    let exp = name_in(part)?;
    let (top, rest) = text_of(alloc, rest)?;
    Ok((Record::Create2 { exp, top }, rest))
}

#[tactic(auto, unfolding(crate::specs::Reading::begin_at))]
fn begin_of(alloc: Global, bytes: &[u8]) -> Result<(Record, &[u8]), RecFault>
    ensures { Gives (λ x. (x.0, x.1.now)) result (begin_at bytes.now) }
{
    let (part, rest) = field_of(bytes)?;
    let exp = name_in(part)?;
    let (way, rest) = way_of(alloc, rest)?;
    Ok((Record::Begin { exp, way }, rest))
}

#[tactic(auto, unfolding(crate::specs::Reading::delete_at))]
fn delete_of(bytes: &[u8]) -> Result<(Record, &[u8]), RecFault>
    ensures { Gives (λ x. (x.0, x.1.now)) result (delete_at bytes.now) }
{
    let (part, rest) = field_of(bytes)?;
    let exp = name_in(part)?;
    Ok((Record::Delete { exp }, rest))
}

#[tactic(auto, unfolding(crate::specs::Reading::commit_at))]
fn commit_of(bytes: &[u8]) -> Result<(Record, &[u8]), RecFault>
    ensures { Gives (λ x. (x.0, x.1.now)) result (commit_at bytes.now) }
{
    let (part, rest) = field_of(bytes)?;
    let exp = name_in(part)?;
    Ok((Record::Commit { exp }, rest))
}

#[tactic(auto, unfolding(crate::specs::Reading::abort_at))]
fn abort_of(bytes: &[u8]) -> Result<(Record, &[u8]), RecFault>
    ensures { Gives (λ x. (x.0, x.1.now)) result (abort_at bytes.now) }
{
    let (part, rest) = field_of(bytes)?;
    let exp = name_in(part)?;
    Ok((Record::Abort { exp }, rest))
}

#[tactic(auto, unfolding(crate::specs::Reading::record_at))]
fn record_of(alloc: Global, bytes: &[u8]) -> Result<(Record, &[u8]), RecFault>
    ensures { Gives (λ x. (x.0, x.1.now)) result (record_at bytes.now) }
{
    let (kind, rest) = byte_of(bytes)?;
    match kind {
        1 => lab_of(alloc, rest),
        2 => create_of(alloc, rest),
        3 => delete_of(rest),
        4 => begin_of(alloc, rest),
        5 => commit_of(rest),
        6 => abort_of(rest),
        7 => create2_of(alloc, rest),
        _ => Err(RecFault::Bad),
    }
}

#[tactic(auto, unfolding(crate::specs::Reading::all_of))]
fn all(alloc: Global, bytes: &[u8]) -> Result<Record, RecFault>
    ensures { Gives (λ entry. entry) result (all_of bytes.now) }
{
    if bytes.len() >= TOO_LONG {
        return Err(RecFault::Bad);
    }
    let (entry, rest) = record_of(alloc, bytes)?;
    if !rest.is_empty() {
        return Err(RecFault::Bad);
    }
    Ok(entry)
}

/// The record with this payload; `Bad` where the bytes, all of them, are the payload of none.
pub fn decode(alloc: Global, bytes: &[u8]) -> Result<Record, RecFault>
    ensures ok { IfOk result (λ entry. Decodes bytes.now entry) }
    // It can be encoded.
    ensures short { IfOk result IsShort }
    // A record's payload is read back as that record.
    ensures back { (entry : AnyRecord) → Decodes bytes.now entry → IsReadAs entry result }
    ensures bad { IsErrOf result RecFault.Bad → (entry : AnyRecord) → Decodes bytes.now entry → ⊥ }
{
    all(alloc, bytes)
}
