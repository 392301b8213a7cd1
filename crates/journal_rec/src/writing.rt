ghost use Rattle.std.specs.Prelude.{◌≡◌, ◌<◌, ◌+◌, ◌^◌, ◌++◌, [], ◌∷◌, length, true, IfOk, OnOk};
ghost use Rattle.lab_base.specs.Names.{is_name};
ghost use Rattle.journal_rec.specs.Payloads.{le, name_bytes, text_bytes, tags_bytes, way_bytes, payload};
ghost use Rattle.journal_rec.specs.Payloads.{AreTags, IsWay, tags_of_way, HasFields, IsShort, IsBody};

use crate::{Encoded, Record, Way};
use lab_base::{Memory, Name, Tags, Text};
use std::alloc::Global;

fn put_short(out: &mut Vec<u8>, number: u16) -> Result<(), Memory>
    ensures ok { OnOk result (out.new.items ≡ out.old.items ++ le 2 number) }
    ensures fits { number < 2 ^ 16 }
{
    out.extend_from_slice(&number.to_le_bytes())?;
    Ok(())
}

fn put_long(out: &mut Vec<u8>, number: u32) -> Result<(), Memory>
    ensures { OnOk result (out.new.items ≡ out.old.items ++ le 4 number) }
{
    out.extend_from_slice(&number.to_le_bytes())?;
    Ok(())
}

fn put_name(out: &mut Vec<u8>, name: &Name) -> Result<(), Memory>
    ensures ok { OnOk result (out.new.items ≡ out.old.items ++ name_bytes name.now) }
    ensures named { is_name name.now ≡ true }
{
    let bytes = name.bytes();
    out.push(bytes.len() as u8)?;
    out.extend_from_slice(bytes)?;
    Ok(())
}

fn put_text(out: &mut Vec<u8>, text: &Text) -> Result<(), Memory>
    requires { length text.now < 2 ^ 32 }
    ensures { OnOk result (out.new.items ≡ out.old.items ++ text_bytes text.now) }
{
    put_long(out, text.len() as u32)?;
    out.extend_from_slice(text.bytes())?;
    Ok(())
}

fn put_tags(out: &mut Vec<u8>, tags: &Tags) -> Result<(), Memory>
    requires { length tags.now < 2 ^ 16 }
    ensures ok { OnOk result (out.new.items ≡ out.old.items ++ tags_bytes tags.now) }
    ensures tags { OnOk result (AreTags tags.now) }
{
    put_short(out, tags.len() as u16)?;
    for tag in tags.as_slice() {
        put_short(out, tag.0)?;
    }
    Ok(())
}

fn put_way(out: &mut Vec<u8>, way: &Way) -> Result<(), Memory>
    requires tags { length (tags_of_way way.now) < 2 ^ 16 }
    requires size { length (way_bytes way.now) < 2 ^ 32 }
    ensures ok { OnOk result (out.new.items ≡ out.old.items ++ way_bytes way.now) }
    ensures way { OnOk result (IsWay way.now) }
{
    match way {
        Way::In { map, tags } => {
            out.push(1)?;
            put_text(out, map)?;
            put_tags(out, tags)?;
        }
        Way::Out => out.push(2)?,
        Way::Change { top, map, tags } => {
            out.push(3)?;
            put_text(out, top)?;
            put_text(out, map)?;
            put_tags(out, tags)?;
        }
        Way::Change2 { top, map, tags } => {
            out.push(4)?;
            put_text(out, top)?;
            put_text(out, map)?;
            put_tags(out, tags)?;
        }
    }
    Ok(())
}

fn put_kind(out: &mut Vec<u8>, kind: u8, exp: &Name) -> Result<(), Memory>
    ensures ok { OnOk result (out.new.items ≡ out.old.items ++ kind ∷ name_bytes exp.now) }
    ensures named { OnOk result (is_name exp.now ≡ true) }
{
    out.push(kind)?;
    put_name(out, exp)
}

fn put_record(out: &mut Vec<u8>, entry: &Record) -> Result<(), Memory>
    requires { IsShort entry.now }
    ensures ok { OnOk result (out.new.items ≡ out.old.items ++ payload entry.now) }
    ensures fields { OnOk result (HasFields entry.now) }
{
    match entry {
        Record::Lab { ptop } => {
            out.push(1)?;
            put_text(out, ptop)
        }
        Record::Create { exp, top } => {
            put_kind(out, 2, exp)?;
            put_text(out, top)
        }
        Record::Delete { exp } => put_kind(out, 3, exp),
        Record::Begin { exp, way } => {
            put_kind(out, 4, exp)?;
            put_way(out, way)
        }
        Record::Commit { exp } => put_kind(out, 5, exp),
        Record::Abort { exp } => put_kind(out, 6, exp),
        Record::Create2 { exp, top } => {
            put_kind(out, 7, exp)?;
            put_text(out, top)
        }
    }
}

/// The payload after its length, with the next gate, closed.
fn framed(alloc: Global, payload: &[u8]) -> Result<Encoded, Memory>
    requires { length payload.now < 2 ^ 32 }
    ensures { IfOk result (λ encoded. encoded ≡ le 4 (length payload.now) ++ payload.now ++ 0 ∷ []) }
{
    let mut out = Vec::with_capacity(alloc, payload.len() + 5)?;
    put_long(&mut out, payload.len() as u32)?;
    out.extend_from_slice(payload)?;
    out.push(0)?;
    Ok(Encoded::new(out))
}

/// The one spelling of a record, as the journal holds it.
pub fn encode(alloc: Global, entry: &Record) -> Result<Encoded, Memory>
    requires { IsShort entry.now }
    ensures spelled { IfOk result (λ encoded. IsBody encoded entry.now) }
    ensures size { IfOk result (λ encoded. length encoded ≡ length (payload entry.now) + 5) }
{
    let mut payload = Vec::new(alloc);
    put_record(&mut payload, entry)?;
    framed(alloc, &payload)
}
