// The lines of a top text, by their fields after the keyword.
ghost use Rattle.std.specs.Prelude.{◌≡◌, [], Ok, IfOk, option_map};
ghost use Rattle.lab_base.specs.Texts.{views};
ghost use Rattle.lab_base.specs.Parts.{all_of, name_of, number_from};
ghost use Rattle.lab_base.specs.Kinds.{both_of};
ghost use Rattle.line_text.specs.Fields.{field_at, list_after};
ghost use Rattle.top_text.specs.Lines.{bare, addressed, end_parts, end_in_field, weight_of};
ghost use Rattle.top_text.specs.Lines.{as_class, class_line, node_line, fix_line, link_line, pipe_line, multiplex_line};

use lab_base::{
    Items, Kind, ListRead, Memory, Name, Parts, Rates, add_read, both, name_in, number_in,
};
use line_text::{
    RateLimits, address_in, both_rates_at, counts, field_at, fields_after, has_byte, name_at,
    numbered_weight, pair_in, short_in, weight_in,
};
use std::alloc::Global;
use virt_topo::{Class, MAX_KBPS, MAX_MICROS, MAX_PPM, MAX_SEGMENT_ENDS, MAX_WEIGHT};

/// The limits of a pipe's rates.
const PIPE_RATES: RateLimits = RateLimits {
    least_kbps: 1,
    most_kbps: MAX_KBPS,
    most_micros: MAX_MICROS,
    most_ppm: MAX_PPM,
};

/// The name of an end's virtual node, and its address.
pub(crate) type End = (Name, Option<u32>);

fn weight_at(fields: &[&[u8]], n: usize) -> Result<u32, Kind>
    ensures { result ≡ number_from 0 MAX_WEIGHT (field_at (views fields.now) n) }
{
    let field = field_at(fields, n);
    weight_in(field, MAX_WEIGHT)
}

fn kbps_at(fields: &[&[u8]], n: usize) -> Result<u64, Kind>
    ensures { result ≡ number_from 1 MAX_KBPS (field_at (views fields.now) n) }
{
    let field = field_at(fields, n);
    number_in(field, 1, MAX_KBPS)
}

fn bare(name: Result<Name, Kind>) -> Result<End, Kind>
    ensures { result ≡ bare name }
{
    match name {
        Ok(name) => Ok((name, None)),
        Err(kind) => Err(kind),
    }
}

fn addressed(read: Result<(Name, u32), Kind>) -> Result<End, Kind>
    ensures { result ≡ addressed read }
{
    match read {
        Ok((name, address)) => Ok((name, Some(address))),
        Err(kind) => Err(kind),
    }
}

/// An end with an address, from the parts of its field.
fn end_parts(parts: Option<Parts<'_>>) -> Result<End, Kind>
    ensures { result ≡ end_parts (option_map (λ parts. (parts.before.now, parts.behind.now)) parts.entry) }
{
    match parts {
        Some(parts) => addressed(both(name_in(parts.before), address_in(parts.behind))),
        None => Err(Kind::Fields),
    }
}

fn end_in(field: &[u8]) -> Result<End, Kind>
    ensures { result ≡ end_in_field field.now }
{
    if has_byte(field, b'=') {
        end_parts(pair_in(field, b'='))
    } else {
        bare(name_in(field))
    }
}

fn all_names(alloc: Global, fields: &[&[u8]]) -> Result<ListRead<Name>, Memory>
    ensures { IfOk result (λ read. read ≡ all_of name_of (Ok []) (views fields.now)) }
{
    let mut so_far = Ok(Items::new(alloc));
    for field in fields {
        so_far = add_read(so_far, name_in(field))?;
    }
    Ok(so_far)
}

fn all_desires(alloc: Global, fields: &[&[u8]]) -> Result<ListRead<(Name, u32)>, Memory>
    ensures { IfOk result (λ read. read ≡ all_of weight_of (Ok []) (views fields.now)) }
{
    let mut so_far = Ok(Items::new(alloc));
    for field in fields {
        so_far = add_read(so_far, numbered_weight(field, MAX_WEIGHT))?;
    }
    Ok(so_far)
}

fn all_ends(alloc: Global, fields: &[&[u8]]) -> Result<ListRead<End>, Memory>
    ensures { IfOk result (λ read. read ≡ all_of end_in_field (Ok []) (views fields.now)) }
{
    let mut so_far = Ok(Items::new(alloc));
    for field in fields {
        so_far = add_read(so_far, end_in(field))?;
    }
    Ok(so_far)
}

fn types_in(alloc: Global, fields: &[&[u8]]) -> Result<ListRead<Name>, Memory>
    ensures { IfOk result (λ read. read ≡ list_after 2 1 8 name_of (views fields.now)) }
{
    if counts(fields, 3, 10) {
        all_names(alloc, fields_after(fields, 2))
    } else {
        Ok(Err(Kind::Fields))
    }
}

fn desires_in(alloc: Global, fields: &[&[u8]]) -> Result<ListRead<(Name, u32)>, Memory>
    ensures { IfOk result (λ read. read ≡ list_after 3 0 8 weight_of (views fields.now)) }
{
    if counts(fields, 3, 11) {
        all_desires(alloc, fields_after(fields, 3))
    } else {
        Ok(Err(Kind::Fields))
    }
}

fn ends_in(alloc: Global, fields: &[&[u8]]) -> Result<ListRead<End>, Memory>
    ensures { IfOk result (λ read. read ≡ list_after 3 2 MAX_SEGMENT_ENDS end_in_field (views fields.now)) }
{
    if counts(fields, 5, 259) {
        all_ends(alloc, fields_after(fields, 3))
    } else {
        Ok(Err(Kind::Fields))
    }
}

fn as_class(read: Result<(Name, (u32, Items<Name>)), Kind>) -> Result<Class, Kind>
    ensures { result ≡ as_class read }
{
    match read {
        Ok((name, (weight, types))) => Ok(Class {
            name,
            weight,
            types,
        }),
        Err(kind) => Err(kind),
    }
}

/// Reads the fields of a `make-vclass` line, after its keyword.
pub(crate) fn class_in(alloc: Global, fields: &[&[u8]]) -> Result<Result<Class, Kind>, Memory>
    ensures { IfOk result (λ read. read ≡ class_line (views fields.now)) }
{
    let types = types_in(alloc, fields)?;
    let weight = weight_at(fields, 1);
    let behind = both(weight, types);
    let name = name_at(fields, 0);
    let whole = both(name, behind);
    Ok(as_class(whole))
}

/// A virtual node's name, its type or class, its OS and its desires.
pub(crate) type NodeRead = (Name, (Name, (Name, Items<(Name, u32)>)));

/// Reads the fields of a `node` line, after its keyword.
pub(crate) fn node_in(alloc: Global, fields: &[&[u8]]) -> Result<Result<NodeRead, Kind>, Memory>
    ensures { IfOk result (λ read. read ≡ node_line (views fields.now)) }
{
    let desires = desires_in(alloc, fields)?;
    let os = name_at(fields, 2);
    let system = both(os, desires);
    let kind = name_at(fields, 1);
    let behind = both(kind, system);
    let name = name_at(fields, 0);
    Ok(both(name, behind))
}

/// Reads the fields of a `fix-node` line, after its keyword.
pub(crate) fn fix_in(fields: &[&[u8]]) -> Result<(Name, Name), Kind>
    ensures { result ≡ fix_line (views fields.now) }
{
    if fields.len() == 2 {
        both(name_at(fields, 0), name_at(fields, 1))
    } else {
        Err(Kind::Fields)
    }
}

/// A segment's name, its owner, its kbps and its ends.
pub(crate) type LinkRead = (Name, (Name, (u64, Items<End>)));

/// Reads the fields of a `link` line, after its keyword.
pub(crate) fn link_in(alloc: Global, fields: &[&[u8]]) -> Result<Result<LinkRead, Kind>, Memory>
    ensures { IfOk result (λ read. read ≡ link_line (views fields.now)) }
{
    let ends = ends_in(alloc, fields)?;
    let kbps = kbps_at(fields, 2);
    let speed = both(kbps, ends);
    let owner = name_at(fields, 1);
    let behind = both(owner, speed);
    let name = name_at(fields, 0);
    Ok(both(name, behind))
}

/// A pipe's virtual node, its two ends there, and its rates there and back.
pub(crate) type PipeRead = (Name, ((u16, u16), (Rates, Rates)));

fn pipe_ends_in(from: &[u8], to: &[u8]) -> Result<(u16, u16), Kind>
    ensures { result ≡ both_of (number_from 0 u16.MAX from.now) (number_from 0 u16.MAX to.now) }
{
    both(short_in(from, 0, 65_535), short_in(to, 0, 65_535))
}

fn pipe_ends_at(fields: &[&[u8]]) -> Result<(u16, u16), Kind>
    ensures { result ≡ both_of (number_from 0 u16.MAX (field_at (views fields.now) 1)) (number_from 0 u16.MAX (field_at (views fields.now) 2)) }
{
    let from = field_at(fields, 1);
    let to = field_at(fields, 2);
    pipe_ends_in(from, to)
}

/// Reads the fields of a `pipe` line, after its keyword.
pub(crate) fn pipe_in(fields: &[&[u8]]) -> Result<PipeRead, Kind>
    ensures { result ≡ pipe_line (views fields.now) }
{
    if fields.len() != 9 {
        return Err(Kind::Fields);
    }
    let ends = pipe_ends_at(fields);
    let rates = both_rates_at(PIPE_RATES, fields, 3);
    let behind = both(ends, rates);
    let name = name_at(fields, 0);
    both(name, behind)
}

/// Reads the fields of a `multiplex` line, after its keyword.
pub(crate) fn multiplex_in(fields: &[&[u8]]) -> Result<Name, Kind>
    ensures { result ≡ multiplex_line (views fields.now) }
{
    if fields.len() == 1 {
        name_at(fields, 0)
    } else {
        Err(Kind::Fields)
    }
}
