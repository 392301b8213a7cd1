// The lines of switches and nodes.
ghost use Rattle.std.specs.Prelude.{◌≡◌, [], Ok, IfOk, option_map, position, codes};
ghost use Rattle.lab_base.specs.Texts.{views};
ghost use Rattle.lab_base.specs.Parts.{all_of, name_of};
ghost use Rattle.lab_base.specs.Kinds.{both_of};
ghost use Rattle.lab_base.specs.Names.{same_name};
ghost use Rattle.ptop_text.specs.Lines.{bare_type, counted_type, type_of, feature_of, is_list, types_of, features_of, dash_in};
ghost use Rattle.ptop_text.specs.Lines.{node_parts, switch_parts, is_switch_word, is_switch_field, is_switch_line, device_line, as_node, as_switch};

use lab_base::{Items, Kind, ListRead, Memory, Name, Parts, add_read, both, name_in};
use line_text::{has_byte, numbered_weight, pair_in, short_in};
use phys_lab::Node;
use std::alloc::Global;

/// A switch or a node, as a `node` line defines it.
#[derive(Drop)]
pub(crate) enum Device {
    Switch(Name),
    Node(Node),
}

/// The device of a line, or the fault of that line.
pub(crate) type DeviceRead = Result<Device, Kind>;

fn is_switch_word(word: &[u8]) -> bool
    ensures { result ≡ is_switch_word word.now }
{
    word == b"switch".as_slice()
}

/// A type by its name alone, with count 1.
fn bare_type(field: &[u8]) -> Result<(Name, u16), Kind>
    ensures { result ≡ bare_type field.now }
{
    if is_switch_word(field) {
        Err(Kind::Fields)
    } else {
        both(name_in(field), Ok(1))
    }
}

fn counted_type(parts: Option<Parts<'_>>) -> Result<(Name, u16), Kind>
    ensures { result ≡ counted_type (option_map (λ parts. (parts.before.now, parts.behind.now)) parts.entry) }
{
    match parts {
        Some(parts) => {
            if is_switch_word(parts.before) {
                Err(Kind::Fields)
            } else {
                both(name_in(parts.before), short_in(parts.behind, 1, 1_000))
            }
        }
        None => Err(Kind::Fields),
    }
}

fn type_in(field: &[u8]) -> Result<(Name, u16), Kind>
    ensures { result ≡ type_of field.now }
{
    if has_byte(field, b':') {
        counted_type(pair_in(field, b':'))
    } else {
        bare_type(field)
    }
}

fn is_list(fields: &[&[u8]]) -> bool
    ensures { result ≡ is_list (views fields.now) }
{
    1 <= fields.len() && fields.len() <= 8
}

fn all_types(alloc: Global, fields: &[&[u8]]) -> Result<ListRead<(Name, u16)>, Memory>
    ensures { IfOk result (λ read. read ≡ all_of type_of (Ok []) (views fields.now)) }
{
    let mut so_far = Ok(Items::new(alloc));
    for field in fields {
        so_far = add_read(so_far, type_in(field))?;
    }
    Ok(so_far)
}

fn all_features(alloc: Global, fields: &[&[u8]]) -> Result<ListRead<(Name, u32)>, Memory>
    ensures { IfOk result (λ read. read ≡ all_of feature_of (Ok []) (views fields.now)) }
{
    let mut so_far = Ok(Items::new(alloc));
    for field in fields {
        so_far = add_read(so_far, numbered_weight(field, 1_000_000))?;
    }
    Ok(so_far)
}

fn types_in(alloc: Global, fields: &[&[u8]]) -> Result<ListRead<(Name, u16)>, Memory>
    ensures { IfOk result (λ read. read ≡ types_of (views fields.now)) }
{
    if is_list(fields) {
        all_types(alloc, fields)
    } else {
        Ok(Err(Kind::Fields))
    }
}

fn features_in(alloc: Global, fields: &[&[u8]]) -> Result<ListRead<(Name, u32)>, Memory>
    ensures { IfOk result (λ read. read ≡ features_of (views fields.now)) }
{
    if is_list(fields) {
        all_features(alloc, fields)
    } else {
        Ok(Err(Kind::Fields))
    }
}

fn dash_at(fields: &[&[u8]]) -> Option<usize>
    ensures { result ≡ position (λ field. same_name field.now (codes "-")) fields.now }
{
    fields.iter().position(|field| *field == b"-".as_slice())
}

/// The number of the field that is `-` alone.
fn dash_in(fields: &[&[u8]]) -> Option<usize>
    ensures { result ≡ dash_in (views fields.now) }
{
    dash_at(fields)
}

/// A node's name, its types and its features, or the first fault of them.
type NodeRead = Result<(Name, (Items<(Name, u16)>, Items<(Name, u32)>)), Kind>;

fn as_node(read: NodeRead) -> DeviceRead
    ensures { result ≡ as_node read }
{
    match read {
        Ok((name, (types, features))) => Ok(Device::Node(Node {
            name,
            types,
            features,
        })),
        Err(kind) => Err(kind),
    }
}

fn node_of(name: &[u8], types: ListRead<(Name, u16)>, features: ListRead<(Name, u32)>) -> DeviceRead
    ensures { result ≡ as_node (both_of (name_of name.now) (both_of types features)) }
{
    as_node(both(name_in(name), both(types, features)))
}

fn node_parts(
    alloc: Global,
    name: &[u8],
    fields: &[&[u8]],
    dash: Option<usize>,
) -> Result<DeviceRead, Memory>
    requires { dash ≡ dash_in (views fields.now) }
    ensures { IfOk result (λ read. read ≡ node_parts name.now (views fields.now) dash) }
{
    match dash {
        Some(at) => {
            let types = types_in(alloc, &fields[..at])?;
            let features = features_in(alloc, &fields[at + 1..])?;
            Ok(node_of(name, types, features))
        }
        None => {
            let types = types_in(alloc, fields)?;
            Ok(node_of(name, types, Ok(Items::new(alloc))))
        }
    }
}

fn switch_parts(field: &[u8], parts: Option<Parts<'_>>) -> bool
    ensures { result ≡ switch_parts field.now (option_map (λ parts. (parts.before.now, parts.behind.now)) parts.entry) }
{
    match parts {
        Some(parts) => is_switch_word(parts.before) && short_in(parts.behind, 1, 1).is_ok(),
        None => is_switch_word(field),
    }
}

fn is_switch_field(field: &[u8]) -> bool
    ensures { result ≡ is_switch_field field.now }
{
    switch_parts(field, pair_in(field, b':'))
}

fn as_switch(read: Result<Name, Kind>) -> DeviceRead
    ensures { result ≡ as_switch read }
{
    match read {
        Ok(name) => Ok(Device::Switch(name)),
        Err(kind) => Err(kind),
    }
}

/// Reads the fields of a `node` line, after its keyword.
pub(crate) fn device_in(alloc: Global, fields: &[&[u8]]) -> Result<DeviceRead, Memory>
    ensures { IfOk result (λ read. read ≡ device_line (views fields.now)) }
{
    match fields {
        [] => Ok(Err(Kind::Fields)),
        [name, rest @ ..] => {
            if is_switch_line(rest) {
                Ok(as_switch(name_in(name)))
            } else {
                node_parts(alloc, name, rest, dash_in(rest))
            }
        }
    }
}

fn is_switch_line(fields: &[&[u8]]) -> bool
    ensures { result ≡ is_switch_line (views fields.now) }
{
    match fields {
        [field] => is_switch_field(field),
        [] => false,
        [_, _, ..] => false,
    }
}
