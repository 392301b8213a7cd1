// The lines of links and of the range.
ghost use Rattle.std.specs.Prelude.{◌≡◌, ◌∷◌, [], option_map};
ghost use Rattle.lab_base.specs.Texts.{views};
ghost use Rattle.ptop_text.specs.Lines.{first_end_in, is_switch_of, first_parts, first_end, link_line, vlans_line};

use lab_base::{Kind, Name, Parts, both, name_in, number_in};
use line_text::{numbered_short, pair_in, short_in};
use phys_lab::LabBuilder;

/// The first end of a link, after its colon: an interface of a node, or a port of a switch.
#[derive(Clone, Copy, Drop)]
pub(crate) enum FirstEnd {
    Port(u16),
    Iface(Name),
}

/// A link, its first end, its second end and its speed.
pub(crate) type Link = (Name, ((Name, FirstEnd), ((Name, u16), u64)));

fn end_in(is_switch: bool, field: &[u8]) -> Result<FirstEnd, Kind>
    ensures { result ≡ first_end_in is_switch field.now }
{
    if is_switch {
        match short_in(field, 1, 4_096) {
            Ok(port) => Ok(FirstEnd::Port(port)),
            Err(kind) => Err(kind),
        }
    } else {
        match name_in(field) {
            Ok(name) => Ok(FirstEnd::Iface(name)),
            Err(kind) => Err(kind),
        }
    }
}

fn is_switch_of(lab: &LabBuilder, name: Result<Name, Kind>) -> bool
    ensures { result ≡ is_switch_of lab.now name }
{
    match name {
        Ok(name) => lab.switch_named(name).is_some(),
        Err(_) => false,
    }
}

fn first_in(lab: &LabBuilder, parts: Option<Parts<'_>>) -> Result<(Name, FirstEnd), Kind>
    ensures { result ≡ first_parts lab.now (option_map (λ parts. (parts.before.now, parts.behind.now)) parts.entry) }
{
    match parts {
        Some(parts) => {
            let is_switch = is_switch_of(lab, name_in(parts.before));
            both(name_in(parts.before), end_in(is_switch, parts.behind))
        }
        None => Err(Kind::Fields),
    }
}

fn first_field(lab: &LabBuilder, field: &[u8]) -> Result<(Name, FirstEnd), Kind>
    ensures { result ≡ first_end lab.now field.now }
{
    first_in(lab, pair_in(field, b':'))
}

fn link_of(
    lab: &LabBuilder,
    link: &[u8],
    first: &[u8],
    second: &[u8],
    kbps: &[u8],
) -> Result<Link, Kind>
    ensures { result ≡ link_line lab.now (link.now ∷ first.now ∷ second.now ∷ kbps.now ∷ []) }
{
    let speed = number_in(kbps, 1, 1_000_000_000);
    let ends = both(numbered_short(second, 1, 4_096), speed);
    both(name_in(link), both(first_field(lab, first), ends))
}

/// Reads the fields of a `link` line, after its keyword, over the lab so far.
pub(crate) fn link_in(lab: &LabBuilder, fields: &[&[u8]]) -> Result<Link, Kind>
    ensures { result ≡ link_line lab.now (views fields.now) }
{
    match fields {
        [link, first, second, kbps] => link_of(lab, link, first, second, kbps),
        [] => Err(Kind::Fields),
        [_] => Err(Kind::Fields),
        [_, _] => Err(Kind::Fields),
        [_, _, _] => Err(Kind::Fields),
        [_, _, _, _, _, ..] => Err(Kind::Fields),
    }
}

/// Reads the fields of a `vlans` line, after its keyword.
pub(crate) fn vlans_in(fields: &[&[u8]]) -> Result<(u16, u16), Kind>
    ensures { result ≡ vlans_line (views fields.now) }
{
    match fields {
        [first, last] => both(short_in(first, 2, 4_094), short_in(last, 2, 4_094)),
        [] => Err(Kind::Fields),
        [_] => Err(Kind::Fields),
        [_, _, _, ..] => Err(Kind::Fields),
    }
}
