// The lines of a solution text, by their fields after the keyword.
ghost use Rattle.std.specs.Prelude.{◌≡◌, option_map};
ghost use Rattle.lab_base.specs.Texts.{views};
ghost use Rattle.line_text.specs.Fields.{field_at};
ghost use Rattle.line_text.specs.Pairs.{numbered};
ghost use Rattle.solution_text.specs.Solutions.{pair_parts, pair_of, place_line, plug_line};

use lab_base::{Kind, Name, Parts, both, name_in};
use line_text::{field_at, name_at, numbered_short, pair_in};

/// A virtual node, a node and a type.
pub(crate) type PlaceRead = (Name, (Name, Name));

/// Reads the fields of a `node` line, after its keyword.
pub(crate) fn place_in(fields: &[&[u8]]) -> Result<PlaceRead, Kind>
    ensures { result ≡ place_line (views fields.now) }
{
    if fields.len() != 3 {
        return Err(Kind::Fields);
    }
    let node = name_at(fields, 1);
    let kind = name_at(fields, 2);
    let place = both(node, kind);
    let virt = name_at(fields, 0);
    both(virt, place)
}

fn pair_parts(parts: Option<Parts<'_>>) -> Result<(Name, Name), Kind>
    ensures { result ≡ pair_parts (option_map (λ parts. (parts.before.now, parts.behind.now)) parts.entry) }
{
    match parts {
        Some(parts) => both(name_in(parts.before), name_in(parts.behind)),
        None => Err(Kind::Fields),
    }
}

fn end_at(fields: &[&[u8]]) -> Result<(Name, u16), Kind>
    ensures { result ≡ numbered 0 u16.MAX (field_at (views fields.now) 0) }
{
    let field = field_at(fields, 0);
    numbered_short(field, 0, 65_535)
}

fn pair_at(fields: &[&[u8]]) -> Result<(Name, Name), Kind>
    ensures { result ≡ pair_of (field_at (views fields.now) 1) }
{
    let field = field_at(fields, 1);
    pair_parts(pair_in(field, b':'))
}

/// An end by its virtual node and number, and an interface by its node and name.
pub(crate) type PlugRead = ((Name, u16), (Name, Name));

/// Reads the fields of a `plug` line, after its keyword.
pub(crate) fn plug_in(fields: &[&[u8]]) -> Result<PlugRead, Kind>
    ensures { result ≡ plug_line (views fields.now) }
{
    if fields.len() != 2 {
        return Err(Kind::Fields);
    }
    let end = end_at(fields);
    let iface = pair_at(fields);
    both(end, iface)
}
