ghost use Rattle.std.specs.Prelude.{◌≡◌, ◌≤◌, drop, length};
ghost use Rattle.lab_base.specs.Parts.{name_of};
ghost use Rattle.lab_base.specs.Texts.{views};
ghost use Rattle.line_text.specs.Fields.{field_at, counts};

use lab_base::{Kind, Name, name_in};

/// The field of a number, counted from 0; empty where there is none.
pub fn field_at<'a>(fields: &[&'a [u8]], n: usize) -> &'a [u8]
    ensures { result.now ≡ field_at (views fields.now) n }
{
    if n < fields.len() { fields[n] } else { &[] }
}

/// The name in the field of a number, counted from 0; `name` where it is none, or isn't there.
pub fn name_at(fields: &[&[u8]], n: usize) -> Result<Name, Kind>
    ensures { result ≡ name_of (field_at (views fields.now) n) }
{
    let field = field_at(fields, n);
    name_in(field)
}

/// Whether there are `least` to `most` fields.
pub fn counts(fields: &[&[u8]], least: usize, most: usize) -> bool
    ensures { result ≡ counts least most (views fields.now) }
{
    least <= fields.len() && fields.len() <= most
}

/// The fields after the first n.
pub fn fields_after<'a, 'b>(fields: &'b [&'a [u8]], n: usize) -> &'b [&'a [u8]]
    requires { n ≤ length fields.now }
    ensures { views result.now ≡ drop n (views fields.now) }
{
    &fields[n..]
}
