// Fields of two parts.
ghost use Rattle.std.specs.Prelude.{◌≡◌, option_map};
ghost use Rattle.line_text.specs.Pairs.{has_byte, pair_at, numbered};

use crate::{short_in, weight_in};
use lab_base::{Kind, Name, Parts, both, name_in, parted};

/// Whether the field has such a byte.
pub fn has_byte(field: &[u8], at: u8) -> bool
    ensures { result ≡ has_byte at field.now }
{
    parted(field, at).is_some()
}

/// The parts of a field around its byte `at`; None where it has none or several.
pub fn pair_in(field: &[u8], at: u8) -> Option<Parts<'_>>
    ensures { option_map (λ parts. (parts.before.now, parts.behind.now)) result ≡ pair_at at field.now }
{
    match parted(field, at) {
        Some(parts) => {
            if has_byte(parts.behind, at) {
                None
            } else {
                Some(parts)
            }
        }
        None => None,
    }
}

/// A name, a colon and a number of at most 65,535; `fields` where the field has not one colon, else `name` before `number`.
pub fn numbered_short(field: &[u8], least: u16, most: u16) -> Result<(Name, u16), Kind>
    ensures { result ≡ numbered least most field.now }
{
    match pair_in(field, b':') {
        Some(parts) => both(name_in(parts.before), short_in(parts.behind, least, most)),
        None => Err(Kind::Fields),
    }
}

/// A name, a colon and a number from 0 to `most`, of at most 4,294,967,295; its faults are those of `numbered_short`.
pub fn numbered_weight(field: &[u8], most: u32) -> Result<(Name, u32), Kind>
    ensures { result ≡ numbered 0 most field.now }
{
    match pair_in(field, b':') {
        Some(parts) => both(name_in(parts.before), weight_in(parts.behind, most)),
        None => Err(Kind::Fields),
    }
}
