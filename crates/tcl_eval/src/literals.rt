//! Numerals of expressions.

ghost use Rattle.std.specs.Prelude.{◌≡◌, ◌+◌, ◌<◌, ◌≤◌, length, take, drop, IfOk, IfErr, Ok, Err};
ghost use Rattle.tcl_eval.specs.Numbers.{Writes};
ghost use Rattle.tcl_eval.specs.Operators.{digits_of, opening_of};
ghost use Rattle.tcl_eval.specs.declared.openings.Opening.TheVariants.{Digits};

use crate::numbers::{has_no_zero, read_number};
use lab_base::Kind;

/// The number of digits at the front.
fn digits_size(rest: &[u8]) -> usize
    ensures size { result ≡ digits_of rest.now }
    ensures fits { result ≤ length rest.now }
{
    rest.iter().take_while(|b| b.is_ascii_digit()).count()
}

/// The place after the digits at a place.
fn digits_end(text: &[u8], at: usize) -> usize
    requires { at ≤ length text.now }
    ensures end { result ≡ at + digits_of (drop at text.now) }
    ensures fits { result ≤ length text.now }
    ensures some { opening_of (drop at text.now) ≡ Digits → at < result }
{
    at + digits_size(&text[at..])
}

/// The digits at the front.
fn front_digits(rest: &[u8]) -> &[u8]
    ensures { result.now ≡ take (digits_of rest.now) rest.now }
{
    &rest[..digits_size(rest)]
}

/// The digits at a place.
fn digits_at(text: &[u8], at: usize) -> &[u8]
    requires { at ≤ length text.now }
    ensures { result.now ≡ take (digits_of (drop at text.now)) (drop at text.now) }
{
    front_digits(&text[at..])
}

/// The number of a numeral. Where it isn't live it is 0.
fn written(digits: &[u8], live: bool) -> Result<i64, Kind>
    ensures { Writes live digits.now result }
{
    if !has_no_zero(digits) {
        return Err(Kind::Syntax);
    }
    if live { read_number(digits) } else { Ok(0) }
}

/// The number of the numeral at a place, and the place after it.
pub fn literal(text: &[u8], at: usize, live: bool) -> Result<(i64, usize), Kind>
    requires here { at ≤ length text.now }
    requires digits { opening_of (drop at text.now) ≡ Digits }
    ensures written { IfOk result (λ found. Writes live (take (digits_of (drop at text.now)) (drop at text.now)) (Ok found.0)) }
    ensures end { IfOk result (λ found. found.1 ≡ at + digits_of (drop at text.now)) }
    ensures refused { IfErr result (λ kind. Writes live (take (digits_of (drop at text.now)) (drop at text.now)) (Err kind)) }
    ensures forward { IfOk result (λ found. (at < found.1) × (found.1 ≤ length text.now)) }
{
    let end = digits_end(text, at);
    let number = written(digits_at(text, at), live)?;
    Ok((number, end))
}
