//! Numbers of 64 bits with sign.

ghost use Rattle.std.specs.Prelude.{◌≡◌, ◌^◌, ◌<◌, ◌≤◌, IfOk, MatchOption};
ghost use Rattle.std.specs.Char.{is_ascii_digit};
ghost use Rattle.std.specs.List.{list_all};
ghost use Rattle.std.specs.Fmt.{signed_decimal};
ghost use Rattle.tcl_eval.specs.Numbers.{value_from, has_no_zero, is_digits, signed_of, number_of};

use lab_base::{Kind, Memory, Text};
use std::alloc::Global;

/// The number of these digits, if it fits.
fn magnitude(digits: &[u8]) -> Option<u64>
    ensures { MatchOption result (2 ^ 64 ≤ value_from 0 digits.now) (λ n. n ≡ value_from 0 digits.now) }
{
    let mut number: u64 = 0;
    for digit in digits {
        let Some(tens) = number.checked_mul(10) else {
            return None;
        };
        let Some(next) = tens.checked_add(u64::from(digit.saturating_sub(b'0'))) else {
            return None;
        };
        number = next;
    }
    Some(number)
}

/// Whether there are bytes, and no `0` before others.
pub fn has_no_zero(bytes: &[u8]) -> bool
    ensures { result ≡ has_no_zero bytes.now }
{
    match bytes {
        [] => false,
        [_] => true,
        [digit, ..] => *digit != b'0',
    }
}

/// Whether each byte is a digit.
fn all_digits(bytes: &[u8]) -> bool
    ensures { result ≡ list_all is_ascii_digit bytes.now }
{
    bytes.iter().all(|b| b.is_ascii_digit())
}

/// Whether the bytes are `0`, or digits without a leading zero.
fn are_digits(bytes: &[u8]) -> bool
    ensures { result ≡ is_digits bytes.now }
{
    has_no_zero(bytes) && all_digits(bytes)
}

/// The number of these digits, negative or not.
fn read_signed(negative: bool, digits: &[u8]) -> Result<i64, Kind>
    ensures { result ≡ signed_of negative digits.now }
{
    if !are_digits(digits) {
        return Err(Kind::Number);
    }
    let Some(size) = magnitude(digits) else {
        return Err(Kind::Overflow);
    };
    if negative {
        if size == 1 << 63 {
            return Ok(i64::MIN);
        }
        match i64::try_from(size) {
            Ok(number) => Ok(-number),
            Err(_) => Err(Kind::Overflow),
        }
    } else {
        match i64::try_from(size) {
            Ok(number) => Ok(number),
            Err(_) => Err(Kind::Overflow),
        }
    }
}

/// Reads a number: `-` perhaps, then `0` or digits without a leading zero.
pub fn read_number(word: &[u8]) -> Result<i64, Kind>
    ensures { result ≡ number_of word.now }
{
    match word.split_first() {
        Some((b'-', digits)) => read_signed(true, digits),
        _ => read_signed(false, word),
    }
}

/// The number that a text is.
pub fn number_in(text: Text) -> Result<i64, Kind>
    ensures { result ≡ number_of text }
{
    read_number(text.bytes())
}

/// The text of a number.
pub fn number_text(alloc: Global, number: i64) -> Result<Text, Memory>
    ensures { IfOk result (λ text. text ≡ signed_decimal number) }
{
    let mut buffer = itoa::Buffer::new();
    Text::from_slice(alloc, buffer.format(number).as_bytes())
}
