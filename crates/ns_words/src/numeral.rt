// Decimal numbers at the head of a word.
ghost use Rattle.std.specs.Prelude.{◌≡◌, ◌≤◌, ◌<◌, ◌+◌, ◌*◌, ◌^◌, length, true};
ghost use Rattle.std.specs.Char.{is_ascii_digit};
ghost use Rattle.std.specs.Option.{ForSome};
ghost use Rattle.std.specs.List.{list_all, position, position_or_len};
ghost use Rattle.std.specs.Str.Parse.{digits_value};
ghost use Rattle.ns_words.specs.Values.{is_no_digit, numeral_from, numeral_of, quotient_of, parts_of, measured};
ghost use Rattle.ns_words.specs.Seen.{numeral_seen, IsNumeral, capped};

use crate::quantities::MAX_TIME;
use crate::units::MAX_SCALE;

/// The whole part from which on a number is too large in every unit.
const LARGE: u64 = 10_000_000_000_000;

/// The most digits after a point.
const MAX_PLACES: usize = 9;

/// The most smallest parts of which a quantity is counted as one.
const MAX_PART: u64 = 1_000;

/// A numeral at the front of a word: its digits before and after the point, and the bytes left.
#[derive(Clone, Copy)]
pub(crate) struct Numeral<'a> {
    pub whole: &'a [u8],
    pub fraction: &'a [u8],
    pub unit: &'a [u8],
}

/// The place of the first byte that is no digit.
fn first_other(bytes: &[u8]) -> Option<usize>
    ensures { result ≡ position is_no_digit bytes.now }
{
    bytes.iter().position(|byte| !byte.is_ascii_digit())
}

/// The number of leading digits.
fn digits_len(bytes: &[u8]) -> usize
    ensures value { result ≡ position_or_len is_no_digit bytes.now }
    ensures within { result ≤ length bytes.now }
{
    first_other(bytes).unwrap_or(bytes.len())
}

/// The numeral of these digits and the bytes after them.
fn numeral_from<'a>(whole: &'a [u8], rest: &'a [u8]) -> Numeral<'a>
    ensures { numeral_seen result ≡ numeral_from whole.now rest.now }
{
    if let [b'.', behind @ ..] = rest {
        let places = digits_len(behind);
        if 1 <= places && places <= MAX_PLACES {
            return Numeral {
                whole,
                fraction: &behind[..places],
                unit: &behind[places..],
            };
        }
    }
    Numeral {
        whole,
        fraction: &[],
        unit: rest,
    }
}

/// The numeral that a word begins with.
pub(crate) fn numeral_in(word: &[u8]) -> Numeral<'_>
    ensures value { numeral_seen result ≡ numeral_of word.now }
    ensures numeral { IsNumeral (numeral_seen result) }
{
    let at = digits_len(word);
    numeral_from(&word[..at], &word[at..])
}

/// The number of the digits, or `LARGE` where it is larger.
fn capped_value(digits: &[u8]) -> u64
    requires { list_all is_ascii_digit digits.now ≡ true }
    ensures { result ≡ capped (digits_value 10 digits.now) }
{
    let mut value: u64 = 0;
    for digit in digits {
        value = LARGE.min(10 * value + u64::from(*digit - b'0'));
    }
    value
}

/// The quotient, if it is whole and within the limits.
fn quotient(n: u128, d: u128, least: u64, most: u64) -> Option<u64>
    requires { 1 ≤ d }
    ensures { result ≡ quotient_of least most n d }
{
    let value = n / d;
    if n % d == 0 && u128::from(least) <= value && value <= u128::from(most) {
        return Some(value as u64);
    }
    None
}

impl Numeral<'_> {
    /// The digits as one number. Where the whole part is large, a number larger than any quantity.
    fn number(&self, power: u64) -> u128
        requires numeral { IsNumeral (numeral_seen self.now) }
        requires power { power ≡ 10 ^ length self.now.fraction.now }
        ensures value { result ≡ capped (digits_value 10 self.now.whole.now) * power + digits_value 10 self.now.fraction.now }
        ensures fits { result < 2 * LARGE * 10 ^ MAX_PLACES }
    {
        let whole = u128::from(capped_value(self.whole)) * u128::from(power);
        whole + u128::from(capped_value(self.fraction))
    }

    /// The numeral in units of `scale`, counted in parts of `part`; None where that is no whole number within the limits.
    pub fn parts(&self, scale: u64, part: u64, least: u64, most: u64) -> Option<u64>
        requires numeral { IsNumeral (numeral_seen self.now) }
        requires scale { (1 ≤ scale) × (scale ≤ MAX_SCALE) }
        requires part { (1 ≤ part) × (part ≤ MAX_PART) }
        requires most { part * most ≤ MAX_TIME }
        ensures { result ≡ parts_of part least most (numeral_seen self.now) scale }
    {
        if self.whole.is_empty() {
            return None;
        }
        let power = 10u64.pow(self.fraction.len() as u32);
        let number = self.number(power) * u128::from(scale);
        quotient(number, u128::from(part * power), least, most)
    }

    /// The numeral in units of `scale`, as `parts` counts it; None where the unit is none.
    pub fn measured(&self, scale: Option<u64>, part: u64, least: u64, most: u64) -> Option<u64>
        requires numeral { IsNumeral (numeral_seen self.now) }
        requires scale { ForSome scale (λ scale. (1 ≤ scale) × (scale ≤ MAX_SCALE)) }
        requires part { (1 ≤ part) × (part ≤ MAX_PART) }
        requires most { part * most ≤ MAX_TIME }
        ensures { result ≡ measured part least most (numeral_seen self.now) scale }
    {
        match scale {
            Some(scale) => self.parts(scale, part, least, most),
            None => None,
        }
    }
}
