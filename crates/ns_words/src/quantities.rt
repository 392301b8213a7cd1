//! Bandwidths, delays, losses and times.

ghost use Rattle.std.specs.Prelude.{◌≡◌, ◌<◌, ◌≤◌, ◌↔◌, ◌^◌, ℕ, IfSome, Some};
ghost use Rattle.std.specs.Option.{ForSome};
ghost use Rattle.ns_words.specs.Quantities.{IsBandwidth, IsDelay, IsLoss, IsTime};
ghost use Rattle.ns_words.specs.Values.{bandwidth_of, delay_of, loss_of, time_of};

use crate::numeral::numeral_in;
use crate::units::{loss_scale, rate_scale, second_scale, time_scale};
use virt_topo::{MAX_KBPS, MAX_MICROS, MAX_PPM};

/// The latest time, in microseconds.
pub const MAX_TIME: u64 = 1_000_000_000_000;

/// The most digits after the point of a time.
const MAX_PLACES: usize = 6;

fn narrow(value: Option<u64>) -> Option<u32>
    requires { ForSome value (λ n. n < 2 ^ 32) }
    ensures { result ≡ value }
{
    match value {
        Some(n) => Some(n as u32),
        None => None,
    }
}

/// Reads a bandwidth in kbps, 1 to 1,000,000,000. None where the word is malformed, or no whole number in this range.
pub fn bandwidth(word: &[u8]) -> Option<u64>
    ensures value { result ≡ bandwidth_of word.now }
    ensures exact { (kbps : ℕ) → (result ≡ Some kbps) ↔ IsBandwidth word.now kbps }
    ensures limits { IfSome result (λ kbps. (1 ≤ kbps) × (kbps ≤ MAX_KBPS)) }
{
    let numeral = numeral_in(word);
    numeral.measured(rate_scale(numeral.unit), 1_000, 1, MAX_KBPS)
}

/// Reads a delay in microseconds, at most 10,000,000. None where the word is malformed, or no whole number in this range.
pub fn delay(word: &[u8]) -> Option<u32>
    ensures value { result ≡ delay_of word.now }
    ensures exact { (micros : ℕ) → (result ≡ Some micros) ↔ IsDelay word.now micros }
    ensures limits { IfSome result (λ micros. micros ≤ MAX_MICROS) }
{
    let numeral = numeral_in(word);
    narrow(numeral.measured(time_scale(numeral.unit), 1, 0, 10_000_000))
}

/// Reads a loss in millionths, at most 1,000,000. None where the word is malformed, or no whole number in this range.
pub fn loss(word: &[u8]) -> Option<u32>
    ensures value { result ≡ loss_of word.now }
    ensures exact { (ppm : ℕ) → (result ≡ Some ppm) ↔ IsLoss word.now ppm }
    ensures limits { IfSome result (λ ppm. ppm ≤ MAX_PPM) }
{
    let numeral = numeral_in(word);
    narrow(numeral.measured(loss_scale(numeral.unit), 1, 0, 1_000_000))
}

/// Reads a time in microseconds, at most 1,000,000,000,000. None where the word is malformed, has more than six digits after the point, or is no
/// number in this range.
pub fn time(word: &[u8]) -> Option<u64>
    ensures value { result ≡ time_of word.now }
    ensures exact { (micros : ℕ) → (result ≡ Some micros) ↔ IsTime word.now micros }
    ensures limits { IfSome result (λ micros. micros ≤ MAX_TIME) }
{
    let numeral = numeral_in(word);
    if numeral.fraction.len() > MAX_PLACES {
        return None;
    }
    numeral.measured(second_scale(numeral.unit), 1, 0, MAX_TIME)
}
