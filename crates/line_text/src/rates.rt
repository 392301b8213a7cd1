// Rates as three fields.
ghost use Rattle.std.specs.Prelude.{◌≡◌, ◌++◌, ◌<◌, true, OnOk};
ghost use Rattle.lab_base.specs.Texts.{views};
ghost use Rattle.line_text.specs.Printing.{spaced};
ghost use Rattle.line_text.specs.Rates.{rates_fields, are_held, as_rates, rates_of, rates_at, both_rates_at};

use crate::{field_at, push_count, weight_in};
use lab_base::{Kind, Memory, Rates, Text, both, number_in};

/// The limits of the rates in a text.
#[derive(Clone, Copy)]
pub struct RateLimits {
    /// The least bandwidth in kbps.
    pub least_kbps: u64,
    /// The most bandwidth in kbps.
    pub most_kbps: u64,
    /// The most delay in microseconds.
    pub most_micros: u32,
    /// The most loss in parts of a million.
    pub most_ppm: u32,
}

fn as_rates(read: Result<(u64, (u32, u32)), Kind>) -> Result<Rates, Kind>
    ensures { result ≡ as_rates read }
{
    match read {
        Ok((kbps, (micros, ppm))) => Ok(Rates { kbps, micros, ppm }),
        Err(kind) => Err(kind),
    }
}

fn rates_in(limits: RateLimits, kbps: &[u8], micros: &[u8], ppm: &[u8]) -> Result<Rates, Kind>
    ensures { result ≡ rates_of limits kbps.now micros.now ppm.now }
{
    let delay = weight_in(micros, limits.most_micros);
    let loss = weight_in(ppm, limits.most_ppm);
    let behind = both(delay, loss);
    let speed = number_in(kbps, limits.least_kbps, limits.most_kbps);
    let whole = both(speed, behind);
    as_rates(whole)
}

fn rates_at(limits: RateLimits, fields: &[&[u8]], n: usize) -> Result<Rates, Kind>
    requires { n < 300 }
    ensures { result ≡ rates_at limits (views fields.now) n }
{
    let kbps = field_at(fields, n);
    let micros = field_at(fields, n + 1);
    let ppm = field_at(fields, n + 2);
    rates_in(limits, kbps, micros, ppm)
}

/// The rates there and back, in six fields from field n on, counted from 0; `number` where one is none within the limits, or isn't there.
pub fn both_rates_at(limits: RateLimits, fields: &[&[u8]], n: u8) -> Result<(Rates, Rates), Kind>
    ensures { result ≡ both_rates_at limits (views fields.now) n }
{
    let first = usize::from(n);
    let there = rates_at(limits, fields, first);
    let back = rates_at(limits, fields, first + 3);
    both(there, back)
}

fn push_rates(text: &mut Text, rates: Rates) -> Result<(), Memory>
    ensures text { OnOk result (text.new ≡ text.old ++ spaced (rates_fields rates)) }
    ensures held { OnOk result (are_held rates ≡ true) }
{
    push_count(text, rates.kbps)?;
    push_count(text, u64::from(rates.micros))?;
    push_count(text, u64::from(rates.ppm))
}

/// The rates there and back, each number after a space.
pub fn push_both_rates(text: &mut Text, there: Rates, back: Rates) -> Result<(), Memory>
    ensures text { OnOk result (text.new ≡ text.old ++ spaced (rates_fields there ++ rates_fields back)) }
    ensures there { OnOk result (are_held there ≡ true) }
    ensures back { OnOk result (are_held back ≡ true) }
{
    push_rates(text, there)?;
    push_rates(text, back)
}
