// Speeds, and how full trunks are.
ghost use Rattle.std.specs.Prelude.{◌≡◌, ◌++◌, ◌≤◌, OnOk};
ghost use Rattle.lab_picture.specs.Trunks.{tenth, tenths, speed, share, thousandths, heat, percent, used_words, use_words};

use lab_base::{Memory, Text};
use lab_view::Trunk;

/// How full a full trunk is, in thousandths.
pub(crate) const MAX_FULL: u64 = 1_000;

fn push_tenth(text: &mut Text, number: u64) -> Result<(), Memory>
    ensures { OnOk result (text.new ≡ text.old ++ tenth number) }
{
    if number == 0 {
        Ok(())
    } else {
        text.push_bytes(b".")?;
        text.push_number(number)
    }
}

/// A number of tenths.
#[tactic(auto, unfolding(crate::specs::Trunks::tenths))]
pub(crate) fn push_tenths(text: &mut Text, number: u64) -> Result<(), Memory>
    ensures { OnOk result (text.new ≡ text.old ++ tenths number) }
{
    text.push_number(number / 10)?;
    push_tenth(text, number % 10)
}

/// A speed, cut to tenths of its unit.
#[tactic(auto, unfolding(crate::specs::Trunks::speed))]
fn push_speed(text: &mut Text, kbps: u64) -> Result<(), Memory>
    ensures { OnOk result (text.new ≡ text.old ++ speed kbps) }
{
    if kbps >= 1_000_000 {
        push_tenths(text, kbps / 100_000)?;
        text.push_bytes(b"G")
    } else if kbps >= 1_000 {
        push_tenths(text, kbps / 100)?;
        text.push_bytes(b"M")
    } else {
        text.push_number(kbps)?;
        text.push_bytes(b"k")
    }
}

#[tactic(auto, unfolding(crate::specs::Trunks::share))]
fn share(used: u64, kbps: u64) -> u64
    requires { 1 ≤ kbps }
    ensures share { result ≡ share used kbps }
    ensures most { result ≤ MAX_FULL }
{
    let parts = used.saturating_mul(1_000) / kbps;
    parts.max(1).min(1_000)
}

/// How full a trunk is, in thousandths: none where nothing is claimed of it, else at least one.
#[tactic(auto, unfolding(crate::specs::Trunks::thousandths))]
pub fn thousandths(trunk: &Trunk) -> u64
    ensures thousandths { result ≡ thousandths trunk.now }
    ensures most { result ≤ MAX_FULL }
{
    if trunk.used == 0 {
        0
    } else if trunk.kbps == 0 {
        1_000
    } else {
        share(trunk.used, trunk.kbps)
    }
}

/// The colour of a trunk that is full to so many eighths.
#[tactic(auto, unfolding(crate::specs::Trunks::heat))]
pub(crate) fn heat(eighths: u64) -> &'static [u8]
    ensures { result.now ≡ heat eighths }
{
    match eighths {
        0 => b"#f4c846",
        1 => b"#f2b53f",
        2 => b"#f1a237",
        3 => b"#ef8f2f",
        4 => b"#ea7927",
        5 => b"#e05e26",
        6 => b"#d64225",
        7 => b"#c12623",
        _ => b"#78081e",
    }
}

#[tactic(auto, unfolding(crate::specs::Trunks::percent))]
fn percent(thousandths: u64) -> u64
    ensures { result ≡ percent thousandths }
{
    (thousandths / 10).max(1)
}

#[tactic(auto, unfolding(crate::specs::Trunks::used_words))]
fn push_used(text: &mut Text, trunk: &Trunk) -> Result<(), Memory>
    ensures { OnOk result (text.new ≡ text.old ++ used_words trunk.now) }
{
    push_speed(text, trunk.used)?;
    text.push_bytes(b" of ")?;
    push_speed(text, trunk.kbps)?;
    text.push_bytes(b", ")?;
    text.push_number(percent(thousandths(trunk)))?;
    text.push_bytes(b"%")
}

/// The claimed part of a trunk: `1.5G of 2G, 75%`, or `2G, unused`.
#[tactic(auto, unfolding(crate::specs::Trunks::use_words))]
pub(crate) fn push_use(text: &mut Text, trunk: &Trunk) -> Result<(), Memory>
    ensures { OnOk result (text.new ≡ text.old ++ use_words trunk.now) }
{
    if trunk.used == 0 {
        push_speed(text, trunk.kbps)?;
        text.push_bytes(b", unused")
    } else {
        push_used(text, trunk)
    }
}
