// The colours of experiments, as they are drawn.
ghost use Rattle.std.specs.Prelude.{◌≡◌, ◌+◌, ◌<◌, ◌≤◌, ◌^◌, ◌++◌, OnOk};
ghost use Rattle.lab_picture.specs.Machines.{tint_word, bar_word, part, large_parts, small_parts, parts_of, indent_of, wide_of, bar_area, ground_area, bar, edge_of, stripes, tinted, coloured};

use crate::geometry::Bounds;
use crate::shapes::{Area, area_of, push_filled, push_rect};
use lab_base::{Memory, Text};
use lab_view::{Flag, Held};

/// The tint of that number. Any two, and any one and white, stay apart for people who lack one kind of cones.
#[tactic(auto, unfolding(crate::specs::Machines::tint_word))]
pub(crate) fn tint_word(number: u8) -> &'static [u8]
    ensures { result.now ≡ tint_word number }
{
    match number {
        0 => b"#7eb3cd",
        1 => b"#ffcb88",
        2 => b"#beecba",
        3 => b"#bab4fc",
        4 => b"#f48da1",
        5 => b"#4ad4c0",
        6 => b"#fbd3f8",
        _ => b"#b5af7a",
    }
}

/// The strong colour of a bar, which stands on white.
#[tactic(auto, unfolding(crate::specs::Machines::bar_word))]
pub(crate) fn bar_word(number: u8) -> &'static [u8]
    ensures { result.now ≡ bar_word number }
{
    match number {
        0 => b"#003357",
        1 => b"#b5820a",
        2 => b"#878f6d",
        3 => b"#6a24a0",
        4 => b"#9d0001",
        5 => b"#1789fd",
        6 => b"#e74dac",
        _ => b"#5a1a23",
    }
}

/// A part of a bar, which begins so far below the top and is so high.
#[tactic(auto, unfolding(crate::specs::Machines::part))]
fn push_part(text: &mut Text, colour: &[u8], area: Area, top: u64, high: u64) -> Result<(), Memory>
    requires { area.y + top < 2 ^ 64 }
    ensures { OnOk result (text.new ≡ text.old ++ part colour.now area top high) }
{
    let own = Area {
        x: area.x,
        y: area.y + top,
        wide: area.wide,
        high,
    };
    push_filled(text, colour, b"bare", own)
}

#[tactic(auto, unfolding(crate::specs::Machines::large_parts))]
fn push_large(text: &mut Text, colour: &[u8], area: Area, form: u8) -> Result<(), Memory>
    requires { area.y < 2 ^ 33 }
    ensures { OnOk result (text.new ≡ text.old ++ large_parts colour.now area form) }
{
    match form {
        0 => push_part(text, colour, area, 1, 42),
        1 => {
            push_part(text, colour, area, 1, 19)?;
            push_part(text, colour, area, 24, 19)
        }
        2 => {
            push_part(text, colour, area, 1, 11)?;
            push_part(text, colour, area, 16, 11)?;
            push_part(text, colour, area, 31, 11)
        }
        _ => {
            push_part(text, colour, area, 1, 7)?;
            push_part(text, colour, area, 12, 7)?;
            push_part(text, colour, area, 23, 7)?;
            push_part(text, colour, area, 34, 7)
        }
    }
}

#[tactic(auto, unfolding(crate::specs::Machines::small_parts))]
fn push_small(text: &mut Text, colour: &[u8], area: Area, form: u8) -> Result<(), Memory>
    requires { area.y < 2 ^ 33 }
    ensures { OnOk result (text.new ≡ text.old ++ small_parts colour.now area form) }
{
    match form {
        0 => push_part(text, colour, area, 1, 13),
        1 => {
            push_part(text, colour, area, 1, 5)?;
            push_part(text, colour, area, 8, 5)
        }
        2 => {
            push_part(text, colour, area, 1, 3)?;
            push_part(text, colour, area, 6, 3)?;
            push_part(text, colour, area, 11, 3)
        }
        _ => {
            push_part(text, colour, area, 1, 1)?;
            push_part(text, colour, area, 4, 1)?;
            push_part(text, colour, area, 7, 1)?;
            push_part(text, colour, area, 10, 1)
        }
    }
}

#[tactic(auto, unfolding(crate::specs::Machines::parts_of))]
fn push_parts(
    text: &mut Text,
    large: bool,
    colour: &[u8],
    area: Area,
    form: u8,
) -> Result<(), Memory>
    requires { area.y < 2 ^ 33 }
    ensures { OnOk result (text.new ≡ text.old ++ parts_of large colour.now area form) }
{
    if large {
        push_large(text, colour, area, form)
    } else {
        push_small(text, colour, area, form)
    }
}

#[tactic(auto, unfolding(crate::specs::Machines::indent_of))]
fn indent_of(place: u8) -> u64
    ensures indent { result ≡ indent_of place }
    ensures small { result ≤ 4 }
{
    match place {
        0 => 1,
        1 => 1,
        2 => 4,
        _ => 3,
    }
}

#[tactic(auto, unfolding(crate::specs::Machines::wide_of))]
fn wide_of(place: u8) -> u64
    ensures { result ≡ wide_of place }
{
    match place {
        0 => 7,
        1 => 4,
        2 => 4,
        _ => 3,
    }
}

/// Where the bar of a flag stands.
#[tactic(auto, unfolding(crate::specs::Machines::bar_area))]
fn bar_area(flag: Flag, place: Bounds) -> Area
    ensures area { result ≡ bar_area flag place }
    ensures small { result.y < 2 ^ 33 }
{
    Area {
        x: u64::from(place.x) + indent_of(flag.form / 4),
        y: u64::from(place.y),
        wide: wide_of(flag.form / 4),
        high: 0,
    }
}

/// The white ground of a bar.
#[tactic(auto, unfolding(crate::specs::Machines::ground_area))]
fn ground_area(large: bool, place: Bounds) -> Area
    ensures { result ≡ ground_area large place }
{
    Area {
        x: u64::from(place.x) + 1,
        y: u64::from(place.y) + 1,
        wide: 9,
        high: if large { 42 } else { 13 },
    }
}

/// The bar of a flag, on white.
#[tactic(auto, unfolding(crate::specs::Machines::bar))]
fn push_bar(text: &mut Text, large: bool, flag: Flag, place: Bounds) -> Result<(), Memory>
    ensures { OnOk result (text.new ≡ text.old ++ bar large flag place) }
{
    push_filled(text, b"#fff", b"bare", ground_area(large, place))?;
    let area = bar_area(flag, place);
    push_parts(text, large, bar_word(flag.bar), area, flag.form % 4)
}

fn edge_of(held: Held) -> &'static [u8]
    ensures { result.now ≡ edge_of held }
{
    match held {
        Held::Stands => b"held",
        Held::Comes | Held::Goes | Held::Stays => b"move",
    }
}

fn push_stripes(text: &mut Text, held: Held, area: Area) -> Result<(), Memory>
    ensures { OnOk result (text.new ≡ text.old ++ stripes held area) }
{
    match held {
        Held::Comes => push_filled(text, b"url(#comes)", b"move", area),
        Held::Goes => push_filled(text, b"url(#goes)", b"move", area),
        Held::Stands | Held::Stays => Ok(()),
    }
}

/// A box in the colour of an experiment: its tint, stripes where it comes or goes, and its bar.
#[tactic(auto, unfolding(crate::specs::Machines::tinted))]
fn push_tinted(
    text: &mut Text,
    large: bool,
    flag: Flag,
    held: Held,
    place: Bounds,
) -> Result<(), Memory>
    ensures { OnOk result (text.new ≡ text.old ++ tinted large flag held place) }
{
    push_filled(text, tint_word(flag.tint), edge_of(held), area_of(place))?;
    push_stripes(text, held, area_of(place))?;
    push_bar(text, large, flag, place)
}

/// A box in the colour of an experiment, and in none where that has none.
#[tactic(auto, unfolding(crate::specs::Machines::coloured))]
pub(crate) fn push_coloured(
    text: &mut Text,
    large: bool,
    flag: Option<Flag>,
    held: Held,
    place: Bounds,
) -> Result<(), Memory>
    ensures { OnOk result (text.new ≡ text.old ++ coloured large flag held place) }
{
    match flag {
        Some(flag) => push_tinted(text, large, flag, held, place),
        None => push_rect(text, b"free", area_of(place)),
    }
}
