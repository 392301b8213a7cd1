// The lists below a lab: its VLAN ids, and its experiments.
ghost use Rattle.std.specs.Prelude.{◌≡◌, ◌++◌, ◌≤◌, ◌<◌, ◌^◌, ◌+◌, false, length, flat_map, IfOk, OnOk};
ghost use Rattle.std.specs.List.{range_with_len};
ghost use Rattle.lab_view.specs.Flags.{tints_of, flag_of_exp};
ghost use Rattle.lab_view.specs.Runs.{run_length};
ghost use Rattle.lab_picture.specs.Places.{point_at};
ghost use Rattle.lab_picture.specs.Machines.{coloured};
ghost use Rattle.lab_picture.specs.Lists.{run_wide, run_area, run_boxes, run_title, run_text, run_of, run_at, ids_words, strip_text, held_of, stand_word, name_class, plural, claim_words, swatch, entry_words, entry_at, list_head, list_text};

use crate::bars::{bar_word, push_coloured, tint_word};
use crate::geometry::{Bounds, Geometry, Point, mark_at, point_at};
use crate::machines::exp_name;
use crate::shapes::{Area, area_of, push_filled, push_label, push_rect};
use crate::tags::{Piece, tag};
use lab_base::{Memory, Text};
use lab_view::{
    Exp, Flag, Held, MAX_IDS, Stand, View, begins_run, flag_of_exp, free_ids, owner_at, run_length,
};
use std::alloc::Global;

/// How wide a run of so many ids is on the strip: at least wide enough to be seen.
#[tactic(auto, unfolding(crate::specs::Lists::run_wide))]
fn run_wide(geometry: &Geometry, first: usize, count: usize) -> u64
    requires { first + count < 2 ^ 64 }
    ensures { result ≡ run_wide geometry.now first count }
{
    let marks = geometry.marks.as_slice();
    let left = u64::from(mark_at(marks, first));
    u64::from(mark_at(marks, first + count))
        .saturating_sub(left)
        .max(2)
}

#[tactic(auto, unfolding(crate::specs::Lists::run_area))]
fn run_area(geometry: &Geometry, first: usize, count: usize, top: u8, high: u8) -> Area
    requires { first + count < 2 ^ 64 }
    ensures { result ≡ run_area geometry.now first count top high }
{
    Area {
        x: u64::from(mark_at(geometry.marks.as_slice(), first)),
        y: u64::from(geometry.strip.y) + u64::from(top),
        wide: run_wide(geometry, first, count),
        high: u64::from(high),
    }
}

/// A run in the colours of its owner's bar and tint.
#[tactic(auto, unfolding(crate::specs::Lists::run_boxes))]
fn push_boxes(
    text: &mut Text,
    geometry: &Geometry,
    first: usize,
    count: usize,
    flag: Option<Flag>,
) -> Result<(), Memory>
    requires { first + count < 2 ^ 64 }
    ensures { OnOk result (text.new ≡ text.old ++ run_boxes geometry.now first count flag) }
{
    match flag {
        Some(flag) => {
            let above = run_area(geometry, first, count, 0, 6);
            let below = run_area(geometry, first, count, 6, 8);
            push_filled(text, bar_word(flag.bar), b"bare", above)?;
            push_filled(text, tint_word(flag.tint), b"bare", below)
        }
        None => Ok(()),
    }
}

/// The words that a pointer over a run of VLAN ids shows.
#[tactic(auto, unfolding(crate::specs::Lists::run_title))]
fn push_run_title(
    text: &mut Text,
    view: &View,
    first: usize,
    count: usize,
    exp: usize,
) -> Result<(), Memory>
    requires few { first < 2 ^ 32 }
    ensures { OnOk result (text.new ≡ text.old ++ run_title view.now first count exp) }
{
    text.push_bytes(tag(Piece::Titled))?;
    text.push_bytes(exp_name(view, exp))?;
    text.push_bytes(b": ")?;
    text.push_number(count as u64)?;
    text.push_bytes(b" from ")?;
    text.push_number(u64::from(view.low) + first as u64)?;
    text.push_bytes(tag(Piece::OnEnd))
}

/// A run of VLAN ids that an experiment claims.
#[tactic(auto, unfolding(crate::specs::Lists::run_text))]
fn push_run(
    text: &mut Text,
    geometry: &Geometry,
    view: &View,
    tints: &[u8],
    first: usize,
    exp: usize,
) -> Result<(), Memory>
    requires few { length view.now.owners ≤ MAX_IDS }
    requires within { first < length view.now.owners }
    requires tints { tints.now ≡ tints_of view.now }
    ensures { OnOk result (text.new ≡ text.old ++ run_text geometry.now view.now first (run_length view.now.owners first) exp) }
{
    let count = run_length(view.owners.as_slice(), first);
    let flag = flag_of_exp(view, tints, exp);
    push_run_title(text, view, first, count, exp)?;
    push_boxes(text, geometry, first, count, flag)?;
    text.push_bytes(tag(Piece::GroupEnd))
}

fn push_run_of(
    text: &mut Text,
    geometry: &Geometry,
    view: &View,
    tints: &[u8],
    place: usize,
    owner: Option<usize>,
) -> Result<(), Memory>
    requires few { length view.now.owners ≤ MAX_IDS }
    requires within { place < length view.now.owners }
    requires tints { tints.now ≡ tints_of view.now }
    ensures { OnOk result (text.new ≡ text.old ++ run_of geometry.now view.now place owner) }
{
    match owner {
        Some(exp) => push_run(text, geometry, view, tints, place, exp),
        None => Ok(()),
    }
}

fn push_run_at(
    text: &mut Text,
    geometry: &Geometry,
    view: &View,
    tints: &[u8],
    place: usize,
) -> Result<(), Memory>
    requires few { length view.now.owners ≤ MAX_IDS }
    requires within { place < length view.now.owners }
    requires tints { tints.now ≡ tints_of view.now }
    ensures { OnOk result (text.new ≡ text.old ++ run_at geometry.now view.now place) }
{
    let owners = view.owners.as_slice();
    if begins_run(owners, place) {
        push_run_of(text, geometry, view, tints, place, owner_at(owners, place))
    } else {
        Ok(())
    }
}

#[tactic(auto, using(lab_base::proofs::Lists::flat_map_range))]
fn push_runs(text: &mut Text, geometry: &Geometry, view: &View, tints: &[u8]) -> Result<(), Memory>
    requires few { length view.now.owners ≤ MAX_IDS }
    requires tints { tints.now ≡ tints_of view.now }
    ensures { OnOk result (text.new ≡ text.old ++ flat_map (run_at geometry.now view.now) (range_with_len 0 (length view.now.owners))) }
{
    for place in 0..view.owners.len() {
        push_run_at(text, geometry, view, tints, place)?;
    }
    Ok(())
}

#[tactic(auto, unfolding(crate::specs::Lists::ids_words))]
fn ids_words(alloc: Global, view: &View) -> Result<Text, Memory>
    ensures { IfOk result (λ text. text ≡ ids_words view.now) }
{
    let mut text = Text::new(alloc);
    text.push_number(view.owners.len() as u64)?;
    text.push_bytes(b" from ")?;
    text.push_number(u64::from(view.low))?;
    text.push_bytes(b" on, ")?;
    text.push_number(free_ids(view) as u64)?;
    text.push_bytes(b" free")?;
    Ok(text)
}

/// The strip of VLAN ids.
#[tactic(auto, unfolding(crate::specs::Lists::strip_text))]
pub(crate) fn push_strip(
    alloc: Global,
    text: &mut Text,
    geometry: &Geometry,
    view: &View,
    tints: &[u8],
) -> Result<(), Memory>
    requires few { length view.now.owners ≤ MAX_IDS }
    requires tints { tints.now ≡ tints_of view.now }
    ensures { OnOk result (text.new ≡ text.old ++ strip_text geometry.now view.now) }
{
    let x = u64::from(geometry.ids.x);
    let y = u64::from(geometry.ids.y);
    let words = ids_words(alloc, view)?;
    push_label(text, b"h", x, y, b"VLAN ids")?;
    push_label(text, b"d", x + 84, y, words.bytes())?;
    push_rect(text, b"strip", area_of(geometry.strip))?;
    push_runs(text, geometry, view, tints)
}

/// How the machines of an experiment are held.
fn held_of(stand: Stand) -> Held
    ensures { result ≡ held_of stand }
{
    match stand {
        Stand::Out | Stand::In => Held::Stands,
        Stand::Comes => Held::Comes,
        Stand::Goes => Held::Goes,
        Stand::Changes => Held::Stays,
    }
}

fn stand_word(stand: Stand) -> &'static [u8]
    ensures { result.now ≡ stand_word stand }
{
    match stand {
        Stand::Out => b"out",
        Stand::In => b"in",
        Stand::Comes => b"coming in",
        Stand::Goes => b"going out",
        Stand::Changes => b"changing",
    }
}

fn name_class(stand: Stand) -> &'static [u8]
    ensures { result.now ≡ name_class stand }
{
    match stand {
        Stand::Out => b"lo",
        Stand::In | Stand::Comes | Stand::Goes | Stand::Changes => b"l",
    }
}

/// A word for one, or for more.
pub(crate) fn push_plural(
    text: &mut Text,
    count: usize,
    one: &[u8],
    more: &[u8],
) -> Result<(), Memory>
    ensures { OnOk result (text.new ≡ text.old ++ plural count one.now more.now) }
{
    if count == 1 {
        text.push_bytes(one)
    } else {
        text.push_bytes(more)
    }
}

/// The claims of an experiment: `in, 2 machines, 1 id`.
#[tactic(auto, unfolding(crate::specs::Lists::claim_words))]
fn claim_words(alloc: Global, exp: &Exp) -> Result<Text, Memory>
    ensures { IfOk result (λ text. text ≡ claim_words exp.now) }
{
    let mut text = Text::from_slice(alloc, stand_word(exp.stand))?;
    text.push_bytes(b", ")?;
    text.push_number(u64::from(exp.nodes))?;
    push_plural(
        &mut text,
        usize::from(exp.nodes),
        b" machine, ",
        b" machines, ",
    )?;
    text.push_number(u64::from(exp.ids))?;
    push_plural(&mut text, usize::from(exp.ids), b" id", b" ids")?;
    Ok(text)
}

fn sum(first: u32, second: u32) -> u64
    ensures { result ≡ first + second }
{
    u64::from(first) + u64::from(second)
}

fn swatch(point: Point) -> Bounds
    ensures { result ≡ swatch point }
{
    Bounds {
        x: point.x,
        y: point.y,
        wide: 32,
        high: 15,
    }
}

/// The colour of an experiment in the list.
fn push_colour(
    text: &mut Text,
    view: &View,
    tints: &[u8],
    number: usize,
    stand: Stand,
    point: Point,
) -> Result<(), Memory>
    requires { tints.now ≡ tints_of view.now }
    ensures { OnOk result (text.new ≡ text.old ++ coloured false (flag_of_exp view.now number) (held_of stand) (swatch point)) }
{
    let flag = flag_of_exp(view, tints, number);
    push_coloured(text, false, flag, held_of(stand), swatch(point))
}

/// The name of an experiment in the list, and what it claims.
#[tactic(auto, unfolding(crate::specs::Lists::entry_words))]
fn push_words(
    alloc: Global,
    text: &mut Text,
    geometry: &Geometry,
    point: Point,
    exp: &Exp,
) -> Result<(), Memory>
    ensures { OnOk result (text.new ≡ text.old ++ entry_words geometry.now point exp.now) }
{
    let x = u64::from(point.x);
    let y = u64::from(point.y) + 12;
    let words = claim_words(alloc, exp)?;
    push_label(text, name_class(exp.stand), x + 44, y, exp.name.bytes())?;
    push_label(text, b"k", sum(point.x, geometry.second), y, words.bytes())
}

#[tactic(auto, unfolding(crate::specs::Lists::entry_text))]
fn push_entry_at(
    alloc: Global,
    text: &mut Text,
    geometry: &Geometry,
    view: &View,
    tints: &[u8],
    number: usize,
) -> Result<(), Memory>
    requires { tints.now ≡ tints_of view.now }
    ensures { OnOk result (text.new ≡ text.old ++ entry_at geometry.now view.now number) }
{
    match view.experiments.as_slice().get(number) {
        Some(exp) => {
            let point = point_at(geometry.entries.as_slice(), number);
            push_colour(text, view, tints, number, exp.stand, point)?;
            push_words(alloc, text, geometry, point, exp)
        }
        None => Ok(()),
    }
}

#[tactic(auto, using(lab_base::proofs::Lists::flat_map_range))]
fn push_entries(
    alloc: Global,
    text: &mut Text,
    geometry: &Geometry,
    view: &View,
    tints: &[u8],
) -> Result<(), Memory>
    requires { tints.now ≡ tints_of view.now }
    ensures { OnOk result (text.new ≡ text.old ++ flat_map (entry_at geometry.now view.now) (range_with_len 0 (length view.now.experiments))) }
{
    for number in 0..view.experiments.len() {
        push_entry_at(alloc, text, geometry, view, tints, number)?;
    }
    Ok(())
}

#[tactic(auto, unfolding(crate::specs::Lists::list_head))]
fn list_head() -> &'static [u8]
    ensures { result.now ≡ list_head }
{
    b"Experiments"
}

/// The list of experiments.
#[tactic(auto, unfolding(crate::specs::Lists::list_text))]
pub(crate) fn push_list(
    alloc: Global,
    text: &mut Text,
    geometry: &Geometry,
    view: &View,
    tints: &[u8],
) -> Result<(), Memory>
    requires { tints.now ≡ tints_of view.now }
    ensures { OnOk result (text.new ≡ text.old ++ list_text geometry.now view.now) }
{
    let x = u64::from(geometry.list.x);
    push_label(text, b"h", x, u64::from(geometry.list.y), list_head())?;
    push_entries(alloc, text, geometry, view, tints)
}
