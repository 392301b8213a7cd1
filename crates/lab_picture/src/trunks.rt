// Trunks, as they are drawn.
ghost use Rattle.std.specs.Prelude.{◌≡◌, ◌++◌, ◌≤◌, length, flat_map, IfOk, OnOk, slice_get};
ghost use Rattle.std.specs.List.{range_with_len};
ghost use Rattle.lab_picture.specs.Trunks.{use_words, case_text, core_wide, core_text, core_of, pipe, lined, trunk_at, ended, labelled, label_at};

use crate::geometry::{Geometry, Line};
use crate::shapes::{push_field, push_way};
use crate::speeds::{MAX_FULL, heat, push_tenths, push_use, thousandths};
use crate::tags::{Piece, tag};
use lab_base::{Memory, Text};
use lab_view::{Trunk, View};
use std::alloc::Global;

#[tactic(auto, unfolding(crate::specs::Trunks::case_text))]
fn push_case(text: &mut Text, line: &Line) -> Result<(), Memory>
    ensures { OnOk result (text.new ≡ text.old ++ case_text line.now) }
{
    push_field(text, tag(Piece::Case), u64::from(line.wide))?;
    text.push_bytes(tag(Piece::Path))?;
    push_way(text, &line.way)
}

#[tactic(auto, unfolding(crate::specs::Trunks::core_wide))]
fn core_wide(wide: u32, full: u64) -> u64
    requires { full ≤ MAX_FULL }
    ensures { result ≡ core_wide wide full }
{
    (u64::from(wide) * full / 100).max(20)
}

#[tactic(auto, unfolding(crate::specs::Trunks::core_text))]
fn push_core(text: &mut Text, line: &Line, full: u64) -> Result<(), Memory>
    requires { full ≤ MAX_FULL }
    ensures { OnOk result (text.new ≡ text.old ++ core_text line.now full) }
{
    text.push_bytes(tag(Piece::Core))?;
    text.push_bytes(heat(full / 125))?;
    text.push_bytes(tag(Piece::Stroke))?;
    push_tenths(text, core_wide(line.wide, full))?;
    text.push_bytes(tag(Piece::Path))?;
    push_way(text, &line.way)
}

#[tactic(auto, unfolding(crate::specs::Trunks::core_of))]
fn push_core_of(text: &mut Text, line: &Line, full: u64) -> Result<(), Memory>
    requires { full ≤ MAX_FULL }
    ensures { OnOk result (text.new ≡ text.old ++ core_of line.now full) }
{
    if full == 0 {
        Ok(())
    } else {
        push_core(text, line, full)
    }
}

/// A pale case as wide as a trunk is fast, and in it a core as wide and as red as it is full.
#[tactic(auto, unfolding(crate::specs::Trunks::pipe))]
fn push_pipe(text: &mut Text, line: &Line, trunk: &Trunk) -> Result<(), Memory>
    ensures { OnOk result (text.new ≡ text.old ++ pipe line.now trunk.now) }
{
    text.push_bytes(tag(Piece::Titled))?;
    text.push_bytes(trunk.link.bytes())?;
    text.push_bytes(tag(Piece::TitleEnd))?;
    push_case(text, line)?;
    push_core_of(text, line, thousandths(trunk))?;
    text.push_bytes(tag(Piece::GroupEnd))
}

fn push_lined(
    text: &mut Text,
    geometry: &Geometry,
    number: usize,
    trunk: &Trunk,
) -> Result<(), Memory>
    ensures { OnOk result (text.new ≡ text.old ++ lined (slice_get geometry.now.lines number) trunk.now) }
{
    match geometry.lines.as_slice().get(number) {
        Some(line) => push_pipe(text, line, trunk),
        None => Ok(()),
    }
}

fn push_trunk_at(
    text: &mut Text,
    geometry: &Geometry,
    view: &View,
    number: usize,
) -> Result<(), Memory>
    ensures { OnOk result (text.new ≡ text.old ++ trunk_at geometry.now view.now number) }
{
    match view.trunks.as_slice().get(number) {
        Some(trunk) => push_lined(text, geometry, number, trunk),
        None => Ok(()),
    }
}

/// All trunks.
#[tactic(auto, using(lab_base::proofs::Lists::flat_map_range))]
pub(crate) fn push_trunks(text: &mut Text, geometry: &Geometry, view: &View) -> Result<(), Memory>
    ensures { OnOk result (text.new ≡ text.old ++ flat_map (trunk_at geometry.now view.now) (range_with_len 0 (length view.now.trunks))) }
{
    for number in 0..view.trunks.len() {
        push_trunk_at(text, geometry, view, number)?;
    }
    Ok(())
}

/// A text of a class, which ends at a place.
#[tactic(auto, unfolding(crate::specs::Trunks::ended))]
fn push_ended(text: &mut Text, class: &[u8], x: u32, y: u32, words: &[u8]) -> Result<(), Memory>
    ensures { OnOk result (text.new ≡ text.old ++ ended class.now x y words.now) }
{
    text.push_bytes(tag(Piece::EndWords))?;
    text.push_bytes(class)?;
    push_field(text, tag(Piece::X), u64::from(x))?;
    push_field(text, tag(Piece::Y), u64::from(y))?;
    text.push_bytes(tag(Piece::Open))?;
    text.push_bytes(words)?;
    text.push_bytes(tag(Piece::WordsEnd))
}

fn use_text(alloc: Global, trunk: &Trunk) -> Result<Text, Memory>
    ensures { IfOk result (λ text. text ≡ use_words trunk.now) }
{
    let mut text = Text::new(alloc);
    push_use(&mut text, trunk)?;
    Ok(text)
}

fn push_labelled(
    alloc: Global,
    text: &mut Text,
    geometry: &Geometry,
    number: usize,
    trunk: &Trunk,
) -> Result<(), Memory>
    ensures { OnOk result (text.new ≡ text.old ++ labelled (slice_get geometry.now.labels number) trunk.now) }
{
    match geometry.labels.as_slice().get(number) {
        Some(label) => {
            let used = use_text(alloc, trunk)?;
            push_ended(text, b"u", label.x, label.name, trunk.link.bytes())?;
            push_ended(text, b"w", label.x, label.used, used.bytes())
        }
        None => Ok(()),
    }
}

fn push_label_at(
    alloc: Global,
    text: &mut Text,
    geometry: &Geometry,
    view: &View,
    number: usize,
) -> Result<(), Memory>
    ensures { OnOk result (text.new ≡ text.old ++ label_at geometry.now view.now number) }
{
    match view.trunks.as_slice().get(number) {
        Some(trunk) => push_labelled(alloc, text, geometry, number, trunk),
        None => Ok(()),
    }
}

/// The labels of all trunks.
#[tactic(auto, using(lab_base::proofs::Lists::flat_map_range))]
pub(crate) fn push_labels(
    alloc: Global,
    text: &mut Text,
    geometry: &Geometry,
    view: &View,
) -> Result<(), Memory>
    ensures { OnOk result (text.new ≡ text.old ++ flat_map (label_at geometry.now view.now) (range_with_len 0 (length view.now.trunks))) }
{
    for number in 0..view.trunks.len() {
        push_label_at(alloc, text, geometry, view, number)?;
    }
    Ok(())
}
