// Boxes, texts and lines of a picture.
ghost use Rattle.std.specs.Prelude.{◌≡◌, ◌++◌, ◌-◌, ◌<◌, nat_le, length, take, OnOk};
ghost use Rattle.lab_picture.specs.Shapes.{area_of, field, area_text, rect, filled, begin, label, fitted, point_text, corners, bend_text, way_text};

use crate::geometry::{Bend, Bounds, Way};
use crate::tags::{Piece, tag};
use lab_base::{Memory, Text};

/// A box that is drawn.
#[derive(Clone, Copy)]
pub struct Area {
    pub x: u64,
    pub y: u64,
    pub wide: u64,
    pub high: u64,
}

/// The box of a place.
pub(crate) fn area_of(place: Bounds) -> Area
    ensures { result ≡ area_of place }
{
    Area {
        x: u64::from(place.x),
        y: u64::from(place.y),
        wide: u64::from(place.wide),
        high: u64::from(place.high),
    }
}

/// Words, and a number.
pub(crate) fn push_field(text: &mut Text, words: &[u8], number: u64) -> Result<(), Memory>
    ensures { OnOk result (text.new ≡ text.old ++ field words.now number) }
{
    text.push_bytes(words)?;
    text.push_number(number)
}

/// The edges of a box.
#[tactic(auto, unfolding(crate::specs::Shapes::area_text))]
pub(crate) fn push_area(text: &mut Text, area: Area) -> Result<(), Memory>
    ensures { OnOk result (text.new ≡ text.old ++ area_text area) }
{
    push_field(text, tag(Piece::X), area.x)?;
    push_field(text, tag(Piece::Y), area.y)?;
    push_field(text, tag(Piece::Wide), area.wide)?;
    push_field(text, tag(Piece::High), area.high)?;
    text.push_bytes(tag(Piece::Close))
}

/// A box of a class.
#[tactic(auto, unfolding(crate::specs::Shapes::rect))]
pub(crate) fn push_rect(text: &mut Text, class: &[u8], area: Area) -> Result<(), Memory>
    ensures { OnOk result (text.new ≡ text.old ++ rect class.now area) }
{
    text.push_bytes(tag(Piece::Rect))?;
    text.push_bytes(class)?;
    push_area(text, area)
}

/// A box of a colour and a class.
#[tactic(auto, unfolding(crate::specs::Shapes::filled))]
pub(crate) fn push_filled(
    text: &mut Text,
    fill: &[u8],
    class: &[u8],
    area: Area,
) -> Result<(), Memory>
    ensures { OnOk result (text.new ≡ text.old ++ filled fill.now class.now area) }
{
    text.push_bytes(tag(Piece::Filled))?;
    text.push_bytes(fill)?;
    text.push_bytes(tag(Piece::Class))?;
    text.push_bytes(class)?;
    push_area(text, area)
}

/// The begin of a text of a class at a place.
#[tactic(auto, unfolding(crate::specs::Shapes::begin))]
fn push_begin(text: &mut Text, class: &[u8], x: u64, y: u64) -> Result<(), Memory>
    ensures { OnOk result (text.new ≡ text.old ++ begin class.now x y) }
{
    text.push_bytes(tag(Piece::Words))?;
    text.push_bytes(class)?;
    push_field(text, tag(Piece::X), x)?;
    push_field(text, tag(Piece::Y), y)?;
    text.push_bytes(tag(Piece::Open))
}

/// A text of a class, which begins at a place.
#[tactic(auto, unfolding(crate::specs::Shapes::label))]
pub(crate) fn push_label(
    text: &mut Text,
    class: &[u8],
    x: u64,
    y: u64,
    words: &[u8],
) -> Result<(), Memory>
    ensures { OnOk result (text.new ≡ text.old ++ label class.now x y words.now) }
{
    push_begin(text, class, x, y)?;
    text.push_bytes(words)?;
    text.push_bytes(tag(Piece::WordsEnd))
}

/// A name in at most so many letters; a longer one ends in an ellipsis.
#[tactic(auto, unfolding(crate::specs::Shapes::fitted))]
pub(crate) fn push_fitted(text: &mut Text, name: &[u8], most: usize) -> Result<(), Memory>
    ensures { OnOk result (text.new ≡ text.old ++ fitted most name.now) }
{
    if fits(name, most) {
        text.push_bytes(name)
    } else {
        text.push_bytes(front(name, most))?;
        text.push_bytes(b"\xe2\x80\xa6")
    }
}

fn fits(name: &[u8], most: usize) -> bool
    ensures { result ≡ nat_le (length name.now) most }
{
    name.len() <= most
}

/// All but the last of so many letters, of a name that has more.
fn front(name: &[u8], most: usize) -> &[u8]
    requires { most < length name.now }
    ensures { result.now ≡ take (most - 1) name.now }
{
    &name[..most.saturating_sub(1)]
}

fn push_bend(text: &mut Text, bend: &Option<Bend>) -> Result<(), Memory>
    ensures { OnOk result (text.new ≡ text.old ++ bend_text bend.now) }
{
    match bend {
        None => Ok(()),
        Some(bend) => push_corners(text, bend),
    }
}

/// A point, after a letter.
fn push_point(text: &mut Text, letter: &[u8], x: u32, y: u32) -> Result<(), Memory>
    ensures { OnOk result (text.new ≡ text.old ++ point_text letter.now x y) }
{
    push_field(text, letter, u64::from(x))?;
    push_field(text, b" ", u64::from(y))
}

#[tactic(auto, unfolding(crate::specs::Shapes::corners))]
fn push_corners(text: &mut Text, bend: &Bend) -> Result<(), Memory>
    ensures { OnOk result (text.new ≡ text.old ++ corners bend.now) }
{
    push_field(text, b"H", u64::from(bend.before))?;
    push_point(text, b"Q", bend.lane, bend.level)?;
    push_point(text, b" ", bend.lane, bend.leave)?;
    push_field(text, b"V", u64::from(bend.enter))?;
    push_point(text, b"Q", bend.lane, bend.below)?;
    push_point(text, b" ", bend.after, bend.below)
}

/// A line's way, and the end of its path.
#[tactic(auto, unfolding(crate::specs::Shapes::way_text))]
pub(crate) fn push_way(text: &mut Text, way: &Way) -> Result<(), Memory>
    ensures { OnOk result (text.new ≡ text.old ++ way_text way.now) }
{
    push_point(text, b"M", way.from.x, way.from.y)?;
    push_bend(text, &way.bend)?;
    push_field(text, b"H", u64::from(way.end))?;
    text.push_bytes(tag(Piece::Close))
}
