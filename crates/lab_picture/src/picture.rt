// The picture of a lab.
ghost use Rattle.std.specs.Prelude.{◌≡◌, ◌++◌, ◌≤◌, length, IfOk, OnOk};
ghost use Rattle.lab_view.specs.Flags.{tints_of};
ghost use Rattle.lab_picture.specs.Pictures.{is_in, is_out, moves, count_in, so_many, title_words, parts_words, stands_words, title, rule, size_text, sheet, scaled, head_text, lone_text, lab_text, picture};

use crate::frame::{KEY, STYLE};
use crate::geometry::{Geometry, Point};
use crate::lists::{push_list, push_plural, push_strip};
use crate::machines::push_machines;
use crate::shapes::{Area, push_field, push_filled, push_label};
use crate::speeds::push_tenths;
use crate::switches::push_switches;
use crate::tags::{Piece, tag};
use crate::trunks::{push_labels, push_trunks};
use lab_base::{Memory, Text};
use lab_view::{MAX_IDS, Stand, View, free_machines, tints_of};
use std::alloc::Global;

fn is_in(stand: Stand) -> bool
    ensures { result ≡ is_in stand }
{
    match stand {
        Stand::In => true,
        Stand::Out | Stand::Comes | Stand::Goes | Stand::Changes => false,
    }
}

fn is_out(stand: Stand) -> bool
    ensures { result ≡ is_out stand }
{
    match stand {
        Stand::Out => true,
        Stand::In | Stand::Comes | Stand::Goes | Stand::Changes => false,
    }
}

fn moves(stand: Stand) -> bool
    ensures { result ≡ moves stand }
{
    match stand {
        Stand::In | Stand::Out => false,
        Stand::Comes | Stand::Goes | Stand::Changes => true,
    }
}

fn count_within(view: &View) -> usize
    ensures { result ≡ count_in is_in view.now }
{
    let exps = view.experiments.as_slice();
    exps.iter().filter(|exp| is_in(exp.stand)).count()
}

fn count_moving(view: &View) -> usize
    ensures { result ≡ count_in moves view.now }
{
    let exps = view.experiments.as_slice();
    exps.iter().filter(|exp| moves(exp.stand)).count()
}

fn count_out(view: &View) -> usize
    ensures { result ≡ count_in is_out view.now }
{
    let exps = view.experiments.as_slice();
    exps.iter().filter(|exp| is_out(exp.stand)).count()
}

/// So many of a thing.
fn push_so_many(text: &mut Text, count: usize, one: &[u8], more: &[u8]) -> Result<(), Memory>
    ensures { OnOk result (text.new ≡ text.old ++ so_many count one.now more.now) }
{
    text.push_number(count as u64)?;
    push_plural(text, count, one, more)
}

#[tactic(auto, unfolding(crate::specs::Pictures::title_words))]
fn title_words(alloc: Global, view: &View) -> Result<Text, Memory>
    ensures { IfOk result (λ text. text ≡ title_words view.now) }
{
    let mut text = Text::new(alloc);
    push_so_many(
        &mut text,
        view.machines.len(),
        b" machine, ",
        b" machines, ",
    )?;
    text.push_number(free_machines(view) as u64)?;
    text.push_bytes(b" free")?;
    Ok(text)
}

#[tactic(auto, unfolding(crate::specs::Pictures::parts_words))]
fn push_parts(text: &mut Text, view: &View) -> Result<(), Memory>
    ensures { OnOk result (text.new ≡ text.old ++ parts_words view.now) }
{
    push_so_many(text, view.switches.len(), b" switch, ", b" switches, ")?;
    push_so_many(text, view.trunks.len(), b" trunk; ", b" trunks; ")?;
    push_so_many(
        text,
        view.experiments.len(),
        b" experiment: ",
        b" experiments: ",
    )
}

#[tactic(auto, unfolding(crate::specs::Pictures::stands_words))]
fn push_stands(text: &mut Text, view: &View) -> Result<(), Memory>
    ensures { OnOk result (text.new ≡ text.old ++ stands_words view.now) }
{
    text.push_number(count_within(view) as u64)?;
    text.push_bytes(b" in, ")?;
    text.push_number(count_moving(view) as u64)?;
    text.push_bytes(b" moving, ")?;
    text.push_number(count_out(view) as u64)?;
    text.push_bytes(b" out")
}

fn counts(alloc: Global, view: &View) -> Result<Text, Memory>
    ensures { IfOk result (λ text. text ≡ parts_words view.now ++ stands_words view.now) }
{
    let mut text = Text::new(alloc);
    push_parts(&mut text, view)?;
    push_stands(&mut text, view)?;
    Ok(text)
}

/// The title, and how many of each thing there are.
#[tactic(auto, unfolding(crate::specs::Pictures::title))]
fn push_title(alloc: Global, text: &mut Text, view: &View) -> Result<(), Memory>
    ensures { OnOk result (text.new ≡ text.old ++ title view.now) }
{
    let words = title_words(alloc, view)?;
    let counts = counts(alloc, view)?;
    push_label(text, b"t", 40, 52, words.bytes())?;
    push_label(text, b"s", 40, 76, counts.bytes())
}

/// A line across the picture.
#[tactic(auto, unfolding(crate::specs::Pictures::rule))]
fn push_rule(text: &mut Text, geometry: &Geometry, y: u32) -> Result<(), Memory>
    ensures { OnOk result (text.new ≡ text.old ++ rule geometry.now y) }
{
    push_field(text, tag(Piece::Rule), u64::from(y))?;
    push_field(text, b"h", u64::from(geometry.across))?;
    text.push_bytes(tag(Piece::Close))
}

/// The size of the picture.
#[tactic(auto, unfolding(crate::specs::Pictures::size_text))]
fn push_size(text: &mut Text, geometry: &Geometry) -> Result<(), Memory>
    ensures { OnOk result (text.new ≡ text.old ++ size_text geometry.now) }
{
    push_field(text, tag(Piece::Picture), geometry.wide)?;
    push_field(text, b" ", geometry.high)?;
    push_field(text, tag(Piece::Wide), geometry.wide)?;
    push_field(text, tag(Piece::High), geometry.high)?;
    text.push_bytes(tag(Piece::Open))
}

#[tactic(auto, unfolding(crate::specs::Pictures::sheet))]
fn sheet(geometry: &Geometry) -> Area
    ensures { result ≡ sheet geometry.now }
{
    Area {
        x: 0,
        y: 0,
        wide: geometry.wide,
        high: geometry.high,
    }
}

#[tactic(auto, unfolding(crate::specs::Pictures::scaled))]
fn push_scaled(text: &mut Text, geometry: &Geometry) -> Result<(), Memory>
    ensures { OnOk result (text.new ≡ text.old ++ scaled geometry.now) }
{
    text.push_bytes(tag(Piece::Scale))?;
    push_tenths(text, u64::from(geometry.scale))?;
    text.push_bytes(tag(Piece::ScaleEnd))
}

/// The size of the picture, its style, its title, and the key to how things are drawn.
#[tactic(auto, unfolding(crate::specs::Pictures::head_text))]
fn push_head(
    alloc: Global,
    text: &mut Text,
    style: &[u8],
    key: &[u8],
    geometry: &Geometry,
    view: &View,
) -> Result<(), Memory>
    ensures { OnOk result (text.new ≡ text.old ++ head_text style.now key.now geometry.now view.now) }
{
    push_size(text, geometry)?;
    text.push_bytes(style)?;
    push_filled(text, b"#fff", b"bare", sheet(geometry))?;
    push_scaled(text, geometry)?;
    push_title(alloc, text, view)?;
    text.push_bytes(key)?;
    text.push_bytes(tag(Piece::GroupEnd))?;
    push_rule(text, geometry, geometry.head)
}

/// The heading of machines without an interface.
fn push_lone(text: &mut Text, lone: &Option<Point>) -> Result<(), Memory>
    ensures { OnOk result (text.new ≡ text.old ++ lone_text lone.now) }
{
    match lone {
        Some(point) => {
            let (x, y) = (u64::from(point.x), u64::from(point.y));
            push_label(text, b"c", x, y, b"no interface")
        }
        None => Ok(()),
    }
}

/// All that stands in the lab.
#[tactic(auto, unfolding(crate::specs::Pictures::lab_text))]
fn push_lab(
    alloc: Global,
    text: &mut Text,
    geometry: &Geometry,
    view: &View,
    tints: &[u8],
) -> Result<(), Memory>
    requires { tints.now ≡ tints_of view.now }
    ensures { OnOk result (text.new ≡ text.old ++ lab_text geometry.now view.now) }
{
    push_trunks(text, geometry, view)?;
    push_switches(alloc, text, geometry, view)?;
    push_machines(alloc, text, geometry, view, tints)?;
    push_labels(alloc, text, geometry, view)?;
    push_lone(text, &geometry.lone)
}

/// The picture with a style and a key.
#[tactic(auto, unfolding(crate::specs::Pictures::picture))]
fn draw_with(
    alloc: Global,
    style: &[u8],
    key: &[u8],
    geometry: &Geometry,
    view: &View,
) -> Result<Text, Memory>
    requires { length view.now.owners ≤ MAX_IDS }
    ensures { IfOk result (λ text. text ≡ picture style.now key.now geometry.now view.now) }
{
    let tints = tints_of(alloc, view)?;
    let tints = tints.as_slice();
    let mut text = Text::new(alloc);
    push_head(alloc, &mut text, style, key, geometry, view)?;
    push_lab(alloc, &mut text, geometry, view, tints)?;
    push_rule(&mut text, geometry, geometry.foot)?;
    push_strip(alloc, &mut text, geometry, view, tints)?;
    push_list(alloc, &mut text, geometry, view, tints)?;
    text.push_bytes(tag(Piece::PictureEnd))?;
    Ok(text)
}

/// The picture of a lab, as an SVG text, with everything where the geometry says. A lab has at most 65,536 VLAN ids.
pub fn draw(alloc: Global, geometry: &Geometry, view: &View) -> Result<Text, Memory>
    requires { length view.now.owners ≤ MAX_IDS }
    ensures { IfOk result (λ text. text ≡ picture STYLE.now KEY.now geometry.now view.now) }
{
    draw_with(alloc, STYLE, KEY, geometry, view)
}
