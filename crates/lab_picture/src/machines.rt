// Machines, as they are drawn.
ghost use Rattle.std.specs.Prelude.{◌≡◌, ◌++◌, ◌<◌, ◌==◌, nat_le, length, map, flat_map, slice_get, IfOk, OnOk};
ghost use Rattle.std.specs.List.{list_any, range_with_len};
ghost use Rattle.lab_view.specs.Views.{switch_name, exp_name};
ghost use Rattle.lab_view.specs.Lines.{spaced};
ghost use Rattle.lab_view.specs.Flags.{tints_of};
ghost use Rattle.lab_picture.specs.Shapes.{fitted};
ghost use Rattle.lab_picture.specs.Machines.{names_text, first_name, listed, letters_in, type_words, plug_at, holder_words, tip, free_body, held_words, body, first_of, is_one, corner, corner_if_several, held_class, class_of, machine_text, machine_at};

use crate::bars::push_coloured;
use crate::geometry::{Bounds, Geometry, bounds_at};
use crate::shapes::{area_of, push_fitted, push_label, push_rect};
use crate::tags::{Piece, tag};
use lab_base::{Items, Memory, Name, Text};
use lab_view::{Held, Machine, Seat, View, flag_of_exp};
use std::alloc::Global;

/// The name of an experiment, none of a number that names nothing.
pub(crate) fn exp_name(view: &View, exp: usize) -> &[u8]
    ensures { result.now ≡ exp_name view.now exp }
{
    match view.experiments.as_slice().get(exp) {
        Some(own) => own.name.bytes(),
        None => &[],
    }
}

/// The name of a switch, none of a number that names nothing.
pub(crate) fn switch_name(view: &View, switch: usize) -> &[u8]
    ensures { result.now ≡ switch_name view.now switch }
{
    match view.switches.as_slice().get(switch) {
        Some(name) => name.bytes(),
        None => &[],
    }
}

/// A blank before each name.
fn push_spaced(text: &mut Text, names: &[Name]) -> Result<(), Memory>
    ensures { OnOk result (text.new ≡ text.old ++ flat_map spaced names.now) }
{
    for name in names {
        text.push(b' ')?;
        text.push_bytes(name.bytes())?;
    }
    Ok(())
}

/// Names one after another.
fn names_text(alloc: Global, names: &[Name]) -> Result<Text, Memory>
    ensures { IfOk result (λ text. text ≡ names_text names.now) }
{
    match names.split_first() {
        Some((first, more)) => {
            let mut text = Text::from_slice(alloc, first.bytes())?;
            push_spaced(&mut text, more)?;
            Ok(text)
        }
        None => Ok(Text::new(alloc)),
    }
}

/// The first name, and how many more there are.
#[tactic(auto, unfolding(crate::specs::Machines::first_name))]
fn first_name(alloc: Global, names: &[Name], most: usize) -> Result<Text, Memory>
    ensures { IfOk result (λ text. text ≡ first_name most names.now) }
{
    match names.split_first() {
        Some((first, more)) => {
            let mut text = Text::new(alloc);
            push_fitted(&mut text, first.bytes(), most.saturating_sub(5))?;
            text.push_bytes(b" +")?;
            text.push_number(more.len() as u64)?;
            Ok(text)
        }
        None => Ok(Text::new(alloc)),
    }
}

fn fits(text: &Text, most: usize) -> bool
    ensures { result ≡ nat_le (length text.now) most }
{
    text.len() <= most
}

/// Names, where they fit so many letters; else the first one, and how many more there are.
#[tactic(auto, unfolding(crate::specs::Machines::listed))]
fn listed(alloc: Global, names: &[Name], most: usize) -> Result<Text, Memory>
    ensures { IfOk result (λ text. text ≡ listed most names.now) }
{
    let all = names_text(alloc, names)?;
    if fits(&all, most) {
        Ok(all)
    } else {
        first_name(alloc, names, most)
    }
}

/// How many letters of the size of 9 fit a machine.
#[tactic(auto, unfolding(crate::specs::Machines::letters_in))]
fn letters_in(wide: u32) -> usize
    ensures { result ≡ letters_in wide }
{
    let room = u64::from(wide).saturating_sub(18);
    (room * 100 / 542) as usize
}

fn push_types(text: &mut Text, types: &[(Name, u16)]) -> Result<(), Memory>
    ensures { OnOk result (text.new ≡ text.old ++ flat_map type_words types.now) }
{
    for kind in types {
        text.push(b' ')?;
        text.push_bytes(kind.0.bytes())?;
        text.push(b':')?;
        text.push_number(u64::from(kind.1))?;
    }
    Ok(())
}

fn is_among(plugs: &[usize], plug: usize) -> bool
    ensures { result ≡ list_any (λ m. m == plug) plugs.now }
{
    plugs.iter().any(|own| *own == plug)
}

/// A blank and the switch of the interface of that number, where none before it is on that switch.
fn push_plug_at(text: &mut Text, view: &View, plugs: &[usize], number: usize) -> Result<(), Memory>
    requires { number < length plugs.now }
    ensures { OnOk result (text.new ≡ text.old ++ plug_at view.now plugs.now number) }
{
    if is_among(&plugs[..number], plugs[number]) {
        Ok(())
    } else {
        text.push(b' ')?;
        text.push_bytes(switch_name(view, plugs[number]))
    }
}

#[tactic(auto, using(lab_base::proofs::Lists::flat_map_range))]
fn push_plugs(text: &mut Text, view: &View, plugs: &[usize]) -> Result<(), Memory>
    ensures { OnOk result (text.new ≡ text.old ++ flat_map (plug_at view.now plugs.now) (range_with_len 0 (length plugs.now))) }
{
    for number in 0..plugs.len() {
        push_plug_at(text, view, plugs, number)?;
    }
    Ok(())
}

#[tactic(auto, unfolding(crate::specs::Machines::holder_words))]
fn push_holder(text: &mut Text, view: &View, seat: &Option<Seat>) -> Result<(), Memory>
    ensures { OnOk result (text.new ≡ text.old ++ holder_words view.now seat.now) }
{
    match seat {
        Some(seat) => {
            text.push(b'\n')?;
            text.push_bytes(exp_name(view, seat.exp))?;
            push_spaced(text, seat.hosted.as_slice())
        }
        None => Ok(()),
    }
}

/// The words that a pointer over a machine shows.
#[tactic(auto, unfolding(crate::specs::Machines::tip))]
fn push_tip(text: &mut Text, view: &View, machine: &Machine) -> Result<(), Memory>
    ensures { OnOk result (text.new ≡ text.old ++ tip view.now machine.now) }
{
    text.push_bytes(tag(Piece::Title))?;
    text.push_bytes(machine.name.bytes())?;
    push_types(text, machine.types.as_slice())?;
    text.push_bytes(b"\non")?;
    push_plugs(text, view, machine.plugs.as_slice())?;
    push_holder(text, view, &machine.seat)?;
    text.push_bytes(tag(Piece::TitleEnd))
}

/// The names of a machine's types.
fn type_names(alloc: Global, machine: &Machine) -> Result<Items<Name>, Memory>
    ensures { IfOk result (λ names. names ≡ map (λ t. t.0) machine.now.types) }
{
    let mut names = Items::new(alloc);
    for kind in machine.types.as_slice() {
        names.push(kind.0)?;
    }
    Ok(names)
}

/// A machine that nobody holds.
#[tactic(auto, unfolding(crate::specs::Machines::free_body))]
fn push_free(alloc: Global, text: &mut Text, place: Bounds, machine: &Machine) -> Result<(), Memory>
    ensures { OnOk result (text.new ≡ text.old ++ free_body place machine.now) }
{
    let x = u64::from(place.x) + 14;
    let y = u64::from(place.y);
    let names = type_names(alloc, machine)?;
    let types = listed(alloc, names.as_slice(), letters_in(place.wide))?;
    push_rect(text, b"free", area_of(place))?;
    push_label(text, b"f", x, y + 19, machine.name.bytes())?;
    push_label(text, b"k", x, y + 33, types.bytes())
}

fn fitted(alloc: Global, name: &[u8], most: usize) -> Result<Text, Memory>
    ensures { IfOk result (λ text. text ≡ fitted most name.now) }
{
    let mut text = Text::new(alloc);
    push_fitted(&mut text, name, most)?;
    Ok(text)
}

/// The name of a machine, the experiment that holds it, and the virtual nodes there.
#[tactic(auto, unfolding(crate::specs::Machines::held_words))]
fn push_words(
    alloc: Global,
    text: &mut Text,
    view: &View,
    place: Bounds,
    machine: &Machine,
    seat: &Seat,
) -> Result<(), Memory>
    ensures { OnOk result (text.new ≡ text.old ++ held_words view.now place machine.now seat.now) }
{
    let x = u64::from(place.x) + 14;
    let y = u64::from(place.y);
    let name = fitted(alloc, exp_name(view, seat.exp), letters_in(place.wide))?;
    let hosted = listed(alloc, seat.hosted.as_slice(), letters_in(place.wide))?;
    push_label(text, b"m", x, y + 14, machine.name.bytes())?;
    push_label(text, b"e", x, y + 26, name.bytes())?;
    push_label(text, b"v", x, y + 38, hosted.bytes())
}

/// A machine, in the colour of the experiment that holds it, by the tints of first machines.
#[tactic(auto, unfolding(crate::specs::Machines::body, crate::specs::Machines::held_body))]
fn push_body(
    alloc: Global,
    text: &mut Text,
    view: &View,
    tints: &[u8],
    place: Bounds,
    machine: &Machine,
) -> Result<(), Memory>
    requires { tints.now ≡ tints_of view.now }
    ensures { OnOk result (text.new ≡ text.old ++ body view.now place machine.now machine.now.seat) }
{
    match &machine.seat {
        None => push_free(alloc, text, place, machine),
        Some(seat) => {
            let flag = flag_of_exp(view, tints, seat.exp);
            push_coloured(text, true, flag, seat.held, place)?;
            push_words(alloc, text, view, place, machine, seat)
        }
    }
}

fn first_of(plugs: &[usize]) -> usize
    ensures { result ≡ first_of (slice_get plugs.now 0) }
{
    match plugs.get(0) {
        Some(plug) => *plug,
        None => 0,
    }
}

/// Whether all interfaces are on one switch.
fn is_one(plugs: &[usize]) -> bool
    ensures { result ≡ is_one plugs.now }
{
    let first = first_of(plugs);
    plugs.iter().all(|plug| *plug == first)
}

/// A dark corner, the mark of a machine on several switches.
#[tactic(auto, unfolding(crate::specs::Machines::corner))]
fn push_corner(text: &mut Text, place: Bounds) -> Result<(), Memory>
    ensures { OnOk result (text.new ≡ text.old ++ corner place) }
{
    text.push_bytes(tag(Piece::Also))?;
    text.push_number(u64::from(place.x) + u64::from(place.wide))?;
    text.push(b' ')?;
    text.push_number(u64::from(place.y))?;
    text.push_bytes(tag(Piece::Corner))
}

fn push_corner_if_several(text: &mut Text, place: Bounds, plugs: &[usize]) -> Result<(), Memory>
    ensures { OnOk result (text.new ≡ text.old ++ corner_if_several place plugs.now) }
{
    if is_one(plugs) {
        Ok(())
    } else {
        push_corner(text, place)
    }
}

fn held_class(held: Held) -> &'static [u8]
    ensures { result.now ≡ held_class held }
{
    match held {
        Held::Stands => tag(Piece::Group),
        Held::Comes | Held::Goes | Held::Stays => tag(Piece::Moving),
    }
}

fn class_of(seat: &Option<Seat>) -> &'static [u8]
    ensures { result.now ≡ class_of seat.now }
{
    match seat {
        Some(seat) => held_class(seat.held),
        None => tag(Piece::Group),
    }
}

/// A machine, with the words that a pointer over it shows.
fn push_machine(
    alloc: Global,
    text: &mut Text,
    view: &View,
    tints: &[u8],
    place: Bounds,
    machine: &Machine,
) -> Result<(), Memory>
    requires { tints.now ≡ tints_of view.now }
    ensures { OnOk result (text.new ≡ text.old ++ machine_text view.now place machine.now) }
{
    text.push_bytes(class_of(&machine.seat))?;
    push_tip(text, view, machine)?;
    push_body(alloc, text, view, tints, place, machine)?;
    push_corner_if_several(text, place, machine.plugs.as_slice())?;
    text.push_bytes(tag(Piece::GroupEnd))
}

fn push_machine_at(
    alloc: Global,
    text: &mut Text,
    geometry: &Geometry,
    view: &View,
    tints: &[u8],
    number: usize,
) -> Result<(), Memory>
    requires { tints.now ≡ tints_of view.now }
    ensures { OnOk result (text.new ≡ text.old ++ machine_at geometry.now view.now number) }
{
    let place = bounds_at(geometry.cells.as_slice(), number);
    match view.machines.as_slice().get(number) {
        Some(machine) => push_machine(alloc, text, view, tints, place, machine),
        None => Ok(()),
    }
}

/// All machines.
#[tactic(auto, using(lab_base::proofs::Lists::flat_map_range))]
pub(crate) fn push_machines(
    alloc: Global,
    text: &mut Text,
    geometry: &Geometry,
    view: &View,
    tints: &[u8],
) -> Result<(), Memory>
    requires { tints.now ≡ tints_of view.now }
    ensures { OnOk result (text.new ≡ text.old ++ flat_map (machine_at geometry.now view.now) (range_with_len 0 (length view.now.machines))) }
{
    for number in 0..view.machines.len() {
        push_machine_at(alloc, text, geometry, view, tints, number)?;
    }
    Ok(())
}
