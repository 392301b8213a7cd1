// Switches, as they are drawn.
ghost use Rattle.std.specs.Prelude.{◌≡◌, ◌++◌, length, flat_map, IfOk, OnOk, slice_get};
ghost use Rattle.std.specs.List.{range_with_len};
ghost use Rattle.lab_picture.specs.Switches.{counted, count_words, card_text, card_in, echo_text, echo_of, echo_at, switch_at};

use crate::geometry::{Card, Echo, Geometry};
use crate::machines::switch_name;
use crate::shapes::{area_of, push_area, push_label, push_way};
use crate::tags::{Piece, tag};
use lab_base::{Memory, Text};
use lab_view::{View, count_under, free_under};
use std::alloc::Global;

fn push_counted(text: &mut Text, free: usize, count: usize) -> Result<(), Memory>
    ensures { OnOk result (text.new ≡ text.old ++ counted free count) }
{
    if count == 0 {
        text.push_bytes(b"no machines")
    } else {
        text.push_number(free as u64)?;
        text.push_bytes(b" of ")?;
        text.push_number(count as u64)?;
        text.push_bytes(b" free")
    }
}

/// How many of the machines under a switch are free.
#[tactic(auto, unfolding(crate::specs::Switches::count_words))]
fn count_words(alloc: Global, view: &View, switch: usize) -> Result<Text, Memory>
    ensures { IfOk result (λ text. text ≡ count_words view.now switch) }
{
    let mut text = Text::new(alloc);
    push_counted(
        &mut text,
        free_under(view, switch),
        count_under(view, switch),
    )?;
    Ok(text)
}

/// A card of a switch, with words below its name.
#[tactic(auto, unfolding(crate::specs::Switches::card_text))]
fn push_card(
    text: &mut Text,
    class: &[u8],
    words: &[u8],
    view: &View,
    switch: usize,
    card: &Card,
) -> Result<(), Memory>
    ensures { OnOk result (text.new ≡ text.old ++ card_text class.now words.now view.now switch card.now) }
{
    let x = u64::from(card.words.x);
    let y = u64::from(card.words.y);
    text.push_bytes(tag(Piece::Rounded))?;
    text.push_bytes(class)?;
    push_area(text, area_of(card.place))?;
    push_label(text, b"n", x, y, switch_name(view, switch))?;
    push_label(text, b"c", x, y + 15, words)
}

fn push_card_in(
    alloc: Global,
    text: &mut Text,
    geometry: &Geometry,
    view: &View,
    switch: usize,
) -> Result<(), Memory>
    ensures { OnOk result (text.new ≡ text.old ++ card_in view.now switch (slice_get geometry.now.cards switch)) }
{
    let words = count_words(alloc, view, switch)?;
    match geometry.cards.as_slice().get(switch) {
        Some(card) => push_card(text, b"card", words.bytes(), view, switch, card),
        None => Ok(()),
    }
}

/// The second card of a switch, before its own machines, and the line that leads there.
#[tactic(auto, unfolding(crate::specs::Switches::echo_text))]
fn push_echo(text: &mut Text, view: &View, switch: usize, echo: &Echo) -> Result<(), Memory>
    ensures { OnOk result (text.new ≡ text.old ++ echo_text view.now switch echo.now) }
{
    text.push_bytes(tag(Piece::Own))?;
    push_way(text, &echo.way)?;
    push_card(
        text,
        b"card echo",
        b"own machines",
        view,
        switch,
        &echo.card,
    )
}

fn push_echo_in(
    text: &mut Text,
    view: &View,
    switch: usize,
    echo: &Option<Echo>,
) -> Result<(), Memory>
    ensures { OnOk result (text.new ≡ text.old ++ echo_of view.now switch echo.now) }
{
    match echo {
        Some(echo) => push_echo(text, view, switch, echo),
        None => Ok(()),
    }
}

fn push_echo_at(
    text: &mut Text,
    geometry: &Geometry,
    view: &View,
    switch: usize,
) -> Result<(), Memory>
    ensures { OnOk result (text.new ≡ text.old ++ echo_at geometry.now view.now switch) }
{
    match geometry.echoes.as_slice().get(switch) {
        Some(echo) => push_echo_in(text, view, switch, echo),
        None => Ok(()),
    }
}

fn push_switch_at(
    alloc: Global,
    text: &mut Text,
    geometry: &Geometry,
    view: &View,
    switch: usize,
) -> Result<(), Memory>
    ensures { OnOk result (text.new ≡ text.old ++ switch_at geometry.now view.now switch) }
{
    push_card_in(alloc, text, geometry, view, switch)?;
    push_echo_at(text, geometry, view, switch)
}

/// All switches.
#[tactic(auto, using(lab_base::proofs::Lists::flat_map_range))]
pub(crate) fn push_switches(
    alloc: Global,
    text: &mut Text,
    geometry: &Geometry,
    view: &View,
) -> Result<(), Memory>
    ensures { OnOk result (text.new ≡ text.old ++ flat_map (switch_at geometry.now view.now) (range_with_len 0 (length view.now.switches))) }
{
    for switch in 0..view.switches.len() {
        push_switch_at(alloc, text, geometry, view, switch)?;
    }
    Ok(())
}
