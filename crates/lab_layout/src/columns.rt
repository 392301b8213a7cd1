// The columns of switches, from left to right.

use crate::layout::Plan;
use crate::px::{Px, at, widen, width};
use crate::rows::Rows;
use crate::tree::Forest;
use lab_base::Memory;
use lab_view::View;
use std::alloc::Global;

pub(crate) const MARGIN: Px = Px(40);
/// From a card to its machines.
pub(crate) const BESIDE: Px = Px(14);
/// Between two trunks where they run up or down.
const LANE: Px = Px(16);
/// The most that the lanes behind a card take.
const LANES: Px = Px(480);
/// From a card to the first lane, and from the last one to the labels.
pub(crate) const TURN: Px = Px(18);
/// Between two trunks where they leave a card.
pub(crate) const PORT: Px = Px(17);

/// By column its cards' width, and where these begin.
#[derive(Drop)]
pub(crate) struct Columns {
    pub(crate) cards: Vec<Px>,
    pub(crate) starts: Vec<Px>,
    /// The last column.
    deepest: usize,
}

impl Columns {
    /// Where the cards of the last column begin.
    pub(crate) fn last(&self) -> Px {
        at(&self.starts, self.deepest)
    }

    /// Where they end.
    pub(crate) fn end(&self) -> Px {
        self.last() + at(&self.cards, self.deepest)
    }
}

/// How many letters `24 of 24 free` has for so many machines, of which a lab has at most 1,024.
fn free_letters(count: usize) -> usize {
    if count < 10 {
        11
    } else if count < 100 {
        13
    } else if count < 1_000 {
        15
    } else {
        17
    }
}

/// The width of a switch's card: its name, and `9 of 24 free`.
fn card_width(view: &View, rows: &Rows, switch: usize) -> Px {
    let letters = match view.switches.as_slice().get(switch) {
        Some(name) => name.bytes().len(),
        None => 0,
    };
    let free = free_letters(rows.under(switch).len());
    width(letters, 125).max(width(free, 95)) + 22
}

/// The width of a trunk's labels, its name's and its use's.
fn label_width(view: &View, trunk: usize) -> Px {
    let letters = match view.trunks.as_slice().get(trunk) {
        Some(trunk) => trunk.link.bytes().len(),
        None => 0,
    };
    width(letters, 95).max(width(20, 90)) + 20
}

/// How many lanes so many slots have, where half of them may run up and half of them down.
fn lanes(slots: usize) -> u64 {
    slots as u64 / 2 + 1
}

/// How wide a lane is behind a card with so many slots.
pub(crate) fn lane_of(slots: usize) -> Px {
    (LANES / lanes(slots)).max(Px(3)).min(LANE)
}

/// A list of so many measures of 0.
pub(crate) fn bare(alloc: Global, count: usize) -> Result<Vec<Px>, Memory> {
    let mut list = Vec::new(alloc);
    for _number in 0..count {
        list.push(Px(0))?;
    }
    Ok(list)
}

/// Whether a switch has both machines and further switches.
pub(crate) fn has_both(plan: Plan<'_>, switch: usize) -> bool {
    !plan.forest.children(switch).is_empty() && !plan.rows.under(switch).is_empty()
}

/// Makes room for the cards of a switch.
fn fit_card(cards: &mut [Px], plan: Plan<'_>, switch: usize) {
    let card = card_width(plan.view, plan.rows, switch);
    widen(cards, plan.forest.column(switch), card);
    if has_both(plan, switch) {
        widen(cards, plan.forest.deepest, card);
    }
}

/// How wide the lanes behind a card with so many children are.
fn bend_width(children: usize) -> Px {
    TURN * 2 + lane_of(children) * lanes(children)
}

/// Makes room for the lanes behind a switch.
fn fit_bend(bends: &mut [Px], forest: &Forest, switch: usize) {
    let children = forest.children(switch).len();
    if children > 0 {
        widen(bends, forest.column(switch), bend_width(children));
    }
}

/// Makes room for the labels of the trunk that leads from a switch towards its root.
fn fit_label(labels: &mut [Px], plan: Plan<'_>, switch: usize) {
    if let Some(trunk) = plan.forest.up(switch) {
        let label = label_width(plan.view, trunk);
        widen(labels, plan.forest.column(switch), label);
    }
}

/// By column a measure of 0.
fn bare_columns(alloc: Global, forest: &Forest) -> Result<Vec<Px>, Memory> {
    let mut list = bare(alloc, forest.deepest)?;
    list.push(Px(0))?;
    Ok(list)
}

/// By column how wide its cards are.
fn card_widths(alloc: Global, plan: Plan<'_>) -> Result<Vec<Px>, Memory> {
    let mut cards = bare_columns(alloc, plan.forest)?;
    for switch in 0..plan.view.switches.len() {
        fit_card(&mut cards, plan, switch);
    }
    Ok(cards)
}

/// By column how wide the lanes behind it are.
fn bend_widths(alloc: Global, plan: Plan<'_>) -> Result<Vec<Px>, Memory> {
    let mut bends = bare_columns(alloc, plan.forest)?;
    for switch in 0..plan.view.switches.len() {
        fit_bend(&mut bends, plan.forest, switch);
    }
    Ok(bends)
}

/// By column how wide the labels before it are.
fn label_widths(alloc: Global, plan: Plan<'_>) -> Result<Vec<Px>, Memory> {
    let mut labels = bare_columns(alloc, plan.forest)?;
    for switch in 0..plan.view.switches.len() {
        fit_label(&mut labels, plan, switch);
    }
    Ok(labels)
}

/// Where the cards of columns begin that stand side by side.
fn starts_of(alloc: Global, labels: &[Px], cards: &[Px], bends: &[Px]) -> Result<Vec<Px>, Memory> {
    let mut starts = Vec::new(alloc);
    let mut x = MARGIN;
    for column in 0..cards.len() {
        let start = x + at(labels, column);
        starts.push(start)?;
        x = start + at(cards, column) + at(bends, column);
    }
    Ok(starts)
}

/// The columns of a lab.
pub(crate) fn columns_of_lab(alloc: Global, plan: Plan<'_>) -> Result<Columns, Memory> {
    let cards = card_widths(alloc, plan)?;
    let labels = label_widths(alloc, plan)?;
    let bends = bend_widths(alloc, plan)?;
    let starts = starts_of(alloc, &labels, &cards, &bends)?;
    Ok(Columns {
        cards,
        starts,
        deepest: plan.forest.deepest,
    })
}
