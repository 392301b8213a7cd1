// Where everything stands.
ghost use Rattle.std.specs.Prelude.{◌≡◌, ◌<◌, nat_lt, length, IfOk, IfSome, OnOk};
ghost use Rattle.lab_view.specs.Lines.{has_lone};

use crate::columns::{BESIDE, Columns, MARGIN, PORT, bare, columns_of_lab, has_both};
use crate::limits::LEAST_HIGH;
use crate::machines::{columns_for, rows_high};
use crate::px::{Bounds, Px, at, nowhere, set_at, width};
use crate::rows::Rows;
use crate::tree::Forest;
use lab_base::{Items, Memory};
use lab_view::View;
use std::alloc::Global;

/// Above the lab: the title and the key, at their least size.
const HEAD: Px = Px(138);
/// The width of a picture where they have that size.
const LEAST: Px = Px(1_160);

pub(crate) const CELL_HIGH: Px = Px(LEAST_HIGH as u64);

pub(crate) const GAP: Px = Px(5);
/// Between two switches.
const BETWEEN: Px = Px(16);
/// A band's least height: a card, and a trunk's two labels.
const BAND: Px = Px(48);
/// A card's least height.
const CARD: Px = Px(42);

/// How large the title and the key are in a picture of that width, in tenths of their least size: they grow half as fast as it.
pub(crate) fn head_scale(wide: Px) -> u64 {
    (Px(5) + wide * 5 / LEAST.0).max(Px(10)).min(Px(24)).0
}

pub(crate) fn head_high(wide: Px) -> Px {
    HEAD * head_scale(wide) / 10
}

/// The parts that hang on a card, from top to bottom.
#[derive(Clone, Copy, PartialEq, Eq)]
pub(crate) enum Slot {
    Child(usize),
    /// The switch's own machines, where it has children too.
    Own,
}

/// Where a switch stands.
#[derive(Drop)]
pub(crate) struct Spot {
    pub(crate) card: Bounds,
    /// Its machines.
    pub(crate) band: Bounds,
    pub(crate) columns: usize,
    pub(crate) slots: Items<Slot>,
    /// All that hangs on it.
    block: Px,
}

/// Where everything stands.
#[derive(Drop)]
pub(crate) struct Layout {
    pub(crate) spots: Vec<Spot>,
    pub(crate) cell: Px,
    /// Where the cards of switches without children stand.
    pub(crate) last: Px,
    pub(crate) wide: Px,
    pub(crate) high: Px,
    /// The box of machines without an interface.
    pub(crate) lone: Bounds,
    pub(crate) lone_columns: usize,
}

/// The parts of a layout.
#[derive(Clone, Copy)]
pub(crate) struct Plan<'a> {
    pub(crate) view: &'a View,
    pub(crate) forest: &'a Forest,
    pub(crate) rows: &'a Rows,
    pub(crate) ghost lone: { nat_lt 0 (length rows.now.lone.items) ≡ has_lone view.now },
}

/// Children as slots, in order.
fn push_children(slots: &mut Items<Slot>, children: &[usize]) -> Result<(), Memory> {
    for child in children {
        slots.push(Slot::Child(*child))?;
    }
    Ok(())
}

/// Children in order, and the switch's own machines in their midst.
fn slots_of(alloc: Global, plan: Plan<'_>, switch: usize) -> Result<Items<Slot>, Memory> {
    let children = plan.forest.children(switch);
    let mut slots = Items::new(alloc);
    if has_both(plan, switch) {
        let middle = children.len() / 2;
        push_children(&mut slots, &children[..middle])?;
        slots.push(Slot::Own)?;
        push_children(&mut slots, &children[middle..])?;
    } else {
        push_children(&mut slots, children)?;
    }
    Ok(slots)
}

/// How high what stands in a switch's own row is: its card, and its machines where no slots are.
fn own_high(spot: &Spot) -> Px {
    if spot.slots.is_empty() {
        spot.band.high.max(BAND).max(spot.card.high)
    } else {
        spot.card.high
    }
}

/// How wide so many machines beside one another are.
fn row_wide(cell: Px, columns: usize) -> Px {
    (cell + GAP) * columns as u64
}

/// A card with so many slots, whose top isn't known yet.
fn card_with(x: Px, wide: Px, slots: usize) -> Bounds {
    Bounds {
        x,
        y: Px(0),
        wide,
        high: CARD.max(PORT * slots as u64 + 10),
    }
}

/// A band of so many machines after the last column, whose top isn't known yet.
fn band_with(end: Px, cell: Px, count: usize, columns: usize) -> Bounds {
    Bounds {
        x: end + BESIDE,
        y: Px(0),
        wide: row_wide(cell, columns),
        high: rows_high(count, columns),
    }
}

/// A switch's spot, whose heights alone are known.
fn spot_of(
    alloc: Global,
    plan: Plan<'_>,
    columns: &Columns,
    switch: usize,
    cell: Px,
    most: usize,
) -> Result<Spot, Memory> {
    let column = plan.forest.column(switch);
    let count = plan.rows.under(switch).len();
    let own = columns_for(count, most);
    let slots = slots_of(alloc, plan, switch)?;
    let start = at(&columns.starts, column);
    let wide = at(&columns.cards, column);
    Ok(Spot {
        card: card_with(start, wide, slots.len()),
        band: band_with(columns.end(), cell, count, own),
        columns: own,
        slots,
        block: Px(0),
    })
}

/// All switches' spots, whose heights alone are known.
fn spots_of(
    alloc: Global,
    plan: Plan<'_>,
    columns: &Columns,
    cell: Px,
    most: usize,
) -> Result<Vec<Spot>, Memory>
    ensures { IfOk result (λ spots. length spots.items ≡ length plan.entry.view.now.switches) }
{
    let mut spots = Vec::new(alloc);
    for switch in 0..plan.view.switches.len() {
        let spot = spot_of(alloc, plan, columns, switch, cell, most)?;
        spots.push(spot)?;
    }
    Ok(spots)
}

/// How many machines the longest row has, at least so many.
fn widest(least: usize, spots: &[Spot]) -> usize {
    let mut most = least;
    for spot in spots {
        most = most.max(spot.columns);
    }
    most
}

/// Where so many machines without an interface end that stand below all that hangs on switches, if there are any.
fn lone_end(count: usize, columns: usize, top: Px) -> Px {
    if count == 0 {
        return top;
    }
    top + 4 + rows_high(count, columns) + BETWEEN
}

/// The number of the slot of a switch's own machines.
pub(crate) fn own_slot(slots: &[Slot]) -> Option<usize>
    ensures { IfSome result (λ n. n < length slots.now) }
{
    slots.iter().position(|slot| is_own(*slot))
}

fn is_own(slot: Slot) -> bool {
    match slot {
        Slot::Child(_) => false,
        Slot::Own => true,
    }
}

/// Notes where the block of a slot begins.
fn note_top(tops: &mut [Px], slot: Slot, top: Px) {
    match slot {
        Slot::Child(child) => set_at(tops, child, top),
        Slot::Own => {}
    }
}

impl Layout {
    /// The card of a switch.
    pub(crate) fn card(&self, switch: usize) -> Bounds {
        match self.spots.get(switch) {
            Some(spot) => spot.card,
            None => nowhere(),
        }
    }

    fn block(&self, switch: usize) -> Px {
        match self.spots.get(switch) {
            Some(spot) => spot.block,
            None => Px(0),
        }
    }

    /// How high a slot of a switch is.
    fn slot_high(&self, spot: &Spot, slot: Slot) -> Px {
        match slot {
            Slot::Child(child) => self.block(child),
            Slot::Own => spot.band.high.max(BAND) + BETWEEN,
        }
    }

    /// How high these slots of a switch are.
    fn heights(&self, spot: &Spot, slots: &[Slot]) -> Px {
        let mut sum = Px(0);
        for slot in slots {
            sum = sum + self.slot_high(spot, *slot);
        }
        sum
    }

    /// How high all that hangs on a switch is, once that is known of its children.
    fn block_of(&self, switch: usize) -> Px {
        let Some(spot) = self.spots.get(switch) else {
            return Px(0);
        };
        self.heights(spot, spot.slots.as_slice())
            .max(own_high(spot) + BETWEEN)
    }

    /// Notes how high all that hangs on a switch is.
    fn measure_one(&mut self, switch: usize)
        ensures { length self.new.spots.items ≡ length self.old.spots.items }
    {
        let block = self.block_of(switch);
        if switch < self.spots.len() {
            self.spots[switch].block = block;
        }
    }

    /// From the leaves up: how high each block is.
    fn measure(&mut self, order: &[usize])
        ensures { length self.new.spots.items ≡ length self.old.spots.items }
    {
        for at in (0..order.len()).rev() {
            self.measure_one(order[at]);
        }
    }

    /// Where the first slot of a switch begins.
    fn first_top(&self, spot: &Spot, top: Px) -> Px {
        top + (spot.block - self.heights(spot, spot.slots.as_slice())) / 2
    }

    /// Where a switch's machines stand: in the midst of their slot, or of its block.
    fn own_top(&self, spot: &Spot, top: Px) -> Px {
        match own_slot(spot.slots.as_slice()) {
            Some(number) => {
                let before = self.heights(spot, &spot.slots.as_slice()[..number]);
                let inside = (spot.band.high.max(BAND) - spot.band.high) / 2;
                self.first_top(spot, top) + before + inside
            }
            None => top + (spot.block - BETWEEN - spot.band.high) / 2,
        }
    }

    /// Notes the tops of a switch's slots below one another.
    fn hang(&self, spot: &Spot, top: Px, tops: &mut [Px]) {
        let mut y = self.first_top(spot, top);
        for slot in spot.slots.as_slice() {
            note_top(tops, *slot, y);
            y = y + self.slot_high(spot, *slot);
        }
    }

    /// Puts a switch's card and its machines there.
    fn put_spot(&mut self, switch: usize, card: Px, own: Px)
        requires { switch < length self.old.spots.items }
        ensures { length self.new.spots.items ≡ length self.old.spots.items }
    {
        let spot = &mut self.spots[switch];
        spot.card.y = card;
        spot.band.y = own;
    }

    /// Puts a block there: its card in its midst, and below another the blocks of its slots, whose tops are noted.
    fn put(&mut self, switch: usize, top: Px, tops: &mut [Px])
        ensures { length self.new.spots.items ≡ length self.old.spots.items }
    {
        let Some(spot) = self.spots.get(switch) else {
            return;
        };
        self.hang(spot, top, tops);
        let card = top + (spot.block - BETWEEN - spot.card.high) / 2;
        let own = self.own_top(spot, top);
        self.put_spot(switch, card, own);
    }

    /// Notes the tops of the roots' blocks below one another. The answer is where the last one ends.
    fn put_roots(&self, roots: &[usize], top: Px, tops: &mut [Px]) -> Px {
        let mut y = top;
        for root in roots {
            set_at(tops, *root, y);
            y = y + self.block(*root);
        }
        y
    }

    /// Puts the switches in that order, where their parents have noted.
    fn put_each(&mut self, order: &[usize], tops: &mut [Px])
        ensures { length self.new.spots.items ≡ length self.old.spots.items }
    {
        for switch in order {
            let top = at(tops, *switch);
            self.put(*switch, top, tops);
        }
    }

    /// From the roots down: where each block stands. The answer is where the last one ends.
    fn put_all(&mut self, alloc: Global, forest: &Forest, top: Px) -> Result<Px, Memory>
        ensures { OnOk result (length self.new.spots.items ≡ length self.old.spots.items) }
    {
        let mut tops = bare(alloc, self.spots.len())?;
        let end = self.put_roots(&forest.roots, top, &mut tops);
        self.put_each(&forest.order, &mut tops);
        Ok(end)
    }
}

/// The width of a layout from the end of its last column and its longest row.
fn wide_of(end: Px, cell: Px, columns: usize) -> Px {
    (end + BESIDE + row_wide(cell, columns) + MARGIN).max(LEAST)
}

/// How many machines fit a row of the narrowest picture, from 4 to 32.
pub(crate) fn fitting(alloc: Global, plan: Plan<'_>, cell: Px) -> Result<usize, Memory> {
    let columns = columns_of_lab(alloc, plan)?;
    let room = LEAST - columns.end() - BESIDE - MARGIN;
    let count = room / (cell + GAP).0;
    Ok(count.max(Px(4)).min(Px(32)).0 as usize)
}

/// The layout with at most so many machines in a row, whose tops aren't known yet.
fn begun(alloc: Global, plan: Plan<'_>, cell: Px, most: usize) -> Result<Layout, Memory>
    ensures { IfOk result (λ layout. length layout.spots.items ≡ length plan.entry.view.now.switches) }
{
    let columns = columns_of_lab(alloc, plan)?;
    let lone = plan.rows.lone.len();
    let lone_columns = columns_for(lone, most);
    let spots = spots_of(alloc, plan, &columns, cell, most)?;
    let wide = wide_of(columns.end(), cell, widest(lone_columns, &spots));
    Ok(Layout {
        spots,
        cell,
        last: columns.last(),
        wide,
        high: Px(0),
        lone: band_with(columns.end(), cell, lone, lone_columns),
        lone_columns,
    })
}

/// The layout with at most so many machines in a row.
pub(crate) fn layout_of(
    alloc: Global,
    plan: Plan<'_>,
    cell: Px,
    most: usize,
) -> Result<Layout, Memory>
    ensures { IfOk result (λ layout. length layout.spots.items ≡ length plan.entry.view.now.switches) }
{
    let mut layout = begun(alloc, plan, cell, most)?;
    layout.measure(&plan.forest.order);
    let top = head_high(layout.wide);
    let below = layout.put_all(alloc, plan.forest, top)?;
    layout.lone.y = below + 4;
    layout.high = lone_end(plan.rows.lone.len(), layout.lone_columns, below);
    Ok(layout)
}
