// The lines and the labels of trunks, and the second cards of switches.
ghost use Rattle.std.specs.Prelude.{◌≡◌, length, IfOk};

use crate::columns::BESIDE;
use crate::layout::{Layout, Plan, Slot, Spot, own_slot};
use crate::px::{Bounds, Px};
use crate::ways::{line_of, middle, small, way_of, wide_of};
use lab_base::Memory;
use lab_picture::{Card, Echo, Label, Line, Point, Way};
use std::alloc::Global;

/// The card in a box, with its words.
pub(crate) fn card_of(place: Bounds) -> Card {
    Card {
        place: small(place),
        words: Point {
            x: (place.x + 11).small(),
            y: (place.y + place.high / 2 - 3).small(),
        },
    }
}

/// The box of a switch's second card, before its machines.
fn second_box(last: Px, band: Bounds) -> Bounds {
    Bounds {
        x: last,
        y: middle(band) - 21,
        wide: band.x - BESIDE - last,
        high: Px(42),
    }
}

/// The second card of a switch that has both machines and further switches.
pub(crate) fn echo_of(layout: &Layout, spot: &Spot) -> Option<Echo> {
    let number = own_slot(spot.slots.as_slice())?;
    Some(Echo {
        card: card_of(second_box(layout.last, spot.band)),
        way: way_of(layout, spot, number, Slot::Own),
    })
}

/// By trunk its line and its label.
#[derive(Drop)]
pub(crate) struct Trunks {
    pub(crate) lines: Vec<Line>,
    pub(crate) labels: Vec<Label>,
}

const NO_WAY: Way = Way {
    from: Point { x: 0, y: 0 },
    bend: None,
    end: 0,
};

fn bare_trunks(alloc: Global, count: usize) -> Result<Trunks, Memory>
    ensures lines { IfOk result (λ trunks. length trunks.lines.items ≡ count) }
    ensures labels { IfOk result (λ trunks. length trunks.labels.items ≡ count) }
{
    let mut lines = Vec::new(alloc);
    let mut labels = Vec::new(alloc);
    for _number in 0..count {
        lines.push(Line {
            way: NO_WAY,
            wide: 0,
        })?;
        labels.push(Label {
            x: 0,
            name: 0,
            used: 0,
        })?;
    }
    Ok(Trunks { lines, labels })
}

/// A trunk's label, before the card at its end.
fn label_of(kbps: u64, card: Bounds) -> Label {
    let half = wide_of(kbps) / 2;
    let y = middle(card);
    Label {
        x: (card.x - 8).small(),
        name: (y - half - 4).small(),
        used: (y + half + 11).small(),
    }
}

impl Trunks {
    /// Notes the line and the label of a trunk.
    fn set(&mut self, up: usize, line: Line, label: Label)
        ensures lines { length self.new.lines.items ≡ length self.old.lines.items }
        ensures labels { length self.new.labels.items ≡ length self.old.labels.items }
    {
        if up < self.lines.len() {
            self.lines[up] = line;
        }
        if up < self.labels.len() {
            self.labels[up] = label;
        }
    }

    /// Notes the line and the label of the trunk that leads to a child.
    fn note(&mut self, plan: Plan<'_>, layout: &Layout, child: usize, way: Way)
        ensures lines { length self.new.lines.items ≡ length self.old.lines.items }
        ensures labels { length self.new.labels.items ≡ length self.old.labels.items }
    {
        let Some(up) = plan.forest.up(child) else {
            return;
        };
        let Some(trunk) = plan.view.trunks.as_slice().get(up) else {
            return;
        };
        let label = label_of(trunk.kbps, layout.card(child));
        self.set(up, line_of(trunk, way), label);
    }

    /// Notes the trunk of the slot of that number, if it is a child's.
    fn note_slot(&mut self, plan: Plan<'_>, layout: &Layout, spot: &Spot, number: usize, slot: Slot)
        ensures lines { length self.new.lines.items ≡ length self.old.lines.items }
        ensures labels { length self.new.labels.items ≡ length self.old.labels.items }
    {
        if let Slot::Child(child) = slot {
            let way = way_of(layout, spot, number, slot);
            self.note(plan, layout, child, way);
        }
    }

    /// Notes the trunks that lead from a switch to its children.
    fn note_all(&mut self, plan: Plan<'_>, layout: &Layout, spot: &Spot)
        ensures lines { length self.new.lines.items ≡ length self.old.lines.items }
        ensures labels { length self.new.labels.items ≡ length self.old.labels.items }
    {
        for (number, slot) in spot.slots.as_slice().iter().enumerate() {
            self.note_slot(plan, layout, spot, number, *slot);
        }
    }
}

/// The lines and the labels of all trunks.
pub(crate) fn trunks_of(alloc: Global, plan: Plan<'_>, layout: &Layout) -> Result<Trunks, Memory>
    ensures lines { IfOk result (λ trunks. length trunks.lines.items ≡ length plan.entry.view.now.trunks) }
    ensures labels { IfOk result (λ trunks. length trunks.labels.items ≡ length plan.entry.view.now.trunks) }
{
    let mut trunks = bare_trunks(alloc, plan.view.trunks.len())?;
    for spot in layout.spots.iter() {
        trunks.note_all(plan, layout, spot);
    }
    Ok(trunks)
}
