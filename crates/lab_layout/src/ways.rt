// The lines of trunks, and those to a switch's own machines.

use crate::columns::{PORT, TURN, lane_of};
use crate::layout::{Layout, Slot, Spot};
use crate::px::{Bounds, Px};
use lab_picture::{Bend, Line, Point, Way};
use lab_view::Trunk;

/// How many digits a number has; 0 has none.
fn digits_of(number: u64) -> u64 {
    let mut count = 0_u64;
    let mut rest = number;
    for _digit in 0..20_usize {
        if rest > 0 {
            count = count.saturating_add(1);
            rest /= 10;
        }
    }
    count
}

/// How wide a trunk is drawn: wider by 2 pixels for each digit of its kbps.
pub(crate) fn wide_of(kbps: u64) -> Px {
    (Px(2) * digits_of(kbps)).max(Px(8)) - 3
}

/// A way: from a point to the right, up or down in its lane, and on to the right, with round corners.
fn bent(from: (Px, Px), lane: Px, to: (Px, Px)) -> Way {
    let (x, start) = from;
    let (end, below) = to;
    // (a step of a pixel or two would look like a fault)
    let y = if start.apart(below) <= Px(2) {
        below
    } else {
        start
    };
    Way {
        from: Point {
            x: x.small(),
            y: y.small(),
        },
        bend: if y == below {
            None
        } else {
            Some(corners(y, lane, below))
        },
        end: end.small(),
    }
}

fn corners(y: Px, lane: Px, below: Px) -> Bend {
    let round = (y.apart(below) / 2).min(Px(9));
    let (leave, enter) = if below > y {
        (y + round, below - round)
    } else {
        (y - round, below + round)
    };
    Bend {
        before: (lane - round).small(),
        level: y.small(),
        lane: lane.small(),
        leave: leave.small(),
        enter: enter.small(),
        below: below.small(),
        after: (lane + round).small(),
    }
}

/// The right edge of a box.
fn right(place: Bounds) -> Px {
    place.x + place.wide
}

/// The middle of a box from top to bottom.
pub(crate) fn middle(place: Bounds) -> Px {
    place.y + place.high / 2
}

/// Where the line of a slot ends.
fn end_of(layout: &Layout, spot: &Spot, slot: Slot) -> (Px, Px) {
    match slot {
        Slot::Child(child) => {
            let card = layout.card(child);
            (card.x, middle(card))
        }
        Slot::Own => (layout.last, middle(spot.band)),
    }
}

/// Where the line of the slot of that number leaves the card.
fn port(spot: &Spot, number: usize) -> Px {
    let between = spot.slots.len().saturating_sub(1) as u64;
    middle(spot.card) - PORT * between / 2 + PORT * number as u64
}

/// Which lane the line of the slot of that number takes when it ends at that height. Those that run up turn the sooner the higher
/// they end, those that run down the sooner the lower they do, so that no two cross.
fn turn_of(spot: &Spot, number: usize, below: Px) -> usize {
    if below < port(spot, number) {
        number
    } else {
        spot.slots.len().saturating_sub(number).saturating_sub(1)
    }
}

/// Where that lane behind a card is.
fn lane_at(spot: &Spot, turn: usize) -> Px {
    let lane = lane_of(spot.slots.len());
    right(spot.card) + TURN + lane * turn as u64
}

/// The line of a slot: from the card's right edge to its child's card, or to its own machines.
pub(crate) fn way_of(layout: &Layout, spot: &Spot, number: usize, slot: Slot) -> Way {
    let (end, below) = end_of(layout, spot, slot);
    let lane = lane_at(spot, turn_of(spot, number, below));
    bent((right(spot.card), port(spot, number)), lane, (end, below))
}

/// The line of a trunk.
pub(crate) fn line_of(trunk: &Trunk, way: Way) -> Line {
    Line {
        way,
        wide: wide_of(trunk.kbps).small(),
    }
}

/// A box as the picture has it.
pub(crate) fn small(place: Bounds) -> lab_picture::Bounds {
    lab_picture::Bounds {
        x: place.x.small(),
        y: place.y.small(),
        wide: place.wide.small(),
        high: place.high.small(),
    }
}
