// Where everything stands, in pixels.
ghost use Rattle.std.specs.Prelude.{◌≡◌};
ghost use Rattle.lab_picture.specs.Places.{bounds_at, point_at, mark_at};

use lab_base::Items;

/// A rectangle.
#[derive(Clone, Copy)]
pub struct Bounds {
    pub x: u32,
    pub y: u32,
    pub wide: u32,
    pub high: u32,
}

/// A point.
#[derive(Clone, Copy)]
pub struct Point {
    pub x: u32,
    pub y: u32,
}

/// A line's way up or down in its lane, with round corners.
#[derive(Clone, Copy)]
pub struct Bend {
    /// Where it leaves the level, and the level.
    pub before: u32,
    pub level: u32,
    pub lane: u32,
    pub leave: u32,
    pub enter: u32,
    /// The other level, and where it is reached.
    pub below: u32,
    pub after: u32,
}

/// A line to the right, perhaps with a bend.
#[derive(Clone, Copy)]
pub struct Way {
    pub from: Point,
    pub bend: Option<Bend>,
    pub end: u32,
}

/// A trunk's line, and how wide it is.
#[derive(Clone, Copy)]
pub struct Line {
    pub way: Way,
    pub wide: u32,
}

/// Where a trunk's label ends: its name, and below that its use.
#[derive(Clone, Copy)]
pub struct Label {
    pub x: u32,
    pub name: u32,
    pub used: u32,
}

/// A card of a switch, and where its words begin.
#[derive(Clone, Copy)]
pub struct Card {
    pub place: Bounds,
    pub words: Point,
}

/// A second card of a switch, before its machines, and the line that leads there.
#[derive(Clone, Copy)]
pub struct Echo {
    pub card: Card,
    pub way: Way,
}

/// Where everything stands.
#[derive(Drop)]
pub struct Geometry {
    pub wide: u64,
    pub high: u64,
    /// How wide the lines and the strip are.
    pub across: u32,
    /// The size of the head, in tenths.
    pub scale: u32,
    /// The line below the head, and the line above the lists.
    pub head: u32,
    pub foot: u32,
    /// By switch its card, and its second card, if it has one.
    pub cards: Items<Card>,
    pub echoes: Items<Option<Echo>>,
    /// By trunk its line and its label.
    pub lines: Items<Line>,
    pub labels: Items<Label>,
    /// By machine its box.
    pub cells: Items<Bounds>,
    /// The heading of machines without an interface, if there are any.
    pub lone: Option<Point>,
    /// By VLAN id where it begins on the strip, and after the last one where the strip ends.
    pub marks: Items<u32>,
    pub strip: Bounds,
    /// The headings of the strip and of the list of experiments.
    pub ids: Point,
    pub list: Point,
    /// By experiment its entry in the list, and how far after it what it claims stands.
    pub entries: Items<Point>,
    pub second: u32,
}

/// The box of that number, one of no size beyond the last.
pub(crate) fn bounds_at(places: &[Bounds], number: usize) -> Bounds
    ensures { result ≡ bounds_at places.now number }
{
    match places.get(number) {
        Some(place) => *place,
        None => Bounds {
            x: 0,
            y: 0,
            wide: 0,
            high: 0,
        },
    }
}

/// The point of that number, the first one of the picture beyond the last.
pub(crate) fn point_at(points: &[Point], number: usize) -> Point
    ensures { result ≡ point_at points.now number }
{
    match points.get(number) {
        Some(point) => *point,
        None => Point { x: 0, y: 0 },
    }
}

/// Where the VLAN id of that number begins on the strip.
pub(crate) fn mark_at(marks: &[u32], number: usize) -> u32
    ensures { result ≡ mark_at marks.now number }
{
    match marks.get(number) {
        Some(mark) => *mark,
        None => 0,
    }
}
