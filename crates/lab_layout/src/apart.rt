// Machines that don't overlap.
ghost use Rattle.std.specs.Prelude.{◌≡◌, ◌≤◌, ◌<◌, ◌+◌, ◌⊎◌, ◌↔◌, length, All, AllPairs, IsTrue, IfOk};
ghost use Rattle.lab_layout.specs.Laid.{IsApart, HasRoom, AreApart, stacked, all_stacked};

use crate::limits::{LEAST_HIGH, LEAST_WIDE, MAX_CELLS};
use lab_base::{Items, Memory};
use lab_picture::Bounds;
use std::alloc::Global;

/// Whether an edge ends where another begins, or before.
fn is_before(start: u32, size: u32, next: u32) -> bool
    ensures { IsTrue result ↔ (start + size ≤ next) }
{
    u64::from(start) + u64::from(size) <= u64::from(next)
}

fn is_beside(one: Bounds, other: Bounds) -> bool
    ensures { IsTrue result ↔ ((one.x + one.wide ≤ other.x) ⊎ (other.x + other.wide ≤ one.x)) }
{
    is_before(one.x, one.wide, other.x) || is_before(other.x, other.wide, one.x)
}

fn is_above(one: Bounds, other: Bounds) -> bool
    ensures { IsTrue result ↔ ((one.y + one.high ≤ other.y) ⊎ (other.y + other.high ≤ one.y)) }
{
    is_before(one.y, one.high, other.y) || is_before(other.y, other.high, one.y)
}

fn is_apart(one: Bounds, other: Bounds) -> bool
    ensures { IsTrue result ↔ IsApart one other }
{
    is_beside(one, other) || is_above(one, other)
}

fn has_room(place: Bounds) -> bool
    ensures { IsTrue result ↔ HasRoom place }
{
    place.wide >= LEAST_WIDE && place.high >= LEAST_HIGH
}

fn is_apart_from(one: Bounds, others: &[Bounds]) -> bool
    ensures { IsTrue result ↔ All (IsApart one) others.now }
{
    for other in others {
        if !is_apart(one, *other) {
            return false;
        }
    }
    true
}

fn all_have_room(places: &[Bounds]) -> bool
    ensures { IsTrue result ↔ All HasRoom places.now }
{
    for place in places {
        if !has_room(*place) {
            return false;
        }
    }
    true
}

fn all_are_apart(places: &[Bounds]) -> bool
    ensures { IsTrue result ↔ AllPairs IsApart places.now }
{
    for (number, place) in places.iter().enumerate() {
        if !is_apart_from(*place, &places[number + 1..]) {
            return false;
        }
    }
    true
}

/// Where the machine of that number stands in a column of all.
fn stacked(number: usize) -> Bounds
    requires { number < MAX_CELLS }
    ensures { result ≡ stacked number }
{
    Bounds {
        x: 40,
        y: 138 + 49 * number as u32,
        wide: LEAST_WIDE,
        high: LEAST_HIGH,
    }
}

/// Machines below one another.
fn column(alloc: Global, count: usize) -> Result<Items<Bounds>, Memory>
    requires { count ≤ MAX_CELLS }
    ensures len { IfOk result (λ cells. length cells ≡ count) }
    ensures cells { IfOk result (λ cells. cells ≡ all_stacked count) }
    ensures apart { IfOk result AreApart }
{
    let mut cells = Items::new(alloc);
    for number in 0..count {
        cells.push(stacked(number))?;
    }
    Ok(cells)
}

fn are_apart(places: &[Bounds]) -> bool
    ensures { IsTrue result ↔ AreApart places.now }
{
    all_have_room(places) && all_are_apart(places)
}

/// These boxes, where no two overlap and each has room. No lab is known of which that isn't so; machines stand below one another then.
pub(crate) fn set_apart(alloc: Global, cells: Items<Bounds>) -> Result<Items<Bounds>, Memory>
    ensures len { IfOk result (λ apart. length apart ≡ length cells) }
    ensures apart { IfOk result (λ apart. length cells ≤ MAX_CELLS → AreApart apart) }
{
    if cells.len() > MAX_CELLS || are_apart(cells.as_slice()) {
        return Ok(cells);
    }
    column(alloc, cells.len())
}
