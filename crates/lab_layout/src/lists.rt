// Where the lists below a lab stand.
ghost use Rattle.std.specs.Prelude.{◌≡◌, ◌+◌, length, IfOk};

use crate::columns::MARGIN;
use crate::px::{Px, width};
use lab_base::{Items, Memory};
use lab_picture::Point;
use lab_view::View;
use std::alloc::Global;

const ROW: Px = Px(21);
/// Above the list of experiments: its heading.
const LIST: Px = Px(104);
/// From an entry's left edge to its name.
const NAME: Px = Px(44);

/// How wide the names of experiments are.
fn names_wide(view: &View) -> Px {
    let mut letters = 6;
    for exp in view.experiments.as_slice() {
        letters = letters.max(exp.name.bytes().len());
    }
    width(letters, 110)
}

/// From an entry's left edge to what the experiment claims.
pub(crate) fn second(view: &View) -> Px {
    NAME + names_wide(view) + 10
}

/// The width of a column: a swatch, a name and what the experiment claims.
fn column_wide(view: &View) -> Px {
    second(view) + width(34, 95) + 20
}

/// How many rows the list of experiments has.
fn rows_of(view: &View, wide: Px) -> usize {
    let columns = (wide - MARGIN - MARGIN) / column_wide(view).0;
    let columns = columns.min(Px(256)).0 as usize;
    view.experiments.len().div_ceil(columns.max(1))
}

/// How high the lists are.
pub(crate) fn lists_high(view: &View, wide: Px) -> Px {
    LIST + ROW * rows_of(view, wide) as u64 + 30
}

/// Where the VLAN id of that number begins on a strip that shows so many; it ends where the last of these does.
fn mark_of(number: usize, shown: usize, across: Px) -> u32 {
    (MARGIN + across * number.min(shown) as u64 / shown as u64).small()
}

/// By VLAN id where it begins on a strip of that width, and after the last one where the strip ends.
pub(crate) fn marks_of(
    alloc: Global,
    count: usize,
    shown: usize,
    across: Px,
) -> Result<Items<u32>, Memory>
    ensures { IfOk result (λ marks. length marks ≡ count + 1) }
{
    let mut marks = Items::new(alloc);
    for number in 0..count {
        marks.push(mark_of(number, shown, across))?;
    }
    marks.push(mark_of(count, shown, across))?;
    Ok(marks)
}

/// Where the entry of that number stands in columns of so many rows, each so wide.
fn entry_at(number: usize, rows: usize, column: Px, top: Px) -> Point {
    let rows = rows.max(1);
    let x = MARGIN + column * (number / rows) as u64;
    let y = top + LIST + ROW * (number % rows) as u64 - 12;
    Point {
        x: x.small(),
        y: y.small(),
    }
}

/// By experiment its entry, column by column.
pub(crate) fn entries_of(
    alloc: Global,
    view: &View,
    wide: Px,
    top: Px,
) -> Result<Items<Point>, Memory>
    ensures { IfOk result (λ entries. length entries ≡ length view.now.experiments) }
{
    let rows = rows_of(view, wide);
    let column = column_wide(view);
    let mut entries = Items::new(alloc);
    for number in 0..view.experiments.len() {
        entries.push(entry_at(number, rows, column, top))?;
    }
    Ok(entries)
}
