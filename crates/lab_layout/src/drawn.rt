// Where everything stands in the picture of a lab.
ghost use Rattle.std.specs.Prelude.{◌≡◌, ◌≤◌, ◌+◌, length, is_some, IfOk};
ghost use Rattle.lab_view.specs.Lines.{has_lone};
ghost use Rattle.lab_layout.specs.Laid.{HasPlaces, IsLaid, AreApart};

use crate::apart::set_apart;
use crate::columns::MARGIN;
use crate::layout::{CELL_HIGH, GAP, Layout, Plan, fitting, head_high, head_scale, layout_of};
use crate::limits::MAX_CELLS;
use crate::lists::{entries_of, lists_high, marks_of, second};
use crate::machines::cell_width;
use crate::px::{Bounds, Px};
use crate::rows::Rows;
use crate::tree::forest_of;
use crate::trunks::{card_of, echo_of, trunks_of};
use crate::ways::small;
use crate::within::Reach;
use lab_base::{Items, Memory};
use lab_picture::{Card, Echo, Geometry, Point};
use lab_view::View;
use std::alloc::Global;

/// How far a picture is from a sheet of paper on its side, whose edges are as 7 and 5, in thousandths.
fn off(layout: &Layout, view: &View) -> Px {
    let wide = layout.wide * 5;
    let high = (layout.high + lists_high(view, layout.wide)) * 7;
    wide.apart(high) * 1_000 / wide.max(high).0
}

/// Whether at least half of the switches with machines have so many, or a fifth less.
fn is_usual(plan: Plan<'_>, most: usize) -> bool {
    let mut all = 0_usize;
    let mut full = 0_usize;
    for switch in 0..plan.view.switches.len() {
        let count = plan.rows.under(switch).len();
        if count > 0 {
            all = all.saturating_add(1);
        }
        if count.saturating_mul(5) >= most.saturating_mul(4) {
            full = full.saturating_add(2);
        }
    }
    full >= all
}

/// The layout whose picture is nearest to a sheet of paper on its side. Rows are at least as long as the narrowest picture has room for, and
/// no longer than is usual: a switch with more machines has further rows.
fn best_layout(alloc: Global, plan: Plan<'_>) -> Result<Layout, Memory>
    ensures { IfOk result (λ layout. length layout.spots.items ≡ length plan.entry.view.now.switches) }
{
    let cell = cell_width(plan.view);
    let least = fitting(alloc, plan, cell)?;
    let mut best = layout_of(alloc, plan, cell, least)?;
    for most in 5..33 {
        if most > least && is_usual(plan, most) {
            let other = layout_of(alloc, plan, cell, most)?;
            if off(&other, plan.view) < off(&best, plan.view) {
                best = other;
            }
        }
    }
    Ok(best)
}

/// The row of the machine with so many before it; the first one where rows have none.
fn row_of(number: usize, columns: usize) -> usize {
    match number.checked_div(columns) {
        Some(row) => row,
        None => 0,
    }
}

/// Where the machine with so many before it stands in a band with rows of so many.
fn cell_of(band: Bounds, columns: usize, cell: Px, number: usize) -> lab_picture::Bounds {
    let row = row_of(number, columns);
    let column = number.saturating_sub(row.saturating_mul(columns));
    small(Bounds {
        x: band.x + (cell + GAP) * column as u64,
        y: band.y + (CELL_HIGH + GAP) * row as u64,
        wide: cell,
        high: CELL_HIGH,
    })
}

/// Notes where the machines of a band stand.
fn note_cells(
    cells: &mut [lab_picture::Bounds],
    numbers: &[usize],
    band: Bounds,
    columns: usize,
    cell: Px,
) {
    for (at, number) in numbers.iter().enumerate() {
        if *number < cells.len() {
            cells[*number] = cell_of(band, columns, cell, at);
        }
    }
}

const NOWHERE: lab_picture::Bounds = lab_picture::Bounds {
    x: 0,
    y: 0,
    wide: 0,
    high: 0,
};

fn bare_cells(alloc: Global, count: usize) -> Result<Vec<lab_picture::Bounds>, Memory>
    ensures { IfOk result (λ cells. length cells.items ≡ count) }
{
    let mut cells = Vec::new(alloc);
    for _number in 0..count {
        cells.push(NOWHERE)?;
    }
    Ok(cells)
}

/// By machine its box.
fn cells_of(
    alloc: Global,
    plan: Plan<'_>,
    layout: &Layout,
) -> Result<Items<lab_picture::Bounds>, Memory>
    ensures { IfOk result (λ cells. length cells ≡ length plan.entry.view.now.machines) }
{
    let mut cells = bare_cells(alloc, plan.view.machines.len())?;
    for (switch, spot) in layout.spots.iter().enumerate() {
        note_cells(
            &mut cells,
            plan.rows.under(switch),
            spot.band,
            spot.columns,
            layout.cell,
        );
    }
    note_cells(
        &mut cells,
        &plan.rows.lone,
        layout.lone,
        layout.lone_columns,
        layout.cell,
    );
    Ok(Items::from_vec(cells))
}

/// By machine its box, where no two overlap.
fn cells_apart(
    alloc: Global,
    plan: Plan<'_>,
    layout: &Layout,
) -> Result<Items<lab_picture::Bounds>, Memory>
    ensures len { IfOk result (λ cells. length cells ≡ length plan.entry.view.now.machines) }
    ensures apart { IfOk result (λ cells. length plan.entry.view.now.machines ≤ MAX_CELLS → AreApart cells) }
{
    let cells = cells_of(alloc, plan, layout)?;
    let apart = set_apart(alloc, cells)?;
    Ok(apart)
}

fn cards_of(alloc: Global, layout: &Layout) -> Result<Items<Card>, Memory>
    ensures { IfOk result (λ cards. length cards ≡ length layout.now.spots.items) }
{
    let mut cards = Items::new(alloc);
    for spot in layout.spots.iter() {
        cards.push(card_of(spot.card))?;
    }
    Ok(cards)
}

fn echoes_of(alloc: Global, layout: &Layout) -> Result<Items<Option<Echo>>, Memory>
    ensures { IfOk result (λ echoes. length echoes ≡ length layout.now.spots.items) }
{
    let mut echoes = Items::new(alloc);
    for spot in layout.spots.iter() {
        echoes.push(echo_of(layout, spot))?;
    }
    Ok(echoes)
}

/// Where the heading of machines without an interface stands.
fn lone_of(plan: Plan<'_>, layout: &Layout) -> Option<Point>
    ensures { is_some result ≡ has_lone plan.entry.view.now }
{
    if plan.rows.lone.is_empty() {
        return None;
    }
    Some(Point {
        x: layout.last.small(),
        y: (layout.lone.y + 24).small(),
    })
}

/// A point at measures from the left and from above.
fn point(x: Px, y: Px) -> Point {
    Point {
        x: x.small(),
        y: y.small(),
    }
}

/// How wide the strip of VLAN ids is.
fn across_of(layout: &Layout) -> Px {
    layout.wide - MARGIN * 2
}

/// Where the lists below a layout begin.
fn lists_top(layout: &Layout) -> Px {
    layout.high + 10
}

/// The strip of VLAN ids below a layout, as wide as that.
fn strip_below(layout: &Layout, across: Px) -> lab_picture::Bounds {
    small(Bounds {
        x: MARGIN,
        y: layout.high + 40,
        wide: across,
        high: Px(14),
    })
}

/// How far a layout reaches with the lists below it.
fn reach_of(layout: &Layout, view: &View) -> Reach {
    Reach {
        wide: layout.wide.0,
        high: (layout.high + lists_high(view, layout.wide)).0,
    }
}

/// How large the title and the key are.
fn scale_of(layout: &Layout) -> u32 {
    Px(head_scale(layout.wide)).small()
}

/// Where the title and the key end.
fn head_of(layout: &Layout) -> u32 {
    (head_high(layout.wide) - 12).small()
}

/// Where all that stands above the lists ends.
fn foot_of(layout: &Layout) -> u32 {
    (layout.high + 2).small()
}

/// Where the heading of a list stands, so far below the begin of the lists.
fn heading(layout: &Layout, below: u64) -> Point {
    point(MARGIN, lists_top(layout) + below)
}

/// How many VLAN ids a strip of that width shows: as many as have two pixels each, and at least those up to the last one that is claimed,
/// and an eighth more.
fn shown_ids(view: &View, across: Px) -> usize {
    let mut last = 0_usize;
    for (place, owner) in view.owners.as_slice().iter().enumerate() {
        if owner.is_some() {
            last = place;
        }
    }
    let claimed = last.saturating_add(last / 8).saturating_add(2);
    let wide = (across / 2).0 as usize;
    claimed.max(wide).min(view.owners.len())
}

/// By VLAN id where it begins on the strip below a layout.
fn marks_below(alloc: Global, view: &View, layout: &Layout) -> Result<Items<u32>, Memory>
    ensures { IfOk result (λ marks. length marks ≡ length view.now.owners + 1) }
{
    let across = across_of(layout);
    let shown = shown_ids(view, across);
    marks_of(alloc, view.owners.len(), shown, across)
}

/// By experiment its entry below a layout.
fn entries_below(alloc: Global, view: &View, layout: &Layout) -> Result<Items<Point>, Memory>
    ensures { IfOk result (λ entries. length entries ≡ length view.now.experiments) }
{
    entries_of(alloc, view, layout.wide, lists_top(layout))
}

/// The picture of a layout, as large as that and the lists below it.
fn placed(alloc: Global, plan: Plan<'_>, layout: &Layout) -> Result<Geometry, Memory>
    requires { length layout.now.spots.items ≡ length plan.view.now.switches }
    ensures places { IfOk result (HasPlaces plan.entry.view.now) }
    ensures apart { IfOk result (λ g. length plan.entry.view.now.machines ≤ MAX_CELLS → AreApart g.cells) }
{
    let view = plan.view;
    let trunks = trunks_of(alloc, plan, layout)?;
    let reach = reach_of(layout, view);
    Ok(Geometry {
        wide: reach.wide,
        high: reach.high,
        across: across_of(layout).small(),
        scale: scale_of(layout),
        head: head_of(layout),
        foot: foot_of(layout),
        cards: cards_of(alloc, layout)?,
        echoes: echoes_of(alloc, layout)?,
        lines: Items::from_vec(trunks.lines),
        labels: Items::from_vec(trunks.labels),
        cells: cells_apart(alloc, plan, layout)?,
        lone: lone_of(plan, layout),
        marks: marks_below(alloc, view, layout)?,
        strip: strip_below(layout, across_of(layout)),
        ids: heading(layout, 20),
        list: heading(layout, 80),
        entries: entries_below(alloc, view, layout)?,
        second: second(view).small(),
    })
}

/// The picture of a layout.
fn drawn(alloc: Global, plan: Plan<'_>, layout: &Layout) -> Result<Geometry, Memory>
    requires { length layout.now.spots.items ≡ length plan.view.now.switches }
    ensures { IfOk result (IsLaid plan.entry.view.now) }
{
    let mut geometry = placed(alloc, plan, layout)?;
    let reach = reach_of(layout, plan.view).over_picture(
        geometry.strip,
        geometry.cells.as_slice(),
        geometry.cards.as_slice(),
        geometry.echoes.as_slice(),
        geometry.entries.as_slice(),
    );
    geometry.wide = reach.wide;
    geometry.high = reach.high;
    Ok(geometry)
}

/// Where everything stands in the picture of a lab.
pub fn geometry_of(alloc: Global, view: &View) -> Result<Geometry, Memory>
    ensures { IfOk result (IsLaid view.now) }
{
    let forest = forest_of(alloc, view)?;
    let rows = Rows::new(alloc, view)?;
    let plan = Plan {
        view,
        forest: &forest,
        rows: &rows,
    };
    let layout = best_layout(alloc, plan)?;
    drawn(alloc, plan, &layout)
}
