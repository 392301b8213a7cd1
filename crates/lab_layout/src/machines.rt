// How wide machines are, and how they stand in rows.

use crate::layout::{CELL_HIGH, GAP};
use crate::limits::LEAST_WIDE;
use crate::px::{Px, width};
use lab_view::View;

/// The width of a machine by its name.
fn machine_wide(letters: usize) -> Px {
    width(letters, 105) + 22
}

/// The width of a machine by the name of an experiment, of which it shows up to 12 letters.
fn held_wide(letters: usize) -> Px {
    width(letters.min(12), 90) + width(4, 90) + 20
}

/// The width of a machine by the names of machines, of which it has room for at least 9 letters.
fn machines_wide(view: &View) -> Px {
    let mut most = Px(u64::from(LEAST_WIDE));
    for machine in view.machines.as_slice() {
        most = most.max(machine_wide(machine.name.bytes().len()));
    }
    most
}

/// The width of a machine: of the names of machines, and of those of experiments.
pub(crate) fn cell_width(view: &View) -> Px {
    let mut most = machines_wide(view);
    for exp in view.experiments.as_slice() {
        most = most.max(held_wide(exp.name.bytes().len()));
    }
    most
}

/// How many machines a row has where a switch has so many: the rows are equally long.
pub(crate) fn columns_for(count: usize, most: usize) -> usize {
    if count == 0 || most == 0 {
        return 0;
    }
    count.div_ceil(count.div_ceil(most))
}

/// How high machines in so many columns are.
pub(crate) fn rows_high(count: usize, columns: usize) -> Px {
    if columns == 0 {
        return Px(0);
    }
    let rows = count.div_ceil(columns) as u64;
    CELL_HIGH * rows + GAP * rows - GAP
}
