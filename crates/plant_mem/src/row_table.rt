// The table of the rows that stand.
ghost use Rattle.std.specs.Prelude.{◌≡◌, ◌≤◌, ◌<◌, ◌+◌, slice_get, if◌then◌else◌, vec_len, vec_capacity};
ghost use Rattle.std.specs.List.{list_any};
ghost use Rattle.std.specs.Str.{bytes_eq};
ghost use Rattle.plant.specs.Worlds.{World, after_op};
ghost use Rattle.plant_mem.specs.RowTables.{AreRows, entries_on, index, is_earlier, is_same, joined, left, index_for};

use crate::rows::Row;
use lab_base::{Name, VlanId};
use plant::DeviceOp;

fn is_on(row: &Row, switch: &Name) -> bool
    ensures { result ≡ bytes_eq (row.now).switch switch.now }
{
    row.switch == *switch
}

fn is_same(a: &Row, b: &Row) -> bool
    ensures { result ≡ is_same a.now b.now }
{
    is_on(a, &b.switch) && a.port == b.port && a.vlan.0 == b.vlan.0
}

/// Whether a row comes before another one of its switch.
fn is_earlier(a: &Row, b: &Row) -> bool
    ensures { result ≡ is_earlier a.now b.now }
{
    is_on(a, &b.switch) && (a.port < b.port || a.port == b.port && a.vlan.0 < b.vlan.0)
}

fn has(rows: &[Row], row: &Row) -> bool
    ensures { result ≡ list_any (is_same row.now) rows.now }
{
    rows.iter().any(|other| is_same(row, other))
}

/// How many rows at the front don't come later than a row.
fn index_for(rows: &[Row], row: &Row) -> usize
    ensures { result ≡ index_for row.now rows.now }
{
    for at in 0..rows.len() {
        if is_earlier(row, &rows[at]) {
            return at;
        }
    }
    rows.len()
}

/// Adds a row, if it isn't there.
fn join(rows: &mut Vec<Row>, row: Row)
    requires { vec_len rows.old < vec_capacity rows.old }
    ensures items { rows.new.items ≡ joined row rows.old.items }
    ensures len { vec_len rows.new ≤ vec_len rows.old + 1 }
    ensures capacity { vec_capacity rows.new ≡ vec_capacity rows.old }
{
    if has(rows, &row) {
        return;
    }
    let at = index_for(rows, &row);
    rows.insert(at, row).unwrap();
}

/// How many rows at the front are not that row.
fn index_of(rows: &[Row], row: &Row) -> usize
    ensures { result ≡ index row.now rows.now }
{
    for at in 0..rows.len() {
        if is_same(row, &rows[at]) {
            return at;
        }
    }
    rows.len()
}

/// Removes a row, if it is there.
fn leave(rows: &mut Vec<Row>, row: &Row)
    ensures items { rows.new.items ≡ left row.now rows.old.items }
    ensures len { vec_len rows.new ≤ vec_len rows.old }
    ensures capacity { vec_capacity rows.new ≡ vec_capacity rows.old }
{
    let at = index_of(rows, row);
    if at < rows.len() {
        let _row = rows.remove(at);
    }
}

/// Adds the row of a port and a VLAN id.
fn join_at(rows: &mut Vec<Row>, switch: Name, port: u16, id: u16)
    requires { vec_len rows.old < vec_capacity rows.old }
    ensures rows { (w : World) → AreRows w rows.old.items → AreRows (after_op w (DeviceOp.Join switch port (record { 0 = id }))) rows.new.items }
    ensures len { vec_len rows.new ≤ vec_len rows.old + 1 }
    ensures capacity { vec_capacity rows.new ≡ vec_capacity rows.old }
{
    let vlan = VlanId(id);
    join(rows, Row { switch, port, vlan });
}

/// Applies a command to the rows.
pub(crate) fn apply(rows: &mut Vec<Row>, op: &DeviceOp)
    requires { vec_len rows.old < vec_capacity rows.old }
    ensures rows { (w : World) → AreRows w rows.old.items → AreRows (after_op w op.now) rows.new.items }
    ensures len { vec_len rows.new ≤ vec_len rows.old + 1 }
    ensures capacity { vec_capacity rows.new ≡ vec_capacity rows.old }
{
    match op {
        DeviceOp::Join { switch, port, vlan } => join_at(rows, *switch, *port, vlan.0),
        DeviceOp::Leave { switch, port, vlan } => leave(
            rows,
            &Row {
                switch: *switch,
                port: *port,
                vlan: *vlan,
            },
        ),
        DeviceOp::Shape { .. }
        | DeviceOp::Load { .. }
        | DeviceOp::Boot { .. }
        | DeviceOp::Poll { .. }
        | DeviceOp::Wipe { .. } => {}
    }
}

/// Applies a command to the rows, or not.
pub(crate) fn apply_if(applied: bool, rows: &mut Vec<Row>, op: &DeviceOp)
    requires { vec_len rows.old < vec_capacity rows.old }
    ensures rows { (w : World) → AreRows w rows.old.items → AreRows (if applied then after_op w op.now else w) rows.new.items }
    ensures len { vec_len rows.new ≤ vec_len rows.old + 1 }
    ensures capacity { vec_capacity rows.new ≡ vec_capacity rows.old }
{
    if applied {
        apply(rows, op);
    }
}

/// The nth row of a switch.
pub(crate) fn nth_on(rows: &[Row], switch: &Name, nth: u32) -> Option<(u16, VlanId)>
    ensures { result ≡ slice_get (entries_on switch.now rows.now) nth }
{
    let mut left = nth;
    for row in rows {
        if is_on(row, switch) {
            if left == 0 {
                return Some((row.port, row.vlan));
            }
            left -= 1;
        }
    }
    None
}
