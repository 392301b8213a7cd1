// The answers of the tables on devices, row by row and pipe by pipe.
ghost use Rattle.std.specs.Prelude.{◌≡◌, ◌≤◌, ◌<◌, ◌++◌, [], IfOk, OnOk, length, option_map, slice_get};
ghost use Rattle.std.specs.List.{cons_option, filter_map, find};
ghost use Rattle.plant.specs.Readings.{entry_of, IsBefore, IsEntry, IsListOf, HasPipe, TellsRow, TellsNode, TellsPipe, RowsFit, PipesFit};
ghost use Rattle.plant_file.specs.Entries.{is_pipe};
ghost use Rattle.plant_file.specs.Holding.{world_in, node_in};
ghost use Rattle.plant_file.specs.Kept.{entries_of};
ghost use Rattle.plant_file.specs.OnDevices.{pair_on, number_on, numbered};

use crate::entry::{Entry, Key};
use crate::lines_kept::Line;
use crate::tables::Tables;
use lab_base::{Memory, Name, VlanId};
use plant::{MAX_PIPES, NodeRow, PipeRow};
use std::alloc::Global;

/// Adds what was found, if anything was.
fn add<T: Copy>(list: &mut Vec<T>, found: Option<T>) -> Result<(), Memory>
    ensures { OnOk result (list.new.items ≡ list.old.items ++ cons_option found []) }
{
    if let Some(value) = found {
        list.push(value)?;
    }
    Ok(())
}

/// The port and the VLAN id of a line that is a row of the switch.
fn pair_on(line: &Line, switch: &Name) -> Option<(u16, u16)>
    ensures { result ≡ pair_on switch.now line.now.entry.value }
{
    match &*line.entry {
        Entry::Row {
            switch: own,
            port,
            vlan,
        } => {
            if *own == *switch {
                Some((*port, vlan.0))
            } else {
                None
            }
        }
        Entry::Bare { .. } | Entry::Node { .. } | Entry::Pipe { .. } => None,
    }
}

/// The rows of a switch, in the order of their lines.
fn pairs_on(alloc: Global, lines: &[Line], switch: &Name) -> Result<Vec<(u16, u16)>, Memory>
    ensures { IfOk result (λ pairs. pairs.items ≡ filter_map (pair_on switch.now) (entries_of lines.now)) }
{
    let mut pairs = Vec::new(alloc);
    for line in lines {
        add(&mut pairs, pair_on(line, switch))?;
    }
    Ok(pairs)
}

/// The rows of a switch, by port and then by VLAN id, each once.
fn rows_of(alloc: Global, tables: &Tables, switch: &Name) -> Result<Vec<(u16, u16)>, Memory>
    ensures rows { IfOk result (λ rows. IsListOf IsBefore (IsEntry (world_in tables.now) switch.now) rows.items) }
    ensures fits { OnOk result (RowsFit (world_in tables.now) switch.now) }
{
    let mut rows = pairs_on(alloc, tables.lines(), switch)?;
    rows.sort()?;
    rows.dedup();
    Ok(rows)
}

fn row_at(rows: &[(u16, u16)], nth: u32) -> Option<(u16, VlanId)>
    ensures { option_map entry_of result ≡ slice_get rows.now nth }
{
    match rows.get(nth as usize) {
        Some(row) => Some((row.0, VlanId(row.1))),
        None => None,
    }
}

/// The nth row of a switch.
pub(crate) fn row_of(
    alloc: Global,
    tables: &Tables,
    switch: &Name,
    nth: u32,
) -> Result<Option<(u16, VlanId)>, Memory>
    ensures row { IfOk result (TellsRow (world_in tables.now) switch.now nth) }
    ensures fits { OnOk result (RowsFit (world_in tables.now) switch.now) }
{
    let rows = rows_of(alloc, tables, switch)?;
    Ok(row_at(&rows, nth))
}

/// The number of a line that is a pipe of the node.
fn number_on(line: &Line, node: &Name) -> Option<u16>
    ensures { result ≡ number_on node.now line.now.entry.value }
{
    match &*line.entry {
        Entry::Pipe {
            node: own,
            number,
            ..
        } => { if *own == *node { Some(*number) } else { None } }
        Entry::Row { .. } | Entry::Bare { .. } | Entry::Node { .. } => None,
    }
}

/// The numbers of the pipes of a node, in the order of their lines.
fn numbers_on(alloc: Global, lines: &[Line], node: &Name) -> Result<Vec<u16>, Memory>
    ensures { IfOk result (λ numbers. numbers.items ≡ filter_map (number_on node.now) (entries_of lines.now)) }
{
    let mut numbers = Vec::new(alloc);
    for line in lines {
        add(&mut numbers, number_on(line, node))?;
    }
    Ok(numbers)
}

/// The numbers of the pipes of a node, each once.
fn numbers_of(alloc: Global, tables: &Tables, node: &Name) -> Result<Vec<u16>, Memory>
    ensures numbers { IfOk result (λ numbers. IsListOf ◌<◌ (HasPipe (node_in tables.now node.now)) numbers.items) }
    ensures fits { OnOk result (PipesFit (node_in tables.now node.now)) }
    ensures few { IfOk result (λ numbers. length numbers.items ≤ MAX_PIPES) }
{
    let mut numbers = numbers_on(alloc, tables.lines(), node)?;
    numbers.sort()?;
    numbers.dedup();
    Ok(numbers)
}

/// The row of a node.
pub(crate) fn node_of(alloc: Global, tables: &Tables, node: &Name) -> Result<NodeRow, Memory>
    ensures { IfOk result (TellsNode (node_in tables.now node.now)) }
{
    let numbers = numbers_of(alloc, tables, node)?;
    Ok(NodeRow {
        os: tables.os_of(*node),
        state: tables.state_of(*node),
        pipes: numbers.len() as u32,
    })
}

/// The pipe of an entry, where it is one.
fn numbered(entry: &Option<Entry>) -> Option<PipeRow>
    ensures { result ≡ numbered entry.now }
{
    match entry {
        Some(
            Entry::Pipe {
                number,
                from,
                to,
                there,
                back,
                ..
            },
        ) => Some(PipeRow {
            pipe: *number,
            from: *from,
            to: *to,
            there: *there,
            back: *back,
        }),
        _ => None,
    }
}

/// The pipe of that number.
fn pipe_at(tables: &Tables, node: &Name, number: u16) -> Option<PipeRow>
    ensures { result ≡ numbered (find (is_pipe node.now number) tables.now) }
{
    numbered(&tables.find(&Key::Pipe {
        node: *node,
        number,
    }))
}

fn number_at(numbers: &[u16], nth: u16) -> Option<u16>
    ensures { result ≡ slice_get numbers.now nth }
{
    match numbers.get(nth as usize) {
        Some(number) => Some(*number),
        None => None,
    }
}

/// The nth pipe of a node.
pub(crate) fn pipe_of(
    alloc: Global,
    tables: &Tables,
    node: &Name,
    nth: u16,
) -> Result<Option<PipeRow>, Memory>
    ensures pipe { IfOk result (TellsPipe (node_in tables.now node.now) nth) }
    ensures fits { OnOk result (PipesFit (node_in tables.now node.now)) }
{
    let numbers = numbers_of(alloc, tables, node)?;
    match number_at(&numbers, nth) {
        Some(number) => Ok(pipe_at(tables, node, number)),
        None => Ok(None),
    }
}
