//! The commands that devices obeyed in a run, and their state after it.
use lab_base::{Boot, Name};
use layer_rows::{boot_word, letters};
use plant::{Answer, DeviceOp, Fault, Step};
use plant_mem::MemLab;
use std::alloc::{AllocError, Global};
use std::collections::{BTreeMap, BTreeSet};
use std::fmt::Write;

/// A node with its state and its OS, where it isn't off without one.
fn node_line(alloc: Global, plant: &MemLab, node: &Name) -> Result<Option<String>, AllocError> {
    let row = plant.node_row(*node);
    let (name, state) = (letters(node), boot_word(row.state));
    match row.os {
        Some(os) => Ok(Some(format!(in alloc; "node {name} {state} {}", letters(&os))?)),
        None if row.state == Boot::Off => Ok(None),
        None => Ok(Some(format!(in alloc; "node {name} {state}")?)),
    }
}

/// The state of the port or node that a command named.
fn held_of(alloc: Global, plant: &MemLab, op: &DeviceOp) -> Result<Option<String>, AllocError> {
    match op {
        DeviceOp::Join { switch, port, vlan } | DeviceOp::Leave { switch, port, vlan } => {
            if !plant.has_row(*switch, *port, *vlan) {
                return Ok(None);
            }
            let switch = letters(switch);
            Ok(Some(format!(in alloc; "row {switch} {port} {}", vlan.0)?))
        }
        DeviceOp::Shape { node, .. }
        | DeviceOp::Load { node, .. }
        | DeviceOp::Boot { node }
        | DeviceOp::Poll { node }
        | DeviceOp::Wipe { node } => node_line(alloc, plant, node),
    }
}

/// Adds the states of the devices, a line each.
pub fn add_held(out: &mut String, alloc: Global, plant: &MemLab) -> Result<(), AllocError> {
    let mut lines = BTreeSet::new(alloc);
    for step in plant.trace() {
        if let Step::Did { op, .. } = step
            && let Some(line) = held_of(alloc, plant, op)?
        {
            lines.insert(line)?;
        }
    }
    for line in &lines {
        writeln!(out, "{line}")?;
    }
    Ok(())
}

/// The count to which a command belongs: the boots of a node, the polls that were answered with a state, or all others.
fn counted(
    alloc: Global,
    op: &DeviceOp,
    answer: &Result<Answer, Fault>,
) -> Result<String, AllocError> {
    match (op, answer) {
        (DeviceOp::Boot { node }, _) => format!(in alloc; "boots {}", letters(node)),
        (DeviceOp::Poll { .. }, Ok(Answer::State(state))) => {
            format!(in alloc; "polls {}", boot_word(*state))
        }
        _ => "others".to_string(alloc),
    }
}

/// Adds the counts of commands, a line each.
pub fn add_did(out: &mut String, alloc: Global, plant: &MemLab) -> Result<(), AllocError> {
    let mut counts: BTreeMap<String, u32> = BTreeMap::new(alloc);
    for step in plant.trace() {
        if let Step::Did { op, answer, .. } = step {
            let what = counted(alloc, op, answer)?;
            let count = counts.get(&what).copied().unwrap_or(0).saturating_add(1);
            counts.insert(what, count)?;
        }
    }
    for (what, count) in &counts {
        writeln!(out, "{what} {count}")?;
    }
    Ok(())
}
