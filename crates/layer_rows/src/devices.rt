//! Commands to devices, and what these hold.
use crate::answers::{answer_word, boot_word, letters, yes_or_no};
use lab_base::{Name, Rates};
use plant::{DeviceOp, Plant};
use plant_mem::MemLab;
use row_words::{RowFault, Words};
use std::alloc::AllocError;
use std::fmt::Write;

/// A command to a switch.
fn of_port(joins: bool, words: &mut Words<'_>) -> Result<DeviceOp, RowFault> {
    let switch = words.name()?;
    let port = words.short()?;
    let vlan = words.vlan()?;
    Ok(if joins {
        DeviceOp::Join { switch, port, vlan }
    } else {
        DeviceOp::Leave { switch, port, vlan }
    })
}

/// Rates, of which the last two may be left out.
fn rates(words: &mut Words<'_>) -> Result<Rates, RowFault> {
    let kbps = words.number()?;
    let (mut micros, mut ppm) = (0, 0);
    if !words.rest().is_empty() {
        micros = words.number()?;
        ppm = words.number()?;
    }
    Ok(Rates {
        kbps: u64::from(kbps),
        micros,
        ppm,
    })
}

/// A command that shapes what goes between two interfaces of a node. Where it has no other rates for the way back, they are the same.
fn of_pipe(node: Name, words: &mut Words<'_>) -> Result<DeviceOp, RowFault> {
    let pipe = words.short()?;
    let there = rates(words)?;
    let back = if words.rest().is_empty() {
        there
    } else {
        rates(words)?
    };
    Ok(DeviceOp::Shape {
        node,
        pipe,
        from: Name::read(b"eth0")?,
        to: Name::read(b"eth1")?,
        there,
        back,
    })
}

/// A command to a node.
fn of_node(kind: &str, words: &mut Words<'_>) -> Result<DeviceOp, RowFault> {
    let node = words.name()?;
    match kind {
        "load" => Ok(DeviceOp::Load {
            node,
            os: words.name()?,
        }),
        "shape" => of_pipe(node, words),
        "boot" => Ok(DeviceOp::Boot { node }),
        "poll" => Ok(DeviceOp::Poll { node }),
        _ => Ok(DeviceOp::Wipe { node }),
    }
}

/// The command of that kind, if there is one.
pub fn op_of(kind: &str, words: &mut Words<'_>) -> Result<Option<DeviceOp>, RowFault> {
    match kind {
        "join" => Ok(Some(of_port(true, words)?)),
        "leave" => Ok(Some(of_port(false, words)?)),
        "load" | "shape" | "boot" | "poll" | "wipe" => Ok(Some(of_node(kind, words)?)),
        _ => Ok(None),
    }
}

/// Adds whether a port of a switch is in a VLAN.
fn push_row(out: &mut String, plant: &MemLab, words: &mut Words<'_>) -> Result<(), RowFault> {
    let switch = words.name()?;
    let port = words.short()?;
    let vlan = words.vlan()?;
    Ok(out.push_str(yes_or_no(plant.has_row(switch, port, vlan)))?)
}

/// Adds the OS of a node, where it has one, its state, and how many pipes are set.
fn push_node(out: &mut String, plant: &MemLab, node: Name) -> Result<(), AllocError> {
    let row = plant.node_row(node);
    if let Some(os) = row.os {
        out.push_str(letters(&os))?;
        out.push(' ')?;
    }
    write!(out, "{} {}", boot_word(row.state), row.pipes)
}

/// Sends a command, and adds the answer, if it is one.
pub fn obeyed<P: Plant>(
    out: &mut String,
    plant: &mut P,
    kind: &str,
    words: &mut Words<'_>,
) -> Result<bool, RowFault> {
    match op_of(kind, words)? {
        Some(op) => {
            out.push_str(answer_word(plant.command(op)))?;
            Ok(true)
        }
        None => Ok(false),
    }
}

/// Adds what a device holds, if that is asked.
pub fn told(
    out: &mut String,
    plant: &MemLab,
    kind: &str,
    words: &mut Words<'_>,
) -> Result<bool, RowFault> {
    match kind {
        "row" => push_row(out, plant, words)?,
        "node" => push_node(out, plant, words.name()?)?,
        _ => return Ok(false),
    }
    Ok(true)
}
