//! The swaps of the rows.
use crate::devices::op_of;
use lab_base::{Items, Kind, Memory};
use plant::DeviceOp;
use row_words::{RowFault, Words};
use std::alloc::Global;
use swap_plan::{Commands, Ops};

/// Into the lab: two ports get into a VLAN, and two nodes are loaded and booted.
const BUILDING: &str =
    "join s1 1 100,join s1 2 100,load pc1 linux,load pc2 linux,boot pc1,boot pc2";

/// Out of it: both ports get out, and both nodes are wiped.
const CLEARING: &str = "leave s1 1 100,leave s1 2 100,wipe pc1,wipe pc2";

/// Adds a command to the list that it belongs to.
fn add(commands: &mut Commands, op: DeviceOp) -> Result<(), Memory> {
    match op {
        DeviceOp::Leave { .. } | DeviceOp::Wipe { .. } => commands.clear.push(op),
        DeviceOp::Join { .. } => commands.cable.push(op),
        DeviceOp::Load { .. } | DeviceOp::Shape { .. } => commands.load.push(op),
        DeviceOp::Boot { node } => commands.boot.push(node),
        DeviceOp::Poll { .. } => Ok(()),
    }
}

/// Adds the command of a text.
fn add_read(commands: &mut Commands, text: &str) -> Result<(), RowFault> {
    let mut words = Words::new(text, 0);
    let op = op_of(words.word(), &mut words)?.ok_or(RowFault::Word(Kind::Word))?;
    Ok(add(commands, op)?)
}

fn nothing(alloc: Global) -> Commands {
    Commands {
        clear: Items::new(alloc),
        cable: Items::new(alloc),
        load: Items::new(alloc),
        boot: Items::new(alloc),
    }
}

/// Adds the commands of a text.
fn add_all(commands: &mut Commands, text: &str) -> Result<(), RowFault> {
    for part in text.split(',') {
        add_read(commands, part)?;
    }
    Ok(())
}

/// Adds the commands of a swap-out, or those of a swap-in or a change, with its undo.
fn add_ops(ops: &mut Ops, out: bool) -> Result<(), RowFault> {
    if out {
        return add_all(&mut ops.commands, CLEARING);
    }
    add_all(&mut ops.commands, BUILDING)?;
    add_all(&mut ops.undo, CLEARING)
}

/// The commands of a swap-out, or of a swap-in or a change whose undo leads back into the lab or out of it.
pub fn ops_of(alloc: Global, out: bool, inside: bool) -> Result<Ops, RowFault> {
    let mut ops = Ops {
        commands: nothing(alloc),
        undo: nothing(alloc),
        inside,
    };
    match add_ops(&mut ops, out) {
        Ok(()) => Ok(ops),
        Err(row_fault) => {
            drop(ops);
            Err(row_fault)
        }
    }
}
