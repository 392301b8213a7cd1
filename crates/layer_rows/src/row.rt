//! The outputs of rows. A row is a line of actions with `;` between two of them, done one after another over a blank plant:
//!
//! ```text
//! join SWITCH PORT VLAN, leave .., load NODE OS, shape NODE PIPE KBPS [MICROS PPM KBPS MICROS PPM], boot NODE, poll NODE, wipe NODE
//!                        a command: its answer
//! row SWITCH PORT VLAN   whether the port is in the VLAN
//! node NODE              its OS, its state, and how many pipes are set
//! read-row SWITCH N, read-node NODE, read-os NODE, read-pipe NODE N    a reading: the nth row or pipe, the state of a node and how many pipes it has,
//!                        or its OS
//! fail DEVICE N HOW, fail disk N, stop N PICK    a drill
//! restart                the plant is started again, if it is stopped
//! length SIDE, read SIDE, write SIDE AT BYTES, sync SIDE, cut SIDE LENGTH    a call of the disk
//! steps, bytes, drills, stopped, mark    the plant itself
//! open                   the journal: its side, its epoch, its length and its records with their places
//! append EXP, append-to LIMIT EXP    it is opened, and the deletion of an experiment appended
//! compact EXP            it is opened, and moved with the deletion of an experiment alone
//! delete EXP             the record of a deletion: its length, and its bytes
//! payload BYTES          the same of the record that is read from a payload
//! order NAMES            the names in the order of their bytes
//! swapin, swapout        a swap of A: how it ended, and its steps
//! out-again, undo-in, undo-change    the same of one whose Begin is durable already
//! see N STATE N STATE .. the last verdict on a node whose polls since its boot were answered so often with each state
//! lawful                 by boot state the states that may follow it
//! ```
//!
//! A row `each LAST ACTIONS` does the actions LAST times, each time over a blank plant, with the numbers 1, 2, .. in the place of `#`. Its
//! output is that of the last action only, once for all numbers in a row with equal outputs.
use crate::{boots, devices, disk, drills, journals, moves, readings, records};
use lab_base::{Kind, Text};
use plant::Tables;
use plant_mem::MemLab;
use row_words::{RowFault, Words};
use std::alloc::Global;
use std::fmt::Write;

/// Does an action with a plant of any kind, and adds its output, if it is one: a command, a reading, a drill, or a call of the disk.
pub fn told_of_plant<P: Tables>(
    out: &mut String,
    plant: &mut P,
    kind: &str,
    words: &mut Words<'_>,
) -> Result<bool, RowFault> {
    Ok(
        devices::obeyed(out, plant, kind, words)?
            || readings::told(out, plant, kind, words)?
            || drills::told(out, plant, kind, words)?
            || disk::told_of_side(out, plant, kind, words)?,
    )
}

/// Does an action, and adds its output, if it is one.
fn told_of(
    out: &mut String,
    alloc: Global,
    plant: &mut MemLab,
    kind: &str,
    words: &mut Words<'_>,
) -> Result<bool, RowFault> {
    Ok(
        told_of_plant(out, plant, kind, words)?
            || devices::told(out, plant, kind, words)?
            || disk::told(out, alloc, plant, kind, words)?
            || records::told(out, alloc, kind, words)?
            || journals::told(out, alloc, plant, kind, words)?
            || moves::told(out, alloc, plant, kind)?
            || boots::told(out, kind, words)?,
    )
}

/// Does an action; gives what is told of it, in a line.
fn act(alloc: Global, plant: &mut MemLab, action: &str, nth: u32) -> Result<String, RowFault> {
    let mut words = Words::new(action, nth);
    let kind = words.word();
    let mut out = String::new(alloc);
    if !told_of(&mut out, alloc, plant, kind, &mut words)? {
        return Err(RowFault::Word(Kind::Unknown));
    }
    out.push('\n')?;
    Ok(out)
}

/// The outputs of all actions over a plant, or that of the last one, with that number in the place of `#`.
fn told_over(
    alloc: Global,
    plant: &mut MemLab,
    actions: &str,
    nth: Option<u32>,
) -> Result<String, RowFault> {
    let mut out = String::new(alloc);
    for action in actions.split(';') {
        if nth.is_some() {
            out.clear();
        }
        out.push_str(act(alloc, plant, action.trim(), nth.unwrap_or(0))?.as_str())?;
    }
    Ok(out)
}

/// These outputs over a blank plant.
fn told_blank(alloc: Global, actions: &str, nth: Option<u32>) -> Result<String, RowFault> {
    let mut plant = MemLab::blank(alloc)?;
    let told = told_over(alloc, &mut plant, actions, nth);
    drop(plant);
    told
}

/// The outputs of the last action with 1, 2, .. up to a number in the place of `#`.
fn each(alloc: Global, words: &mut Words<'_>) -> Result<String, RowFault> {
    let most = words.number()?;
    let actions = words.rest();
    let mut out = String::new(alloc);
    let mut first = 1;
    let mut same = told_blank(alloc, actions, Some(1))?;
    for nth in 2..=most {
        let next = told_blank(alloc, actions, Some(nth))?;
        if next != same {
            write!(out, "{first} to {}: {same}", nth - 1)?;
            (first, same) = (nth, next);
        }
    }
    write!(out, "{first} to {most}: {same}")?;
    Ok(out)
}

/// The output of a row, without the end of its last line.
pub fn told(alloc: Global, line: &str) -> Result<Text, RowFault> {
    let mut words = Words::new(line, 0);
    let told = match words.word() {
        "each" => each(alloc, &mut words)?,
        _ => told_blank(alloc, line, None)?,
    };
    let lines = told.as_bytes();
    Ok(Text::from_slice(alloc, &lines[..lines.len().saturating_sub(1)])?)
}
