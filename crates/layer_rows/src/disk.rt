//! Calls of the disk, and what is on it.
use crate::answers::{done_word, fault_word, yes_or_no};
use crate::bytes::{bytes_of, push_spelled};
use plant::{Plant, Side};
use plant_mem::MemLab;
use row_words::{RowFault, Words};
use std::alloc::{AllocError, Global};
use std::fmt::Write;

/// Adds how long a side is, or the fault.
fn push_length<P: Plant>(out: &mut String, plant: &mut P, side: Side) -> Result<(), AllocError> {
    match plant.length(side) {
        Ok(size) => write!(out, "{size}"),
        Err(fault) => out.push_str(fault_word(fault)),
    }
}

/// The bytes that a side reads as.
fn read(alloc: Global, plant: &mut MemLab, side: Side) -> Result<Vec<u8>, RowFault> {
    let size = plant.length(side)?;
    let mut bytes = vec![in alloc; 0u8; size as usize]?;
    plant.read(side, 0, &mut bytes)?;
    Ok(bytes)
}

/// Writes bytes to a side from a place on.
fn write(
    alloc: Global,
    plant: &mut MemLab,
    words: &mut Words<'_>,
) -> Result<&'static str, RowFault> {
    let side = words.side()?;
    let at = u64::from(words.number()?);
    let bytes = bytes_of(alloc, words.word())?;
    Ok(done_word(plant.write(side, at, bytes.bytes())))
}

/// Cuts a side to a length.
fn cut(plant: &mut MemLab, words: &mut Words<'_>) -> Result<&'static str, RowFault> {
    let side = words.side()?;
    let size = u64::from(words.number()?);
    Ok(done_word(plant.cut(side, size)))
}

/// Starts a stopped plant again; tells whether it was stopped.
fn restart(plant: &mut MemLab) -> Result<&'static str, RowFault> {
    if !plant.stopped() {
        return Ok("not stopped");
    }
    plant.restart()?;
    Ok("started")
}

/// Tells how long a side is, makes it durable, or marks a moment; or tells whether the plant takes drills, or is stopped.
pub fn told_of_side<P: Plant>(
    out: &mut String,
    plant: &mut P,
    kind: &str,
    words: &mut Words<'_>,
) -> Result<bool, RowFault> {
    match kind {
        "length" => push_length(out, plant, words.side()?)?,
        "sync" => out.push_str(done_word(plant.sync(words.side()?)))?,
        "drills" => out.push_str(yes_or_no(plant.drills()))?,
        "stopped" => out.push_str(yes_or_no(plant.stopped()))?,
        "mark" => {
            plant.mark()?;
            out.push_str("marked")?;
        }
        _ => return Ok(false),
    }
    Ok(true)
}

/// Does another action with the disk, and adds what is told of it, if it is one; or the number of steps, or of the bytes that these name.
pub fn told(
    out: &mut String,
    alloc: Global,
    plant: &mut MemLab,
    kind: &str,
    words: &mut Words<'_>,
) -> Result<bool, RowFault> {
    match kind {
        "read" => push_spelled(out, &read(alloc, plant, words.side()?)?)?,
        "write" => out.push_str(write(alloc, plant, words)?)?,
        "cut" => out.push_str(cut(plant, words)?)?,
        "restart" => out.push_str(restart(plant)?)?,
        "steps" => write!(out, "{}", plant.trace().len())?,
        "bytes" => write!(out, "{}", plant.bytes().len())?,
        _ => return Ok(false),
    }
    Ok(true)
}
