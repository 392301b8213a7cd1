//! Outputs of swaps.
use crate::answers::{boot_word, letters};
use crate::plans::ops_of;
use crate::swaps::{Last, finish, opened, planned_of, swap};
use lab_base::{Name, What};
use plant::{DeviceOp, Step};
use plant_mem::MemLab;
use row_words::RowFault;
use std::alloc::{AllocError, Global};
use swap_txn::{Ended, Live};

fn sign_of(op: &DeviceOp) -> char {
    match op {
        DeviceOp::Join { .. } => '+',
        DeviceOp::Leave { .. } => '-',
        DeviceOp::Load { .. } => 'l',
        DeviceOp::Shape { .. } => 'h',
        DeviceOp::Boot { .. } => 'b',
        DeviceOp::Poll { .. } => 'p',
        DeviceOp::Wipe { .. } => 'x',
    }
}

fn push_step(out: &mut String, step: &Step) -> Result<(), AllocError> {
    match step {
        Step::Wrote { .. } => out.push('w'),
        Step::Synced { .. } => out.push('s'),
        Step::Cut { .. } => out.push('c'),
        Step::Missed { .. } => out.push('m'),
        Step::Restarted { .. } => out.push('r'),
        Step::Unread { .. } => out.push('u'),
        Step::Did { op, answer, .. } => {
            out.push(sign_of(op))?;
            out.push_str(if answer.is_err() { "!" } else { "" })
        }
    }
}

/// Adds the steps, each as a sign, with `!` after a command that failed.
fn push_steps(out: &mut String, steps: &[Step]) -> Result<(), AllocError> {
    for step in steps {
        push_step(out, step)?;
    }
    Ok(())
}

/// Adds words with a blank before each.
fn push_words(out: &mut String, words: &[&str]) -> Result<(), AllocError> {
    for word in words {
        out.push(' ')?;
        out.push_str(word)?;
    }
    Ok(())
}

fn push_what(out: &mut String, what: What) -> Result<(), AllocError> {
    match what {
        What::Device(name) => push_words(out, &["device", letters(&name)]),
        What::Late(name) => push_words(out, &["late", letters(&name)]),
        What::Unlawful { node, from, to } => {
            push_words(out, &["unlawful", letters(&node)])?;
            push_words(out, &[boot_word(from), boot_word(to)])
        }
        What::Journal => push_words(out, &["journal"]),
    }
}

/// Adds the experiment, where it is now, its last record, and the trouble that began the undo, where there was one.
fn push_ended(out: &mut String, ended: Ended) -> Result<(), AllocError> {
    out.push_str(letters(&ended.exp))?;
    out.push_str(if ended.inside { " in" } else { " out" })?;
    out.push_str(if ended.committed { " Commit" } else { " Abort" })?;
    match ended.why {
        Some(what) => push_what(out, what),
        None => Ok(()),
    }
}

fn push_last(out: &mut String, last: Last) -> Result<(), AllocError> {
    match last {
        Last::Ended(ended) => push_ended(out, ended),
        Last::Stuck(what) => {
            out.push_str("stuck")?;
            push_what(out, what)
        }
        Last::Stopped => out.push_str("stopped"),
        Last::Open => out.push_str("open"),
    }
}

/// Adds how a swap ended, and the steps from one on.
fn push_came(out: &mut String, last: Last, trace: &[Step], from: usize) -> Result<(), AllocError> {
    push_last(out, last)?;
    out.push_str(", ")?;
    push_steps(out, trace.get(from..).unwrap_or(&[]))
}

/// Runs a swap-in or a swap-out of `A`, and adds what it came to.
fn push_run(
    out: &mut String,
    alloc: Global,
    plant: &mut MemLab,
    is_out: bool,
) -> Result<(), RowFault> {
    let exp = Name::read(b"A")?;
    let mut journal = opened(alloc, plant)?;
    let ops = ops_of(alloc, is_out, false)?;
    let planned = planned_of(alloc, exp, ops, is_out)?;
    let from = plant.trace().len();
    let last = swap(planned, &mut journal, plant);
    Ok(push_came(out, last, plant.trace(), from)?)
}

/// Adds the output of a swap whose Begin is durable already: a swap-out, or the undo of a swap-in or of a change.
fn push_again(
    out: &mut String,
    alloc: Global,
    plant: &mut MemLab,
    is_out: bool,
    inside: bool,
) -> Result<(), RowFault> {
    let exp = Name::read(b"A")?;
    let mut journal = opened(alloc, plant)?;
    let ops = ops_of(alloc, is_out, inside)?;
    let live = Live::again(alloc, exp, ops, is_out)?;
    let from = plant.trace().len();
    let last = finish(live, &mut journal, plant, 200);
    Ok(push_came(out, last, plant.trace(), from)?)
}

/// Runs the swap of that kind, and adds what it came to, if there is one.
pub fn told(
    out: &mut String,
    alloc: Global,
    plant: &mut MemLab,
    kind: &str,
) -> Result<bool, RowFault> {
    match kind {
        "swapin" => push_run(out, alloc, plant, false)?,
        "swapout" => push_run(out, alloc, plant, true)?,
        "out-again" => push_again(out, alloc, plant, true, false)?,
        "undo-in" => push_again(out, alloc, plant, false, false)?,
        "undo-change" => push_again(out, alloc, plant, false, true)?,
        _ => return Ok(false),
    }
    Ok(true)
}
