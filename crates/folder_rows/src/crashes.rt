//! A command over a folder in memory that is cut off at each of its calls, by a kill or by a loss of power. What is left is opened by the next
//! run, and has to be at one of some ends.
ghost use Rattle.std.specs.Prelude.{IfSome};
ghost use Rattle.lab_folder.specs.Left.{IsLeft};
ghost use Rattle.mem_folder.specs.MemTold.{held_of};

use crate::row::OPENING;
use crate::runs::{begin, is_cut_off, lose, olds, run, stop_in, tables};
use mem_folder::MemFolder;
use plant::Pick;
use row_words::RowFault;
use std::alloc::{AllocError, Global};
use std::fmt::Write;

/// A case: a script before the command, perhaps a script after it that is killed in its call of that number, the command, and the ends after
/// none, one, .. of its replies.
#[derive(Clone, Copy)]
pub struct Case<'a> {
    pub before: &'a str,
    pub killed: Option<(&'a str, u64)>,
    pub command: &'a str,
    pub ends: &'a [String],
}

/// Where a run is cut off: in its call of that number, which has its effect or not.
#[derive(Clone, Copy)]
struct Cut {
    nth: u64,
    is_done: bool,
}

/// Picks of what a loss of power leaves of the bytes that aren't durable.
const PICKS: [Pick; 3] = [Pick::Nothing, Pick::All, Pick::Torn];

/// Runs what stands before the command of a case, over a blank folder.
fn begun(alloc: Global, case: &Case<'_>, slot: &mut Option<MemFolder>) -> Result<(), RowFault>
    ensures { IfSome slot.new (λ folder. IsLeft (held_of folder)) }
{
    begin(alloc, slot)?;
    run(alloc, case.before, slot)?;
    if let Some((script, nth)) = case.killed {
        stop_in(slot, nth, false);
        run(alloc, script, slot)?;
        lose(slot, Pick::All, 0)?;
    }
    Ok(())
}

/// The output of the command of a case, which is cut off.
fn cut_off(
    alloc: Global,
    case: &Case<'_>,
    cut: Cut,
    slot: &mut Option<MemFolder>,
) -> Result<String, RowFault>
    ensures { IfSome slot.new (λ folder. IsLeft (held_of folder)) }
{
    begun(alloc, case, slot)?;
    stop_in(slot, cut.nth, cut.is_done);
    run(alloc, case.command, slot)
}

/// The replies and the tables that the next opening finds. An audit tells of nothing, and a second opening finds all as it was: else both outputs are
/// there, which are no end.
fn found(alloc: Global, slot: &mut Option<MemFolder>) -> Result<String, RowFault>
    requires { IfSome slot.old (λ folder. IsLeft (held_of folder)) }
{
    let first = run(alloc, OPENING, slot)?;
    let second = run(alloc, OPENING, slot)?;
    let tables = tables(alloc, slot)?;
    match first.strip_suffix("audit 0\n") {
        Some(told) if first == second => Ok(format!(in alloc; "{told}{tables}")?),
        _ => Ok(format!(in alloc; "{first}then\n{second}{tables}")?),
    }
}

/// How many swaps a run answered.
fn swaps_in(output: &str) -> usize {
    let mut count = 0usize;
    for line in output.lines() {
        if line.starts_with("in ") || line.starts_with("out ") {
            count = count.saturating_add(1);
        }
    }
    count
}

/// Whether what is found is the end of the swaps that were answered, or of the next one.
fn is_end(case: &Case<'_>, output: &str, found: &str) -> bool {
    let answered = swaps_in(output);
    for (swaps, end) in case.ends.iter().enumerate() {
        if end.as_str() == found && (swaps == answered || swaps == answered.saturating_add(1)) {
            return true;
        }
    }
    false
}

/// Adds where power was lost, and what is found, which is no end.
fn complain(out: &mut String, cut: Cut, output: &str, found: &str) -> Result<(), AllocError> {
    let Cut { nth, is_done } = cut;
    write!(
        out,
        "call {nth}, {is_done}: behind\n{output}there is\n{found}"
    )
}

/// Loses power after a command that is cut off, and opens what is left; complains where that is no end.
fn lose_in(
    alloc: Global,
    case: &Case<'_>,
    cut: Cut,
    loss: (Pick, usize),
    slot: &mut Option<MemFolder>,
    out: &mut String,
) -> Result<(), RowFault> {
    let output = cut_off(alloc, case, cut, slot)?;
    lose(slot, loss.0, loss.1)?;
    let found = found(alloc, slot)?;
    if is_end(case, output.as_str(), found.as_str()) {
        return Ok(());
    }
    Ok(complain(out, cut, output.as_str(), found.as_str())?)
}

/// Loses power in each way after a command that is cut off; gives in how many.
fn losses(
    alloc: Global,
    case: &Case<'_>,
    cut: Cut,
    slot: &mut Option<MemFolder>,
    out: &mut String,
) -> Result<u32, RowFault> {
    let mut count = 0u32;
    for back in 0..=olds(slot) {
        for pick in PICKS {
            lose_in(alloc, case, cut, (pick, back), slot, out)?;
            count = count.saturating_add(1);
        }
    }
    Ok(count)
}

/// How many calls the command of a case has, and how often power is lost in them. Each time the next run finds one of the ends: that of the swaps
/// that were answered, or that of the next one.
pub fn crashes(
    alloc: Global,
    case: &Case<'_>,
    slot: &mut Option<MemFolder>,
) -> Result<String, RowFault> {
    let mut out = String::new(alloc);
    let mut sum = 0u32;
    for half in 0..2_000u64 {
        let cut = Cut {
            nth: half / 2 + 1,
            is_done: half % 2 == 1,
        };
        cut_off(alloc, case, cut, slot)?;
        if !is_cut_off(slot) {
            write!(out, "calls {}\nlosses {sum}\n", half / 2)?;
            break;
        }
        sum = sum.saturating_add(losses(alloc, case, cut, slot, &mut out)?);
    }
    Ok(out)
}
