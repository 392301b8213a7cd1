//! A command that is cut at each of its steps and calls, by a stop, by a failure of a device, or by one of the disk.
//! Each cut has to lead to one of some ends. So have swaps that are open side by side, turned in an order.
use crate::devices::add_held;
use crate::drills::{Drill, FAIL_DISK, STOP_ALL, STOP_NONE, STOP_TORN, drilled};
use crate::run::{blank, plainly, run};
use lab_top::Status;
use plant_mem::MemLab;
use row_words::RowFault;
use std::alloc::{AllocError, Global};
use std::fmt::Write;

/// A command that is cut: the script before it, the command, and the ends that its cuts may lead to.
#[derive(Clone, Copy)]
pub struct Cut<'a> {
    pub before: &'a str,
    pub command: &'a str,
    pub ends: &'a [String],
}

/// The scripts before a drill and after it, the command first, and the end where none cuts the command.
#[derive(Clone, Copy)]
struct Case<'a> {
    cut: Cut<'a>,
    behind: &'a str,
    whole: &'a str,
}

/// Commands after a failure: they recover what is stuck, or are told of it twice before.
pub const RECOVERS: &str = "recover\n";

pub const TELLS: &str = "status\nstatus\nrecover\n";

/// The end of a run that reads its script to the end: its output, and after it the states of the devices.
fn left_by(alloc: Global, script: &str, last: &mut Option<MemLab>) -> Result<String, RowFault> {
    let plant = blank(alloc, last)?;
    let ran = run(alloc, plainly(script), plant)?;
    let mut left = ran.output;
    if ran.status != Status::Done {
        writeln!(left, "-- {}", ran.status.code())?;
    }
    add_held(&mut left, alloc, plant)?;
    Ok(left)
}

/// Whether a run is at one of these ends.
fn is_at_one(left: &str, ends: &[String]) -> bool {
    for end in ends {
        if left.ends_with(end.as_str()) {
            return true;
        }
    }
    false
}

/// How many numbers of the drill cut the command, from 1 on. Tells of the first one that leads elsewhere.
fn cut_by(
    alloc: Global,
    case: Case<'_>,
    drill: Drill,
    last: &mut Option<MemLab>,
    out: &mut String,
) -> Result<u32, RowFault> {
    for nth in 1..100u32 {
        let script = drilled(alloc, case.cut.before, drill, nth, case.behind)?;
        let left = left_by(alloc, script.as_str(), last)?;
        if !is_at_one(left.as_str(), case.cut.ends) {
            write!(out, "{}{nth}{}leads elsewhere:\n{left}", drill.0, drill.1)?;
            return Ok(0);
        }
        if left.as_str() == case.whole {
            return Ok(nth - 1);
        }
    }
    Ok(100)
}

/// The devices, and how each fails.
const DEVICES: [&str; 10] = [
    "fail s1 ",
    "fail s2 ",
    "fail pc1 ",
    "fail pc2 ",
    "fail pc3 ",
    "fail pc4 ",
    "fail pc5 ",
    "fail pc6 ",
    "fail pc7 ",
    "fail pc8 ",
];

const HOWS: [&str; 2] = [" not\n", " applied\n"];

/// How many failures of devices cut the command.
fn failures(
    alloc: Global,
    case: Case<'_>,
    last: &mut Option<MemLab>,
    out: &mut String,
) -> Result<u32, RowFault> {
    let mut sum = 0u32;
    for before in DEVICES {
        for behind in HOWS {
            sum = sum.saturating_add(cut_by(alloc, case, (before, behind), last, out)?);
        }
    }
    Ok(sum)
}

/// Tells how many stops by each pick cut the command.
fn add_stops(
    out: &mut String,
    alloc: Global,
    case: Case<'_>,
    last: &mut Option<MemLab>,
) -> Result<(), RowFault> {
    let none = cut_by(alloc, case, STOP_NONE, last, out)?;
    let all = cut_by(alloc, case, STOP_ALL, last, out)?;
    let torn = cut_by(alloc, case, STOP_TORN, last, out)?;
    Ok(writeln!(out, "stops {none} {all} {torn}")?)
}

/// Tells how many failures of devices cut the command, and how many of the disk, counted up to some.
fn add_faults(
    out: &mut String,
    alloc: Global,
    case: Case<'_>,
    calls: u32,
    last: &mut Option<MemLab>,
) -> Result<(), RowFault> {
    let failures = failures(alloc, case, last, out)?;
    let count = cut_by(alloc, case, FAIL_DISK, last, out)?;
    Ok(write!(
        out,
        "failures {failures}\ncalls {} or more\n",
        count.min(calls)
    )?)
}

/// Tells how many stops cut the command, or how many failures, where these commands stand after it and calls of the disk are counted up to some.
pub fn add_cuts(
    out: &mut String,
    alloc: Global,
    cut: Cut<'_>,
    then: Option<(&str, u32)>,
    last: &mut Option<MemLab>,
) -> Result<(), RowFault> {
    let (recovers, calls) = then.unwrap_or(("", 0));
    let behind = format!(in alloc; "{}{recovers}status\nshow A\n", cut.command)?;
    let script = drilled(alloc, cut.before, STOP_NONE, 1_000_000, behind.as_str())?;
    let whole = left_by(alloc, script.as_str(), last)?;
    let case = Case {
        cut,
        behind: behind.as_str(),
        whole: whole.as_str(),
    };
    match then {
        Some(_) => add_faults(out, alloc, case, calls, last),
        None => add_stops(out, alloc, case, last),
    }
}

/// The lines of drills: their words, with a comma between two of them.
fn add_drills(script: &mut String, drills: &[&str]) -> Result<(), AllocError> {
    for word in drills {
        match *word {
            "," => script.push('\n')?,
            word => write!(script, "{word} ")?,
        }
    }
    script.push('\n')
}

/// Adds the rest of the script of an order, after that which opens the swaps. It plans these drills, turns a swap for each letter and finishes each
/// swap. Then it recovers what is stuck, and once more what a last failure left stuck.
fn add_order(script: &mut String, letters: &str, drills: &[&str]) -> Result<(), AllocError> {
    add_drills(script, drills)?;
    for letter in letters.chars() {
        writeln!(script, "turn {letter}")?;
    }
    script.push_str("finish A\nfinish B\nfinish C\nrecover\nrecover\nstatus\nshow A\n")
}

/// Whether the order of swaps that a script opens leads to one of the ends; else what it leads to.
pub fn order(
    alloc: Global,
    opened: String,
    letters: &str,
    ends: &[String],
    drills: &[&str],
    last: &mut Option<MemLab>,
) -> Result<String, RowFault> {
    let mut script = opened;
    add_order(&mut script, letters, drills)?;
    let left = left_by(alloc, script.as_str(), last)?;
    if is_at_one(left.as_str(), ends) {
        Ok("there\n".to_string(alloc)?)
    } else {
        Ok(left)
    }
}
