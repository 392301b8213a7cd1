//! Scripts with a drill of each number, and with lines repeated many times.
use crate::drills::{Drill, drilled};
use crate::run::{blank, ended, plainly, run, told};
use lab_base::Kind;
use plant_mem::MemLab;
use row_files::Marked;
use row_words::RowFault;
use std::alloc::Global;
use std::fmt::Write;

/// The output of a script with a drill of that number at its mark.
fn told_at(
    alloc: Global,
    script: &str,
    drill: Drill,
    nth: u32,
    last: &mut Option<MemLab>,
) -> Result<String, RowFault> {
    let (before, behind) = script
        .split_once("@\n")
        .ok_or(RowFault::Word(Kind::Missing))?;
    let script = drilled(alloc, before, drill, nth, behind)?;
    told(alloc, script.as_str(), last)
}

/// The output of a script with a drill of the numbers 1, 2, .. at its mark. Equal outputs in a row are told once.
pub fn numbers(
    alloc: Global,
    script: &str,
    drill: Drill,
    most: u32,
    last: &mut Option<MemLab>,
) -> Result<String, RowFault> {
    let mut out = String::new(alloc);
    let mut first = 1;
    let mut same = told_at(alloc, script, drill, 1, last)?;
    for nth in 2..=most {
        let next = told_at(alloc, script, drill, nth, last)?;
        if next != same {
            write!(out, "{first} to {}\n{same}", nth - 1)?;
            (first, same) = (nth, next);
        }
    }
    write!(out, "{first} to {most}\n{same}")?;
    Ok(out)
}

/// The number of steps with the marked lines 0, 1, .. times.
pub fn turns(
    alloc: Global,
    script: &str,
    most: u32,
    last: &mut Option<MemLab>,
) -> Result<String, RowFault> {
    let marked = Marked::of(script)?;
    let mut out = String::from_str(alloc, "steps")?;
    for count in 0..=most {
        let script = marked.times(alloc, count)?;
        let plant = blank(alloc, last)?;
        run(alloc, plainly(script.as_str()), plant)?;
        write!(out, " {}", plant.trace().len())?;
    }
    out.push('\n')?;
    Ok(out)
}

/// The output of a script with its marked lines so often, and nothing after them.
fn written(
    alloc: Global,
    marked: &Marked<'_>,
    count: u32,
    last: &mut Option<MemLab>,
) -> Result<String, RowFault> {
    let begun = Marked {
        behind: "",
        ..*marked
    };
    let script = begun.times(alloc, count)?;
    Ok(run(alloc, plainly(script.as_str()), blank(alloc, last)?)?.output)
}

/// The rest of an output after another one.
fn behind<'a>(told: &'a str, before: &str) -> Result<&'a str, RowFault> {
    told.strip_prefix(before)
        .ok_or(RowFault::Word(Kind::Missing))
}

/// The output of marked lines that are there so often and write the same each time: it is told once, with their number.
pub fn long(
    alloc: Global,
    script: &str,
    count: u32,
    last: &mut Option<MemLab>,
) -> Result<String, RowFault> {
    let marked = Marked::of(script)?;
    let before = written(alloc, &marked, 0, last)?;
    let once = written(alloc, &marked, 1, last)?;
    let each = behind(once.as_str(), before.as_str())?;
    let script = marked.times(alloc, count)?;
    let told = ended(alloc, plainly(script.as_str()), blank(alloc, last)?)?;
    let mut rest = behind(told.as_str(), before.as_str())?;
    for _ in 0..count {
        rest = behind(rest, each)?;
    }
    Ok(format!(in alloc; "{before}{count} times\n{each}then\n{rest}")?)
}
