//! A run of the program over a plant.
use lab_io::{MemSink, MemSource};
use lab_top::{Status, labctl};
use plant::{Side, Tables};
use plant_mem::MemLab;
use row_files::letters_in;
use row_words::RowFault;
use std::alloc::{AllocError, Global};
use std::fmt::Write;

/// The inputs of a run.
#[derive(Clone, Copy)]
pub struct Given<'a> {
    /// The words of the command line.
    pub words: &'a [String],
    pub script: &'a str,
    /// The number of the read that fails, or 0.
    pub read: u32,
    /// The number of the write that fails, or 0.
    pub write: u32,
    /// How many bytes may be written.
    pub room: usize,
}

/// A script without words, in which nothing fails.
pub fn plainly(script: &str) -> Given<'_> {
    Given {
        words: &[],
        script,
        read: 0,
        write: 0,
        room: 65_536,
    }
}

/// The output of a run, and its status.
#[derive(Drop)]
pub struct Ran {
    pub output: String,
    pub status: Status,
}

/// Puts a plant in which nothing has happened in the place of the last one.
pub fn blank(alloc: Global, last: &mut Option<MemLab>) -> Result<&mut MemLab, RowFault> {
    match MemLab::blank(alloc) {
        Ok(plant) => Ok(last.insert(plant)),
        Err(_) => Err(RowFault::Memory),
    }
}

/// Runs a script over a plant.
pub fn run<P: Tables>(alloc: Global, given: Given<'_>, plant: &mut P) -> Result<Ran, RowFault> {
    let mut source = MemSource::new(alloc, given.script.as_bytes(), &[given.read])?;
    let mut sink = MemSink::new(alloc, given.room, &[given.write])?;
    let status = labctl(alloc, given.words, &mut source, &mut sink, plant);
    let output = letters_in(alloc, sink.bytes())?;
    Ok(Ran { output, status })
}

/// Adds the code of the status, with what else it says.
fn add_status(out: &mut String, status: Status) -> Result<(), AllocError> {
    write!(out, "-- {}", status.code())?;
    match status {
        Status::BadScript { line } => write!(out, " line {line}"),
        Status::JournalBad { side: Side::A, at } => write!(out, " A {at}"),
        Status::JournalBad { side: Side::B, at } => write!(out, " B {at}"),
        _ => Ok(()),
    }
}

/// The output of a run over a plant, and in a line of its own its end.
pub fn ended<P: Tables>(
    alloc: Global,
    given: Given<'_>,
    plant: &mut P,
) -> Result<String, RowFault> {
    let ran = run(alloc, given, plant)?;
    let mut out = ran.output;
    if !out.is_empty() && !out.ends_with('\n') {
        out.push('\n')?;
    }
    add_status(&mut out, ran.status)?;
    out.push('\n')?;
    Ok(out)
}

/// The output of a script over a blank plant, and its end.
pub fn told(alloc: Global, script: &str, last: &mut Option<MemLab>) -> Result<String, RowFault> {
    ended(alloc, plainly(script), blank(alloc, last)?)
}
