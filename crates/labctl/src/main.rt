//! The program: it obeys the script of standard input, and writes the replies to standard output.
//!
//! The lab is in memory, or with `--dir DIR` in the files of a folder. With `--cost pack` searches use few nodes. With `--gen N` it obeys a script of
//! its own, and writes a summary.
#![tactic(auto)]

use lab_base::TextFault;
use lab_io::{StdSink, StdSource};
use lab_top::{Place, PlaceFault, Status, labctl, place_of};
use plant::{Side, Tables};
use plant_file::FileLab;
use plant_mem::MemLab;
use std::process::ExitCode;
use std::{env, io};

/// The words after the program's name.
fn words_of(rt: &HostRuntime) -> io::Result<Vec<String>> {
    let mut words = Vec::new(rt.alloc());
    for word in env::args(rt)?.skip(1) {
        words.push(word)?;
    }
    Ok(words)
}

/// The reason why there are no words: one that isn't UTF-8 is no word of a command line.
fn no_words(error: &io::Error) -> Status {
    match error.kind() {
        io::ErrorKind::InvalidData => Status::Usage,
        _ => Status::Memory,
    }
}

/// Obeys the script of standard input over a plant.
fn run_over<P: Tables>(rt: &HostRuntime, words: &[String], plant: &mut P) -> Status {
    let mut source = StdSource::new(rt);
    let mut sink = StdSink::new(rt);
    labctl(rt.alloc(), words, &mut source, &mut sink, plant)
}

fn run_in_memory(rt: &HostRuntime, words: &[String]) -> Status {
    match MemLab::blank(rt.alloc()) {
        Ok(mut plant) => run_over(rt, words, &mut plant),
        Err(_) => Status::Memory,
    }
}

/// Tells on standard error that `tables` has a line of another form, where a call read one.
fn say_tables(rt: &HostRuntime, refused: Option<TextFault>) -> io::Result<()> {
    match refused {
        Some(TextFault { line, kind }) => {
            eprintln!(rt; "labctl: bad tables line {line} {}", kind.word())
        }
        None => Ok(()),
    }
}

fn run_in_folder(rt: &HostRuntime, words: &[String], dir: &str) -> Status {
    match FileLab::new(rt, dir) {
        Ok(mut plant) => {
            let status = run_over(rt, words, &mut plant);
            let _told = say_tables(rt, plant.refused());
            status
        }
        Err(_) => Status::Memory,
    }
}

fn run(rt: &HostRuntime) -> Status {
    let words = match words_of(rt) {
        Ok(words) => words,
        Err(error) => return no_words(&error),
    };
    match place_of(rt.alloc(), &words) {
        Ok(Place::Blank) => run_in_memory(rt, &words),
        Ok(Place::Folder(dir)) => run_in_folder(rt, &words, dir.as_str()),
        Err(PlaceFault::Usage) => Status::Usage,
        Err(PlaceFault::Memory) => Status::Memory,
    }
}

/// Tells on standard error how the run ended, where it wasn't at the script's end.
fn say_end(rt: &HostRuntime, status: Status) -> io::Result<()> {
    match status {
        Status::Done => Ok(()),
        Status::ReadFault => eprintln!(rt; "labctl: read fault"),
        Status::WriteFault => eprintln!(rt; "labctl: write fault"),
        Status::Usage => eprintln!(rt; "labctl: usage"),
        Status::BadScript { line } => eprintln!(rt; "labctl: bad script line {line}"),
        Status::Memory => eprintln!(rt; "labctl: out of memory"),
        Status::JournalBad { side: Side::A, at } => eprintln!(rt; "labctl: bad journal A {at}"),
        Status::JournalBad { side: Side::B, at } => eprintln!(rt; "labctl: bad journal B {at}"),
    }
}

fn main(rt: HostRuntime) -> ExitCode {
    let status = run(&rt);
    let _told = say_end(&rt, status);
    ExitCode::from(status.code())
}
