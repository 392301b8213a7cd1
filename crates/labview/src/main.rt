//! Looks at the folder of a lab, and changes nothing in it: its text, with `--svg` its picture, with `--check` what its journal holds.
#![tactic(auto)]

mod tables;
mod words;

use crate::tables::{MAX_TABLES, tables_seen};
use crate::words::{Asked, WordsFault, read_words};
use lab_base::{Memory, Text};
use lab_drawn::picture_in;
use lab_files::{file, tables_in};
use lab_io::{StdSink, write_all};
use lab_look::{CheckLines, CheckOptions, Shown, check, text_in};
use plant::Side;
use std::alloc::Global;
use std::process::ExitCode;
use std::{env, io};

/// How often both sides are read, at most, until two looks find the same bytes.
const LOOKS: usize = 64;

/// How a run ends.
#[derive(Clone, Copy)]
enum End {
    Done,
    Damaged,
    Usage,
    Unread,
    Busy,
    Memory,
    Bad { side: Side, at: u64 },
}

impl End {
    fn code(self) -> u8 {
        match self {
            End::Done => 0,
            End::Unread | End::Busy => 1,
            End::Usage => 3,
            End::Memory => 5,
            End::Bad { .. } => 6,
            End::Damaged => 7,
        }
    }
}

/// Both sides, the tables, and whether two looks in a row found the sides equal.
#[derive(Drop)]
struct Seen {
    a: Vec<u8>,
    b: Vec<u8>,
    tables: Vec<u8>,
    still: bool,
}

/// The bytes of a side; none where its file is missing.
fn side(rt: &HostRuntime, dir: &str, name: &str) -> io::Result<Vec<u8>> {
    Ok(file(rt, dir, name)?.unwrap_or(Vec::new(rt.alloc())))
}

/// Reads both sides, again and again until two looks in a row find them equal, which then stood so at one moment between both. The
/// tables are read before: a program at work writes a journal first, and then rows.
fn sides(rt: &HostRuntime, dir: &str) -> io::Result<Seen> {
    let tables = tables_in(rt, dir)?;
    if tables.len() > MAX_TABLES {
        return Err(io::Error::from(io::ErrorKind::InvalidData));
    }
    let mut a = side(rt, dir, "journal.a")?;
    let mut b = side(rt, dir, "journal.b")?;
    let mut still = false;
    for _ in 0..LOOKS {
        let next_a = side(rt, dir, "journal.a")?;
        let next_b = side(rt, dir, "journal.b")?;
        still = next_a == a && next_b == b;
        a = next_a;
        b = next_b;
        if still {
            break;
        }
    }
    Ok(Seen {
        a,
        b,
        tables,
        still,
    })
}

fn write(rt: &HostRuntime, text: &Text, end: End) -> End {
    let mut sink = StdSink::new(rt);
    match write_all(&mut sink, text.bytes()) {
        Ok(()) => end,
        Err(_) => End::Unread,
    }
}

/// Writes the text, or the picture, of what was seen.
fn show(rt: &HostRuntime, seen: &Seen, svg: bool) -> End {
    let shown = if svg {
        picture_in(rt.alloc(), &seen.a, &seen.b)
    } else {
        text_in(rt.alloc(), &seen.a, &seen.b)
    };
    match shown {
        Ok(Shown::Text(text)) => write(rt, &text, End::Done),
        Ok(Shown::Bad(_, _)) if !seen.still => End::Busy,
        Ok(Shown::Bad(side, at)) => End::Bad { side, at },
        Err(Memory) => End::Memory,
    }
}

/// A check of what was seen.
fn checked(alloc: Global, seen: &Seen, all: bool) -> Result<CheckLines, Memory> {
    // for the prover: no longer text is read
    let count = seen.tables.len().min(MAX_TABLES);
    let tables = tables_seen(alloc, &seen.tables[..count])?;
    let still = seen.still;
    check(alloc, &seen.a, &seen.b, CheckOptions { still, all }, tables)
}

/// Writes what a check tells of what was seen.
fn print_check(rt: &HostRuntime, seen: &Seen, all: bool) -> End {
    match checked(rt.alloc(), seen, all) {
        Ok(CheckLines { text, damaged }) => {
            let end = if damaged { End::Damaged } else { End::Done };
            write(rt, &text, end)
        }
        Err(Memory) => End::Memory,
    }
}

fn run_on(rt: &HostRuntime, asked: Asked<'_>) -> End {
    let Ok(seen) = sides(rt, asked.dir) else {
        return End::Unread;
    };
    if asked.check {
        print_check(rt, &seen, asked.records)
    } else {
        show(rt, &seen, asked.svg)
    }
}

fn words_of(rt: &HostRuntime) -> io::Result<Vec<String>> {
    let mut words = Vec::new(rt.alloc());
    for word in env::args(rt)?.skip(1) {
        words.push(word)?;
    }
    Ok(words)
}

/// The reason why there are no words: one that isn't UTF-8 is no word of a command line.
fn no_words(error: &io::Error) -> End {
    match error.kind() {
        io::ErrorKind::InvalidData => End::Usage,
        _ => End::Memory,
    }
}

fn run(rt: &HostRuntime) -> End {
    let words = match words_of(rt) {
        Ok(words) => words,
        Err(error) => return no_words(&error),
    };
    match read_words(rt.alloc(), &words) {
        Ok(asked) => run_on(rt, asked),
        Err(WordsFault::Usage) => End::Usage,
        Err(WordsFault::Memory) => End::Memory,
    }
}

/// Says on standard error how the run ended, where that is not its end.
fn say_end(rt: &HostRuntime, end: End) -> io::Result<()> {
    match end {
        End::Done | End::Damaged => Ok(()),
        End::Usage => eprintln!(rt; "labview [--check [--records]] [--svg] DIR"),
        End::Unread => eprintln!(rt; "labview: a file can't be read, or the text not be written"),
        End::Busy => eprintln!(rt; "labview: a program is at work here"),
        End::Memory => eprintln!(rt; "labview: out of memory"),
        End::Bad { side: Side::A, at } => eprintln!(rt; "labview: bad journal A {at}"),
        End::Bad { side: Side::B, at } => eprintln!(rt; "labview: bad journal B {at}"),
    }
}

fn main(rt: HostRuntime) -> ExitCode {
    let end = run(&rt);
    let _told = say_end(&rt, end);
    ExitCode::from(end.code())
}
