//! Writes into a new folder the lab of a folder over another lab's text, with its experiments as they are.
#![tactic(auto)]

use lab_base::{Memory, TEXT_LIMIT, Text};
use lab_files::{file, tables_in};
use lab_grow::{Carried, carry_over, told};
use lab_io::{StdSink, write_all};
use std::io::Write;
use std::process::ExitCode;
use std::{env, fs, io};

/// How a run ends.
#[derive(Clone, Copy)]
enum End {
    Done,
    Unread,
    Usage,
    Memory,
    Bad,
    Refused,
}

impl End {
    fn code(self) -> u8 {
        match self {
            End::Done => 0,
            End::Unread => 1,
            End::Usage => 3,
            End::Memory => 5,
            End::Bad => 6,
            End::Refused => 10,
        }
    }
}

/// The path of a file of a folder.
fn path_of(rt: &HostRuntime, dir: &str, name: &str) -> io::Result<String> {
    let mut path = String::from_str(rt.alloc(), dir)?;
    path.push_str("/")?;
    path.push_str(name)?;
    Ok(path)
}

fn put(rt: &HostRuntime, dir: &str, name: &str, bytes: &[u8]) -> io::Result<()> {
    let path = path_of(rt, dir, name)?;
    let mut file = fs::create(rt, path.as_str())?;
    file.write_all(bytes)?;
    file.sync_all()
}

/// Makes the new folder. The journal takes its name last, so a folder that was cut off has none.
fn make(rt: &HostRuntime, to: &str, side: &[u8], tables: &[u8]) -> io::Result<()> {
    fs::create_dir(rt, to)?;
    put(rt, to, "tables", tables)?;
    put(rt, to, "journal.new", side)?;
    let written = path_of(rt, to, "journal.new")?;
    let named = path_of(rt, to, "journal.a")?;
    fs::rename(rt, written.as_str(), named.as_str())?;
    fs::open(rt, to)?.sync_all()
}

fn say(rt: &HostRuntime, text: &Text, end: End) -> End {
    let mut sink = StdSink::new(rt);
    match write_all(&mut sink, text.bytes()) {
        Ok(()) => end,
        Err(_) => End::Unread,
    }
}

/// The sides and the tables of the old folder, and the new lab's text.
#[derive(Drop)]
struct Seen {
    a: Vec<u8>,
    b: Vec<u8>,
    tables: Vec<u8>,
    ptop: Vec<u8>,
}

/// The bytes of a side; none where its file is missing.
fn side(rt: &HostRuntime, dir: &str, name: &str) -> io::Result<Vec<u8>> {
    Ok(file(rt, dir, name)?.unwrap_or(Vec::new(rt.alloc())))
}

fn look_at(rt: &HostRuntime, dir: &str, ptop: &str) -> io::Result<Seen> {
    Ok(Seen {
        a: side(rt, dir, "journal.a")?,
        b: side(rt, dir, "journal.b")?,
        tables: tables_in(rt, dir)?,
        ptop: fs::read(rt, ptop)?,
    })
}

/// Makes the new folder where a side came of it, and says what came.
fn end_with(rt: &HostRuntime, to: &str, tables: &[u8], found: &Carried, line: &Text) -> End {
    match found {
        Carried::Side(side, _) => match make(rt, to, side.bytes(), tables) {
            Ok(()) => say(rt, line, End::Done),
            Err(_) => End::Unread,
        },
        Carried::Bad(_, _) => say(rt, line, End::Bad),
        _ => say(rt, line, End::Refused),
    }
}

fn run_on(rt: &HostRuntime, dir: &str, ptop: &str, to: &str) -> End {
    let Ok(seen) = look_at(rt, dir, ptop) else {
        return End::Unread;
    };
    if seen.ptop.len() >= TEXT_LIMIT {
        return End::Unread;
    }
    let Ok(found) = carry_over(rt.alloc(), &seen.a, &seen.b, &seen.ptop) else {
        return End::Memory;
    };
    let Ok(line) = told(rt.alloc(), &found) else {
        return End::Memory;
    };
    end_with(rt, to, &seen.tables, &found, &line)
}

fn words_of(rt: &HostRuntime) -> io::Result<Vec<String>> {
    let mut words = Vec::new(rt.alloc());
    for word in env::args(rt)?.skip(1) {
        words.push(word)?;
    }
    Ok(words)
}

/// The reason why there are no words: one that isn't UTF-8 is no word of a command line.
fn no_words(error: &io::Error) -> End {
    match error.kind() {
        io::ErrorKind::InvalidData => End::Usage,
        _ => End::Memory,
    }
}

fn run(rt: &HostRuntime) -> End {
    let words = match words_of(rt) {
        Ok(words) => words,
        Err(error) => return no_words(&error),
    };
    match words.as_slice() {
        [dir, ptop, to] => run_on(rt, dir.as_str(), ptop.as_str(), to.as_str()),
        _ => End::Usage,
    }
}

/// Says on standard error how the run ended, where the reply doesn't.
fn say_end(rt: &HostRuntime, end: End) -> io::Result<()> {
    match end {
        End::Done | End::Bad | End::Refused => Ok(()),
        End::Usage => eprintln!(rt; "labgrow DIR NEW.ptop TO"),
        End::Unread => {
            eprintln!(rt; "labgrow: a file can't be read or written, or the new folder is there")
        }
        End::Memory => eprintln!(rt; "labgrow: out of memory"),
    }
}

fn main(rt: HostRuntime) -> ExitCode {
    let end = run(&rt);
    let _told = say_end(&rt, end);
    ExitCode::from(end.code())
}
