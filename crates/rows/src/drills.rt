//! Drills by number.
use lab_base::Kind;
use row_words::RowFault;
use std::alloc::{AllocError, Global};

/// A drill but for its number: the words before that and after it.
pub type Drill = (&'static str, &'static str);

pub const FAIL_DISK: Drill = ("fail disk ", "\n");

pub const STOP_NONE: Drill = ("stop ", " none\n");

pub const STOP_ALL: Drill = ("stop ", " all\n");

pub const STOP_TORN: Drill = ("stop ", " torn\n");

/// A drill of the disk, a stop by what it leaves, or one of the readings of a switch or a machine.
pub fn drill_named(word: &str) -> Result<Drill, RowFault> {
    match word {
        "disk" => Ok(FAIL_DISK),
        "none" => Ok(STOP_NONE),
        "all" => Ok(STOP_ALL),
        "torn" => Ok(STOP_TORN),
        "s1" => Ok(("fail s1 ", " read\n")),
        "pc1" => Ok(("fail pc1 ", " read\n")),
        _ => Err(RowFault::Word(Kind::Unknown)),
    }
}

/// A script with a drill of this number between two parts.
pub fn drilled(
    alloc: Global,
    before: &str,
    drill: Drill,
    nth: u32,
    behind: &str,
) -> Result<String, AllocError> {
    format!(in alloc; "{before}{}{nth}{}{behind}", drill.0, drill.1)
}
