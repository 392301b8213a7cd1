//! Boot states: the lawful pairs, and a watch on a node that boots.
use crate::answers::boot_word;
use lab_base::{Boot, Kind};
use node_state::{Seen, Watch, lawful};
use row_words::{RowFault, Words};
use std::alloc::AllocError;
use std::fmt::Write;

const STATES: [Boot; 5] = [
    Boot::Off,
    Boot::Shutdown,
    Boot::Booting,
    Boot::TbSetup,
    Boot::IsUp,
];

/// The state of a word.
fn state_of(word: &str) -> Result<Boot, RowFault> {
    for state in STATES {
        if boot_word(state) == word {
            return Ok(state);
        }
    }
    Err(RowFault::Word(Kind::Word))
}

/// The last verdict of a watch.
fn seen(words: &mut Words<'_>) -> Result<Seen, RowFault> {
    let mut watch = Watch::new();
    let mut seen = Seen::Wait;
    for _ in 0..10 {
        if words.rest().is_empty() {
            break;
        }
        let count = words.number()?;
        let state = state_of(words.word())?;
        for _ in 0..count {
            seen = watch.see(state);
        }
    }
    Ok(seen)
}

fn push_seen(out: &mut String, seen: Seen) -> Result<(), AllocError> {
    match seen {
        Seen::Unlawful(from, to) => write!(out, "unlawful {} {}", boot_word(from), boot_word(to)),
        Seen::Up => out.push_str("up"),
        Seen::TooLong => out.push_str("too long"),
        Seen::Wait => out.push_str("wait"),
    }
}

/// Adds by state the states that may follow it.
fn push_lawful(out: &mut String) -> Result<(), AllocError> {
    for from in STATES {
        if from != Boot::Off {
            out.push('\n')?;
        }
        write!(out, "{}:", boot_word(from))?;
        for to in STATES {
            if lawful(from, to) {
                write!(out, " {}", boot_word(to))?;
            }
        }
    }
    Ok(())
}

/// Adds what is told of boot states, if that is asked.
pub fn told(out: &mut String, kind: &str, words: &mut Words<'_>) -> Result<bool, RowFault> {
    match kind {
        "see" => push_seen(out, seen(words)?)?,
        "lawful" => push_lawful(out)?,
        _ => return Ok(false),
    }
    Ok(true)
}
