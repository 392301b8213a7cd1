//! Rows of the layers of labs: each is a line, and its output is that of the layer. A line `text NAME LETTERS` keeps a text, in which `\n` is the
//! end of a line. A line `bytes NAME WORDS` keeps one of hexadecimal digits and of texts above it. The first word of a row says what it tests, and
//! the others name such texts:
//!
//! ```text
//! build PART..                what comes of switches and trunks that are added to a lab, and how many trunks and switches it has then
//! sides LAB                   by trunk, which switches are on its first side
//! check TOP TOP               the check of a wiring, and of one with the nodes of another too
//! isolated LAB TEXT WORD..    whether a world is isolated: rows `s1:1:100`, pipes `pipe:a:e0:e1`, and what is wanted `e:new:l:s1:1:100`
//! world LAB EXP.. | COMMAND.. whether the experiments' claims hold, and the world is isolated and cabled, where the mappings suit the lab;
//!                             a command after a `!` was not applied
//! follow RECORD..             whether each record can follow, and what it leaves of the first trunk; and how many experiments there are then
//! replay RECORD RECORD RECORD how many experiments three records give, or the number of the first that can't follow
//! pack RECORD.. | RECORD..    whether the lab of some records is packed into others
//! audit RECORD.. | COMMAND..  in what devices differ that were sent the commands, and how many lines that has
//! fit LAB TYPE:COUNT TYPE:COUNT      the nodes that two needs are given, or the types that are short
//! batch LETTERS               how many promises and runs a batch has
//! moments BATCH NOW LENGTH    when a run is tested
//! needs BATCH AT              what promises need
//! left AT NODE:FROM..         which nodes are left
//! wait LAB BATCH NOW LENGTH WORD..   whether a run fits, or how it waits: its places `place:2:pc`, the ends of runs before it `end:A:110`, and
//!                             who claims a node, `claim:0:A`
//! plan LAB TOP MAP OLD NEW    the plan of a swap from one VLAN id to another, 0 for none, and that of its undo
//! claims LAB                  what is counted of claims
//! free LAB VLAN..             what is left beside a claim, and whether VLAN ids are
//! rule LAB TOP MAP TAKEN LEFT the rule that a mapping breaks, with its subject
//! ```
//!
//! The experiments of a world are named with the plans by which they stand, `e:E`, or between which they move, `e:E>F`. A plan is a text: the
//! name of a wiring, numbers of nodes with types, and numbers of interfaces and VLAN ids.
#![tactic(auto)]

mod audits;
mod builds;
mod claimed;
mod isolation;
mod plans;
mod promises;
mod reading;
mod records;
mod rules;
mod steps;
mod texts;
mod waits;
mod worlds;

use lab_base::{Kind, Text, fields_in};
use row_words::RowFault;
use std::alloc::Global;
pub use texts::Texts;
use texts::keep_line;

/// Adds the output of a row about labs and worlds; true where it is one.
fn tell_of_worlds(
    out: &mut Text,
    alloc: Global,
    texts: &Texts,
    kind: &str,
    words: &[&[u8]],
) -> Result<bool, RowFault> {
    match kind {
        "build" => builds::add_output(out, alloc, words)?,
        "sides" => builds::tell_sides(out, alloc, texts, words)?,
        "check" => builds::tell_check(out, alloc, texts, words)?,
        "isolated" => isolation::add_output(out, alloc, texts, words)?,
        "world" => worlds::add_output(out, alloc, texts, words)?,
        _ => return Ok(false),
    }
    Ok(true)
}

/// Adds the output of a row about records; true where it is one.
fn tell_of_records(
    out: &mut Text,
    alloc: Global,
    texts: &Texts,
    kind: &str,
    words: &[&[u8]],
) -> Result<bool, RowFault> {
    match kind {
        "follow" => records::add_output(out, alloc, texts, words)?,
        "replay" => records::tell_three(out, alloc, texts, words)?,
        "pack" => records::tell_packed(out, alloc, texts, words)?,
        "audit" => audits::add_output(out, alloc, texts, words)?,
        _ => return Ok(false),
    }
    Ok(true)
}

/// Adds the output of a row about promises; true where it is one.
fn tell_of_promises(
    out: &mut Text,
    alloc: Global,
    texts: &Texts,
    kind: &str,
    words: &[&[u8]],
) -> Result<bool, RowFault> {
    match kind {
        "fit" => promises::tell_fit(out, alloc, texts, words)?,
        "moments" => promises::tell_moments(out, alloc, texts, words)?,
        "needs" => promises::tell_needs(out, alloc, texts, words)?,
        "left" => promises::tell_left(out, alloc, words)?,
        "wait" => waits::add_output(out, alloc, texts, words)?,
        _ => return Ok(false),
    }
    Ok(true)
}

/// Adds the output of a row about mappings; true where it is one.
fn tell_of_mappings(
    out: &mut Text,
    alloc: Global,
    texts: &Texts,
    kind: &str,
    words: &[&[u8]],
) -> Result<bool, RowFault> {
    match kind {
        "plan" => plans::add_output(out, alloc, texts, words)?,
        "claims" => claimed::add_output(out, alloc, texts, words)?,
        "free" => claimed::tell_free(out, alloc, texts, words)?,
        "rule" => rules::add_output(out, alloc, texts, words)?,
        _ => return Ok(false),
    }
    Ok(true)
}

/// Adds the output of a row; true where it is one.
fn add_row_output(
    out: &mut Text,
    alloc: Global,
    texts: &Texts,
    kind: &str,
    letters: &[u8],
) -> Result<bool, RowFault> {
    if kind == "batch" {
        promises::tell_batch(out, alloc, letters)?;
        return Ok(true);
    }
    let words = fields_in(alloc, letters)?;
    Ok(
        tell_of_worlds(out, alloc, texts, kind, &words)?
            || tell_of_records(out, alloc, texts, kind, &words)?
            || tell_of_promises(out, alloc, texts, kind, &words)?
            || tell_of_mappings(out, alloc, texts, kind, &words)?,
    )
}

/// The output of a line; None of one that keeps a text.
pub fn told(alloc: Global, texts: &mut Texts, line: &str) -> Result<Option<Text>, RowFault> {
    if keep_line(alloc, texts, line)? {
        return Ok(None);
    }
    let (kind, letters) = line.split_once(' ').unwrap_or((line, ""));
    let mut out = Text::new(alloc);
    if !add_row_output(&mut out, alloc, texts, kind, letters.as_bytes())? {
        return Err(RowFault::Word(Kind::Unknown));
    }
    Ok(Some(out))
}
