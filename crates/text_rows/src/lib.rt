//! Rows of the layers of texts: each is a line, and its output is that of the layer. A row is its kind, and then a text, in which `\n`, `\t`, `\r`
//! and `\0` are one byte each and `\\` is a backslash.
//!
//! ```text
//! script    the commands of a script, a line each: the words, and blocks in `< >`; and the line that is no command
//! reply     all replies, and which of them close the controller
//! ptop      a lab: how many switches, nodes and trunks it has, and its text; `sides` and `largest`: see `ptops.rt`
//! top       the text of a wiring
//! solution  the text of a mapping of the pair; `ends`: the names of ends
//! words     the commands and words of a Tcl text
//! value     what the variable `r` is after a Tcl text, or `!` where there is none or the text is refused
//! tcl       how a Tcl text ends; `again`: where one was refused before; `stops`: where a command of the host stops it
//! ns        the network of an NS text; `nodes`: of lines over two nodes; `long`: of a long text, with so many line ends
//! events    the events of lines over two nodes, a link and a LAN; `many`: their number and the last one
//! wiring    the wiring of an NS text; `joins`: of lines over three nodes
//! due       the events of a span of time; `changes` and `shapes`: what events make of pipes
//! bandwidth delay time loss address object number        the value of a word
//! ```
//!
//! A text that is refused is told by the line and the kind of its fault.
#![tactic(auto)]

mod evaluation;
mod event_lines;
mod link_events;
mod networks;
mod ptops;
mod replies;
mod scripts;
mod solutions;
mod splitting;
mod tops;
mod values;
mod wirings;

use lab_base::{Kind, Text};
use row_words::{RowFault, text_of};
use std::alloc::Global;

/// The output of a row about scripts, labs, wirings or mappings.
fn told_of_lab(alloc: Global, kind: &str, text: &[u8]) -> Result<Option<Text>, RowFault> {
    Ok(Some(match kind {
        "script" => scripts::told(alloc, text)?,
        "reply" => replies::told(alloc)?,
        "ptop" => ptops::told(alloc, text)?,
        "sides" => ptops::sides(alloc, text)?,
        "largest" => ptops::told_largest(alloc)?,
        "top" => tops::told(alloc, text)?,
        "solution" => solutions::told(alloc, text)?,
        "ends" => solutions::told_ends(alloc, text)?,
        _ => return Ok(None),
    }))
}

/// The output of a row about Tcl.
fn told_of_tcl(alloc: Global, kind: &str, text: &[u8]) -> Result<Option<Text>, RowFault> {
    Ok(Some(match kind {
        "words" => splitting::told(alloc, text)?,
        "value" => evaluation::value(alloc, text)?,
        "tcl" => evaluation::told(alloc, text)?,
        "again" => evaluation::told_again(alloc, text)?,
        "stops" => evaluation::told_stopped(alloc, text)?,
        _ => return Ok(None),
    }))
}

/// The output of a row about NS texts and their events.
fn told_of_ns(alloc: Global, kind: &str, text: &[u8]) -> Result<Option<Text>, RowFault> {
    Ok(Some(match kind {
        "ns" => networks::told(alloc, text)?,
        "nodes" => networks::told_over_two(alloc, text)?,
        "long" => networks::told_long(alloc, text)?,
        "events" => event_lines::told(alloc, text)?,
        "many" => event_lines::told_last(alloc, text)?,
        "wiring" => wirings::told(alloc, text)?,
        "joins" => wirings::told_over_three(alloc, text)?,
        _ => return Ok(None),
    }))
}

/// The output of a row by its kind, if it is one.
fn told_by_kind(alloc: Global, kind: &str, text: &[u8]) -> Result<Option<Text>, RowFault> {
    if let Some(told) = told_of_lab(alloc, kind, text)? {
        return Ok(Some(told));
    }
    if let Some(told) = told_of_tcl(alloc, kind, text)? {
        return Ok(Some(told));
    }
    if let Some(told) = told_of_ns(alloc, kind, text)? {
        return Ok(Some(told));
    }
    if let Some(told) = link_events::told(alloc, kind)? {
        return Ok(Some(told));
    }
    Ok(values::told(alloc, kind, text)?)
}

/// The output of a row.
pub fn told(alloc: Global, line: &str) -> Result<Text, RowFault> {
    let (kind, letters) = line.split_once(' ').unwrap_or((line, ""));
    let text = text_of(alloc, letters.as_bytes())?;
    match told_by_kind(alloc, kind, text.bytes())? {
        Some(told) => Ok(told),
        None => Err(RowFault::Word(Kind::Unknown)),
    }
}
