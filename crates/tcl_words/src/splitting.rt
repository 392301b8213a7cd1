//! The commands of a text.

ghost use Rattle.std.specs.Prelude.{◌≡◌, ◌+◌, ◌<◌, ◌≤◌, All, Ok, IfOk, IfErr, length, drop};
ghost use Rattle.tcl_words.specs.Gives.{Finds};
ghost use Rattle.tcl_words.specs.Words.{gap_of, feeds_of, line_at, CommandsOf, IsRefused, CommandLiesIn};

use crate::flaw::{Broken, Flaw};
use crate::tokens::{blank_at, comment_at, ends_command_at};
use crate::word::Command;
use crate::words::words_at;
use lab_base::{Items, TEXT_LIMIT, TextFault, TextRefused};
use std::alloc::Global;

/// The number of line feeds in these bytes.
fn feeds(bytes: &[u8]) -> usize
    ensures feeds { result ≡ feeds_of bytes.now }
    ensures few { result ≤ length bytes.now }
{
    bytes.iter().filter(|b| **b == b'\n').count()
}

/// The line of a place, from 1.
pub fn line_of(text: &[u8], at: usize) -> u32
    requires { length text.now < TEXT_LIMIT }
    ensures { result ≡ line_at text.now at }
{
    let end = if at < text.len() { at } else { text.len() };
    1 + feeds(&text[..end]) as u32
}

/// The number of bytes at a place that belong to no command; 0 where a command begins.
fn gap_at(text: &[u8], at: usize) -> usize
    requires { at < length text.now }
    ensures size { result ≡ gap_of (drop at text.now) }
    ensures fits { at + result ≤ length text.now }
{
    if ends_command_at(text, at) {
        return 1;
    }
    let blank = blank_at(text, at);
    if blank > 0 {
        return blank;
    }
    if text[at] == b'#' {
        comment_at(text, at)
    } else {
        0
    }
}

/// The commands of a text.
fn commands(alloc: Global, text: &[u8]) -> Result<Items<Command>, Broken>
    requires { length text.now < TEXT_LIMIT }
    ensures commands { Finds (CommandsOf text.now 0) result }
    ensures lie { IfOk result (λ v. All (CommandLiesIn (length text.now)) v) }
{
    let mut commands = Items::new(alloc);
    let mut counted = 0;
    let mut line = 1;
    let mut at = 0;
    'commands: while at < text.len() {
        let gap = gap_at(text, at);
        if gap > 0 {
            at += gap;
        } else {
            line += feeds(&text[counted..at]);
            counted = at;
            let (words, end) = words_at(alloc, text, at)?;
            commands.push(Command {
                words,
                line: line as u32,
            })?;
            at = end;
        }
    }
    Ok(commands)
}

/// The commands of a text, in order, or its first fault with its line.
pub fn split(alloc: Global, text: &[u8]) -> Result<Vec<Command>, TextRefused>
    requires { length text.now < TEXT_LIMIT }
    ensures commands { IfOk result (λ v. CommandsOf text.now 0 (Ok v.items)) }
    ensures refused { IfErr result (IsRefused text.now) }
    ensures lie { IfOk result (λ v. All (CommandLiesIn (length text.now)) v.items) }
{
    match commands(alloc, text) {
        Ok(commands) => Ok(commands.into_vec()),
        Err(Broken::Flaw(Flaw { kind, at })) => Err(TextRefused::Text(TextFault {
            line: line_of(text, at),
            kind,
        })),
        Err(Broken::Memory) => Err(TextRefused::Memory),
    }
}
