//! The parts of words.

ghost use Rattle.std.specs.Prelude.{◌≡◌, ◌+◌, ◌^◌, ◌<◌, ◌≤◌, ◌++◌, All, IfOk, OnOk, IsOk, length, drop, false};
ghost use Rattle.std.specs.Option.{ForSome};
ghost use Rattle.tcl_words.specs.Passes.{Passes};
ghost use Rattle.tcl_words.specs.Gives.{Finds};
ghost use Rattle.tcl_words.specs.Words.{bytes_from, PartsOf, InBraces, ReferenceOf, ReferenceLies, LiesIn};
ghost use Rattle.tcl_words.specs.Pieces.{PieceLeads, ComesNext};
ghost use Rattle.tcl_words.specs.Tokens.{is_word_end};
ghost use Rattle.tcl_words.specs.declared.frame.Frame.TheVariants as frames;
ghost use Rattle.tcl_words.specs.declared.frame.BracketState.TheVariants as places;
ghost use Rattle.tcl_words.specs.declared.parts.Closing.TheVariants as closings;
ghost use Rattle.tcl_words.specs.declared.word.Part.TheVariants as parts;

use crate::flaw::{Broken, Flaw};
use crate::frame::{BracketState, Frame};
use crate::nesting::pass;
use crate::tokens::{Token, ends_word_at, joined_at, token_at};
use crate::word::{Part, Reference};
use lab_base::{Items, Kind, TEXT_LIMIT};
use std::alloc::Global;

/// Adds the bytes from one place to another, if there are any.
fn push_bytes(parts: &mut Items<Part>, start: usize, end: usize) -> Result<(), Broken>
    requires { end < 2 ^ 32 }
    ensures ok { OnOk result (parts.new ≡ parts.old ++ bytes_from start end) }
    ensures memory { Finds (λ o. IsOk o) result }
{
    if start < end {
        parts.push(Part::Plain {
            start: start as u32,
            end: end as u32,
        })?;
    }
    Ok(())
}

/// The end of a list of parts.
#[derive(Clone, Copy, Drop)]
pub enum Closing {
    /// The end of a bare word.
    Blank,
    /// The quote that closes the one here.
    Quote { opened: usize },
    /// The parenthesis that closes the one here.
    Index { opened: usize },
}

/// The outcome at a place among parts.
#[derive(Clone, Copy, Drop)]
pub enum Next {
    /// The parts end here, and `end` is the place beyond their end.
    Closed { end: usize },
    /// The text ends before the parts do.
    Unclosed(Flaw),
    /// The parts go on.
    More,
}

/// The outcome at a place among parts: their end, their missing end, or more of them.
fn next_at(text: &[u8], closing: Closing, at: usize) -> Next
    requires { at ≤ length text.now }
    ensures next { ComesNext text.now closing at result }
{
    match closing {
        Closing::Blank => {
            if ends_word_at(text, at) {
                Next::Closed { end: at }
            } else {
                Next::More
            }
        }
        Closing::Quote { opened } => {
            if at == text.len() {
                Next::Unclosed(Flaw {
                    kind: Kind::Quote,
                    at: opened,
                })
            } else if text[at] == b'"' {
                Next::Closed { end: at + 1 }
            } else {
                Next::More
            }
        }
        Closing::Index { opened } => {
            if at == text.len() {
                Next::Unclosed(Flaw {
                    kind: Kind::Bracket,
                    at: opened,
                })
            } else if text[at] == b')' {
                Next::Closed { end: at + 1 }
            } else {
                Next::More
            }
        }
    }
}

/// The place after the script at a `[`, with its bracket.
pub fn script_end(alloc: Global, text: &[u8], at: usize) -> Result<usize, Broken>
    requires { at < length text.now }
    ensures passes { Finds (λ o. Passes text.now (frames.Bracket at places.Start) (at + 1) o) result }
    ensures forward { IfOk result (λ end. (at + 1 < end) × (end ≤ length text.now)) }
{
    let frame = Frame::Bracket {
        opened: at,
        bracket_state: BracketState::Start,
    };
    pass(alloc, text, frame, at + 1)
}

/// The place after an index, with its closing parenthesis.
fn index_end(alloc: Global, text: &[u8], opened: usize) -> Result<usize, Broken>
    requires { opened < length text.now }
    ensures passes { Finds (λ o. Passes text.now (frames.Index opened) (opened + 1) o) result }
    ensures forward { IfOk result (λ end. (opened + 1 < end) × (end ≤ length text.now)) }
{
    pass(alloc, text, Frame::Index { opened }, opened + 1)
}

/// A variable from one place to another.
fn variable_part(start: usize, end: usize) -> Part
    requires start { start < 2 ^ 32 }
    requires end { end < 2 ^ 32 }
    ensures { result ≡ parts.Variable start end }
{
    Part::Variable {
        start: start as u32,
        end: end as u32,
    }
}

/// The part at a place, and the place after it. A byte that stands for itself is no part.
fn piece_at(alloc: Global, text: &[u8], at: usize) -> Result<(Option<Part>, usize), Broken>
    requires here { at < length text.now }
    requires short { length text.now < TEXT_LIMIT }
    ensures leads { Finds (PieceLeads text.now at) result }
    ensures forward { IfOk result (λ piece. (at < piece.1) × (piece.1 ≤ length text.now)) }
    ensures lies { IfOk result (λ piece. ForSome piece.0 (LiesIn (length text.now))) }
{
    match token_at(text, at) {
        Token::Byte => Ok((None, at + 1)),
        Token::Wrong => Err(Broken::Flaw(Flaw {
            kind: Kind::Escape,
            at,
        })),
        Token::Escape { byte, size } => Ok((Some(Part::Escape { byte }), at + size)),
        Token::Variable { size } => Ok((Some(variable_part(at, at + size)), at + size)),
        Token::Braced { size } => Ok((Some(variable_part(at, at + size)), at + size)),
        Token::Indexed { size } => {
            let end = index_end(alloc, text, at + size - 1)?;
            Ok((Some(variable_part(at, end)), end))
        }
        Token::Bracket => {
            let end = script_end(alloc, text, at)?;
            let part = Part::Script {
                start: (at + 1) as u32,
                end: (end - 1) as u32,
            };
            Ok((Some(part), end))
        }
    }
}

/// The parts from a place up to their end, and the place after that.
pub(crate) fn parts_at(
    alloc: Global,
    text: &[u8],
    closing: Closing,
    start: usize,
) -> Result<(Items<Part>, usize), Broken>
    requires here { start ≤ length text.now }
    requires short { length text.now < TEXT_LIMIT }
    ensures parts { Finds (PartsOf text.now closing start start) result }
    ensures forward { IfOk result (λ found. (start ≤ found.1) × (found.1 ≤ length text.now)) }
    ensures moves { IfOk result (λ found. closing ≡ closings.Blank → is_word_end (drop start text.now) ≡ false → start < found.1) }
    ensures lie { IfOk result (λ found. All (LiesIn (length text.now)) found.0) }
{
    let mut parts = Items::new(alloc);
    let mut plain = start;
    let mut at = start;
    'parts: loop {
        match next_at(text, closing, at) {
            Next::Closed { end } => {
                push_bytes(&mut parts, plain, at)?;
                return Ok((parts, end));
            }
            Next::Unclosed(flaw) => return Err(Broken::Flaw(flaw)),
            Next::More => {}
        }
        let (part, end) = piece_at(alloc, text, at)?;
        if let Some(part) = part {
            push_bytes(&mut parts, plain, at)?;
            parts.push(part)?;
            plain = end;
        }
        at = end;
    }
}

/// The parts between braces: bytes, and a blank for each line that goes on.
pub(crate) fn braced_parts(
    alloc: Global,
    text: &[u8],
    start: usize,
    end: usize,
) -> Result<Items<Part>, Broken>
    requires here { end ≤ length text.now }
    requires short { length text.now < TEXT_LIMIT }
    ensures parts { IfOk result (InBraces text.now end start start) }
    ensures memory { Finds (λ o. IsOk o) result }
    ensures lie { IfOk result (All (LiesIn (length text.now))) }
{
    let mut parts = Items::new(alloc);
    let mut plain = start;
    let mut at = start;
    'bytes: while at < end {
        let joined = joined_at(text, at);
        if joined > 0 {
            push_bytes(&mut parts, plain, at)?;
            parts.push(Part::Escape { byte: b' ' })?;
            at += joined;
            plain = at;
        } else if text[at] == b'\\' {
            at += 2;
        } else {
            at += 1;
        }
    }
    push_bytes(&mut parts, plain, end)?;
    Ok(parts)
}

/// The variable at a place, if there is one.
pub fn reference_at(alloc: Global, text: &[u8], at: usize) -> Result<Option<Reference>, Broken>
    requires here { at < length text.now }
    requires short { length text.now < TEXT_LIMIT }
    ensures reference { Finds (ReferenceOf text.now at) result }
    ensures lies { IfOk result (λ found. ForSome found (ReferenceLies (length text.now) at)) }
{
    match token_at(text, at) {
        Token::Variable { size } => Ok(Some(Reference {
            name_start: at + 1,
            name_end: at + size,
            index: None,
            end: at + size,
        })),
        Token::Braced { size } => Ok(Some(Reference {
            name_start: at + 2,
            name_end: at + size - 1,
            index: None,
            end: at + size,
        })),
        Token::Indexed { size } => {
            let opened = at + size - 1;
            let (index, end) = parts_at(alloc, text, Closing::Index { opened }, at + size)?;
            Ok(Some(Reference {
                name_start: at + 1,
                name_end: opened,
                index: Some(index),
                end,
            }))
        }
        _ => Ok(None),
    }
}
