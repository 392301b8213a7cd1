//! The words of a command.

ghost use Rattle.std.specs.Prelude.{◌≡◌, ◌≢◌, ◌^◌, ◌<◌, ◌≤◌, All, IfOk, length, drop, slice_index, false};
ghost use Rattle.tcl_words.specs.Gives.{Finds};
ghost use Rattle.tcl_words.specs.Words.{WordOf, WordsOf, word, WordLiesIn, WordBeginsAt};
ghost use Rattle.tcl_words.specs.Tokens.{is_word_end, is_command_end, blank_of};

use crate::flaw::{Broken, Flaw};
use crate::parts::{Closing, braced_parts, parts_at};
use crate::tokens::{blank_at, braces_at, ends_command_at, ends_word_at};
use crate::word::{Part, Word, WordKind};
use lab_base::{Items, Kind, TEXT_LIMIT};
use std::alloc::Global;

/// A word of these places and parts.
fn make_word(kind: WordKind, start: usize, end: usize, parts: Items<Part>) -> Word
    requires start { start < 2 ^ 32 }
    requires end { end < 2 ^ 32 }
    ensures { result ≡ word kind start end parts }
{
    Word {
        kind,
        start: start as u32,
        end: end as u32,
        parts,
    }
}

/// The word in quotes at a place.
fn quoted_word(alloc: Global, text: &[u8], at: usize) -> Result<Word, Broken>
    requires here { at < length text.now }
    requires short { length text.now < TEXT_LIMIT }
    requires quote { slice_index text.now at ≡ 34 }
    ensures word { Finds (WordOf text.now at) result }
    ensures lies { IfOk result (λ word. WordBeginsAt text.now at word) }
{
    let (parts, end) = parts_at(alloc, text, Closing::Quote { opened: at }, at + 1)?;
    if !ends_word_at(text, end) {
        return Err(Broken::Flaw(Flaw {
            kind: Kind::AfterQuote,
            at: end,
        }));
    }
    Ok(make_word(WordKind::Quoted, at, end, parts))
}

/// The word in braces at a place.
fn braced_word(alloc: Global, text: &[u8], at: usize) -> Result<Word, Broken>
    requires here { at < length text.now }
    requires short { length text.now < TEXT_LIMIT }
    requires brace { slice_index text.now at ≡ 123 }
    ensures word { Finds (WordOf text.now at) result }
    ensures lies { IfOk result (λ word. WordBeginsAt text.now at word) }
{
    let Some(size) = braces_at(text, at + 1) else {
        return Err(Broken::Flaw(Flaw {
            kind: Kind::Brace,
            at,
        }));
    };
    let end = at + 1 + size;
    if !ends_word_at(text, end) {
        return Err(Broken::Flaw(Flaw {
            kind: Kind::AfterBrace,
            at: end,
        }));
    }
    let parts = braced_parts(alloc, text, at + 1, at + size)?;
    Ok(make_word(WordKind::Braced, at, end, parts))
}

/// The bare word at a place.
fn bare_word(alloc: Global, text: &[u8], at: usize) -> Result<Word, Broken>
    requires here { at < length text.now }
    requires short { length text.now < TEXT_LIMIT }
    requires begins { is_word_end (drop at text.now) ≡ false }
    requires no_quote { slice_index text.now at ≢ 34 }
    requires no_brace { slice_index text.now at ≢ 123 }
    ensures word { Finds (WordOf text.now at) result }
    ensures lies { IfOk result (λ word. WordBeginsAt text.now at word) }
{
    let (parts, end) = parts_at(alloc, text, Closing::Blank, at)?;
    Ok(make_word(WordKind::Bare, at, end, parts))
}

/// The word at a place.
fn word_at(alloc: Global, text: &[u8], at: usize) -> Result<Word, Broken>
    requires here { at < length text.now }
    requires short { length text.now < TEXT_LIMIT }
    requires begins { is_word_end (drop at text.now) ≡ false }
    ensures word { Finds (WordOf text.now at) result }
    ensures lies { IfOk result (λ word. WordBeginsAt text.now at word) }
{
    match text[at] {
        b'"' => quoted_word(alloc, text, at),
        b'{' => braced_word(alloc, text, at),
        _ => bare_word(alloc, text, at),
    }
}

/// The words of the command at a place, and the place where it ends.
pub fn words_at(alloc: Global, text: &[u8], start: usize) -> Result<(Items<Word>, usize), Broken>
    requires here { start ≤ length text.now }
    requires short { length text.now < TEXT_LIMIT }
    ensures words { Finds (WordsOf text.now start) result }
    ensures forward { IfOk result (λ found. (start ≤ found.1) × (found.1 ≤ length text.now)) }
    ensures moves { IfOk result (λ found. is_command_end (drop start text.now) ≡ false → start < found.1) }
    ensures some { IfOk result (λ found. blank_of (drop start text.now) ≡ 0 → is_command_end (drop start text.now) ≡ false → 0 < length found.0) }
    ensures lie { IfOk result (λ found. All (WordLiesIn (length text.now)) found.0) }
{
    let mut words = Items::new(alloc);
    let mut at = start;
    'words: while !ends_command_at(text, at) {
        let blank = blank_at(text, at);
        if blank > 0 {
            at += blank;
        } else {
            let word = word_at(alloc, text, at)?;
            at = word.end as usize;
            words.push(word)?;
        }
    }
    Ok((words, at))
}
