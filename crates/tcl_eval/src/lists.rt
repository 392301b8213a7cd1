//! Lists of elements, and words that are joined.

ghost use Rattle.std.specs.Prelude.{◌≡◌, ◌+◌, ◌<◌, ◌≤◌, ◌++◌, ◌⊎◌, [], length, drop, IfOk, IfErr, IfSome};
ghost use Rattle.lab_base.specs.declared.fault.Kind.TheVariants as kinds;
ghost use Rattle.tcl_eval.specs.declared.halts.Halt.TheVariants as halts;
ghost use Rattle.std.specs.List.{prefix_len, list_all};
ghost use Rattle.tcl_eval.specs.Ends.{Gives};
ghost use Rattle.tcl_eval.specs.Forms.{listed, with_element, is_between, is_inside, is_special, is_plain, is_element, element_from, joined_by};

use crate::halts::Halt;
use crate::limits::{MAX_VALUE, short};
use lab_base::{Kind, Memory, Text};
use std::alloc::Global;

/// Whether a byte separates the elements of a list.
fn is_between(byte: u8) -> bool
    ensures { result ≡ is_between byte }
{
    byte == b' ' || byte == b'\t' || byte == b'\n'
}

/// Whether a byte belongs to an element.
fn is_inside(byte: u8) -> bool
    ensures { result ≡ is_inside byte }
{
    !is_between(byte)
}

/// The number of bytes at the front that separate elements.
fn between_size(rest: &[u8]) -> usize
    ensures size { result ≡ prefix_len is_between rest.now }
    ensures fits { result ≤ length rest.now }
{
    rest.iter().take_while(|b| is_between(**b)).count()
}

/// The number of bytes at the front that belong to an element.
fn inside_size(rest: &[u8]) -> usize
    ensures size { result ≡ prefix_len is_inside rest.now }
    ensures fits { result ≤ length rest.now }
{
    rest.iter().take_while(|b| is_inside(**b)).count()
}

/// The place of the first byte of an element, from a place on.
fn element_start(list: &[u8], at: usize) -> usize
    requires { at ≤ length list.now }
    ensures start { result ≡ at + prefix_len is_between (drop at list.now) }
    ensures fits { result ≤ length list.now }
{
    at + between_size(&list[at..])
}

/// The place after the element at a place.
fn element_end(list: &[u8], at: usize) -> usize
    requires { at ≤ length list.now }
    ensures end { result ≡ at + prefix_len is_inside (drop at list.now) }
    ensures fits { result ≤ length list.now }
{
    at + inside_size(&list[at..])
}

/// The first element of a list from a place on, by its first place and the place after it.
pub fn element_at(list: &[u8], at: usize) -> Option<(usize, usize)>
    requires { at ≤ length list.now }
    ensures element { result ≡ element_from list.now at }
    ensures lies { IfSome result (λ found. (at ≤ found.0) × (found.0 < found.1) × (found.1 ≤ length list.now)) }
{
    let start = element_start(list, at);
    let end = element_end(list, start);
    if start < end {
        Some((start, end))
    } else {
        None
    }
}

/// Whether a byte may stand in no element of a list, as Tcl gives it a meaning.
fn is_special(byte: u8) -> bool
    ensures { result ≡ is_special byte }
{
    byte == b' '
        || byte == b'\t'
        || byte == b'{'
        || byte == b'}'
        || byte == b'"'
        || byte == b'['
        || byte == b']'
        || byte == b'$'
        || byte == b';'
        || byte == b'\\'
}

/// Whether a byte may stand in an element.
fn is_plain(byte: u8) -> bool
    ensures { result ≡ is_plain byte }
{
    !is_special(byte)
}

fn has_plain_bytes(word: &[u8]) -> bool
    ensures { result ≡ list_all is_plain word.now }
{
    word.iter().all(|b| is_plain(*b))
}

/// Whether `lappend` takes a word: it isn't empty, and has no blank, brace, quote, bracket, `$`, `;` or backslash.
pub fn is_element(word: &[u8]) -> bool
    ensures { result ≡ is_element word.now }
{
    !word.is_empty() && has_plain_bytes(word)
}

/// The words from a place on.
pub fn words_from(words: &[Text], from: usize) -> &[Text]
    requires { from ≤ length words.now }
    ensures { result.now ≡ drop from words.now }
{
    &words[from..]
}

/// The words, joined by these bytes.
pub fn joined(alloc: Global, words: &[Text], between: &[u8]) -> Result<Text, Memory>
    ensures { IfOk result (λ text. text ≡ joined_by between.now words.now) }
{
    let [first, rest @ ..] = words else {
        return Ok(Text::new(alloc));
    };
    let mut text = Text::from_slice(alloc, first.bytes())?;
    for word in rest {
        text.push_bytes(between)?;
        text.push_bytes(word.bytes())?;
    }
    Ok(text)
}

/// The value with these words after it.
pub fn appended(value: Text, words: &[Text]) -> Result<Text, Halt>
    ensures value { IfOk result (λ all. (all ≡ value ++ joined_by [] words.now) × (length (value ++ joined_by [] words.now) ≤ MAX_VALUE)) }
    ensures fails { IfErr result (λ halt. (halt ≡ halts.Memory)
        ⊎ ((halt ≡ halts.Fault kinds.Long) × (MAX_VALUE < length (value ++ joined_by [] words.now)))) }
{
    let mut value = value;
    for word in words {
        value.push_bytes(word.bytes())?;
    }
    short(value)
}

/// The list with one word more.
fn with_element(list: Text, word: &[u8]) -> Result<Text, Halt>
    ensures { Gives (λ r. r ≡ with_element list word.now) result }
{
    if !is_element(word) {
        return Err(Halt::Fault(Kind::List));
    }
    let mut list = list;
    if list.len() > 0 {
        list.push(b' ')?;
    }
    list.push_bytes(word)?;
    short(list)
}

/// The list with these words after it, one after another.
pub fn listed(list: Text, words: &[Text]) -> Result<Text, Halt>
    ensures { Gives (λ r. r ≡ listed list words.now) result }
{
    let mut list = list;
    for word in words {
        list = with_element(list, word.bytes())?;
    }
    Ok(list)
}
