//! Words of rows.
use crate::RowFault;
use lab_base::{Kind, Memory, Parts, Text, parted};
use line_text::{field_at, short_in};
use std::alloc::Global;

/// The byte that a letter after a backslash stands for.
fn meant(letter: u8) -> u8 {
    match letter {
        b'n' => b'\n',
        b't' => b'\t',
        b'r' => b'\r',
        b'0' => 0,
        other => other,
    }
}

/// The text of letters, in which `\n`, `\t`, `\r` and `\0` are one byte each and `\\` is a backslash.
pub fn text_of(alloc: Global, letters: &[u8]) -> Result<Text, Memory> {
    let mut text = Text::new(alloc);
    let mut is_escaped = false;
    for letter in letters {
        if is_escaped {
            text.push(meant(*letter))?;
            is_escaped = false;
        } else if *letter == b'\\' {
            is_escaped = true;
        } else {
            text.push(*letter)?;
        }
    }
    Ok(text)
}

/// The parts of a word between its colons.
pub fn parts_of(alloc: Global, word: &[u8]) -> Result<Vec<&[u8]>, Memory> {
    Ok(word.split(|byte| *byte == b':').collect(alloc)?)
}

/// The parts of a word before its first colon and after it.
pub fn pair_of(word: &[u8]) -> Result<Parts<'_>, RowFault> {
    match parted(word, b':') {
        Some(parts) => Ok(parts),
        None => Err(RowFault::Word(Kind::Fields)),
    }
}

/// The number that a word is.
pub fn number(word: &[u8]) -> Result<u16, Kind> {
    short_in(word, 0, 65_535)
}

/// The number that the word of a place is.
pub fn number_at(words: &[&[u8]], n: usize) -> Result<u16, Kind> {
    number(field_at(words, n))
}

/// The words before a bar and after it.
#[derive(Clone, Copy)]
pub struct Halves<'a> {
    pub before: &'a [&'a [u8]],
    pub behind: &'a [&'a [u8]],
}

/// The words before the bar, if there is one, and after it.
pub fn at_bar<'a>(words: &'a [&'a [u8]]) -> Halves<'a> {
    for (at, word) in words.iter().enumerate() {
        if word.first() == Some(&b'|') {
            return Halves {
                before: &words[..at],
                behind: &words[at + 1..],
            };
        }
    }
    Halves {
        before: words,
        behind: &[],
    }
}

/// Adds a space and a number.
pub fn push_number(out: &mut Text, number: u64) -> Result<(), Memory> {
    out.push(b' ')?;
    out.push_number(number)
}

/// Adds numbers, a space before each.
pub fn push_numbers(out: &mut Text, numbers: &[u64]) -> Result<(), Memory> {
    for number in numbers {
        push_number(out, *number)?;
    }
    Ok(())
}

/// Adds `yes` or `no`.
pub fn push_answer(out: &mut Text, answer: bool) -> Result<(), Memory> {
    out.push_bytes(if answer { b" yes" } else { b" no" })
}
