//! The texts that rows name.
use lab_base::{Items, Kind, Memory, Text, fields_in};
use row_words::{RowFault, text_of};
use std::alloc::Global;
use std::str;

#[derive(Drop)]
struct Entry {
    name: Text,
    text: Text,
}

/// Texts by name.
#[derive(Drop)]
pub struct Texts {
    entries: Items<Entry>,
}

impl Texts {
    /// No texts.
    pub fn new(alloc: Global) -> Texts {
        Texts {
            entries: Items::new(alloc),
        }
    }

    /// Adds a text.
    pub(crate) fn add(&mut self, name: Text, text: Text) -> Result<(), Memory> {
        self.entries.push(Entry { name, text })
    }

    /// The text of a name, if there is one.
    pub(crate) fn get(&self, name: &[u8]) -> Option<&[u8]> {
        for entry in self.entries.as_slice() {
            if entry.name.bytes() == name {
                return Some(entry.text.bytes());
            }
        }
        None
    }

    /// The text of a name.
    pub(crate) fn of(&self, name: &[u8]) -> Result<&[u8], RowFault> {
        match self.get(name) {
            Some(text) => Ok(text),
            None => Err(RowFault::Word(Kind::Unknown)),
        }
    }
}

/// Adds the byte of two hexadecimal digits.
fn push_digits(text: &mut Text, digits: &[u8]) -> Result<(), RowFault> {
    let digits = str::from_utf8(digits).map_err(|_broken| RowFault::Word(Kind::Number))?;
    Ok(text.push(u8::from_str_radix(digits, 16)?)?)
}

/// Adds what a word says: the text that it names, nothing where it is `-`, or else the bytes of its digits.
fn push_word(text: &mut Text, texts: &Texts, word: &[u8]) -> Result<(), RowFault> {
    if let Some(named) = texts.get(word) {
        return Ok(text.push_bytes(named)?);
    }
    if word != b"-".as_slice() {
        for digits in word.chunks(2) {
            push_digits(text, digits)?;
        }
    }
    Ok(())
}

/// The bytes that words say, one after another.
fn bytes_of(alloc: Global, texts: &Texts, words: &[&[u8]]) -> Result<Text, RowFault> {
    let mut bytes = Text::new(alloc);
    for word in words {
        push_word(&mut bytes, texts, word)?;
    }
    Ok(bytes)
}

/// Keeps the text of a line that names one, `text` with its letters, or `bytes` with its words; tells whether it is such a line.
pub fn keep_line(alloc: Global, texts: &mut Texts, line: &str) -> Result<bool, RowFault> {
    let (kind, named) = line.split_once(' ').unwrap_or((line, ""));
    let (name, letters) = named.split_once(' ').unwrap_or((named, ""));
    let text = match kind {
        "text" => text_of(alloc, letters.as_bytes())?,
        "bytes" => bytes_of(alloc, texts, &fields_in(alloc, letters.as_bytes())?)?,
        _ => return Ok(false),
    };
    texts.add(Text::from_slice(alloc, name.as_bytes())?, text)?;
    Ok(true)
}
