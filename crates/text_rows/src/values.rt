//! Values of the words of NS texts.
use lab_base::{Memory, Text};
use ns_words::*;
use std::alloc::Global;

/// The digits of a value, or `none`.
fn number_text(alloc: Global, value: Option<u64>) -> Result<Text, Memory> {
    let mut out = Text::new(alloc);
    match value {
        Some(number) => out.push_number(number)?,
        None => out.push_bytes(b"none")?,
    }
    Ok(out)
}

/// The name that a variable gives, or `none`.
fn object_text(alloc: Global, variable: &[u8]) -> Result<Text, Memory> {
    match object_name(variable) {
        Some(name) => Text::from_slice(alloc, name.bytes()),
        None => Text::from_slice(alloc, b"none"),
    }
}

/// The names of the first node and of the last link that have no variable.
fn numbered_text(alloc: Global) -> Result<Text, Memory> {
    let mut out = Text::from_slice(alloc, numbered_name(Numbered::Node, 1).bytes())?;
    out.push(b' ')?;
    out.push_bytes(numbered_name(Numbered::Link, 65_535).bytes())?;
    Ok(out)
}

/// The value of a word of that kind.
pub fn told(alloc: Global, kind: &str, word: &[u8]) -> Result<Option<Text>, Memory> {
    Ok(Some(match kind {
        "bandwidth" => number_text(alloc, bandwidth(word))?,
        "delay" => number_text(alloc, delay(word).map(u64::from))?,
        "time" => number_text(alloc, time(word))?,
        "loss" => number_text(alloc, loss(word).map(u64::from))?,
        "address" => number_text(alloc, address(word).map(u64::from))?,
        "object" => object_text(alloc, word)?,
        "number" => numbered_text(alloc)?,
        _ => return Ok(None),
    }))
}
