//! Bytes as letters: those that have one as it is, but for a blank and `<`, and any other by two digits, as in `<a5>`.
use lab_base::{Kind, Text};
use row_words::RowFault;
use std::alloc::{AllocError, Global};
use std::fmt::Write;

/// Adds bytes in letters.
pub fn push_spelled(out: &mut String, bytes: &[u8]) -> Result<(), AllocError> {
    for byte in bytes {
        match byte {
            b'!'..=b';' | b'='..=b'~' => out.push(char::from(*byte))?,
            _ => write!(out, "<{byte:02x}>")?,
        }
    }
    Ok(())
}

/// Adds a byte by its digits, and what stands after it.
fn push_piece(out: &mut Text, piece: &str) -> Result<(), RowFault> {
    let (digits, letters) = piece.split_once('>').ok_or(RowFault::Word(Kind::Word))?;
    out.push(u8::from_str_radix(digits, 16)?)?;
    Ok(out.push_bytes(letters.as_bytes())?)
}

/// The bytes that letters stand for.
pub fn bytes_of(alloc: Global, spelled: &str) -> Result<Text, RowFault> {
    let (letters, pieces) = spelled.split_once('<').unwrap_or((spelled, ""));
    let mut out = Text::from_slice(alloc, letters.as_bytes())?;
    if !pieces.is_empty() {
        for piece in pieces.split('<') {
            push_piece(&mut out, piece)?;
        }
    }
    Ok(out)
}
