//! Records as the journal holds them.
use crate::answers::letters;
use crate::bytes::{bytes_of, push_spelled};
use journal_rec::{Encoded, RecFault, Record, decode, encode};
use lab_base::Name;
use row_words::{RowFault, Words};
use std::alloc::{AllocError, Global};
use std::collections::BTreeSet;
use std::fmt::Write;

/// The deletion of an experiment.
pub fn deletion(alloc: Global, exp: Name) -> Result<Encoded, RowFault> {
    Ok(encode(alloc, &Record::Delete { exp })?)
}

/// Adds how much longer the record makes the journal, and its bytes.
fn push_encoded(out: &mut String, encoded: &Encoded) -> Result<(), AllocError> {
    write!(out, "{} ", encoded.size())?;
    push_spelled(out, encoded.bytes())
}

/// Adds the deletion of an experiment.
fn push_deletion(out: &mut String, alloc: Global, exp: Name) -> Result<(), RowFault> {
    Ok(push_encoded(out, &deletion(alloc, exp)?)?)
}

/// Adds the record that is read from a payload, or that there is none.
fn push_read(out: &mut String, alloc: Global, payload: &[u8]) -> Result<(), RowFault> {
    match decode(alloc, payload) {
        Ok(record) => {
            let encoded = encode(alloc, &record);
            drop(record);
            Ok(push_encoded(out, &encoded?)?)
        }
        Err(RecFault::Bad) => Ok(out.push_str("bad")?),
        Err(RecFault::Memory) => Err(RowFault::Memory),
    }
}

/// Adds names in their order, each once.
fn push_ordered(out: &mut String, alloc: Global, words: &mut Words<'_>) -> Result<(), RowFault> {
    let mut names = BTreeSet::new(alloc);
    for word in words.rest().split(' ') {
        if names.insert(Name::read(word.as_bytes())?).is_err() {
            return Err(RowFault::Memory);
        }
    }
    for name in &names {
        write!(out, "{};", letters(name))?;
    }
    Ok(())
}

/// Adds what is told of an action with a record or with names, if it is one.
pub fn told(
    out: &mut String,
    alloc: Global,
    kind: &str,
    words: &mut Words<'_>,
) -> Result<bool, RowFault> {
    match kind {
        "order" => push_ordered(out, alloc, words)?,
        "delete" => push_deletion(out, alloc, words.name()?)?,
        "payload" => push_read(out, alloc, bytes_of(alloc, words.word())?.bytes())?,
        _ => return Ok(false),
    }
    Ok(true)
}
