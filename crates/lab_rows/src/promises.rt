//! Promises made in advance.
use crate::reading::{MAX_TEXT, lab_of};
use crate::texts::Texts;
use lab_ahead::{Batch, Fit, Left, Need, fits, left_at, moments, needs_at, read_batch};
use lab_base::{Items, Kind, Memory, Name, NodeId, Text, name_in};
use line_text::{field_at, push_field, push_numbered};
use phys_lab::Lab;
use row_words::{RowFault, number, number_at, pair_of, push_number, push_numbers, text_of};
use std::alloc::Global;

/// The type of a word, and how many nodes of it are needed.
fn need_of(word: &[u8]) -> Result<Need, RowFault> {
    let pair = pair_of(word)?;
    Ok(Need {
        kind: name_in(pair.before)?,
        count: number(pair.behind)?,
    })
}

/// Whether two needs fit both nodes of a lab.
fn fit(alloc: Global, lab: &Lab, needs: &[Need; 2]) -> Result<Fit, RowFault> {
    if lab.nodes().len() != 2 {
        return Err(RowFault::Word(Kind::Many));
    }
    let mut left = Items::new(alloc);
    left.push(NodeId(0))?;
    left.push(NodeId(1))?;
    Ok(fits(alloc, lab, left.as_slice(), needs)?)
}

/// Adds nodes, each with the need that it is given to.
fn push_given(out: &mut Text, given: &[(NodeId, u16)]) -> Result<(), Memory> {
    for (node, need) in given {
        push_number(out, u64::from(node.0))?;
        out.push(b':')?;
        out.push_number(u64::from(*need))?;
    }
    Ok(())
}

pub(crate) fn push_names(out: &mut Text, names: &[Name]) -> Result<(), Memory> {
    for name in names {
        push_field(out, name)?;
    }
    Ok(())
}

fn push_fit(out: &mut Text, fit: &Fit) -> Result<(), Memory> {
    match fit {
        Fit::Yes(given) => push_given(out, given.as_slice()),
        Fit::No(kinds) => {
            out.push_bytes(b"short")?;
            push_names(out, kinds.as_slice())
        }
    }
}

/// The nodes that two needs are given, or the types that are short.
pub fn tell_fit(
    out: &mut Text,
    alloc: Global,
    texts: &Texts,
    words: &[&[u8]],
) -> Result<(), RowFault> {
    let needs = [need_of(field_at(words, 1))?, need_of(field_at(words, 2))?];
    let lab = lab_of(alloc, texts, field_at(words, 0))?;
    let found = fit(alloc, &lab, &needs);
    drop(lab);
    Ok(push_fit(out, &found?)?)
}

/// The batch of a text.
pub(crate) fn batch_of(alloc: Global, text: &[u8]) -> Result<Batch, RowFault> {
    if text.len() > MAX_TEXT {
        return Err(RowFault::Memory);
    }
    Ok(read_batch(alloc, text)?)
}

/// How many promises and runs a batch has.
pub fn tell_batch(out: &mut Text, alloc: Global, letters: &[u8]) -> Result<(), RowFault> {
    let text = text_of(alloc, letters)?;
    let batch = batch_of(alloc, text.bytes())?;
    let (promises, runs) = (batch.promises.len(), batch.runs.len());
    drop(batch);
    push_number(out, promises as u64)?;
    Ok(push_number(out, runs as u64)?)
}

/// The moments at which a run that begins so late and takes so long is tested against the promises of a batch.
pub fn tell_moments(
    out: &mut Text,
    alloc: Global,
    texts: &Texts,
    words: &[&[u8]],
) -> Result<(), RowFault> {
    let now = u64::from(number_at(words, 1)?);
    let length = u64::from(number_at(words, 2)?);
    let batch = batch_of(alloc, texts.of(field_at(words, 0))?)?;
    let tested = moments(alloc, batch.promises.as_slice(), now, length);
    drop(batch);
    Ok(push_numbers(out, tested?.as_slice())?)
}

fn push_needs(out: &mut Text, needs: &[Need]) -> Result<(), Memory> {
    for need in needs {
        push_numbered(out, &need.kind, u64::from(need.count))?;
    }
    Ok(())
}

/// The needs of a batch's promises at a moment.
pub fn tell_needs(
    out: &mut Text,
    alloc: Global,
    texts: &Texts,
    words: &[&[u8]],
) -> Result<(), RowFault> {
    let at = u64::from(number_at(words, 1)?);
    let batch = batch_of(alloc, texts.of(field_at(words, 0))?)?;
    let needs = needs_at(alloc, batch.promises.as_slice(), at);
    drop(batch);
    Ok(push_needs(out, needs?.as_slice())?)
}

/// The node of a word, and the moment from which it is left.
fn left_of(word: &[u8]) -> Result<Left, RowFault> {
    let pair = pair_of(word)?;
    Ok(Left {
        node: NodeId(number(pair.before)?),
        from: u64::from(number(pair.behind)?),
    })
}

/// The nodes of words after the first one.
fn lefts_of(alloc: Global, words: &[&[u8]]) -> Result<Items<Left>, RowFault> {
    let mut left = Items::new(alloc);
    for word in words.iter().skip(1) {
        left.push(left_of(word)?)?;
    }
    Ok(left)
}

/// The nodes that are left at a moment.
pub fn tell_left(out: &mut Text, alloc: Global, words: &[&[u8]]) -> Result<(), RowFault> {
    let at = u64::from(number_at(words, 0)?);
    let left = lefts_of(alloc, words)?;
    for node in left_at(alloc, left.as_slice(), at)?.as_slice() {
        push_number(out, u64::from(node.0))?;
    }
    Ok(())
}
