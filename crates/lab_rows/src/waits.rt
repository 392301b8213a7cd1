//! Runs that wait.
use crate::promises::{batch_of, push_names};
use crate::reading::lab_of;
use crate::texts::Texts;
use lab_ahead::{End, Promise, Span, Wait, first_wait, left_for};
use lab_base::{Items, Kind, Memory, Name, NodeId, Text, name_in};
use line_text::field_at;
use phys_lab::Lab;
use row_words::{RowFault, number, number_at, pair_of, push_number};
use std::alloc::Global;

/// The most nodes of a lab, and the most promises of a batch.
const MAX_NODES: usize = 1_024;

const MAX_PROMISES: usize = 64;

/// A row of a run: by node the experiments that claim it, the ends of the runs before it, and its own places.
#[derive(Drop)]
struct Queued {
    claimers: Vec<Items<Name>>,
    ends: Items<End>,
    places: Items<(NodeId, Name)>,
}

fn unclaimed(alloc: Global, lab: &Lab) -> Result<Vec<Items<Name>>, Memory> {
    let mut claimers = Vec::new(alloc);
    for _node in lab.nodes() {
        claimers.push(Items::new(alloc))?;
    }
    Ok(claimers)
}

fn add_place(queued: &mut Queued, word: &[u8]) -> Result<(), RowFault> {
    let pair = pair_of(word)?;
    let node = NodeId(number(pair.before)?);
    let kind = name_in(pair.behind)?;
    Ok(queued.places.push((node, kind))?)
}

fn add_end(queued: &mut Queued, word: &[u8]) -> Result<(), RowFault> {
    let pair = pair_of(word)?;
    let exp = name_in(pair.before)?;
    let at = u64::from(number(pair.behind)?);
    Ok(queued.ends.push(End { exp, at })?)
}

fn add_claim(queued: &mut Queued, word: &[u8]) -> Result<(), RowFault> {
    let pair = pair_of(word)?;
    let node = number(pair.before)? as usize;
    let exp = name_in(pair.behind)?;
    if node >= queued.claimers.len() {
        return Err(RowFault::Word(Kind::Unknown));
    }
    Ok(queued.claimers[node].push(exp)?)
}

/// Adds what a word tells: `place:NODE:TYPE`, `end:EXPERIMENT:MOMENT` or `claim:NODE:EXPERIMENT`.
fn add_word(queued: &mut Queued, word: &[u8]) -> Result<(), RowFault> {
    let pair = pair_of(word)?;
    if pair.before == b"place".as_slice() {
        add_place(queued, pair.behind)
    } else if pair.before == b"end".as_slice() {
        add_end(queued, pair.behind)
    } else if pair.before == b"claim".as_slice() {
        add_claim(queued, pair.behind)
    } else {
        Err(RowFault::Word(Kind::Word))
    }
}

fn queued_of(alloc: Global, lab: &Lab, words: &[&[u8]]) -> Result<Queued, RowFault> {
    let mut queued = Queued {
        claimers: unclaimed(alloc, lab)?,
        ends: Items::new(alloc),
        places: Items::new(alloc),
    };
    for word in words.iter().skip(4) {
        add_word(&mut queued, word)?;
    }
    Ok(queued)
}

/// Tests a run that begins so late and takes so long.
fn wait_of(
    alloc: Global,
    lab: &Lab,
    promises: &[Promise],
    queued: &Queued,
    from: u16,
    length: u16,
) -> Result<Option<Wait>, RowFault> {
    let nodes = queued.claimers.len();
    if nodes != lab.nodes().len() || nodes > MAX_NODES || promises.len() > MAX_PROMISES {
        return Err(RowFault::Word(Kind::Many));
    }
    let span = Span {
        from: u64::from(from),
        length: u64::from(length),
    };
    let ends = queued.ends.as_slice();
    let left = left_for(alloc, &queued.claimers, ends, queued.places.as_slice())?;
    Ok(first_wait(alloc, lab, left.as_slice(), promises, span)?)
}

fn push_wait(out: &mut Text, found: &Option<Wait>) -> Result<(), Memory> {
    match found {
        None => out.push_bytes(b" fits"),
        Some(wait) => {
            push_number(out, wait.at)?;
            push_number(out, u64::from(wait.need))?;
            push_number(out, u64::from(wait.have))?;
            push_names(out, wait.kinds.as_slice())
        }
    }
}

/// Whether a run fits; or the first moment at which it doesn't, what is needed and what is left, and the types.
pub fn add_output(
    out: &mut Text,
    alloc: Global,
    texts: &Texts,
    words: &[&[u8]],
) -> Result<(), RowFault> {
    let (from, length) = (number_at(words, 2)?, number_at(words, 3)?);
    let batch = batch_of(alloc, texts.of(field_at(words, 1))?)?;
    let lab = lab_of(alloc, texts, field_at(words, 0))?;
    let queued = queued_of(alloc, &lab, words);
    let found = match queued {
        Ok(queued) => wait_of(
            alloc,
            &lab,
            batch.promises.as_slice(),
            &queued,
            from,
            length,
        ),
        Err(wrong) => Err(wrong),
    };
    drop(lab);
    drop(batch);
    Ok(push_wait(out, &found?)?)
}
