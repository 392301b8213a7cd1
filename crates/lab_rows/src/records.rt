//! Records that follow one another, and the labs that they stand for.
ghost use Rattle.std.specs.Prelude.{IfOk};
ghost use Rattle.journal_rec.specs.Payloads.{IsRecord};

use crate::texts::Texts;
use journal_rec::{Found, Packed, Record, decode};
use lab_base::{Kind, Memory, Text, TrunkId};
use lab_state::{LabState, PrepareFault, ReplayFault};
use line_text::field_at;
use row_words::{RowFault, at_bar, push_answer, push_number};
use std::alloc::Global;

/// The record that its payload is read as.
fn record_of(alloc: Global, payload: &[u8]) -> Result<Record, RowFault>
    ensures { IfOk result IsRecord }
{
    match decode(alloc, payload) {
        Ok(record) => Ok(record),
        Err(fault) => Err(RowFault::from(fault)),
    }
}

/// Enters a record; tells whether it can follow.
fn follows(state: &mut LabState, entry: &Record) -> Result<bool, RowFault>
    requires { IsRecord entry.now }
{
    match state.prepare(entry) {
        Ok(prepared) => {
            state.enter(prepared);
            Ok(true)
        }
        Err(PrepareFault::Bad) => Ok(false),
        Err(PrepareFault::Memory) => Err(RowFault::Memory),
    }
}

/// Enters the record of a text; tells whether it can follow.
fn enters(
    alloc: Global,
    texts: &Texts,
    state: &mut LabState,
    name: &[u8],
) -> Result<bool, RowFault> {
    let entry = record_of(alloc, texts.of(name)?)?;
    let follows = follows(state, &entry);
    drop(entry);
    follows
}

/// Adds the kbps that the claims leave of the first trunk, if there is one.
fn push_left(out: &mut Text, state: &LabState) -> Result<(), Memory> {
    if let Some(lab) = state.lab()
        && let Some(claims) = state.claims()
        && !lab.trunks().is_empty()
    {
        push_number(out, claims.left(TrunkId(0)))?;
    }
    out.push(b'\n')
}

/// Enters records, and adds whether each can follow, with what is left then, and how many experiments there are at the end.
fn push_all(
    out: &mut Text,
    alloc: Global,
    texts: &Texts,
    state: &mut LabState,
    names: &[&[u8]],
) -> Result<(), RowFault> {
    for name in names {
        out.push_bytes(name)?;
        push_answer(out, enters(alloc, texts, state, name)?)?;
        push_left(out, state)?;
    }
    out.push_number(state.len() as u64)?;
    Ok(())
}

/// Whether records can follow one another.
pub fn add_output(
    out: &mut Text,
    alloc: Global,
    texts: &Texts,
    words: &[&[u8]],
) -> Result<(), RowFault> {
    let mut state = LabState::new(alloc);
    let told = push_all(out, alloc, texts, &mut state, words);
    drop(state);
    told
}

/// How many experiments three records give, or the number of the first that can't follow.
fn replayed(
    alloc: Global,
    first: Record,
    second: Record,
    third: Record,
) -> Result<usize, ReplayFault>
    requires first { IsRecord first }
    requires second { IsRecord second }
    requires third { IsRecord third }
{
    let records = [
        Found {
            at: 17,
            entry: first,
        },
        Found {
            at: 200,
            entry: second,
        },
        Found {
            at: 300,
            entry: third,
        },
    ];
    let replayed = LabState::replay(alloc, &records);
    drop(records);
    match replayed {
        Ok(state) => {
            let count = state.len();
            drop(state);
            Ok(count)
        }
        Err(fault) => Err(fault),
    }
}

/// The outcome of replaying a record and two payloads.
fn replayed_after(
    alloc: Global,
    first: Record,
    second: &[u8],
    third: &[u8],
) -> Result<Result<usize, ReplayFault>, RowFault>
    requires { IsRecord first }
{
    let second = match record_of(alloc, second) {
        Ok(second) => second,
        Err(wrong) => {
            drop(first);
            return Err(wrong);
        }
    };
    match record_of(alloc, third) {
        Ok(third) => Ok(replayed(alloc, first, second, third)),
        Err(wrong) => {
            drop(first);
            drop(second);
            Err(wrong)
        }
    }
}

fn push_replayed(out: &mut Text, replayed: Result<usize, ReplayFault>) -> Result<(), Memory> {
    match replayed {
        Ok(count) => out.push_number(count as u64),
        Err(ReplayFault::Bad { index }) => {
            out.push_bytes(b"bad")?;
            push_number(out, index as u64)
        }
        Err(ReplayFault::Memory) => Err(Memory),
    }
}

/// The outcome of replaying three records.
pub fn tell_three(
    out: &mut Text,
    alloc: Global,
    texts: &Texts,
    words: &[&[u8]],
) -> Result<(), RowFault> {
    let (second, third) = (texts.of(field_at(words, 1))?, texts.of(field_at(words, 2))?);
    let first = record_of(alloc, texts.of(field_at(words, 0))?)?;
    Ok(push_replayed(out, replayed_after(alloc, first, second, third)?)?)
}

/// Adds a payload behind its open gate.
fn push_gate(bytes: &mut Text, payload: &[u8]) -> Result<(), Memory> {
    let size = u32::try_from(payload.len()).unwrap_or(0);
    bytes.push(0xa5)?;
    bytes.push_bytes(&size.to_le_bytes())?;
    bytes.push_bytes(payload)
}

/// The records of texts, each behind its open gate, and a closed gate after the last.
fn gates_of(alloc: Global, texts: &Texts, names: &[&[u8]]) -> Result<Text, RowFault> {
    let mut bytes = Text::new(alloc);
    for name in names {
        push_gate(&mut bytes, texts.of(name)?)?;
    }
    bytes.push(0)?;
    Ok(bytes)
}

/// Enters the records of texts.
fn enter_all(
    alloc: Global,
    texts: &Texts,
    state: &mut LabState,
    names: &[&[u8]],
) -> Result<(), RowFault> {
    for name in names {
        if !enters(alloc, texts, state, name)? {
            return Err(RowFault::Word(Kind::Missing));
        }
    }
    Ok(())
}

/// The lab that the records of texts give.
pub fn state_of(alloc: Global, texts: &Texts, names: &[&[u8]]) -> Result<LabState, RowFault> {
    let mut state = LabState::new(alloc);
    match enter_all(alloc, texts, &mut state, names) {
        Ok(()) => Ok(state),
        Err(wrong) => {
            drop(state);
            Err(wrong)
        }
    }
}

/// The lab that the records of texts give, packed.
fn packed_of(alloc: Global, texts: &Texts, names: &[&[u8]]) -> Result<Packed, RowFault> {
    let mut state = LabState::new(alloc);
    let entered = enter_all(alloc, texts, &mut state, names);
    let packed = state.pack();
    drop(state);
    entered?;
    Ok(packed?)
}

/// Whether the lab that records before a bar give is packed into those after it.
pub fn tell_packed(
    out: &mut Text,
    alloc: Global,
    texts: &Texts,
    words: &[&[u8]],
) -> Result<(), RowFault> {
    let halves = at_bar(words);
    let packed = packed_of(alloc, texts, halves.before)?;
    let wanted = gates_of(alloc, texts, halves.behind)?;
    push_answer(out, packed.bytes() == wanted.bytes())?;
    Ok(())
}
