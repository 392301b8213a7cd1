//! The journal over a plant.
ghost use Rattle.std.specs.Prelude.{◌≤◌, ◌^◌};

use crate::answers::{letters, side_word};
use crate::records::deletion;
use journal_disk::{AppendFault, CompactFault, Journal, OpenFault};
use journal_rec::{Encoded, Found, Packed, Record};
use lab_base::Kind;
use plant_mem::MemLab;
use row_words::{RowFault, Words};
use std::alloc::{AllocError, Global};
use std::fmt::Write;

/// The most bytes of a side.
const LIMIT: u64 = 1 << 32;

/// Adds why the journal isn't opened.
fn push_fault(out: &mut String, fault: OpenFault) -> Result<(), RowFault> {
    match fault {
        OpenFault::Plant => out.push_str("failed")?,
        OpenFault::Stopped => out.push_str("stopped")?,
        OpenFault::Bad { side, at } => write!(out, "bad {} {at}", side_word(side))?,
        OpenFault::Memory => return Err(RowFault::Memory),
    }
    Ok(())
}

/// Adds the place of a record, and what it deletes, if it deletes something.
fn push_found(out: &mut String, found: &Found) -> Result<(), AllocError> {
    write!(out, ", {} ", found.at)?;
    match &found.entry {
        Record::Delete { exp } => write!(out, "delete {}", letters(exp)),
        _ => out.push_str("other"),
    }
}

/// Adds a journal's side, its epoch, its length and its records.
fn push_journal(out: &mut String, journal: &Journal, records: &[Found]) -> Result<(), AllocError> {
    out.push_str(side_word(journal.side()))?;
    write!(
        out,
        " epoch {} length {}",
        journal.epoch(),
        journal.length()
    )?;
    for found in records {
        push_found(out, found)?;
    }
    Ok(())
}

/// Opens the journal, and adds what it is.
fn push_opened(out: &mut String, alloc: Global, plant: &mut MemLab) -> Result<(), RowFault> {
    match Journal::open(alloc, plant, LIMIT) {
        Ok((journal, records)) => {
            let pushed = push_journal(out, &journal, &records);
            drop(records);
            Ok(pushed?)
        }
        Err(fault) => push_fault(out, fault),
    }
}

/// Adds what an append answers.
fn push_appended(out: &mut String, answer: Result<(), AppendFault>) -> Result<(), AllocError> {
    match answer {
        Ok(()) => out.push_str("done"),
        Err(AppendFault::Full { length, size }) => write!(out, "full {length} {size}"),
        Err(AppendFault::Plant) => out.push_str("failed"),
        Err(AppendFault::Stopped) => out.push_str("stopped"),
    }
}

/// Opens the journal with that limit, and appends a record; adds the answer, and how long the journal is then.
fn push_append(
    out: &mut String,
    alloc: Global,
    plant: &mut MemLab,
    limit: u64,
    record: &Encoded,
) -> Result<(), RowFault>
    requires least { 18 ≤ limit }
    requires most { limit ≤ 2 ^ 32 }
{
    match Journal::open(alloc, plant, limit) {
        Ok((mut journal, records)) => {
            drop(records);
            push_appended(out, journal.append(record, plant))?;
            Ok(write!(out, ", length {}", journal.length())?)
        }
        Err(fault) => push_fault(out, fault),
    }
}

/// Adds the output of an append under the limit of a row, if it may be one.
fn push_append_to(
    out: &mut String,
    alloc: Global,
    plant: &mut MemLab,
    words: &mut Words<'_>,
) -> Result<(), RowFault> {
    let limit = u64::from(words.number()?);
    if limit < 18 {
        return Err(RowFault::Word(Kind::Word));
    }
    push_append(out, alloc, plant, limit, &deletion(alloc, words.name()?)?)
}

/// Moves the journal, where it may be, with these records; gives what that answers.
fn compact(
    journal: &mut Journal,
    packed: &Packed,
    plant: &mut MemLab,
) -> Result<&'static str, RowFault> {
    if journal.epoch() == u64::MAX || packed.length() > journal.limit() {
        return Err(RowFault::Word(Kind::Word));
    }
    match journal.compact(packed, plant) {
        Ok(()) => Ok("done"),
        Err(CompactFault::Plant) => Ok("failed"),
        Err(CompactFault::Stopped) => Ok("stopped"),
    }
}

/// Opens the journal, and moves it with these records; adds how long it is to be, and the answer.
fn push_move(
    out: &mut String,
    alloc: Global,
    plant: &mut MemLab,
    packed: &Packed,
) -> Result<(), RowFault> {
    match Journal::open(alloc, plant, LIMIT) {
        Ok((mut journal, records)) => {
            drop(records);
            let answer = compact(&mut journal, packed, plant)?;
            Ok(write!(out, "{} bytes, {answer}", packed.length())?)
        }
        Err(fault) => push_fault(out, fault),
    }
}

/// Adds the output of a move of the journal that leaves one record.
fn push_compact(
    out: &mut String,
    alloc: Global,
    plant: &mut MemLab,
    record: &Encoded,
) -> Result<(), RowFault> {
    let mut packed = Packed::new(alloc)?;
    packed.add(record)?;
    push_move(out, alloc, plant, &packed)
}

/// Does an action with the journal, and adds what is told of it, if it is one.
pub fn told(
    out: &mut String,
    alloc: Global,
    plant: &mut MemLab,
    kind: &str,
    words: &mut Words<'_>,
) -> Result<bool, RowFault> {
    match kind {
        "open" => push_opened(out, alloc, plant)?,
        "append" => push_append(out, alloc, plant, LIMIT, &deletion(alloc, words.name()?)?)?,
        "append-to" => push_append_to(out, alloc, plant, words)?,
        "compact" => push_compact(out, alloc, plant, &deletion(alloc, words.name()?)?)?,
        _ => return Ok(false),
    }
    Ok(true)
}
