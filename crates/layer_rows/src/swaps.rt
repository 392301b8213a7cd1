//! Swaps that are turned to their ends.
ghost use Rattle.std.specs.Prelude.{◌≡◌, ◌≤◌, ◌^◌, length, IfOk, OnOk, Some};
ghost use Rattle.plant_mem.specs.MemLab.{told_of};
ghost use Rattle.journal_rec.specs.Payloads.{way_bytes, tags_of_way};
ghost use Rattle.journal_disk.specs.Standing.{limit_of};
ghost use Rattle.swap_txn.specs.Steps.{Stands};

use journal_disk::Journal;
use journal_rec::Way;
use lab_base::{Name, Tags, Text, What};
use plant_mem::MemLab;
use row_words::RowFault;
use std::alloc::Global;
use swap_plan::Ops;
use swap_txn::*;

/// The most bytes of a side.
const LIMIT: u64 = 1 << 32;

/// How a swap ended.
#[derive(Clone, Copy)]
pub enum Last {
    Ended(Ended),
    Stuck(What),
    Stopped,
    /// It is still open after 200 turns, or there was no room for it.
    Open,
}

fn stuck(state: Live, what: What) -> Last {
    drop(state);
    Last::Stuck(what)
}

fn given_up(state: Live) -> Last {
    drop(state);
    Last::Open
}

/// One turn: the state that follows, or how the swap ended.
fn step(live: Live, journal: &mut Journal, plant: &mut MemLab) -> Result<Live, Last>
    requires stands { Stands (Some (told_of plant.old)) journal.old }
    requires limit { limit_of journal.old ≡ 2 ^ 32 }
    ensures stands { OnOk result (Stands (Some (told_of plant.new)) journal.new) }
    ensures limit { limit_of journal.new ≡ 2 ^ 32 }
{
    if journal.length() > LIMIT - 39 {
        return Err(given_up(live));
    }
    let _exp = live.exp();
    match live.turn(journal, plant) {
        Turned::Same(live) => Ok(live),
        Turned::Next(live) => Ok(live),
        Turned::Trouble(undoing, _what) => Ok(Live::Undoing(undoing)),
        Turned::Stuck(live, what) => Err(stuck(live, what)),
        Turned::Stopped => Err(Last::Stopped),
    }
}

/// Turns until the swap ends, is stuck or stops.
pub fn finish(live: Live, journal: &mut Journal, plant: &mut MemLab, turns: u8) -> Last
    requires stands { Stands (Some (told_of plant.old)) journal.old }
    requires limit { limit_of journal.old ≡ 2 ^ 32 }
{
    if turns == 0 {
        return given_up(live);
    }
    match step(live, journal, plant) {
        Ok(Live::Ended(ended)) => Last::Ended(ended),
        Ok(live) => finish(live, journal, plant, turns - 1),
        Err(last) => last,
    }
}

fn way_of(alloc: Global, out: bool) -> Way
    ensures tags { length (tags_of_way result) ≡ 0 }
    ensures size { length (way_bytes result) ≤ 7 }
{
    if out {
        Way::Out
    } else {
        Way::In {
            map: Text::new(alloc),
            tags: Tags::new(alloc),
        }
    }
}

/// A swap that is planned.
pub fn planned_of(alloc: Global, exp: Name, ops: Ops, out: bool) -> Result<Planned, RowFault> {
    let way = way_of(alloc, out);
    let _bytes = exp.bytes();
    Ok(Planned::new(alloc, exp, ops, way)?)
}

/// Begins a swap, and turns it until it ends, is stuck or stops.
pub fn swap(planned: Planned, journal: &mut Journal, plant: &mut MemLab) -> Last
    requires stands { Stands (Some (told_of plant.old)) journal.old }
    requires limit { limit_of journal.old ≡ 2 ^ 32 }
{
    if journal.length() > LIMIT - 200 || planned.size() > 200 {
        drop(planned);
        return Last::Open;
    }
    match planned.turn(journal, plant) {
        Turned::Next(live) => finish(live, journal, plant, 200),
        Turned::Stuck(planned, what) => {
            drop(planned);
            Last::Stuck(what)
        }
        Turned::Stopped => Last::Stopped,
        Turned::Same(planned) => {
            drop(planned);
            Last::Open
        }
        Turned::Trouble(undoing, _what) => {
            drop(undoing);
            Last::Open
        }
    }
}

/// A journal over the plant.
pub fn opened(alloc: Global, plant: &mut MemLab) -> Result<Journal, RowFault>
    ensures stands { IfOk result (λ journal. Stands (Some (told_of plant.new)) journal) }
    ensures limit { IfOk result (λ journal. limit_of journal ≡ 2 ^ 32) }
{
    match Journal::open(alloc, plant, LIMIT) {
        Ok((journal, records)) => {
            drop(records);
            Ok(journal)
        }
        Err(_) => Err(RowFault::Plant),
    }
}
