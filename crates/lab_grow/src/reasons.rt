// The first record that can't follow over the new lab, and what stands in its way.
ghost use Rattle.std.specs.Prelude.{◌≡◌, ◌<◌, length, Some, IfOk};
ghost use Rattle.lab_base.specs.Lists.{Has};
ghost use Rattle.journal_rec.specs.declared.record.Found.{Found as AnyFound};
ghost use Rattle.journal_rec.specs.Payloads.{IsRecord};
ghost use Rattle.records_model.specs.Labs.{LabState as AnyState, LabOf};
ghost use Rattle.lab_state.specs.Replays.{records_of};
ghost use Rattle.lab_state.specs.Texts.{the_texts};
ghost use Rattle.lab_grow.specs.Reasons.{exp_of, IsOf, IsStuck};

use crate::obstacle::{Obstacle, obstacle_of};
use journal_rec::{Found, Record, Way};
use lab_base::{Memory, Name, Tags, Text};
use lab_state::{LabState, ReplayFault};
use std::alloc::Global;

/// The experiment that a record is of; None for that of a lab.
fn exp_of(entry: &Record) -> Option<Name>
    ensures { result ≡ exp_of entry.now }
{
    match entry {
        Record::Lab { .. } => None,
        Record::Create { exp, .. } => Some(*exp),
        Record::Delete { exp } => Some(*exp),
        Record::Begin { exp, .. } => Some(*exp),
        Record::Commit { exp } => Some(*exp),
        Record::Abort { exp } => Some(*exp),
        Record::Create2 { exp, .. } => Some(*exp),
    }
}

/// The obstacle of an experiment that is to come into a lab.
fn obstacle_in(
    alloc: Global,
    state: &LabState,
    exp: Name,
    map: &Text,
    tags: &Tags,
) -> Result<Obstacle, Memory> {
    let (Some(lab), Some(claims), Some(own)) = (state.lab(), state.claims(), state.experiment(exp))
    else {
        return Ok(Obstacle::Other);
    };
    obstacle_of(alloc, lab, claims, own, map, tags.as_slice())
}

/// The obstacle of the record of that number, after those before it.
fn obstacle_at(alloc: Global, found: &[Found], index: usize) -> Result<Obstacle, Memory>
    requires index { index < length found.now }
    requires records { (f : AnyFound) → Has found.now f → IsRecord f.entry }
{
    match &found[index].entry {
        Record::Begin {
            exp,
            way: Way::In { map, tags },
        } => match LabState::replay(alloc, &found[..index]) {
            Ok(state) => obstacle_in(alloc, &state, *exp, map, tags),
            Err(ReplayFault::Bad { .. }) => Ok(Obstacle::Other),
            Err(ReplayFault::Memory) => Err(Memory),
        },
        _ => Ok(Obstacle::Other),
    }
}

/// The experiment of the record of that number, with its obstacle.
fn stuck_at(
    alloc: Global,
    found: &[Found],
    index: usize,
) -> Result<(Option<Name>, Obstacle), Memory>
    requires index { index < length found.now }
    requires records { (f : AnyFound) → Has found.now f → IsRecord f.entry }
    ensures { IfOk result (λ told. IsOf (records_of found.now) index told.0) }
{
    let exp = exp_of(&found[index].entry);
    let obstacle = obstacle_at(alloc, found, index)?;
    Ok((exp, obstacle))
}

/// The experiment whose record is the first that can't follow, with what stands in its way.
pub(crate) fn first_stuck(
    alloc: Global,
    found: &[Found],
) -> Result<(Option<Name>, Obstacle), Memory>
    requires records { (f : AnyFound) → Has found.now f → IsRecord f.entry }
    requires stuck { (end : AnyState) → LabOf the_texts (records_of found.now) end → ⊥ }
    ensures { IfOk result (λ told. IsStuck (records_of found.now) told.0) }
{
    match LabState::replay(alloc, found) {
        Ok(_state) => unreachable!(),
        Err(ReplayFault::Bad { index }) => stuck_at(alloc, found, index),
        Err(ReplayFault::Memory) => Err(Memory),
    }
}
