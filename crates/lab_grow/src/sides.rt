// The side of a journal of a lab over another lab's text.
ghost use Rattle.std.specs.Prelude.{◌≡◌, ◌<◌, Some, IfOk, length};
ghost use Rattle.lab_grow.specs.Carried.{AreAtRest};
ghost use Rattle.lab_grow.specs.Outcomes.{Comes, ComesOf, IsCarried};

use crate::growing::{Grown, grow};
use crate::obstacle::Obstacle;
use crate::reasons::first_stuck;
use crate::standing::{first_moving, first_other};
use lab_base::{Memory, Name, TEXT_LIMIT, Text, TextFault, TextRefused};
use lab_look::{Looked, look};
use lab_state::LabState;
use phys_lab::Lab;
use plant::Side;
use ptop_text::read_ptop;
use std::alloc::Global;

/// The side of a new journal, or why there is none.
#[derive(Drop)]
pub enum Carried {
    /// The bytes of side A of a journal of epoch 1, and how many experiments it has.
    Side(Text, usize),
    /// The old folder has no lab.
    NoLab,
    /// The old sides are no journal, for a fault at that place.
    Bad(Side, u64),
    /// The new text has a fault.
    Faulty(TextFault),
    /// The experiment that stands in the way, which is None only for the record of the lab itself, and its obstacle.
    Refused(Option<Name>, Obstacle),
}

/// The experiments of a lab that don't move over another one.
fn carry(alloc: Global, state: &LabState, old: &Lab, new: &Lab) -> Result<Carried, Memory>
    requires lab { state.now.state.lab ≡ Some old.now }
    requires rest { AreAtRest state.now.state.experiments }
    ensures { IfOk result (Comes old.now new.now state.now.state.experiments) }
{
    match grow(alloc, state, old, new) {
        Ok(Grown::Lab(text, grown)) => match first_other(alloc, old, new, state, &grown) {
            Ok(Some((exp, link))) => Ok(Carried::Refused(Some(exp), Obstacle::Cable(link))),
            Ok(None) => Ok(Carried::Side(text, grown.len())),
            Err(Memory) => Err(Memory),
        },
        Ok(Grown::Refused(found)) => match first_stuck(alloc, found.as_slice()) {
            Ok((exp, obstacle)) => Ok(Carried::Refused(exp, obstacle)),
            Err(Memory) => Err(Memory),
        },
        Err(Memory) => Err(Memory),
    }
}

/// The experiments of a lab over that of a ptop text.
fn carry_to(alloc: Global, state: &LabState, old: &Lab, ptop: &[u8]) -> Result<Carried, Memory>
    requires lab { state.now.state.lab ≡ Some old.now }
    requires text { length ptop.now < TEXT_LIMIT }
    ensures { IfOk result (ComesOf old.now ptop.now state.now.state.experiments) }
{
    match read_ptop(alloc, ptop) {
        Ok(new) => match first_moving(state) {
            Some(exp) => Ok(Carried::Refused(Some(exp), Obstacle::Moves)),
            None => carry(alloc, state, old, &new),
        },
        Err(TextRefused::Text(fault)) => Ok(Carried::Faulty(fault)),
        Err(TextRefused::Memory) => Err(Memory),
    }
}

/// The side of a journal that has the experiments of both sides over the lab of that ptop text.
pub fn carry_over(alloc: Global, a: &[u8], b: &[u8], ptop: &[u8]) -> Result<Carried, Memory>
    requires { length ptop.now < TEXT_LIMIT }
    ensures { IfOk result (IsCarried a.now b.now ptop.now) }
{
    match look(alloc, a, b) {
        Ok(Looked::New) => Ok(Carried::NoLab),
        Ok(Looked::Bad(side, at, _)) => Ok(Carried::Bad(side, at)),
        Ok(Looked::Wrong(side, at, _)) => Ok(Carried::Bad(side, at)),
        Ok(Looked::Found(_, _, state)) => match state.lab() {
            Some(old) => carry_to(alloc, &state, old, ptop),
            None => Ok(Carried::NoLab),
        },
        Err(Memory) => Err(Memory),
    }
}
