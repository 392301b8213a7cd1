//! The wiring after an event.

ghost use Rattle.std.specs.Prelude.{◌≡◌, ◌≤◌, IfOk, length};
ghost use Rattle.virt_topo.specs.Ends.{end_nodes};
ghost use Rattle.virt_topo.specs.Soundness.{IsSound};
ghost use Rattle.ns_events.specs.Pipes as owners;
ghost use Rattle.ns_events.specs.Pipes.{lacks_shape};
ghost use Rattle.ns_events.specs.Changes.{IsApplied, TellsShape, KeepsLimits};
ghost use Rattle.ns_events.specs.Renewed as renewals;

use crate::pipes::{is_of, own_pipes};
use crate::rates::renewed_pipe;
use crate::{ApplyFault, Event};
use lab_base::{Items, Memory, Name};
use std::alloc::Global;
use virt_topo::{END_NUMBERS, Pipe, Wiring};

/// The pipes after an event. Those of its link are `text` in the text's wiring.
fn renewed_pipes(
    alloc: Global,
    event: &Event,
    text: &[Pipe],
    now: &Wiring,
) -> Result<Items<Pipe>, Memory>
    requires { length (end_nodes now.now.segments) ≤ END_NUMBERS }
    ensures { IfOk result (λ pipes. pipes
        ≡ renewals.renewed (owners.is_of now.now event.now.link) (renewals.renewed_pipe event.now.what (length text.now)) now.now.pipes text.now) }
{
    let mut pipes = Items::new(alloc);
    let mut left = text;
    for pipe in now.pipes.as_slice() {
        match left.split_first() {
            Some((first, rest)) if is_of(now, event.link, pipe) => {
                pipes.push(renewed_pipe(event.what, text.len(), pipe, first))?;
                left = rest;
            }
            _ => pipes.push(*pipe)?,
        }
    }
    Ok(pipes)
}

/// Whether a link or LAN has no pipe in the present wiring, or another number of pipes than in the text's.
pub fn lacks_shape(alloc: Global, link: Name, text: &Wiring, now: &Wiring) -> Result<bool, Memory>
    requires text { IsSound text.now }
    requires now { IsSound now.now }
    ensures lacks { IfOk result (λ lacks. lacks ≡ lacks_shape link text.now now.now) }
{
    let old = own_pipes(alloc, text, link)?;
    let own = own_pipes(alloc, now, link)?;
    Ok(own.is_empty() || own.len() != old.len())
}

/// The wiring that an event leaves of the present one: the pipes of its link or LAN have other rates. `text` is the
/// wiring of the text that schedules it.
///
/// The error is `Shape` where the link has no pipe in the present wiring, or another number of pipes than in the text's.
pub fn apply(
    alloc: Global,
    event: &Event,
    text: &Wiring,
    now: &Wiring,
) -> Result<Wiring, ApplyFault>
    requires text { IsSound text.now }
    requires now { IsSound now.now }
    ensures applied { IfOk result (λ new. IsApplied event.now text.now now.now new) }
    ensures shape { TellsShape (lacks_shape event.now.link text.now now.now) result }
    ensures sound { IfOk result (λ new. KeepsLimits event.now.what → IsSound new) }
{
    let old = own_pipes(alloc, text, event.link)?;
    let own = own_pipes(alloc, now, event.link)?;
    if own.is_empty() || own.len() != old.len() {
        return Err(ApplyFault::Shape);
    }
    let pipes = renewed_pipes(alloc, event, &old, now)?;
    let mut new = now.copy(alloc)?;
    new.pipes = pipes;
    Ok(new)
}
