//! The events of a span of time.

ghost use Rattle.std.specs.Prelude.{◌≡◌, IfOk, filter};
ghost use Rattle.ns_events.specs.Schedules.{is_due, IsSchedule};

use crate::Event;
use lab_base::Memory;
use std::alloc::Global;

/// Whether an event is due at `from` or later, and before `to`.
fn is_due(from: u64, to: u64, event: &Event) -> bool
    ensures { result ≡ is_due from to event.now }
{
    from <= event.at && event.at < to
}

/// The events of a span of time, in their order.
fn due(alloc: Global, events: &[Event], from: u64, to: u64) -> Result<Vec<Event>, Memory>
    ensures { IfOk result (λ due. due.items ≡ filter (is_due from to) events.now) }
{
    let mut due = Vec::new(alloc);
    for event in events {
        if is_due(from, to, event) {
            due.push(*event)?;
        }
    }
    Ok(due)
}

/// The events at `from` or later, and before `to`, both in microseconds: by time, equal times in text order.
pub fn schedule(alloc: Global, events: &[Event], from: u64, to: u64) -> Result<Vec<Event>, Memory>
    ensures schedule { IfOk result (λ due. IsSchedule from to events.now due.items) }
{
    let mut due = due(alloc, events, from, to)?;
    due.sort_by_key(|event| event.at)?;
    Ok(due)
}
