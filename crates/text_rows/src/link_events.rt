//! Events that are due, and the pipes that they leave.
ghost use Rattle.std.specs.Prelude.{IfOk};
ghost use Rattle.virt_topo.specs.Soundness.{IsSound};

use crate::tops::read;
use lab_base::{Memory, Name, Rates, Text};
use ns_events::*;
use row_words::push_numbers;
use std::alloc::Global;
use virt_topo::{Pipe, Wiring};

fn named(text: &[u8]) -> Result<Name, Memory> {
    Name::read(text).map_err(|_bad| Memory)
}

fn rates(kbps: u64, micros: u32, ppm: u32) -> Rates {
    Rates { kbps, micros, ppm }
}

/// A shaped link `l` and a shaped LAN `m` between the nodes `a` and `b`, without their pipes.
const HEAD: &[u8] = b"node a pc default
node b pc default
node l.d pc default
node m.d1 pc default
node m.d2 pc default
link l.0 l 100000 a l.d
link l.1 l 100000 l.d b
link m.m1 m 100000 a m.d1
link m.m2 m 100000 b m.d2
link m m 100000 m.d1 m.d2
";

/// Their pipes as the text has them.
const PLAIN: [&[u8]; 3] = [
    b"pipe l.d 0 1 100000 2000 0 100000 2000 0\n",
    b"pipe m.d1 0 1 100000 1000 0 100000 1000 0\n",
    b"pipe m.d2 0 1 100000 1000 0 100000 1000 0\n",
];

/// Their pipes with slow rates.
const SLOW: [&[u8]; 3] = [
    b"pipe l.d 0 1 5000 5001 7 5000 5001 7\n",
    b"pipe m.d1 0 1 5000 2500 7 5000 2501 0\n",
    b"pipe m.d2 0 1 5000 2500 7 5000 2501 0\n",
];

/// The wiring with the first of these pipes.
fn wiring(alloc: Global, pipes: &[&[u8]], count: usize) -> Result<Wiring, Memory>
    ensures { IfOk result IsSound }
{
    let mut text = Text::from_slice(alloc, HEAD)?;
    for pipe in pipes.iter().take(count) {
        text.push_bytes(pipe)?;
    }
    match read(alloc, text.bytes()) {
        Ok(wiring) => Ok(wiring),
        Err(_refused) => Err(Memory),
    }
}

fn event(at: u64, link: &[u8], what: What, line: u32) -> Result<Event, Memory> {
    Ok(Event {
        at,
        link: named(link)?,
        what,
        line,
    })
}

/// The lines of the events from second 5 to second 9.
fn due_lines(alloc: Global) -> Result<Text, Memory> {
    let mut events = Vec::new(alloc);
    for (at, line) in [(9, 1), (5, 2), (7, 3), (5, 4), (2, 5), (7, 6)] {
        events.push(event(at, b"l", What::Down, line)?)?;
    }
    let mut out = Text::from_slice(alloc, b"lines")?;
    for event in schedule(alloc, &events, 5, 9)?.iter() {
        push_numbers(&mut out, &[u64::from(event.line)])?;
    }
    out.push_bytes(b"\nand none:")?;
    for event in schedule(alloc, &events, 9, 9)?.iter() {
        push_numbers(&mut out, &[u64::from(event.line)])?;
    }
    Ok(out)
}

/// Adds rates.
fn push_rates(out: &mut Text, rates: Rates) -> Result<(), Memory> {
    push_numbers(
        out,
        &[rates.kbps, u64::from(rates.micros), u64::from(rates.ppm)],
    )
}

/// Adds the rates of pipes, a line each.
fn push_pipes(out: &mut Text, pipes: &[Pipe]) -> Result<(), Memory> {
    for pipe in pipes {
        push_rates(out, pipe.there)?;
        out.push(b',')?;
        push_rates(out, pipe.back)?;
        out.push(b'\n')?;
    }
    Ok(())
}

/// Adds the pipes that an event leaves.
fn push_change(
    out: &mut Text,
    alloc: Global,
    event: &Event,
    text: &Wiring,
    now: &Wiring,
) -> Result<(), Memory>
    requires text { IsSound text.now }
    requires now { IsSound now.now }
{
    out.push_bytes(event.link.bytes())?;
    out.push(b'\n')?;
    match apply(alloc, event, text, now) {
        Ok(new) => {
            let pushed = push_pipes(out, new.pipes.as_slice());
            drop(new);
            pushed
        }
        Err(_) => out.push_bytes(b"refused\n"),
    }
}

/// The pipes after events of the link and the LAN.
fn changes_of(alloc: Global, text: &Wiring, now: &Wiring) -> Result<Text, Memory>
    requires text { IsSound text.now }
    requires now { IsSound now.now }
{
    let given = What::Rates(rates(1_000, 3, 9));
    let mut out = Text::new(alloc);
    push_change(&mut out, alloc, &event(0, b"l", What::Down, 5)?, text, now)?;
    push_change(&mut out, alloc, &event(0, b"l", What::Up, 5)?, text, now)?;
    push_change(&mut out, alloc, &event(0, b"l", given, 5)?, text, now)?;
    push_change(&mut out, alloc, &event(0, b"m", What::Up, 5)?, text, now)?;
    push_change(&mut out, alloc, &event(0, b"m", given, 5)?, text, now)?;
    Ok(out)
}

/// The pipes after events, where the rates are slow now.
fn changes_from(alloc: Global, text: &Wiring) -> Result<Text, Memory>
    requires { IsSound text.now }
{
    let now = wiring(alloc, &SLOW, 3)?;
    let changes = changes_of(alloc, text, &now);
    drop(now);
    changes
}

/// The pipes after events of the link and the LAN. Their rates are slow now, and were plain in the text.
fn changes(alloc: Global) -> Result<Text, Memory> {
    let text = wiring(alloc, &PLAIN, 3)?;
    let changes = changes_from(alloc, &text);
    drop(text);
    changes
}

fn is_shape_fault(applied: Result<Wiring, ApplyFault>) -> bool {
    match applied {
        Ok(new) => {
            drop(new);
            false
        }
        Err(fault) => fault == ApplyFault::Shape,
    }
}

/// Whether an event of a link lacks a shape, where so many pipes are there now.
fn lacks_now(alloc: Global, event: &Event, text: &Wiring, pipes: usize) -> Result<bool, Memory>
    requires { IsSound text.now }
{
    let now = wiring(alloc, &PLAIN, pipes)?;
    let lacks = is_shape_fault(apply(alloc, event, text, &now));
    drop(now);
    Ok(lacks)
}

/// Whether an event of a link lacks a shape, where so many pipes are in the text, and so many there now.
fn lacks_shape(alloc: Global, link: &[u8], pipes: (usize, usize)) -> Result<bool, Memory> {
    let event = event(0, link, What::Down, 5)?;
    let text = wiring(alloc, &PLAIN, pipes.0)?;
    let lacks = lacks_now(alloc, &event, &text, pipes.1);
    drop(text);
    lacks
}

/// Whether an event lacks a shape. The events are of an unknown link, and of a LAN that has one or two of its pipes now or in the text.
fn shapes(alloc: Global) -> Result<Text, Memory> {
    let mut out = Text::new(alloc);
    for (link, pipes) in [
        (b"x", (3, 3)),
        (b"m", (1, 1)),
        (b"m", (3, 2)),
        (b"m", (2, 2)),
    ] {
        let lacks = lacks_shape(alloc, link, pipes)?;
        out.push_bytes(if lacks { b"lacks one\n" } else { b"has one\n" })?;
    }
    Ok(out)
}

/// The output of a row about the effects of events.
pub fn told(alloc: Global, kind: &str) -> Result<Option<Text>, Memory> {
    Ok(Some(match kind {
        "due" => due_lines(alloc)?,
        "changes" => changes(alloc)?,
        "shapes" => shapes(alloc)?,
        _ => return Ok(None),
    }))
}
