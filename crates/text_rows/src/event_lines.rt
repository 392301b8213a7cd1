//! Lines of scheduled link events.
use lab_base::{Memory, Text, TextRefused};
use ns_build::{Asked, read_ns};
use ns_events::{Event, What};
use row_words::{RowFault, push_numbers};
use std::alloc::Global;

/// A link `l`, a LAN `m` and a link without a variable, in lines 4, 5 and 6.
const HEAD: &[u8] = b"set ns [new Simulator]
set a [$ns node]
set b [$ns node]
set l [$ns duplex-link $a $b 100Mb 2ms DropTail]
set m [$ns make-lan \"$a $b\" 10Mb 0]
foreach x [$ns duplex-link $a $b 1Gb 0 DropTail] {set y 0}
";

/// The line, the time, the link or LAN, and what happens.
fn push_event(out: &mut Text, event: &Event) -> Result<(), Memory> {
    push_numbers(out, &[u64::from(event.line), event.at])?;
    out.push(b' ')?;
    out.push_bytes(event.link.bytes())?;
    match event.what {
        What::Down => out.push_bytes(b" down;"),
        What::Up => out.push_bytes(b" up;"),
        What::Rates(rates) => {
            push_numbers(
                out,
                &[rates.kbps, u64::from(rates.micros), u64::from(rates.ppm)],
            )?;
            out.push(b';')
        }
    }
}

/// The reading of a text after the head.
fn read(alloc: Global, lines: &[u8]) -> Result<Asked, TextRefused> {
    let mut text = Text::from_slice(alloc, HEAD)?;
    text.push_bytes(lines)?;
    text.push_bytes(b"\n$ns run\n")?;
    if text.len() > 100_000 {
        return Err(TextRefused::Memory);
    }
    read_ns(alloc, text.bytes())
}

/// Adds events, and the line of the run.
fn push_events(out: &mut Text, events: &[Event], line: u32) -> Result<(), Memory> {
    for event in events {
        push_event(out, event)?;
    }
    push_numbers(out, &[u64::from(line)])
}

/// The events of a text after the head, and the line of its run.
pub fn told(alloc: Global, lines: &[u8]) -> Result<Text, RowFault> {
    let mut out = Text::new(alloc);
    match read(alloc, lines) {
        Ok(asked) => {
            let pushed = push_events(&mut out, asked.events.as_slice(), asked.line);
            drop(asked);
            pushed?;
            Ok(out)
        }
        Err(refused) => Err(RowFault::from(refused)),
    }
}

/// Adds how many events there are, the last one, and the line of the run.
fn push_last(out: &mut Text, events: &[Event], line: u32) -> Result<(), Memory> {
    out.push_number(events.len() as u64)?;
    let last = events.len().saturating_sub(1);
    push_events(out, &events[last..], line)
}

/// How many events there are, and the last one, with the line of the run.
pub fn told_last(alloc: Global, lines: &[u8]) -> Result<Text, RowFault> {
    let mut out = Text::new(alloc);
    match read(alloc, lines) {
        Ok(asked) => {
            let pushed = push_last(&mut out, asked.events.as_slice(), asked.line);
            drop(asked);
            pushed?;
            Ok(out)
        }
        Err(refused) => Err(RowFault::from(refused)),
    }
}
