//! The command that schedules events, and the scheduled events.

ghost use Rattle.std.specs.Prelude.{◌≡◌, ◌<◌, IfOk, length};
ghost use Rattle.lab_base.specs.Texts.{views};
ghost use Rattle.lab_base.specs.Lists.{Has};
ghost use Rattle.ns_build.specs.declared.task.Planned.{Planned};
ghost use Rattle.ns_build.specs.Checks.{word_at};
ghost use Rattle.ns_build.specs.Networks as networks;
ghost use Rattle.ns_build.specs.Events as events;
ghost use Rattle.ns_build.specs.Gives.{Gives};

use crate::checks::{bandwidth_in, counted, delay_in, loss_in, need, refuse, word_at};
use crate::network::Network;
use crate::refusal::Refusal;
use crate::task::{Planned, Task};
use crate::words::elements_in;
use lab_base::{Items, Kind, Memory, Rates, Text};
use ns_events::{Event, What};
use std::alloc::Global;

/// The most events.
pub const MAX_EVENTS: usize = 1_024;

/// The time that a word is, in microseconds.
#[tactic(auto, unfolding(crate::specs::Events::time_in))]
fn time_in(word: &[u8]) -> Result<u64, Kind>
    ensures { result ≡ events.time_in word.now }
{
    need(Kind::Time, ns_words::time(word))
}

/// The part at an index, from 0; the empty word where there is none.
fn part_at<'a>(parts: &[&'a [u8]], index: usize) -> &'a [u8]
    ensures { result.now ≡ word_at (views parts.now) index }
{
    match parts.get(index) {
        Some(part) => part,
        None => &[],
    }
}

/// Whether there are so many parts, of which the second is this word.
fn is_form(count: usize, word: &[u8], parts: &[&[u8]]) -> bool
    ensures { result ≡ events.is_form count word.now (views parts.now) }
{
    parts.len() == count && part_at(parts, 1) == word
}

/// `rates BW DELAY LOSS` after the word of a link or LAN.
#[tactic(auto, unfolding(crate::specs::Events::rates_in))]
fn rates_in(parts: &[&[u8]]) -> Result<What, Kind>
    ensures { result ≡ events.rates_in (views parts.now) }
{
    let kbps = bandwidth_in(part_at(parts, 2))?;
    let micros = delay_in(part_at(parts, 3))?;
    let ppm = loss_in(part_at(parts, 4))?;
    Ok(What::Rates(Rates { kbps, micros, ppm }))
}

/// `down`, `up` or `rates BW DELAY LOSS` after the word of a link or LAN.
#[tactic(auto, unfolding(crate::specs::Events::what_in))]
fn what_in(parts: &[&[u8]]) -> Result<What, Kind>
    ensures { result ≡ events.what_in (views parts.now) }
{
    if is_form(2, b"down", parts) {
        Ok(What::Down)
    } else if is_form(2, b"up", parts) {
        Ok(What::Up)
    } else if is_form(5, b"rates", parts) {
        rates_in(parts)
    } else {
        Err(Kind::Event)
    }
}

impl Network {
    /// The event of these parts, at a time, from a line.
    #[tactic(auto, unfolding(crate::specs::Events::event_in))]
    fn event_in(&self, line: u32, at: u64, parts: &[&[u8]]) -> Result<Planned, Kind>
        ensures { result ≡ events.event_in line self.now at (views parts.now) }
    {
        refuse(Kind::Event, parts.len() == 0)?;
        let index = need(Kind::Link, self.link_of(part_at(parts, 0)))?;
        let what = what_in(parts)?;
        Ok(Planned {
            at,
            index,
            what,
            line,
        })
    }

    /// `$ns at TIME EVENT`
    #[tactic(auto, unfolding(crate::specs::Events::judged_at))]
    pub(crate) fn judge_at(&self, alloc: Global, line: u32, words: &[Text]) -> Result<Task, Refusal>
        ensures { Gives result (events.judged_at line self.now words.now) }
    {
        counted(4, words)?;
        let at = time_in(word_at(words, 2))?;
        let parts = elements_in(alloc, word_at(words, 3))?;
        let event = self.event_in(line, at, &parts)?;
        refuse(Kind::Limit, self.events.len() >= MAX_EVENTS)?;
        Ok(Task::AddEvent { event })
    }

    /// The event with the name of its link or LAN.
    fn named_event(&self, event: &Planned) -> Event
        requires { event.now.index < length self.now.links }
        ensures { result ≡ networks.named_event self.now event.now }
    {
        Event {
            at: event.at,
            link: self.links.as_slice()[event.index].name,
            what: event.what,
            line: event.line,
        }
    }

    /// The scheduled events, in text order.
    pub(crate) fn named_events(&self, alloc: Global) -> Result<Items<Event>, Memory>
        requires { (e : Planned) → Has self.now.events e → e.index < length self.now.links }
        ensures { IfOk result (λ events. events ≡ networks.events_of self.now) }
    {
        let mut events = Items::new(alloc);
        for event in &self.events {
            events.push(self.named_event(event))?;
        }
        Ok(events)
    }
}
