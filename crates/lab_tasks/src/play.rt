// The judgement of link events that are played.
ghost use Rattle.std.specs.Prelude.{◌≡◌, Ok, IfOk, OnOk, length};
ghost use Rattle.virt_topo.specs.Soundness.{IsSound};
ghost use Rattle.ns_build.specs.Kept.{AllKeepLimits};
ghost use Rattle.ns_events.specs.Changes.{IsApplied, KeepsLimits};
ghost use Rattle.lab_tasks.specs.declared.task.Refusal.TheVariants as refusals;
ghost use Rattle.lab_tasks.specs.OpenNames.{has_open};
ghost use Rattle.lab_tasks.specs.JudgePlay.{CanPlay, IsJudgedPlay, place_of};
ghost use Rattle.lab_tasks.specs.Needs.{OrRefused};
ghost use Rattle.lab_tasks.specs.Playing.{AreDue, JudgedEventAt, JudgedPlayAt, bad_shape, need_shape, need_shapes};
ghost use Rattle.lab_tasks.specs.Tasks.{CanDo, IsJudged, Refuses};

use crate::case::{Case, Present};
use crate::change::judge_change;
use crate::needs::{bad_text, in_slot, need_idle_in};
use crate::task::{Refusal, Task};
use lab_base::{Items, Kind, Memory, Name, TextFault};
use ns_events::{ApplyFault, Event, apply, lacks_shape, schedule};
use ns_text::{Script, read_script};
use script_text::Reply;
use std::alloc::Global;
use virt_topo::Wiring;

/// A span of time, in microseconds.
#[derive(Clone, Copy)]
pub struct Span {
    pub from: u64,
    /// It is the first moment after it.
    pub to: u64,
}

/// The events that are to be played, and the wiring of their text.
#[derive(Drop)]
pub struct Play {
    pub text: Wiring,
    /// In the order in which they are due.
    pub due: Items<Event>,
}

/// The link of that event has another shape than in its text.
fn bad_shape(exp: Name, event: &Event) -> Refusal
    ensures { result ≡ refusals.Refused (bad_shape exp event.now) }
{
    Refusal::Refused(Reply::Bad {
        exp,
        fault: TextFault {
            line: event.line,
            kind: Kind::Shape,
        },
    })
}

/// The shape of the link of an event.
fn need_shape(
    alloc: Global,
    exp: Name,
    event: &Event,
    text: &Wiring,
    now: &Wiring,
) -> Result<(), Refusal>
    requires text { IsSound text.now }
    requires now { IsSound now.now }
    ensures shaped { OnOk result (need_shape exp text.now event.now now.now ≡ Ok tt) }
    ensures refuses { Refuses (need_shape exp text.now event.now now.now) result }
{
    if lacks_shape(alloc, event.link, text, now)? {
        return Err(bad_shape(exp, event));
    }
    Ok(())
}

/// The shape of the links of all these events.
fn need_shapes(
    alloc: Global,
    exp: Name,
    events: &[Event],
    text: &Wiring,
    now: &Wiring,
) -> Result<(), Refusal>
    requires text { IsSound text.now }
    requires now { IsSound now.now }
    ensures shaped { OnOk result (need_shapes exp text.now events.now now.now ≡ Ok tt) }
    ensures refuses { Refuses (need_shapes exp text.now events.now now.now) result }
{
    for event in events {
        need_shape(alloc, exp, event, text, now)?;
    }
    Ok(())
}

/// The events of a text that are due in a span, with the wiring of the text.
fn due_of(alloc: Global, script: Script, span: Span) -> Result<Play, Memory>
    requires sound { IsSound script.wiring }
    requires limits { AllKeepLimits script.events }
    ensures due { IfOk result (λ play. AreDue span.from span.to script (Ok (place_of play))) }
    ensures can { IfOk result CanPlay }
{
    let scheduled = schedule(alloc, script.events.as_slice(), span.from, span.to);
    let Script { wiring, events } = script;
    drop(events);
    match scheduled {
        Ok(due) => Ok(Play {
            text: wiring,
            due: Items::from_vec(due),
        }),
        Err(memory) => {
            drop(wiring);
            Err(memory)
        }
    }
}

/// Judges the events of a text that are due in a span. `now` is the present wiring.
fn judge_script(
    alloc: Global,
    exp: Name,
    script: Script,
    now: &Wiring,
    span: Span,
) -> Result<Play, Refusal>
    requires sound { IsSound script.wiring }
    requires limits { AllKeepLimits script.events }
    requires now { IsSound now.now }
    ensures judged { IsJudgedPlay (OrRefused (need_shapes exp script.wiring script.events now.now) (λ shaped. AreDue span.from span.to script)) result }
    ensures can { IfOk result CanPlay }
{
    let events = script.events.as_slice();
    if let Err(refusal) = need_shapes(alloc, exp, events, &script.wiring, now) {
        drop(script);
        return Err(refusal);
    }
    let play = due_of(alloc, script, span)?;
    Ok(play)
}

/// Judges the events of an NS text that are due in a span.
pub fn judge_play(
    alloc: Global,
    present: &Present,
    exp: Name,
    span: Span,
    text: &[u8],
) -> Result<Play, Refusal>
    ensures judged { IsJudgedPlay (JudgedPlayAt present.now.state.now.state (has_open present.now.swaps.now exp) exp span.from span.to text.now) result }
    ensures can { IfOk result CanPlay }
{
    let (_lab, experiment, _mapping, _tags) = need_idle_in(present, exp)?;
    match read_script(alloc, text) {
        Ok(script) => judge_script(alloc, exp, script, &experiment.wiring, span),
        Err(refused) => Err(bad_text(exp, refused)),
    }
}

/// The wiring that an event leaves of the present one.
fn changed_wiring(
    alloc: Global,
    exp: Name,
    event: &Event,
    text: &Wiring,
    now: &Wiring,
) -> Result<Wiring, Refusal>
    // both wirings are sound, and the event keeps the limits
    requires text { IsSound text.now }
    requires now { IsSound now.now }
    requires limits { KeepsLimits event.now.what }
    // the wiring after it, where the link has its shape
    ensures applied { IfOk result (IsApplied event.now text.now now.now) }
    ensures shaped { OnOk result (need_shape exp text.now event.now now.now ≡ Ok tt) }
    ensures sound { IfOk result IsSound }
    ensures refuses { Refuses (need_shape exp text.now event.now now.now) result }
{
    match apply(alloc, event, text, now) {
        Ok(wiring) => Ok(wiring),
        Err(ApplyFault::Shape) => Err(bad_shape(exp, event)),
        Err(ApplyFault::Memory) => Err(Refusal::Memory),
    }
}

/// Judges the change that an event asks for. `text` is the wiring of the event's text.
pub fn judge_event(
    alloc: Global,
    present: &Present,
    exp: Name,
    text: &Wiring,
    event: &Event,
) -> Result<Task, Refusal>
    requires text { IsSound text.now }
    requires limits { KeepsLimits event.now.what }
    ensures judged { IsJudged (JudgedEventAt exp text.now event.now present.now.state.now.state (has_open present.now.swaps.now exp)
        (length present.now.swaps.now)) result }
    ensures can { IfOk result (CanDo present.now.state.now.state) }
{
    let (lab, experiment, mapping, tags) = need_idle_in(present, exp)?;
    let case = Case {
        state: present.state,
        lab,
        experiment,
    };
    let same = mapping.copy(alloc)?;
    let wiring = match changed_wiring(alloc, exp, event, text, &experiment.wiring) {
        Ok(wiring) => wiring,
        Err(refusal) => {
            drop(same);
            return Err(refusal);
        }
    };
    let judged = judge_change(alloc, &case, (mapping, tags), wiring, same);
    in_slot(present.swaps, false, judged)
}
