// Link events of one experiment are played, one after another.
ghost use Rattle.std.specs.Prelude.{◌≡◌, ◌≤◌, ℕ, IfOk, List, None, Some};
ghost use Rattle.cost_rule.specs.declared.rule.RuleNumber.{RuleNumber};
ghost use Rattle.virt_topo.specs.Soundness.{IsSound};
ghost use Rattle.ns_build.specs.Kept.{AllKeepLimits};
ghost use Rattle.ns_events.specs.Changes.{KeepsLimits};
ghost use Rattle.script_text.specs.Replies.{played_of};
ghost use Rattle.script_text.specs.declared.command.Command.TheVariants as commands;
ghost use Rattle.lab_core.specs.Controller.{CanWork, WorksWith};
ghost use Rattle.lab_core.specs.InTurn.{EndsEvent, IsPart, ObeysEvent, ObeysEvents, TellsWhole, is_in, stuck_by_journal};
ghost use Rattle.lab_core.specs.Obey.{ObeysCommand};
ghost use Rattle.lab_tasks.specs.Playing.{first_place};
ghost use Rattle.lab_core.specs.Sessions.{OpenSwap, open_at};

use crate::{Controller, CoreFault};
use lab_base::{Memory, Name, What};
use lab_tasks::{Present, Refusal, Span, judge_event, judge_play};
use ns_events::Event;
use plant::Plant;
use script_text::{FailedEnd, Reply, played_all, played_until};
use std::alloc::Global;
use virt_topo::Wiring;

/// Whether an experiment is in.
pub(crate) fn is_in(reply: &Reply) -> bool
    ensures { result ≡ is_in reply.now }
{
    matches!(reply, Reply::In { .. })
}

/// The reply to `play` where the last record of an event's swap can't be written. It is made before that swap begins, since
/// nothing may be wanting after it.
fn stuck_reply(alloc: Global, exp: Name, played: u64) -> Result<Reply, Memory>
    ensures { IfOk result (λ reply. reply ≡ played_of exp played (Some (stuck_by_journal exp))) }
{
    let stuck = Reply::Failed {
        exp,
        end: FailedEnd::Stuck,
        what: What::Journal,
    };
    played_until(alloc, exp, played, &stuck)
}

/// The reply to `play` where that reply to an event ends it. `stuck` is told where the controller is closed.
fn whole_reply(
    alloc: Global,
    exp: Name,
    played: u64,
    reply: &Reply,
    stuck: Reply,
) -> Result<Option<Reply>, Memory>
    requires part { IsPart exp reply.now }
    requires stuck { stuck ≡ played_of exp played (Some (stuck_by_journal exp)) }
    ensures { TellsWhole exp played reply.now result }
{
    if reply.closes() {
        return Ok(Some(stuck));
    }
    drop(stuck);
    if is_in(reply) {
        return Ok(None);
    }
    let whole = played_until(alloc, exp, played, reply)?;
    Ok(Some(whole))
}

impl Controller {
    /// Plays one event.
    fn play_event<P: Plant>(
        &mut self,
        exp: Name,
        text: &Wiring,
        event: &Event,
        plant: &mut P,
    ) -> Result<Reply, CoreFault>
        requires text { IsSound text.now }
        requires limits { KeepsLimits event.now.what }
        requires works { CanWork (P.seen plant.old) self.old }
        ensures obeys { ObeysEvent exp text.now event.now (P.seen plant.old) (P.seen plant.new) self.old self.new result }
        ensures part { IfOk result (IsPart exp) }
    {
        let present = Present {
            state: &self.lab,
            swaps: &self.swaps,
        };
        match judge_event(self.alloc, &present, exp, text, event) {
            Ok(task) => self.perform(task, plant),
            Err(Refusal::Refused(reply)) => Ok(reply),
            Err(Refusal::Memory) => Err(CoreFault::Memory),
        }
    }

    /// Plays one event after so many that were answered `in`, and tells the reply to the whole where that ends it.
    fn play_next<P: Plant>(
        &mut self,
        exp: Name,
        played: u64,
        text: &Wiring,
        event: &Event,
        plant: &mut P,
    ) -> Result<Option<Reply>, CoreFault>
        requires text { IsSound text.now }
        requires limits { KeepsLimits event.now.what }
        requires works { CanWork (P.seen plant.old) self.old }
        ensures { EndsEvent exp played (ObeysEvent exp text.now event.now (P.seen plant.old) (P.seen plant.new) self.old self.new) result }
    {
        let stuck = stuck_reply(self.alloc, exp, played)?;
        let reply = match self.play_event(exp, text, event, plant) {
            Ok(reply) => reply,
            Err(fault) => {
                drop(stuck);
                return Err(fault);
            }
        };
        let whole = whole_reply(self.alloc, exp, played, &reply, stuck)?;
        Ok(whole)
    }

    /// Plays events one after another, up to the first that isn't answered `in`. `text` is the wiring of their text.
    fn play_events<P: Plant>(
        &mut self,
        exp: Name,
        text: &Wiring,
        due: &[Event],
        plant: &mut P,
    ) -> Result<Reply, CoreFault>
        requires text { IsSound text.now }
        requires limits { AllKeepLimits due.now }
        requires works { CanWork (P.seen plant.old) self.old }
        ensures { (opens : List OpenSwap) (devices : ℕ) → devices ≤ (P.seen plant.old).faults.devices → WorksWith (P.seen plant.old) self.old opens
            → open_at exp opens ≡ None
            → ObeysEvents exp (first_place text.now due.now) devices (P.seen plant.old) (P.seen plant.new) self.old self.new opens result }
    {
        let mut played = 0;
        for event in due {
            match self.play_next(exp, played, text, event, plant)? {
                Some(reply) => return Ok(reply),
                None => played += 1,
            }
        }
        Ok(played_all(self.alloc, exp, played))
    }

    /// Plays the events of an NS text that are due in a span.
    pub(crate) fn play<P: Plant>(
        &mut self,
        exp: Name,
        span: Span,
        text: &[u8],
        plant: &mut P,
    ) -> Result<Reply, CoreFault>
        requires works { CanWork (P.seen plant.old) self.old }
        ensures { (rule : RuleNumber) (lines : ℕ) (opens : List OpenSwap) (devices : ℕ) → devices ≤ (P.seen plant.old).faults.devices
            → WorksWith (P.seen plant.old) self.old opens
            → ObeysCommand rule (commands.Play exp span.from span.to lines text.now) devices (P.seen plant.old)
            (P.seen plant.new) self.old self.new opens result }
    {
        let present = Present {
            state: &self.lab,
            swaps: &self.swaps,
        };
        match judge_play(self.alloc, &present, exp, span, text) {
            Ok(play) => self.play_events(exp, &play.text, play.due.as_slice(), plant),
            Err(Refusal::Refused(reply)) => Ok(reply),
            Err(Refusal::Memory) => Err(CoreFault::Memory),
        }
    }
}
