// The runs of a batch are served, one after another.
ghost use Rattle.std.specs.Prelude.{◌≡◌, ◌<◌, ◌≤◌, ℕ, IfOk, IsErr, List, OnOk, false, length};
ghost use Rattle.lab_base.specs.Lists.{Has};
ghost use Rattle.lab_ahead.specs.Batches.{IsRun};
ghost use Rattle.lab_ahead.specs.declared.batch.Run.{Run as AnyRun};
ghost use Rattle.script_text.specs.Replies.{closes};
ghost use Rattle.script_text.specs.declared.command.Command.TheVariants as commands;
ghost use Rattle.lab_core.specs.Controller.{CanWork, WorksWith};
ghost use Rattle.lab_core.specs.InTurn.{IsPart, stuck_by_journal};
ghost use Rattle.lab_core.specs.Obey.{ObeysCommand};
ghost use Rattle.lab_judge.specs.JudgeRun.{CanServe};
ghost use Rattle.lab_core.specs.Queues.{EndsRun, IsToldAfter, ObeysRun, ObeysRuns, ends_if, first_place};
ghost use Rattle.lab_core.specs.Sessions.{OpenSwap};

use crate::perform::space_of;
use crate::play::is_in;
use crate::{Controller, CoreFault};
use cost_rule::StepRule;
use lab_ahead::{Batch, End, MAX_PROMISES, Promise, Run};
use lab_base::{Items, Memory, Name, TEXT_LIMIT, What};
use lab_judge::{Queue, judge_batch, judge_run};
use lab_tasks::{Present, Refusal};
use plant::Plant;
use script_text::{FailedEnd, MAX_MOMENT, Reply, Served};
use std::alloc::Global;

/// The replies so far, where the last record of a run's swap can't be written. They are made before that swap begins, since nothing may be
/// wanting after it.
fn replies_if_stuck(alloc: Global, told: &Served, exp: Name) -> Result<Served, Memory>
    ensures { IfOk result (IsToldAfter told.now (stuck_by_journal exp)) }
{
    let stuck = Reply::Failed {
        exp,
        end: FailedEnd::Stuck,
        what: What::Journal,
    };
    told.followed_by(alloc, &stuck)
}

/// The replies so far and that one to a run. `stuck` is told where the controller is closed.
fn replies_after(
    alloc: Global,
    told: &Served,
    exp: Name,
    reply: &Reply,
    stuck: Served,
) -> Result<Served, Memory>
    requires part { IsPart exp reply.now }
    requires stuck { IsToldAfter told.now (stuck_by_journal exp) stuck }
    ensures told { IfOk result (IsToldAfter told.now reply.now) }
    ensures memory { IsErr result → closes reply.now ≡ false }
{
    if reply.closes() {
        return Ok(stuck);
    }
    drop(stuck);
    told.followed_by(alloc, reply)
}

/// Notes the end of a run that is in.
fn note_end(queue: &mut Queue, run: &Run, inside: bool) -> Result<(), Memory>
    requires { CanServe queue.old run.now }
    ensures moment { queue.new.moment ≡ queue.old.moment }
    ensures promises { queue.new.promises ≡ queue.old.promises }
    ensures ends { OnOk result (queue.new.ends ≡ ends_if inside queue.old run.now) }
{
    if !inside {
        return Ok(());
    }
    queue.ends.push(End {
        exp: run.exp,
        at: queue.moment + run.length,
    })
}

impl Controller {
    /// Serves one run.
    fn serve_run<P: Plant>(
        &mut self,
        queue: &Queue,
        run: &Run,
        rule: &StepRule,
        plant: &mut P,
    ) -> Result<Reply, CoreFault>
        requires serves { CanServe queue.now run.now }
        requires works { CanWork (P.seen plant.old) self.old }
        ensures obeys { ObeysRun rule.now.number queue.now run.now (P.seen plant.old) (P.seen plant.new) self.old self.new result }
        ensures part { IfOk result (IsPart run.now.exp) }
    {
        let present = Present {
            state: &self.lab,
            swaps: &self.swaps,
        };
        let space = space_of(&self.journal);
        match judge_run(self.alloc, &present, space, queue, run, rule) {
            Ok(task) => self.perform(task, plant),
            Err(Refusal::Refused(reply)) => Ok(reply),
            Err(Refusal::Memory) => Err(CoreFault::Memory),
        }
    }

    /// Serves one run after those whose replies were told so far. It gives what is told then, and whether the run is in.
    fn serve_next<P: Plant>(
        &mut self,
        queue: &Queue,
        told: &Served,
        run: &Run,
        rule: &StepRule,
        plant: &mut P,
    ) -> Result<(Served, bool), CoreFault>
        requires serves { CanServe queue.now run.now }
        requires works { CanWork (P.seen plant.old) self.old }
        ensures { EndsRun told.now run.now.exp (ObeysRun rule.now.number queue.now run.now (P.seen plant.old) (P.seen plant.new) self.old self.new) result }
    {
        let stuck = replies_if_stuck(self.alloc, told, run.exp)?;
        let reply = match self.serve_run(queue, run, rule, plant) {
            Ok(reply) => reply,
            Err(fault) => {
                drop(stuck);
                return Err(fault);
            }
        };
        let next = replies_after(self.alloc, told, run.exp, &reply, stuck)?;
        Ok((next, is_in(&reply)))
    }

    /// Serves the runs of a batch one after another, in the order of their lines, up to one that closes the controller.
    fn serve_runs<P: Plant>(
        &mut self,
        moment: u64,
        promises: Items<Promise>,
        runs: &[Run],
        rule: &StepRule,
        plant: &mut P,
    ) -> Result<Reply, CoreFault>
        requires moment { moment ≤ MAX_MOMENT }
        requires few { length promises ≤ MAX_PROMISES }
        requires runs { (run : AnyRun) → Has runs.now run → IsRun run }
        requires works { CanWork (P.seen plant.old) self.old }
        ensures { (opens : List OpenSwap) (devices : ℕ) → devices ≤ (P.seen plant.old).faults.devices → WorksWith (P.seen plant.old) self.old opens
            → ObeysRuns rule.now.number moment (first_place promises runs.now) devices (P.seen plant.old) (P.seen plant.new) self.old self.new opens result }
    {
        let mut queue = Queue {
            moment,
            promises,
            ends: Items::new(self.alloc),
        };
        let mut told = Served::none(self.alloc);
        for run in runs {
            let (next, inside) = self.serve_next(&queue, &told, run, rule, plant)?;
            told = next;
            if told.closes {
                return Ok(Reply::Served(told));
            }
            note_end(&mut queue, run, inside)?;
        }
        Ok(Reply::Served(told))
    }

    /// Serves the runs of a batch text.
    pub(crate) fn serve<P: Plant>(
        &mut self,
        moment: u64,
        text: &[u8],
        rule: &StepRule,
        plant: &mut P,
    ) -> Result<Reply, CoreFault>
        requires moment { moment ≤ MAX_MOMENT }
        requires size { length text.now < TEXT_LIMIT }
        requires works { CanWork (P.seen plant.old) self.old }
        ensures { (lines : ℕ) (opens : List OpenSwap) (devices : ℕ) → devices ≤ (P.seen plant.old).faults.devices → WorksWith (P.seen plant.old) self.old opens
            → ObeysCommand rule.now.number (commands.Batch moment lines text.now) devices (P.seen plant.old) (P.seen plant.new) self.old self.new opens result }
    {
        match judge_batch(self.alloc, &self.lab, text) {
            Ok(batch) => {
                let Batch { promises, runs } = batch;
                self.serve_runs(moment, promises, runs.as_slice(), rule, plant)
            }
            Err(Refusal::Refused(reply)) => Ok(reply),
            Err(Refusal::Memory) => Err(CoreFault::Memory),
        }
    }
}
