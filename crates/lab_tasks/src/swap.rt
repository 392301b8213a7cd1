// Judging a swap into the lab.
ghost use Rattle.std.specs.Prelude.{◌≡◌, ◌<◌, ◌≤◌, ◌^◌, IfOk, OnOk, length, Ok, Some};
ghost use Rattle.lab_base.specs.Lists.{Has};
ghost use Rattle.lab_base.specs.declared.ids.VlanId.{VlanId as AnyVlanId};
ghost use Rattle.journal_rec.specs.declared.record.Way.TheVariants as ways;
ghost use Rattle.lab_model.specs.Shapes.{IsShaped};
ghost use Rattle.claims.specs.Answered.{AreTaken};
ghost use Rattle.claims.specs.Held.{free_ids};
ghost use Rattle.solution_text.specs.CanonicalSolution.{canonical_solution};
ghost use Rattle.swap_turns.specs.Swaps.{swap_in};
ghost use Rattle.virt_topo.specs.Soundness.{IsSound};
ghost use Rattle.virt_topo.specs.declared.mapping.Mapping.{Mapping as AnyMapping};
ghost use Rattle.lab_tasks.specs.OpenNames.{has_open};
ghost use Rattle.lab_tasks.specs.Mappings.{judged_mapping, judged_swapin_with, task_in};
ghost use Rattle.lab_tasks.specs.Needs.{need_feasible, need_kept};
ghost use Rattle.lab_tasks.specs.JudgeSwap.{CanTake, IsOutIn, IsTaskOf, IsThere, Keeps};
ghost use Rattle.lab_tasks.specs.Tasks.{CanDo, Gives, IsRefusal, Refuses, task_of};

use crate::case::{Case, Present};
use crate::needs::{bad_text, need_idle_out};
use crate::subjects::subject_name;
use crate::task::{NewSwap, Refusal, Task};
use crate::ways::way_in;
use claims::{Claims, TakeFault};
use feas::{CheckFault, check};
use lab_base::{Memory, Name, TEXT_LIMIT, Tags};
use phys_lab::Lab;
use script_text::Reply;
use solution_text::{print_solution, read_solution};
use std::alloc::Global;
use swap_plan::plan_in;
use virt_topo::{Broken, Experiment, Mapping, Subject, Wiring};

/// The least free VLAN ids, of which there are enough.
fn least_tags(alloc: Global, claims: &Claims, n: u16) -> Result<Tags, Memory>
    requires { n ≤ length (free_ids claims.now) }
    ensures { IfOk result (λ tags. AreTaken (free_ids claims.now) n (Ok tags)) }
{
    match claims.take_vlans(alloc, n) {
        Ok(tags) => Ok(tags),
        Err(TakeFault::Memory) => Err(Memory),
        Err(TakeFault::TooFew(_)) => unreachable!(),
    }
}

/// A mapping of that wiring breaks a rule.
fn infeasible(
    alloc: Global,
    lab: &Lab,
    exp: Name,
    wiring: &Wiring,
    rule: Broken,
    subject: Subject,
) -> Refusal
    ensures { IsRefusal (need_kept lab.now exp wiring.now (Some (rule, subject))) result }
{
    match subject_name(alloc, lab, wiring, subject) {
        Ok(subject) => Refusal::Refused(Reply::Infeasible { exp, rule, subject }),
        Err(Memory) => Refusal::Memory,
    }
}

/// Checks a mapping of a wiring beside the other experiments.
pub(crate) fn need_feasible(
    alloc: Global,
    case: &Case,
    wiring: &Wiring,
    mapping: &Mapping,
) -> Result<(), Refusal>
    requires there { IsThere case.now.state.now.state case.now.lab.now case.now.experiment.now }
    requires sound { IsSound wiring.now }
    requires shaped { IsShaped case.now.lab.now wiring.now mapping.now }
    ensures keeps { OnOk result (Keeps case.now.state.now.state case.now.lab.now case.now.experiment.now wiring.now mapping.now) }
    ensures refuses { Refuses (need_feasible case.now.lab.now case.now.state.now.state.experiments case.now.experiment.now wiring.now mapping.now) result }
{
    // There is a lab.
    let Some(claims) = case.state.claims() else {
        unreachable!()
    };
    let free = claims.free_without(alloc, case.experiment.name)?;
    match check(alloc, case.lab, &free, wiring, mapping) {
        Ok(()) => Ok(()),
        Err(CheckFault::Violation { rule, subject }) => {
            let exp = case.experiment.name;
            Err(infeasible(alloc, case.lab, exp, wiring, rule, subject))
        }
        Err(CheckFault::Memory) => Err(Refusal::Memory),
    }
}

/// Takes VLAN ids for a wiring that has a mapping by all rules. The experiment's own old ones are among the claimed.
pub(crate) fn take_tags(alloc: Global, case: &Case, wiring: &Wiring) -> Result<Tags, Memory>
    requires there { IsThere case.now.state.now.state case.now.lab.now case.now.experiment.now }
    requires keeps { (m : AnyMapping) × Keeps case.now.state.now.state case.now.lab.now case.now.experiment.now wiring.now m }
    ensures { (m : AnyMapping) → Keeps case.now.state.now.state case.now.lab.now case.now.experiment.now wiring.now m
        → IfOk result (CanTake case.now.state.now.state case.now.lab.now case.now.experiment.now wiring.now m) }
{
    // There is a lab.
    let Some(claims) = case.state.claims() else {
        unreachable!()
    };
    least_tags(alloc, claims, wiring.segments.len() as u16)
}

/// Plans the swap of an experiment into the lab.
fn plan_swap_in(
    alloc: Global,
    lab: &Lab,
    experiment: &Experiment,
    mapping: &Mapping,
    tags: Tags,
) -> Result<Task, Memory>
    requires sound { IsSound experiment.now.wiring }
    requires shaped { IsShaped lab.now experiment.now.wiring mapping.now }
    requires tagged { length tags ≡ length experiment.now.wiring.segments }
    requires ids { (tag : AnyVlanId) → Has tags tag → tag.0 < 2 ^ 16 }
    ensures { IfOk result (IsTaskOf lab.now (swap_in experiment.now mapping.now tags)
        (ways.In (canonical_solution lab.now experiment.now.wiring mapping.now) tags)) }
{
    let ops = plan_in(alloc, lab, &experiment.wiring, mapping, &tags)?;
    let map = print_solution(alloc, lab, &experiment.wiring, mapping)?;
    Ok(Task::Swap(NewSwap {
        exp: experiment.name,
        way: way_in(experiment.name, map, tags),
        ops,
    }))
}

/// Swaps an experiment that is out to a mapping that keeps all rules.
pub fn swap_to(alloc: Global, case: &Case, mapping: &Mapping) -> Result<Task, Memory>
    requires out { IsOutIn case.now.state.now.state case.now.lab.now case.now.experiment.now }
    requires keeps { Keeps case.now.state.now.state case.now.lab.now case.now.experiment.now case.now.experiment.now.wiring mapping.now }
    ensures task { IfOk result (λ task. task_of task ≡ task_in case.now.state.now.state case.now.lab.now case.now.experiment.now mapping.now) }
    ensures can { IfOk result (CanDo case.now.state.now.state) }
{
    let tags = take_tags(alloc, case, &case.experiment.wiring)?;
    plan_swap_in(alloc, case.lab, case.experiment, mapping, tags)
}

/// Judges a mapping for an experiment that is out.
fn judge_mapping(alloc: Global, case: &Case, mapping: &Mapping) -> Result<Task, Refusal>
    requires out { IsOutIn case.now.state.now.state case.now.lab.now case.now.experiment.now }
    requires shaped { IsShaped case.now.lab.now case.now.experiment.now.wiring mapping.now }
    ensures judged { Gives (judged_mapping case.now.state.now.state case.now.lab.now case.now.experiment.now mapping.now) result }
    ensures can { IfOk result (CanDo case.now.state.now.state) }
{
    need_feasible(alloc, case, &case.experiment.wiring, mapping)?;
    let task = swap_to(alloc, case, mapping)?;
    Ok(task)
}

/// Judges a swap-in by a given solution.
pub fn judge_swapin_with(
    alloc: Global,
    present: &Present,
    exp: Name,
    text: &[u8],
) -> Result<Task, Refusal>
    requires { length text.now < TEXT_LIMIT }
    ensures judged { Gives (judged_swapin_with present.now.state.now.state (has_open present.now.swaps.now exp) exp text.now) result }
    ensures can { IfOk result (CanDo present.now.state.now.state) }
{
    let (lab, experiment) = need_idle_out(present, exp)?;
    let case = Case {
        state: present.state,
        lab,
        experiment,
    };
    match read_solution(alloc, text, lab, &experiment.wiring) {
        Ok(mapping) => judge_mapping(alloc, &case, &mapping),
        Err(refused) => Err(bad_text(exp, refused)),
    }
}
