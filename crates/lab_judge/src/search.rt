// Judging a search.
ghost use Rattle.std.specs.Prelude.{◌≡◌, ◌<◌, IfOk, Ok, length};
ghost use Rattle.assign_core.specs.Exact.{IfFound};
ghost use Rattle.lab_model.specs.Shapes.{IsShaped};
ghost use Rattle.virt_topo.specs.Soundness.{IsSound};
ghost use Rattle.lab_tasks.specs.OpenNames.{has_open};
ghost use Rattle.lab_judge.specs.Searches.{IsFound, JudgedFound, JudgedModify, JudgedSolve, JudgedSwapin, judged_entry, judged_move, judged_solved, need_mapping};
ghost use Rattle.lab_tasks.specs.JudgeSwap.{IsInIn, IsOutIn, IsThere, Keeps};
ghost use Rattle.lab_tasks.specs.Tasks.{CanDo, Gives, IsJudged, Refuses};

use assign_core::{Solved, solve};
use cost_rule::StepRule;
use lab_base::{Memory, Name, TEXT_LIMIT, Tags};
use lab_tasks::{
    Case, Present, Refusal, Task, bad_text, change_to, need_idle_in, need_idle_out, swap_to,
};
use ns_text::read_network;
use phys_lab::Lab;
use script_text::Reply;
use solution_text::print_solution;
use std::alloc::Global;
use virt_topo::{Experiment, Mapping, Wiring};

/// Searches a mapping of that wiring for an experiment, on the rest that the other experiments leave.
pub(crate) fn search(
    alloc: Global,
    case: &Case,
    wiring: &Wiring,
    rule: &StepRule,
    seed: u64,
) -> Result<Solved, Memory>
    requires there { IsThere case.now.state.now.state case.now.lab.now case.now.experiment.now }
    requires sound { IsSound wiring.now }
    ensures found { IfOk result (IsFound rule.now.number case.now.lab.now case.now.state.now.state.experiments case.now.experiment.now wiring.now seed) }
    ensures keeps { IfOk result (λ found. IfFound found (Keeps case.now.state.now.state case.now.lab.now case.now.experiment.now wiring.now)) }
{
    // There is a lab.
    let Some(claims) = case.state.claims() else {
        unreachable!()
    };
    let free = claims.free_without(alloc, case.experiment.name)?;
    solve(alloc, case.lab, &free, wiring, rule, seed)
}

/// The mapping that a search found.
pub(crate) fn need_mapping(exp: Name, found: Solved) -> Result<Mapping, Refusal>
    ensures mapping { IfOk result (λ mapping. need_mapping exp found ≡ Ok mapping) }
    ensures refuses { Refuses (need_mapping exp found) result }
{
    match found {
        Solved::Least(mapping, _) | Solved::Local(mapping, _) => Ok(mapping),
        Solved::None => Err(Refusal::Refused(Reply::NoneFits { exp })),
        Solved::GaveUp => Err(Refusal::Refused(Reply::GaveUp { exp })),
    }
}

/// Tells the mapping that a search found, and its cost.
fn reply_found(
    alloc: Global,
    lab: &Lab,
    experiment: &Experiment,
    found: Solved,
) -> Result<Task, Refusal>
    requires keeps { IfFound found (IsShaped lab.now experiment.now.wiring) }
    requires sound { IsSound experiment.now.wiring }
    ensures judged { Gives (judged_solved lab.now experiment.now found) result }
{
    let exp = experiment.name;
    let reply = match found {
        Solved::Least(mapping, cost) => Reply::Least {
            exp,
            cost,
            solution: print_solution(alloc, lab, &experiment.wiring, &mapping)?,
        },
        Solved::Local(mapping, cost) => Reply::Local {
            exp,
            cost,
            solution: print_solution(alloc, lab, &experiment.wiring, &mapping)?,
        },
        Solved::None => return Err(Refusal::Refused(Reply::NoneFits { exp })),
        Solved::GaveUp => return Err(Refusal::Refused(Reply::GaveUp { exp })),
    };
    Ok(Task::Tell(reply))
}

/// Judges the search for an experiment that is out.
pub(crate) fn judge_solve(
    alloc: Global,
    present: &Present,
    exp: Name,
    rule: &StepRule,
    seed: u64,
) -> Result<Task, Refusal>
    ensures judged { IsJudged (JudgedSolve rule.now.number present.now.state.now.state (has_open present.now.swaps.now exp) exp seed) result }
    ensures can { IfOk result (CanDo present.now.state.now.state) }
{
    let (lab, experiment) = need_idle_out(present, exp)?;
    let case = Case {
        state: present.state,
        lab,
        experiment,
    };
    let found = search(alloc, &case, &experiment.wiring, rule, seed)?;
    reply_found(alloc, lab, experiment, found)
}

/// Judges the swap of an experiment that is out to the mapping that a search finds.
fn judge_entry(alloc: Global, case: &Case, rule: &StepRule, seed: u64) -> Result<Task, Refusal>
    requires out { IsOutIn case.now.state.now.state case.now.lab.now case.now.experiment.now }
    requires sound { IsSound case.now.experiment.now.wiring }
    ensures judged { IsJudged (JudgedFound rule.now.number case.now.state.now.state case.now.lab.now case.now.experiment.now case.now.experiment.now.wiring seed
        (judged_entry case.now.state.now.state case.now.lab.now case.now.experiment.now)) result }
    ensures can { IfOk result (CanDo case.now.state.now.state) }
{
    let found = search(alloc, case, &case.experiment.wiring, rule, seed)?;
    let mapping = need_mapping(case.experiment.name, found)?;
    let task = swap_to(alloc, case, &mapping)?;
    Ok(task)
}

/// Judges a swap-in to the mapping that a search finds.
pub(crate) fn judge_swapin(
    alloc: Global,
    present: &Present,
    exp: Name,
    rule: &StepRule,
    seed: u64,
) -> Result<Task, Refusal>
    ensures judged { IsJudged (JudgedSwapin rule.now.number present.now.state.now.state (has_open present.now.swaps.now exp) exp seed) result }
    ensures can { IfOk result (CanDo present.now.state.now.state) }
{
    let (lab, experiment) = need_idle_out(present, exp)?;
    let case = Case {
        state: present.state,
        lab,
        experiment,
    };
    judge_entry(alloc, &case, rule, seed)
}

/// Judges a change of an experiment that is in there, to that wiring, and to the mapping that a search finds.
fn judge_move(
    alloc: Global,
    case: &Case,
    occupied: (&Mapping, &Tags),
    wiring: Wiring,
    rule: &StepRule,
    seed: u64,
) -> Result<Task, Refusal>
    requires inside { IsInIn case.now.state.now.state case.now.lab.now case.now.experiment.now occupied.0.now occupied.1.now }
    requires sound { IsSound wiring }
    ensures judged { IsJudged (JudgedFound rule.now.number case.now.state.now.state case.now.lab.now case.now.experiment.now wiring seed
        (judged_move case.now.state.now.state case.now.lab.now case.now.experiment.now wiring)) result }
    ensures can { IfOk result (CanDo case.now.state.now.state) }
{
    let found = search(alloc, case, &wiring, rule, seed)?;
    let mapping = need_mapping(case.experiment.name, found)?;
    let task = change_to(alloc, case, occupied, wiring, mapping)?;
    Ok(task)
}

/// Judges a change by the wiring of an NS text, to the mapping that a search finds.
pub(crate) fn judge_modify(
    alloc: Global,
    present: &Present,
    exp: Name,
    text: &[u8],
    rule: &StepRule,
    seed: u64,
) -> Result<Task, Refusal>
    requires { length text.now < TEXT_LIMIT }
    ensures judged { IsJudged (JudgedModify rule.now.number present.now.state.now.state (has_open present.now.swaps.now exp) exp seed text.now) result }
    ensures can { IfOk result (CanDo present.now.state.now.state) }
{
    let (lab, experiment, mapping, tags) = need_idle_in(present, exp)?;
    let case = Case {
        state: present.state,
        lab,
        experiment,
    };
    match read_network(alloc, text) {
        Ok(wiring) => judge_move(alloc, &case, (mapping, tags), wiring, rule, seed),
        Err(refused) => Err(bad_text(exp, refused)),
    }
}
