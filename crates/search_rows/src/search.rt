//! Searches under a cost rule, whose questions are counted.
ghost use Rattle.std.specs.Prelude.{◌≡◌};
ghost use Rattle.virt_topo.specs.Soundness.{IsSound};
ghost use Rattle.lab_model.specs.Shapes.{IsFreeOf, IsShaped};
ghost use Rattle.cost_rule.specs.Cost.{cost};
ghost use Rattle.cost_rule.specs.Parts.{cost_of_parts, AreParts};

use crate::answers::{Search, tell_answers};
use crate::asked::{Asked, note_parts, note_step, note_whole};
use crate::problem::{Problem, all_of, lab_of, wiring_of};
use crate::walk::{self, SEED};
use assign_core::{Solved, first_fit, solve};
use cost_rule::{CostFn, Parts, PartsFn, Rule, RuleNumber, StepFn, StepRule};
use lab_base::{Memory, Text};
use phys_lab::Lab;
use row_words::RowFault;
use rule_costs::{cost_of, parts_cost, step_cost};
use std::alloc::Global;
use std::cell::Cell;
use std::rc::Rc;
use virt_topo::{Mapping, Wiring};

/// The part that a row runs: FirstFit, the walk or the whole search, which are measured, or a search whose answers are told.
#[derive(Clone, Copy, PartialEq, Eq)]
pub enum What {
    Fit,
    Walk,
    Solve,
    Answers(Search),
}

/// A row's search, the rule that it is under, and how often it runs.
#[derive(Clone, Copy)]
pub struct Run {
    pub what: What,
    pub number: RuleNumber,
    pub times: u64,
}

/// Adds a word and a cost.
fn push_cost(out: &mut Text, word: &[u8], cost: u64) -> Result<(), Memory> {
    out.push_bytes(word)?;
    out.push_number(cost)?;
    out.push(b'\n')
}

/// Adds the answer of a search with its cost, without its mapping.
fn push_cost_of(out: &mut Text, solved: &Solved) -> Result<(), Memory> {
    match solved {
        Solved::Least(_, cost) => push_cost(out, b"least ", *cost),
        Solved::Local(_, cost) => push_cost(out, b"local ", *cost),
        Solved::None => out.push_bytes(b"none\n"),
        Solved::GaveUp => out.push_bytes(b"gave up\n"),
    }
}

/// Searches once, and adds the answer with its cost.
fn push_cost_solved(
    out: &mut Text,
    alloc: Global,
    problem: &Problem<'_>,
    rule: &StepRule,
) -> Result<(), Memory>
    requires free { IsFreeOf problem.now.lab.now problem.now.free.now }
    requires sound { IsSound problem.now.wiring.now }
{
    match solve(alloc, problem.lab, problem.free, problem.wiring, rule, SEED) {
        Ok(solved) => {
            let told = push_cost_of(out, &solved);
            drop(solved);
            told
        }
        Err(memory) => Err(memory),
    }
}

/// Searches so many times, and adds each answer with its cost.
fn tell_solves(
    out: &mut Text,
    alloc: Global,
    times: u64,
    problem: &Problem<'_>,
    rule: &StepRule,
) -> Result<(), Memory>
    requires free { IsFreeOf problem.now.lab.now problem.now.free.now }
    requires sound { IsSound problem.now.wiring.now }
{
    for _time in 0..times {
        push_cost_solved(out, alloc, problem, rule)?;
    }
    Ok(())
}

/// Places a problem's wiring by FirstFit, and adds whether it could.
fn push_placed(out: &mut Text, alloc: Global, problem: &Problem<'_>) -> Result<(), Memory>
    requires free { IsFreeOf problem.now.lab.now problem.now.free.now }
    requires sound { IsSound problem.now.wiring.now }
{
    match first_fit(alloc, problem.lab, problem.free, problem.wiring) {
        Ok(Some(start)) => {
            drop(start);
            out.push_bytes(b"placed\n")
        }
        Ok(None) => out.push_bytes(b"not placed\n"),
        Err(memory) => Err(memory),
    }
}

/// Places a problem's wiring by FirstFit, as before a walk, so many times.
fn tell_fits(out: &mut Text, alloc: Global, times: u64, problem: &Problem<'_>) -> Result<(), Memory>
    requires free { IsFreeOf problem.now.lab.now problem.now.free.now }
    requires sound { IsSound problem.now.wiring.now }
{
    for _time in 0..times {
        push_placed(out, alloc, problem)?;
    }
    Ok(())
}

/// Searches a problem so many times, under a rule.
fn tell_by(
    out: &mut Text,
    alloc: Global,
    run: Run,
    problem: &Problem<'_>,
    rule: &StepRule,
    asked: &Cell<Asked>,
) -> Result<(), RowFault>
    requires free { IsFreeOf problem.now.lab.now problem.now.free.now }
    requires sound { IsSound problem.now.wiring.now }
{
    let times = run.times;
    match run.what {
        What::Fit => Ok(tell_fits(out, alloc, times, problem)?),
        What::Walk => walk::add_output(out, alloc, times, problem, rule),
        What::Solve => Ok(tell_solves(out, alloc, times, problem, rule)?),
        What::Answers(search) => tell_answers(out, alloc, search, times, problem, rule, asked),
    }
}

/// Searches a problem so many times, under a cost rule whose questions are counted.
fn tell_counted(
    out: &mut Text,
    alloc: Global,
    run: Run,
    problem: &Problem<'_>,
    asked: &Rc<Cell<Asked>>,
) -> Result<(), RowFault>
    requires free { IsFreeOf problem.now.lab.now problem.now.free.now }
    requires sound { IsSound problem.now.wiring.now }
{
    let number = run.number;
    let (whole, steps, parts) = (Rc::clone(asked)?, Rc::clone(asked)?, Rc::clone(asked)?);
    let by_number = move |lab: &Lab, wiring: &Wiring, mapping: &Mapping| -> u64
        requires { IsSound wiring.now × IsShaped lab.now wiring.now mapping.now }
        ensures { result ≡ cost number lab.now wiring.now mapping.now }
    {
        note_whole(&whole);
        cost_of(number, lab, wiring, mapping)
    };
    let by_step = move |lab: &Lab, wiring: &Wiring, from: &Mapping, to: &Mapping, told: u64| -> u64
        requires { IsSound wiring.now × IsShaped lab.now wiring.now from.now × IsShaped lab.now wiring.now to.now
            × (told ≡ cost number lab.now wiring.now from.now) }
        ensures { result ≡ cost number lab.now wiring.now to.now }
    {
        note_step(&steps);
        step_cost(number, lab, wiring, from, to, told)
    };
    let by_parts = move |some: Parts| -> u64
        requires { AreParts some }
        ensures { result ≡ cost_of_parts number some }
    {
        note_parts(&parts);
        parts_cost(number, some)
    };
    let Ok(whole) = Box::new(alloc, by_number) else {
        return Err(RowFault::Memory);
    };
    let Ok(step) = Box::new(alloc, by_step) else {
        return Err(RowFault::Memory);
    };
    let Ok(parted) = Box::new(alloc, by_parts) else {
        return Err(RowFault::Memory);
    };
    let (whole, step, parted): (CostFn, StepFn, PartsFn) = (whole, step, parted);
    let rule = StepRule::new(Rule::new(number, whole), step, parted);
    tell_by(out, alloc, run, problem, &rule, asked)
}

/// Searches a problem so many times.
fn tell_problem(
    out: &mut Text,
    alloc: Global,
    run: Run,
    problem: &Problem<'_>,
) -> Result<(), RowFault>
    requires free { IsFreeOf problem.now.lab.now problem.now.free.now }
    requires sound { IsSound problem.now.wiring.now }
{
    let Ok(asked) = Rc::new(alloc, Cell::new(Asked::never())) else {
        return Err(RowFault::Memory);
    };
    tell_counted(out, alloc, run, problem, &asked)
}

/// Searches the problem of a wiring on a lab so many times.
fn tell_in(
    out: &mut Text,
    alloc: Global,
    run: Run,
    lab: &Lab,
    wiring: &Wiring,
) -> Result<(), RowFault>
    requires { IsSound wiring.now }
{
    let free = all_of(alloc, lab)?;
    let problem = Problem {
        lab,
        free: &free,
        wiring,
    };
    let told = tell_problem(out, alloc, run, &problem);
    drop(free);
    told
}

/// Searches the problem of a wiring on the lab of a text so many times.
fn tell_over(
    out: &mut Text,
    alloc: Global,
    run: Run,
    ptop: &[u8],
    wiring: &Wiring,
) -> Result<(), RowFault>
    requires { IsSound wiring.now }
{
    match lab_of(alloc, ptop) {
        Ok(lab) => {
            let told = tell_in(out, alloc, run, &lab, wiring);
            drop(lab);
            told
        }
        Err(row_fault) => Err(row_fault),
    }
}

/// Searches the problem of two texts so many times.
pub fn add_output(
    out: &mut Text,
    alloc: Global,
    run: Run,
    ptop: &[u8],
    top: &[u8],
) -> Result<(), RowFault> {
    match wiring_of(alloc, top) {
        Ok(wiring) => {
            let told = tell_over(out, alloc, run, ptop, &wiring);
            drop(wiring);
            told
        }
        Err(row_fault) => Err(row_fault),
    }
}
