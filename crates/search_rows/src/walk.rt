//! The annealing walk from FirstFit.
ghost use Rattle.std.specs.Prelude.{◌≡◌, ◌*◌, ◌/◌, IfOk};
ghost use Rattle.virt_topo.specs.Soundness.{IsSound};
ghost use Rattle.lab_model.specs.Shapes.{IsFreeOf, IsShaped};
ghost use Rattle.map_anneal.specs.Sought.{sought, IsNodeMap};
ghost use Rattle.map_state.specs.Tables.{IsSearch};
ghost use Rattle.map_anneal.specs.Searches.{sought_of};

use crate::problem::Problem;
use assign_core::first_fit;
use cost_rule::StepRule;
use lab_base::{Kind, Memory, Text};
use map_anneal::{Prepared, anneal_by};
use map_state::Search;
use row_words::RowFault;
use std::alloc::Global;
use virt_topo::Mapping;

/// The seed of the walk.
pub const SEED: u64 = 1;

/// A heat after a round.
fn cooler(heat: u64) -> u64
    ensures { result ≡ heat * 9 / 10 }
{
    (u128::from(heat) * 9 / 10) as u64
}

/// How many rounds a walk from a start of that cost has.
fn rounds_from(cost: u64) -> u64 {
    let mut heat = cost;
    let mut rounds = 0u64;
    while heat > 0 {
        heat = cooler(heat);
        rounds = rounds.saturating_add(1);
    }
    rounds
}

/// Where the walk begins.
pub fn start_of(alloc: Global, problem: &Problem<'_>, rule: &StepRule) -> Result<Mapping, RowFault>
    requires free { IsFreeOf problem.now.lab.now problem.now.free.now }
    requires sound { IsSound problem.now.wiring.now }
    ensures shaped { IfOk result (IsShaped problem.now.lab.now problem.now.wiring.now) }
    ensures start { IfOk result (IsNodeMap (sought problem.now.lab.now problem.now.free.now problem.now.wiring.now rule.now.number)) }
{
    match first_fit(alloc, problem.lab, problem.free, problem.wiring) {
        Ok(Some(start)) => Ok(start),
        Ok(None) => Err(RowFault::Word(Kind::Missing)),
        Err(memory) => Err(RowFault::from(memory)),
    }
}

/// Walks so many times.
fn walk(
    alloc: Global,
    times: u64,
    search: &Search,
    start: &Mapping,
    rule: &StepRule,
) -> Result<(), Memory>
    requires search { IsSearch search.now }
    requires start { IsNodeMap (sought_of search.now rule.now.number) start.now }
{
    for _time in 0..times {
        if let Err(memory) = anneal_by(alloc, search, start, rule, SEED) {
            return Err(memory);
        }
    }
    Ok(())
}

/// Walks so many times from a start, and adds how many tries all of these have.
fn push_walks(
    out: &mut Text,
    alloc: Global,
    times: u64,
    problem: &Problem<'_>,
    rule: &StepRule,
    start: &Mapping,
) -> Result<(), Memory>
    requires free { IsFreeOf problem.now.lab.now problem.now.free.now }
    requires sound { IsSound problem.now.wiring.now }
    requires shaped { IsShaped problem.now.lab.now problem.now.wiring.now start.now }
    requires start { IsNodeMap (sought problem.now.lab.now problem.now.free.now problem.now.wiring.now rule.now.number) start.now }
{
    let rounds = rounds_from(rule.ask(problem.lab, problem.wiring, start));
    let tries = rounds.saturating_mul(8 * problem.wiring.nodes.len() as u64);
    let prepared = Prepared::of(alloc, problem.lab, problem.free, problem.wiring)?;
    let search = prepared.search(problem.lab, problem.free, problem.wiring);
    let walked = walk(alloc, times, &search, start, rule);
    drop(prepared);
    walked?;
    out.push_number(tries.saturating_mul(times))?;
    out.push_bytes(b" tries\n")
}

/// Walks so many times from FirstFit, and adds how many tries all of these have.
pub fn add_output(
    out: &mut Text,
    alloc: Global,
    times: u64,
    problem: &Problem<'_>,
    rule: &StepRule,
) -> Result<(), RowFault>
    requires free { IsFreeOf problem.now.lab.now problem.now.free.now }
    requires sound { IsSound problem.now.wiring.now }
{
    match start_of(alloc, problem, rule) {
        Ok(start) => {
            let told = push_walks(out, alloc, times, problem, rule, &start);
            drop(start);
            Ok(told?)
        }
        Err(row_fault) => Err(row_fault),
    }
}
