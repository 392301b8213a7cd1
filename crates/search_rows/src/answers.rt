//! The answers of searches, and how often they ask the cost rule.
ghost use Rattle.std.specs.Prelude.{◌≤◌, IfOk, IsTrue};
ghost use Rattle.virt_topo.specs.Soundness.{IsSound};
ghost use Rattle.lab_model.specs.Shapes.{IsFreeOf};
ghost use Rattle.map_anneal.specs.Sought.{sought, IsNodeMap};
ghost use Rattle.node_maps.specs.NodeMaps.{candidates as candidates_in};
ghost use Rattle.assign_core.specs.Exact.{count};

use crate::asked::Asked;
use crate::problem::Problem;
use crate::walk::start_of;
use assign_core::{MAX_CHOICES, Solved, are_few, best_of_all, candidates, solve};
use cost_rule::StepRule;
use lab_base::{Kind, Memory, Text};
use map_anneal::{anneal, descend};
use phys_lab::Lab;
use row_words::{RowFault, push_number};
use std::alloc::Global;
use std::cell::Cell;
use std::collections::BTreeSet;
use virt_topo::Mapping;

/// A search whose answers are told.
#[derive(Clone, Copy, PartialEq, Eq)]
pub enum Search {
    Solve,
    Best,
    Descend,
    Walk,
}

/// Adds the number of the machine of each virtual node.
fn push_places(out: &mut Text, mapping: &Mapping) -> Result<(), Memory> {
    for place in mapping.places.as_slice() {
        push_number(out, u64::from(place.0.0))?;
    }
    Ok(())
}

/// Adds counts.
fn push_counts(out: &mut Text, counts: &[u32]) -> Result<(), Memory> {
    out.push_bytes(b", asked")?;
    for count in counts {
        push_number(out, u64::from(*count))?;
    }
    Ok(())
}

/// Adds all counts.
fn push_asked(out: &mut Text, asked: Asked) -> Result<(), Memory> {
    push_counts(out, &[asked.whole, asked.steps, asked.parts])
}

/// Adds the least cost, and the mapping that has it.
fn push_least(out: &mut Text, cost: u64, mapping: &Mapping, asked: Asked) -> Result<(), Memory> {
    out.push_bytes(b"least ")?;
    out.push_number(cost)?;
    out.push_bytes(b" on")?;
    push_places(out, mapping)?;
    push_asked(out, asked)
}

/// Adds a cost that is the least of neighbours.
fn push_local(out: &mut Text, cost: u64, asked: Asked) -> Result<(), Memory> {
    out.push_bytes(b"local ")?;
    out.push_number(cost)?;
    push_counts(out, &[asked.whole])
}

/// Adds that there is no mapping.
fn push_none(out: &mut Text, asked: Asked) -> Result<(), Memory> {
    out.push_bytes(b"none")?;
    push_asked(out, asked)
}

/// Adds the answer of the whole search. Of one that drew, the mapping and the counts of its steps hang on what was drawn.
fn push_solved(out: &mut Text, solved: &Solved, asked: Asked) -> Result<(), Memory> {
    match solved {
        Solved::Least(mapping, cost) => push_least(out, *cost, mapping, asked),
        Solved::Local(_, cost) => push_local(out, *cost, asked),
        Solved::None => push_none(out, asked),
        Solved::GaveUp => out.push_bytes(b"gave up"),
    }
}

fn push_solve(
    out: &mut Text,
    alloc: Global,
    problem: &Problem<'_>,
    rule: &StepRule,
    asked: &Cell<Asked>,
    seed: u64,
) -> Result<(), Memory>
    requires free { IsFreeOf problem.now.lab.now problem.now.free.now }
    requires sound { IsSound problem.now.wiring.now }
{
    match solve(alloc, problem.lab, problem.free, problem.wiring, rule, seed) {
        Ok(solved) => {
            let told = push_solved(out, &solved, asked.get());
            drop(solved);
            told
        }
        Err(memory) => Err(memory),
    }
}

/// Whether the candidates of a problem are few.
fn has_few(alloc: Global, problem: &Problem<'_>) -> Result<bool, Memory>
    requires { IsFreeOf problem.now.lab.now problem.now.free.now }
    ensures { IfOk result (λ few. IsTrue few → count (candidates_in problem.now.lab.now problem.now.free.now problem.now.wiring.now)
        ≤ MAX_CHOICES) }
{
    let listed = candidates(alloc, problem.lab, problem.free, problem.wiring)?;
    let few = are_few(&listed);
    drop(listed);
    Ok(few)
}

/// Adds the cheapest of all node maps, which have to be few, with its cost.
fn push_best(
    out: &mut Text,
    alloc: Global,
    problem: &Problem<'_>,
    rule: &StepRule,
    asked: &Cell<Asked>,
) -> Result<(), RowFault>
    requires free { IsFreeOf problem.now.lab.now problem.now.free.now }
    requires sound { IsSound problem.now.wiring.now }
{
    if !has_few(alloc, problem)? {
        return Err(RowFault::Word(Kind::Many));
    }
    match best_of_all(alloc, problem.lab, problem.free, problem.wiring, rule) {
        Ok(Some((mapping, cost))) => {
            let told = push_least(out, cost, &mapping, asked.get());
            drop(mapping);
            Ok(told?)
        }
        Ok(None) => Ok(push_none(out, asked.get())?),
        Err(memory) => Err(RowFault::from(memory)),
    }
}

/// Adds where a descent ends.
fn push_lowest(out: &mut Text, lowest: &Mapping, asked: Asked) -> Result<(), Memory> {
    out.push_bytes(b"on")?;
    push_places(out, lowest)?;
    push_asked(out, asked)
}

/// Adds the descent from a start.
fn push_descent_from(
    out: &mut Text,
    alloc: Global,
    problem: &Problem<'_>,
    rule: &StepRule,
    asked: &Cell<Asked>,
    start: &Mapping,
) -> Result<(), Memory>
    requires free { IsFreeOf problem.now.lab.now problem.now.free.now }
    requires sound { IsSound problem.now.wiring.now }
    requires start { IsNodeMap (sought problem.now.lab.now problem.now.free.now problem.now.wiring.now rule.now.number) start.now }
{
    match descend(
        alloc,
        problem.lab,
        problem.free,
        problem.wiring,
        start,
        rule,
    ) {
        Ok(lowest) => {
            let told = push_lowest(out, &lowest, asked.get());
            drop(lowest);
            told
        }
        Err(memory) => Err(memory),
    }
}

/// Adds the descent from FirstFit, without the walk.
fn push_descent(
    out: &mut Text,
    alloc: Global,
    problem: &Problem<'_>,
    rule: &StepRule,
    asked: &Cell<Asked>,
) -> Result<(), RowFault>
    requires free { IsFreeOf problem.now.lab.now problem.now.free.now }
    requires sound { IsSound problem.now.wiring.now }
{
    match start_of(alloc, problem, rule) {
        Ok(start) => {
            let told = push_descent_from(out, alloc, problem, rule, asked, &start);
            drop(start);
            Ok(told?)
        }
        Err(row_fault) => Err(row_fault),
    }
}

/// The first letter of a machine's name. In the labs of these rows it tells which machines are alike.
fn letter_of(lab: &Lab, number: u16) -> u8 {
    match lab.nodes().get(usize::from(number)) {
        Some(node) => node.name.bytes().first().copied().unwrap_or(b'?'),
        None => b'?',
    }
}

/// Adds the letters of the machines, since the machines themselves hang on what was drawn.
fn push_letters(out: &mut Text, lab: &Lab, mapping: &Mapping) -> Result<(), Memory> {
    for place in mapping.places.as_slice() {
        out.push(letter_of(lab, place.0.0))?;
    }
    Ok(())
}

/// Adds where a walk ends, and its counts. How often it asked by parts hangs on what was drawn.
fn push_cheapest(
    out: &mut Text,
    lab: &Lab,
    cheapest: &Mapping,
    asked: Asked,
) -> Result<(), Memory> {
    push_letters(out, lab, cheapest)?;
    push_counts(out, &[asked.whole, asked.steps])?;
    if asked.parts > asked.steps {
        out.push_bytes(b" and more")?;
    }
    Ok(())
}

/// Adds the walk from a start: the cheapest of its maps.
fn push_walk_from(
    out: &mut Text,
    alloc: Global,
    problem: &Problem<'_>,
    rule: &StepRule,
    asked: &Cell<Asked>,
    start: &Mapping,
    seed: u64,
) -> Result<(), Memory>
    requires free { IsFreeOf problem.now.lab.now problem.now.free.now }
    requires sound { IsSound problem.now.wiring.now }
    requires start { IsNodeMap (sought problem.now.lab.now problem.now.free.now problem.now.wiring.now rule.now.number) start.now }
{
    match anneal(
        alloc,
        problem.lab,
        problem.free,
        problem.wiring,
        start,
        rule,
        seed,
    ) {
        Ok(cheapest) => {
            let told = push_cheapest(out, problem.lab, &cheapest, asked.get());
            drop(cheapest);
            told
        }
        Err(memory) => Err(memory),
    }
}

/// Adds the walk from FirstFit.
fn push_walk(
    out: &mut Text,
    alloc: Global,
    problem: &Problem<'_>,
    rule: &StepRule,
    asked: &Cell<Asked>,
    seed: u64,
) -> Result<(), RowFault>
    requires free { IsFreeOf problem.now.lab.now problem.now.free.now }
    requires sound { IsSound problem.now.wiring.now }
{
    match start_of(alloc, problem, rule) {
        Ok(start) => {
            let told = push_walk_from(out, alloc, problem, rule, asked, &start, seed);
            drop(start);
            Ok(told?)
        }
        Err(row_fault) => Err(row_fault),
    }
}

/// The answer of a search in a line.
fn line_of(
    alloc: Global,
    search: Search,
    problem: &Problem<'_>,
    rule: &StepRule,
    asked: &Cell<Asked>,
    seed: u64,
) -> Result<Text, RowFault>
    requires free { IsFreeOf problem.now.lab.now problem.now.free.now }
    requires sound { IsSound problem.now.wiring.now }
{
    let mut line = Text::new(alloc);
    asked.set(Asked::never());
    match search {
        Search::Solve => push_solve(&mut line, alloc, problem, rule, asked, seed)?,
        Search::Best => push_best(&mut line, alloc, problem, rule, asked)?,
        Search::Descend => push_descent(&mut line, alloc, problem, rule, asked)?,
        Search::Walk => push_walk(&mut line, alloc, problem, rule, asked, seed)?,
    }
    Ok(line)
}

/// The answers of a search by the seeds 0, 1, .., each once.
fn lines_of(
    alloc: Global,
    search: Search,
    times: u64,
    problem: &Problem<'_>,
    rule: &StepRule,
    asked: &Cell<Asked>,
) -> Result<BTreeSet<Text>, RowFault>
    requires free { IsFreeOf problem.now.lab.now problem.now.free.now }
    requires sound { IsSound problem.now.wiring.now }
{
    let mut lines = BTreeSet::new(alloc);
    for seed in 0..times {
        let line = line_of(alloc, search, problem, rule, asked, seed)?;
        let Ok(_is_new) = lines.insert(line) else {
            return Err(RowFault::Memory);
        };
    }
    Ok(lines)
}

/// Adds the answers of a search by the seeds 0, 1, .., each once, and how often it asks the rule.
pub fn tell_answers(
    out: &mut Text,
    alloc: Global,
    search: Search,
    times: u64,
    problem: &Problem<'_>,
    rule: &StepRule,
    asked: &Cell<Asked>,
) -> Result<(), RowFault>
    requires free { IsFreeOf problem.now.lab.now problem.now.free.now }
    requires sound { IsSound problem.now.wiring.now }
{
    for line in &lines_of(alloc, search, times, problem, rule, asked)? {
        out.push_bytes(line.bytes())?;
        out.push(b'\n')?;
    }
    Ok(())
}
