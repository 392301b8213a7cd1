// The whole search.
ghost use Rattle.std.specs.Prelude.{◌≡◌, ◌≤◌, ◌+◌, ◌*◌, ◌↔◌, min, IsTrue, IfOk};
ghost use Rattle.virt_topo.specs.Soundness.{IsSound};
ghost use Rattle.lab_model.specs.Feasible.{IsFeasible};
ghost use Rattle.lab_model.specs.Shapes.{IsFreeOf, IsShaped};
ghost use Rattle.map_state.specs.Tables.{IsSearch};
ghost use Rattle.map_anneal.specs.Sought.{sought};
ghost use Rattle.map_anneal.specs.Searches.{sought_of};
ghost use Rattle.assign_core.specs.Exact.{count, IfFound, IsAllowed};

use crate::exact::{MAX_CHOICES, best_by};
use crate::first::fit_by;
use cost_rule::StepRule;
use lab_base::Memory;
use map_anneal::{Prepared, anneal_by, descend_by};
use map_state::Search;
use node_maps::Candidates;
use phys_lab::{Free, Lab};
use std::alloc::Global;
use virt_topo::{Mapping, Wiring};

/// The answer of a search.
#[derive(Drop)]
pub enum Solved {
    /// The cheapest mapping, the first in candidate order among equals, with its cost.
    Least(Mapping, u64),
    /// A locally best mapping with its cost, where the candidates are many.
    Local(Mapping, u64),
    /// No node map is feasible.
    None,
    /// The candidates are many, and FirstFit isn't feasible.
    GaveUp,
}

/// A number of choices times a number of candidates, at most one more than `MAX_CHOICES`.
fn capped(total: u64, more: usize) -> u64
    ensures { result ≡ min (total * more) (MAX_CHOICES + 1) }
{
    (u128::from(total) * more as u128).min(u128::from(MAX_CHOICES + 1)) as u64
}

/// Whether there are at most `MAX_CHOICES` choices of candidates.
pub fn are_few(listed: &Candidates) -> bool
    ensures { IsTrue result ↔ (count listed.now ≤ MAX_CHOICES) }
{
    let mut total = 1;
    for node in 0..listed.len() {
        total = capped(total, listed.count(node));
    }
    total <= MAX_CHOICES
}

/// The whole search, by what is prepared.
fn solve_by(alloc: Global, search: &Search, rule: &StepRule, seed: u64) -> Result<Solved, Memory>
    requires search { IsSearch search.now }
    ensures allowed { IfOk result (IsAllowed (sought_of search.now rule.now.number) seed) }
    ensures shaped { IfOk result (λ solved. IfFound solved (IsShaped search.now.mapper.lab.now search.now.mapper.wiring.now)) }
    ensures feasible { IfOk result (λ solved. IfFound solved (IsFeasible search.now.mapper.lab.now search.now.mapper.free.now search.now.mapper.wiring.now)) }
{
    if are_few(search.candidates) {
        let Some((mapping, cost)) = best_by(alloc, search, rule)? else {
            return Ok(Solved::None);
        };
        return Ok(Solved::Least(mapping, cost));
    }
    let Some(start) = fit_by(alloc, search)? else {
        return Ok(Solved::GaveUp);
    };
    let annealed = anneal_by(alloc, search, &start, rule, seed)?;
    let lowest = descend_by(alloc, search, &annealed, rule)?;
    let mapper = search.mapper;
    let cost = rule.ask(mapper.lab, mapper.wiring, &lowest);
    Ok(Solved::Local(lowest, cost))
}

/// The whole search. With at most `MAX_CHOICES` choices of candidates it answers the cheapest feasible node map, or None.
/// With more it answers a locally best map that costs at most every map of the walk from FirstFit by the seed; or GaveUp where FirstFit isn't
/// feasible.
pub fn solve(
    alloc: Global,
    lab: &Lab,
    free: &Free,
    wiring: &Wiring,
    rule: &StepRule,
    seed: u64,
) -> Result<Solved, Memory>
    requires free { IsFreeOf lab.now free.now }
    requires sound { IsSound wiring.now }
    ensures allowed { IfOk result (λ solved. IsAllowed (sought lab.now free.now wiring.now rule.now.number) seed solved) }
    ensures shaped { IfOk result (λ solved. IfFound solved (IsShaped lab.now wiring.now)) }
    ensures feasible { IfOk result (λ solved. IfFound solved (IsFeasible lab.now free.now wiring.now)) }
{
    let prepared = Prepared::of(alloc, lab, free, wiring)?;
    let search = prepared.search(lab, free, wiring);
    let solved = solve_by(alloc, &search, rule, seed);
    drop(prepared);
    solved
}
