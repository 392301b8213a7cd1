// Descent to a locally best map.
ghost use Rattle.std.specs.Prelude.{◌≡◌, ◌≤◌, ◌<◌, ℕ, true, false, [], length, slice_index_or, IfOk, OnOk, Contains, IsTrue, ◌↔◌};
ghost use Rattle.virt_topo.specs.Soundness.{IsSound};
ghost use Rattle.lab_model.specs.Shapes.{IsFreeOf};
ghost use Rattle.virt_topo.specs.Wirings.{virt_at};
ghost use Rattle.node_maps.specs.NodeMaps.{is_candidate, lab_places};
ghost use Rattle.map_state.specs.Tables.{IsSearch};
ghost use Rattle.map_anneal.specs.Sought.{sought, choices, price, IsNodeMap, NoMove, NoExchange, LocallyBest};
ghost use Rattle.map_anneal.specs.Searches.{sought_of, priced_by, IsTried};
ghost use Rattle.map_anneal.specs.RuledOut.{ArePairs, AreRows, IsExchangeNoLess, IsPairs, IsRow};
ghost use Rattle.map_anneal.specs.Noted.{IsKnown};

use crate::known::Known;
use crate::notes::Notes;
use crate::prepared::Prepared;
use crate::priced::{Priced, place_of};
use crate::tried::Tried;
use cost_rule::StepRule;
use feas::{is_fixed_at, suits};
use lab_base::Memory;
use map_state::Search;
use node_maps::Place;
use phys_lab::{Free, Lab};
use std::alloc::Global;
use virt_topo::{Mapping, Wiring};

/// Makes the first cheaper move of a virtual node, if there is one; those that are known are not tried.
fn cheaper_move_of(
    alloc: Global,
    search: &Search,
    rule: &StepRule,
    at: &mut Tried,
    node: usize,
    row: &mut Notes,
) -> Result<bool, Memory>
    requires search { IsSearch search.now }
    requires at { IsTried search.now rule.now.number at.old }
    requires within { node < length (choices (sought_of search.now rule.now.number)) }
    requires row { IsRow (sought_of search.now rule.now.number) at.old.state.mapping node row.old }
    ensures tried { OnOk result (IsTried search.now rule.now.number at.new) }
    ensures cheaper { IfOk result (λ yes. yes ≡ true → at.new.cost < at.old.cost) }
    ensures same { IfOk result (λ yes. yes ≡ false → at.new.state.mapping ≡ at.old.state.mapping) }
    ensures same_cost { IfOk result (λ yes. yes ≡ false → at.new.cost ≡ at.old.cost) }
    ensures none { IfOk result (λ yes. yes ≡ false → NoMove (sought_of search.now rule.now.number) at.old.state.mapping node) }
    ensures row { OnOk result (IsRow (sought_of search.now rule.now.number) at.old.state.mapping node row.new) }
{
    let below = u128::from(at.cost);
    let mut number = row.unknown_from(0);
    while number < row.len() {
        if at.move_if_cheaper(alloc, search, rule, node, number, below)? {
            return Ok(true);
        }
        row.note(number, at.ruled_out);
        number = row.unknown_from(number + 1);
    }
    Ok(false)
}

/// Makes the first cheaper move, if there is one.
fn any_cheaper_move(
    alloc: Global,
    search: &Search,
    rule: &StepRule,
    at: &mut Tried,
    rows: &mut Vec<Notes>,
) -> Result<bool, Memory>
    requires search { IsSearch search.now }
    requires at { IsTried search.now rule.now.number at.old }
    requires rows { AreRows (sought_of search.now rule.now.number) at.old.state.mapping rows.old.items }
    ensures tried { OnOk result (IsTried search.now rule.now.number at.new) }
    ensures cheaper { IfOk result (λ yes. yes ≡ true → at.new.cost < at.old.cost) }
    ensures same { IfOk result (λ yes. yes ≡ false → at.new.state.mapping ≡ at.old.state.mapping) }
    ensures same_cost { IfOk result (λ yes. yes ≡ false → at.new.cost ≡ at.old.cost) }
    ensures none { IfOk result (λ yes. yes ≡ false → (v : ℕ) → v < length (choices (sought_of search.now rule.now.number))
        → NoMove (sought_of search.now rule.now.number) at.old.state.mapping v) }
    ensures rows { OnOk result (AreRows (sought_of search.now rule.now.number) at.old.state.mapping rows.new.items) }
{
    for node in 0..rows.len() {
        if cheaper_move_of(alloc, search, rule, at, node, &mut rows[node])? {
            return Ok(true);
        }
    }
    Ok(false)
}

/// Whether a node is free, and a virtual node suits a place there and may be there.
fn passes(search: &Search, virt: usize, place: Place) -> bool
    requires search { IsSearch search.now }
    requires virt { virt < length search.now.mapper.wiring.now.nodes }
    requires node { place.0.0 < length search.now.mapper.lab.now.nodes }
    ensures { result ≡ is_candidate search.now.mapper.lab.now search.now.mapper.free.now search.now.mapper.wiring.now
        (virt_at search.now.mapper.wiring.now virt) place }
{
    let mapper = search.mapper;
    let number = place.0.0 as usize;
    let node = &mapper.lab.nodes()[number];
    let asked = &mapper.wiring.nodes.as_slice()[virt];
    mapper.free.nodes.as_slice()[number]
        && suits(mapper.wiring, asked, node.features.as_slice(), place.1)
        && is_fixed_at(asked.fixed, node.name)
}

/// Whether a place of the lab is among the candidates of a virtual node.
fn may_have(search: &Search, virt: usize, place: Place) -> bool
    requires search { IsSearch search.now }
    requires virt { virt < length search.now.mapper.wiring.now.nodes }
    requires place { Contains (lab_places search.now.mapper.lab.now) place }
    ensures { IsTrue result ↔ Contains (slice_index_or search.now.candidates.now virt []) place }
{
    passes(search, virt, place)
}

/// Exchanges the places of two virtual nodes, where they may be, and the map is feasible and cheaper.
fn cheaper_exchange(
    alloc: Global,
    search: &Search,
    rule: &StepRule,
    at: &mut Tried,
    first: usize,
    second: usize,
) -> Result<bool, Memory>
    requires search { IsSearch search.now }
    requires at { IsTried search.now rule.now.number at.old }
    requires ordered { first < second }
    requires second { second < length (choices (sought_of search.now rule.now.number)) }
    ensures tried { OnOk result (IsTried search.now rule.now.number at.new) }
    ensures cheaper { IfOk result (λ yes. yes ≡ true → at.new.cost < at.old.cost) }
    ensures same { IfOk result (λ yes. yes ≡ false → at.new.state.mapping ≡ at.old.state.mapping) }
    ensures same_cost { IfOk result (λ yes. yes ≡ false → at.new.cost ≡ at.old.cost) }
    ensures none { IfOk result (λ yes. yes ≡ false → NoExchange (sought_of search.now rule.now.number) at.old.state.mapping first second) }
    ensures ruled_out { IfOk result (λ yes. yes ≡ false → at.new.ruled_out ≡ true
        → IsExchangeNoLess (sought_of search.now rule.now.number) at.old.state.mapping first second) }
{
    let one = place_of(at.state.mapping.places.as_slice(), first);
    let other = place_of(at.state.mapping.places.as_slice(), second);
    at.ruled_out = true;
    if !may_have(search, first, other) {
        return Ok(false);
    }
    if !may_have(search, second, one) {
        return Ok(false);
    }
    let below = u128::from(at.cost);
    let yes = at.exchange_if_cheaper(alloc, search, rule, first, second, below)?;
    Ok(yes)
}

/// Makes the first cheaper exchange of a virtual node with a later one, if there is one; those that are known are not tried.
fn cheaper_exchange_of(
    alloc: Global,
    search: &Search,
    rule: &StepRule,
    at: &mut Tried,
    first: usize,
    row: &mut Notes,
) -> Result<bool, Memory>
    requires search { IsSearch search.now }
    requires at { IsTried search.now rule.now.number at.old }
    requires first { first < length (choices (sought_of search.now rule.now.number)) }
    requires row { IsPairs (sought_of search.now rule.now.number) at.old.state.mapping first row.old }
    ensures tried { OnOk result (IsTried search.now rule.now.number at.new) }
    ensures cheaper { IfOk result (λ yes. yes ≡ true → at.new.cost < at.old.cost) }
    ensures same { IfOk result (λ yes. yes ≡ false → at.new.state.mapping ≡ at.old.state.mapping) }
    ensures same_cost { IfOk result (λ yes. yes ≡ false → at.new.cost ≡ at.old.cost) }
    ensures none { IfOk result (λ yes. yes ≡ false → (u : ℕ) → first < u → u < length (choices (sought_of search.now rule.now.number))
        → NoExchange (sought_of search.now rule.now.number) at.old.state.mapping first u) }
    ensures row { OnOk result (IsPairs (sought_of search.now rule.now.number) at.old.state.mapping first row.new) }
{
    let mut second = row.unknown_from(first + 1);
    while second < row.len() {
        if cheaper_exchange(alloc, search, rule, at, first, second)? {
            return Ok(true);
        }
        row.note(second, at.ruled_out);
        second = row.unknown_from(second + 1);
    }
    Ok(false)
}

/// Makes the first cheaper exchange, if there is one.
fn any_cheaper_exchange(
    alloc: Global,
    search: &Search,
    rule: &StepRule,
    at: &mut Tried,
    pairs: &mut Vec<Notes>,
) -> Result<bool, Memory>
    requires search { IsSearch search.now }
    requires at { IsTried search.now rule.now.number at.old }
    requires pairs { ArePairs (sought_of search.now rule.now.number) at.old.state.mapping pairs.old.items }
    ensures tried { OnOk result (IsTried search.now rule.now.number at.new) }
    ensures cheaper { IfOk result (λ yes. yes ≡ true → at.new.cost < at.old.cost) }
    ensures same { IfOk result (λ yes. yes ≡ false → at.new.state.mapping ≡ at.old.state.mapping) }
    ensures same_cost { IfOk result (λ yes. yes ≡ false → at.new.cost ≡ at.old.cost) }
    ensures none { IfOk result (λ yes. yes ≡ false → (v u : ℕ) → v < u → u < length (choices (sought_of search.now rule.now.number))
        → NoExchange (sought_of search.now rule.now.number) at.old.state.mapping v u) }
    ensures pairs { OnOk result (ArePairs (sought_of search.now rule.now.number) at.old.state.mapping pairs.new.items) }
{
    for first in 0..pairs.len() {
        if cheaper_exchange_of(alloc, search, rule, at, first, &mut pairs[first])? {
            return Ok(true);
        }
    }
    Ok(false)
}

/// Makes the first cheaper move or exchange, if there is one.
fn cheaper_neighbour(
    alloc: Global,
    search: &Search,
    rule: &StepRule,
    at: &mut Tried,
    known: &mut Known,
) -> Result<bool, Memory>
    requires search { IsSearch search.now }
    requires at { IsTried search.now rule.now.number at.old }
    requires known { IsKnown (sought_of search.now rule.now.number) at.old.state.mapping known.old }
    ensures tried { OnOk result (IsTried search.now rule.now.number at.new) }
    ensures cheaper { IfOk result (λ yes. yes ≡ true → at.new.cost < at.old.cost) }
    ensures same { IfOk result (λ yes. yes ≡ false → at.new.state.mapping ≡ at.old.state.mapping) }
    ensures same_cost { IfOk result (λ yes. yes ≡ false → at.new.cost ≡ at.old.cost) }
    ensures none { IfOk result (λ yes. yes ≡ false → LocallyBest (sought_of search.now rule.now.number) at.old.state.mapping) }
    ensures known { OnOk result (IsKnown (sought_of search.now rule.now.number) at.old.state.mapping known.new) }
{
    if any_cheaper_move(alloc, search, rule, at, &mut known.rows)? {
        return Ok(true);
    }
    let yes = any_cheaper_exchange(alloc, search, rule, at, &mut known.pairs)?;
    Ok(yes)
}

/// Makes the first cheaper move or exchange, if there is one, and follows it with what is known.
fn step(
    alloc: Global,
    search: &Search,
    rule: &StepRule,
    at: &mut Tried,
    lowest: &mut Priced,
    known: &mut Known,
) -> Result<bool, Memory>
    requires search { IsSearch search.now }
    requires at { IsTried search.now rule.now.number at.old }
    requires lowest { lowest.old ≡ priced_by at.old }
    requires known { IsKnown (sought_of search.now rule.now.number) at.old.state.mapping known.old }
    ensures tried { OnOk result (IsTried search.now rule.now.number at.new) }
    ensures lowest { OnOk result (lowest.new ≡ priced_by at.new) }
    ensures known { OnOk result (IsKnown (sought_of search.now rule.now.number) at.new.state.mapping known.new) }
    ensures cheaper { IfOk result (λ yes. yes ≡ true → at.new.cost < at.old.cost) }
    ensures same { IfOk result (λ yes. yes ≡ false → at.new.cost ≡ at.old.cost) }
    ensures none { IfOk result (λ yes. yes ≡ false → LocallyBest (sought_of search.now rule.now.number) at.new.state.mapping) }
{
    if !cheaper_neighbour(alloc, search, rule, at, known)? {
        return Ok(false);
    }
    let next = at.taken(alloc, search, rule, lowest)?;
    known.follow(alloc, search, rule, &lowest.mapping, &next.mapping)?;
    *lowest = next;
    Ok(true)
}

/// A locally best map that costs at most the start, by what is prepared.
pub fn descend_by(
    alloc: Global,
    search: &Search,
    start: &Mapping,
    rule: &StepRule,
) -> Result<Mapping, Memory>
    requires search { IsSearch search.now }
    requires start { IsNodeMap (sought_of search.now rule.now.number) start.now }
    ensures best { IfOk result (λ m. LocallyBest (sought_of search.now rule.now.number) m) }
    ensures cheaper { IfOk result (λ m. price (sought_of search.now rule.now.number) m ≤ price (sought_of search.now rule.now.number) start.now) }
{
    let mut at = Tried::of(alloc, search, rule, start)?;
    let mut lowest = at.priced(alloc)?;
    let mut known = Known::of(alloc, search, rule, start)?;
    let mut better = true;
    while better {
        better = step(alloc, search, rule, &mut at, &mut lowest, &mut known)?;
    }
    Ok(lowest.mapping)
}

/// A locally best map that costs at most the start.
pub fn descend(
    alloc: Global,
    lab: &Lab,
    free: &Free,
    wiring: &Wiring,
    start: &Mapping,
    rule: &StepRule,
) -> Result<Mapping, Memory>
    requires free { IsFreeOf lab.now free.now }
    requires sound { IsSound wiring.now }
    requires start { IsNodeMap (sought lab.now free.now wiring.now rule.now.number) start.now }
    ensures best { IfOk result (λ m. LocallyBest (sought lab.now free.now wiring.now rule.now.number) m) }
    ensures cheaper { IfOk result (λ m. price (sought lab.now free.now wiring.now rule.now.number) m
        ≤ price (sought lab.now free.now wiring.now rule.now.number) start.now) }
{
    let prepared = Prepared::of(alloc, lab, free, wiring)?;
    let search = prepared.search(lab, free, wiring);
    let lowest = descend_by(alloc, &search, start, rule)?;
    Ok(lowest)
}
