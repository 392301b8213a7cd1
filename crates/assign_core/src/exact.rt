// Exact search over all node maps.
ghost use Rattle.std.specs.Prelude.{◌≡◌, ◌≤◌, ◌++◌, ◌∷◌, [], List, None, false, length, take, drop, IfOk, IfSome, IsTrue, OnOk};
ghost use Rattle.std.specs.List.{filter_map, cons_option};
ghost use Rattle.lab_base.specs.declared.ids.IfaceId.{IfaceId as IfaceIdSeen};
ghost use Rattle.virt_topo.specs.declared.mapping.Mapping.{Mapping as MappingValue};
ghost use Rattle.virt_topo.specs.Soundness.{IsSound};
ghost use Rattle.lab_model.specs.Shapes.{IsFreeOf};
ghost use Rattle.cost_rule.specs.Parts.{HangsOnNoUses};
ghost use Rattle.map_state.specs.Chosen.{IsChosen};
ghost use Rattle.map_state.specs.States.{IsMapState};
ghost use Rattle.map_state.specs.Tables.{IsSearch};
ghost use Rattle.map_anneal.specs.Sought.{sought, choices, mapped, price, IsNodeMap};
ghost use Rattle.map_anneal.specs.Searches.{sought_of, IsPriced};
ghost use Rattle.assign_core.specs.Bests.{IsBest, is_below, is_free};
ghost use Rattle.assign_core.specs.Prefixes.{IsPrefix};
ghost use Rattle.assign_core.specs.Exact.{all_choices, count, node_maps, IsCheapestOf};

use crate::begin::first_choice;
use crate::prefix::{Prefix, are_dear};
use cost_rule::StepRule;
use lab_base::Memory;
use map_anneal::{Prepared, Priced, cost_of};
use map_state::{Chosen, MapState, Search};
use phys_lab::{Free, Lab};
use std::alloc::Global;
use virt_topo::{Mapping, Wiring};

/// The most choices of a candidate for each virtual node that are all tried.
pub const MAX_CHOICES: u64 = 65_536;

/// Whether a cost is below that of the best map, if there is one.
fn is_below(cost: u64, best: &Option<Priced>) -> bool
    ensures { result ≡ is_below cost best.now }
{
    match best {
        Some(kept) => cost < kept.cost,
        None => true,
    }
}

/// Whether a choice is known to cost no less than the best map, whatever it uses of trunks.
fn is_no_less(search: &Search, rule: &StepRule, state: &MapState, best: &Option<Priced>) -> bool
    requires search { IsSearch search.now }
    requires state { IsMapState search.now state.now }
    ensures { IsTrue result → (plugs : List IfaceIdSeen)
        → is_below (price (sought_of search.now rule.now.number) (record { places = state.now.mapping.places; plugs = plugs })) best.now ≡ false }
{
    are_dear(rule, state.parts_at_rest(search), best)
}

/// The cost of a map that is taken: the rule's step from the best one so far answers it, and the rule that of the first one.
fn taken_cost(search: &Search, rule: &StepRule, state: &MapState, best: &Option<Priced>) -> u64
    requires search { IsSearch search.now }
    requires state { IsMapState search.now state.now }
    requires best { IfSome best.now (IsPriced (sought_of search.now rule.now.number)) }
    ensures { result ≡ price (sought_of search.now rule.now.number) state.now.mapping }
{
    let mapper = search.mapper;
    let next = &state.mapping;
    match best {
        Some(kept) => rule.ask_step(mapper.lab, mapper.wiring, &kept.mapping, next, kept.cost),
        None => rule.ask(mapper.lab, mapper.wiring, next),
    }
}

/// The best map after the one that is chosen, if it is one. A choice that is known to cost no less than the best map isn't served.
fn weigh(
    alloc: Global,
    search: &Search,
    rule: &StepRule,
    chosen: &mut Chosen,
    best: Option<Priced>,
) -> Result<Option<Priced>, Memory>
    requires search { IsSearch search.now }
    requires chosen { IsChosen search.now chosen.old }
    requires priced { IfSome best (IsPriced (sought_of search.now rule.now.number)) }
    requires resting { chosen.old.state.sums ≡ None → HangsOnNoUses rule.now.number }
    ensures chosen { OnOk result (IsChosen search.now chosen.new) }
    ensures rest { OnOk result (chosen.new.state.sums ≡ None → chosen.old.state.sums ≡ None) }
    ensures places { OnOk result (chosen.new.state.mapping.places ≡ chosen.old.state.mapping.places) }
    ensures priced { IfOk result (λ after. IfSome after (IsPriced (sought_of search.now rule.now.number))) }
    ensures best { IfOk result (λ after. (maps : List MappingValue) → IsBest (sought_of search.now rule.now.number) maps best
        → IsBest (sought_of search.now rule.now.number)
        (maps ++ cons_option (mapped (sought_of search.now rule.now.number) chosen.old.state.mapping.places) []) after) }
{
    if is_no_less(search, rule, &chosen.state, &best) {
        return Ok(best);
    }
    if !chosen.is_map(alloc, search)? {
        return Ok(best);
    }
    if !is_below(cost_of(search, rule, &chosen.state), &best) {
        return Ok(best);
    }
    let cost = taken_cost(search, rule, &chosen.state, &best);
    let mapping = chosen.state.mapping.copy(alloc)?;
    Ok(Some(Priced { mapping, cost }))
}

/// Whether there is a best map, and it costs nothing.
fn is_free(best: &Option<Priced>) -> bool
    ensures { result ≡ is_free best.now }
{
    match best {
        Some(kept) => kept.cost == 0,
        None => false,
    }
}

/// The best map after all those that begin with these places, which the one that is chosen does too. Maps that are known to be no cheaper are passed over
/// as soon as their first places tell. After a map that costs nothing no other is looked at.
fn explore(
    alloc: Global,
    search: &Search,
    rule: &StepRule,
    prefix: &mut Prefix,
    chosen: &mut Chosen,
    best: Option<Priced>,
) -> Result<Option<Priced>, Memory>
    requires search { IsSearch search.now }
    requires prefix { IsPrefix search.now prefix.old }
    requires chosen { IsChosen search.now chosen.old }
    requires begun { take (length prefix.old.places.items) chosen.old.state.mapping.places ≡ prefix.old.places.items }
    requires priced { IfSome best (IsPriced (sought_of search.now rule.now.number)) }
    requires resting { chosen.old.state.sums ≡ None → HangsOnNoUses rule.now.number }
    ensures prefix { OnOk result (IsPrefix search.now prefix.new) }
    ensures places { OnOk result (prefix.new.places.items ≡ prefix.old.places.items) }
    ensures chosen { OnOk result (IsChosen search.now chosen.new) }
    ensures begun { OnOk result (take (length prefix.old.places.items) chosen.new.state.mapping.places ≡ prefix.old.places.items) }
    ensures rest { OnOk result (chosen.new.state.sums ≡ None → chosen.old.state.sums ≡ None) }
    ensures priced { IfOk result (λ after. IfSome after (IsPriced (sought_of search.now rule.now.number))) }
    ensures best { IfOk result (λ after. (maps : List MappingValue) → IsBest (sought_of search.now rule.now.number) maps best
        → IsBest (sought_of search.now rule.now.number)
        (maps ++ filter_map (λ p. mapped (sought_of search.now rule.now.number) p)
        (all_choices (prefix.old.places.items ∷ []) (drop (length prefix.old.places.items) (choices (sought_of search.now rule.now.number))))) after) }
{
    let next = prefix.places.len();
    if next == search.candidates.len() {
        let after = weigh(alloc, search, rule, chosen, best)?;
        return Ok(after);
    }
    let parts = prefix.parts;
    let mut kept = best;
    for number in 0..search.candidates.count(next) {
        let Some(place) = prefix.enter(search, rule, number, &kept)? else {
            continue;
        };
        chosen.put(alloc, search, next, place);
        kept = explore(alloc, search, rule, prefix, chosen, kept)?;
        prefix.leave(search, parts);
        if is_free(&kept) {
            return Ok(kept);
        }
    }
    Ok(kept)
}

/// The cheapest feasible node map and its cost, by what is prepared.
#[tactic(auto, unfolding(crate::specs::Exact::node_maps))]
pub(crate) fn best_by(
    alloc: Global,
    search: &Search,
    rule: &StepRule,
) -> Result<Option<(Mapping, u64)>, Memory>
    requires search { IsSearch search.now }
    ensures cheapest { IfOk result (λ best. IsCheapestOf (sought_of search.now rule.now.number) (node_maps (sought_of search.now rule.now.number)) best) }
    ensures node_map { IfOk result (λ best. IfSome best (λ found. IsNodeMap (sought_of search.now rule.now.number) found.0)) }
{
    let Some(start) = first_choice(alloc, search)? else {
        return Ok(None);
    };
    let mut chosen = Chosen::of(alloc, search, &start)?;
    let mut prefix = Prefix::nothing(alloc, search)?;
    let explored = explore(alloc, search, rule, &mut prefix, &mut chosen, None);
    drop(prefix);
    drop(chosen);
    let found = explored?;
    match found {
        Some(best) => Ok(Some((best.mapping, best.cost))),
        None => Ok(None),
    }
}

/// The cheapest feasible node map and its cost, the first in candidate order among equals; None where there is none.
pub fn best_of_all(
    alloc: Global,
    lab: &Lab,
    free: &Free,
    wiring: &Wiring,
    rule: &StepRule,
) -> Result<Option<(Mapping, u64)>, Memory>
    requires free { IsFreeOf lab.now free.now }
    requires sound { IsSound wiring.now }
    requires few { count (choices (sought lab.now free.now wiring.now rule.now.number)) ≤ MAX_CHOICES }
    ensures { IfOk result (λ best. IsCheapestOf (sought lab.now free.now wiring.now rule.now.number)
        (node_maps (sought lab.now free.now wiring.now rule.now.number)) best) }
{
    let prepared = Prepared::of(alloc, lab, free, wiring)?;
    let search = prepared.search(lab, free, wiring);
    let best = best_by(alloc, &search, rule)?;
    Ok(best)
}
