// Choices that begin with the same places.
ghost use Rattle.std.specs.Prelude.{◌≡◌, ◌<◌, ◌≤◌, ◌++◌, ◌∷◌, ◌-◌, ℕ, [], false, true, None, length, take, slice_index_or, IfOk, IfSome, IsTrue, OnOk, if◌then◌else◌};
ghost use Rattle.lab_model.specs.Shapes.{node_at, has_name};
ghost use Rattle.lab_model.specs.Rules.{no_place};
ghost use Rattle.cost_rule.specs.Parts.{cost_of_parts, AreParts};
ghost use Rattle.map_state.specs.Tables.{IsSearch};
ghost use Rattle.map_anneal.specs.Searches.{sought_of};
ghost use Rattle.assign_core.specs.Bests.{is_below};

use cost_rule::{Parts, StepRule};
use lab_base::Memory;
use map_anneal::Priced;
use map_state::Search;
use node_maps::Place;
use std::alloc::Global;

/// The first places of choices, with what is known of all choices that begin with them.
#[derive(Drop)]
pub(crate) struct Prefix {
    pub(crate) places: Vec<Place>,
    /// By node how many of the places are on it.
    pub(crate) hosted: Vec<u16>,
    /// The parts of the cost by these places alone, where no trunk is used and no class asked for: each map that begins so has at least these.
    pub(crate) parts: Parts,
}

/// Whether what costs at least as much as these parts is known to be no cheaper than the best map.
pub(crate) fn are_dear(rule: &StepRule, parts: Parts, best: &Option<Priced>) -> bool
    requires { AreParts parts }
    ensures { IsTrue result → (cost : ℕ) → cost_of_parts rule.now.number parts ≤ cost → is_below cost best.now ≡ false }
{
    match best {
        Some(kept) => rule.ask_parts(parts) >= kept.cost,
        None => false,
    }
}

/// 1 where something holds, and else 0.
fn one_if(holds: bool) -> u64
    ensures { result ≡ (if holds then 1 else 0) }
{
    if holds { 1 } else { 0 }
}

impl Prefix {
    ghost use Rattle.assign_core.specs.Prefixes.{first_parts, IsPrefix, ArePassed};

    /// No places.
    pub(crate) fn nothing(alloc: Global, search: &Search) -> Result<Prefix, Memory>
        requires search { IsSearch search.now }
        ensures prefix { IfOk result (IsPrefix search.now) }
        ensures none { IfOk result (λ prefix. prefix.places.items ≡ []) }
    {
        let hosted = vec![in alloc; 0u16; search.mapper.lab.nodes().len()]?;
        Ok(Prefix {
            places: Vec::new(alloc),
            hosted,
            parts: Parts {
                uses: 0,
                nodes: 0,
                soft: 0,
            },
        })
    }

    /// The parts once the next virtual node is at a place.
    fn parts_with(&self, search: &Search, place: &Place) -> Parts
        requires search { IsSearch search.now }
        requires prefix { IsPrefix search.now self.now }
        requires more { length self.now.places.items < length search.now.mapper.wiring.now.nodes }
        requires node { place.now.0.0 < length search.now.mapper.lab.now.nodes }
        ensures { result ≡ first_parts search.now.mapper.lab.now search.now.mapper.wiring.now (self.now.places.items ++ place.now ∷ []) }
    {
        let mapper = search.mapper;
        // for the prover: it tells what every lab keeps
        let _kept = mapper.lab.range();
        let next = self.places.len();
        let more = search
            .table
            .soft_at(mapper.lab, mapper.wiring, next, place.0);
        let joined = one_if(self.hosted[place.0.0 as usize] == 0);
        Parts {
            uses: 0,
            nodes: self.parts.nodes + joined,
            soft: self.parts.soft + more,
        }
    }

    /// The next virtual node takes a place. The parts with it are known.
    fn put(&mut self, _search: &Search, place: Place, parts: Parts) -> Result<(), Memory>
        requires search { IsSearch _search.now }
        requires prefix { IsPrefix _search.now self.old }
        requires more { length self.old.places.items < length _search.now.mapper.wiring.now.nodes }
        requires node { place.0.0 < length _search.now.mapper.lab.now.nodes }
        requires typed { has_name (node_at _search.now.mapper.lab.now place.0).types place.1 ≡ true }
        requires parts { parts ≡ first_parts _search.now.mapper.lab.now _search.now.mapper.wiring.now (self.old.places.items ++ place ∷ []) }
        ensures prefix { OnOk result (IsPrefix _search.now self.new) }
        ensures places { OnOk result (self.new.places.items ≡ self.old.places.items ++ place ∷ []) }
    {
        self.hosted[place.0.0 as usize] += 1;
        self.places.push(place)?;
        self.parts = parts;
        Ok(())
    }

    /// The last virtual node leaves its place. The parts without it are known.
    pub(crate) fn leave(&mut self, _search: &Search, parts: Parts)
        requires prefix { IsPrefix _search.now self.old }
        requires some { 0 < length self.old.places.items }
        requires parts { parts ≡ first_parts _search.now.mapper.lab.now _search.now.mapper.wiring.now
            (take (length self.old.places.items - 1) self.old.places.items) }
        ensures prefix { IsPrefix _search.now self.new }
        ensures places { self.new.places.items ≡ take (length self.old.places.items - 1) self.old.places.items }
    {
        let Some(last) = self.places.pop() else {
            return;
        };
        self.hosted[last.0.0 as usize] -= 1;
        self.parts = parts;
    }

    /// The next virtual node takes its candidate of that number. None where no map that begins so is cheaper than the best one: as many are on
    /// its node as may have its type there, or the first places alone cost as much. Then it isn't placed.
    pub(crate) fn enter(
        &mut self,
        search: &Search,
        rule: &StepRule,
        number: usize,
        best: &Option<Priced>,
    ) -> Result<Option<Place>, Memory>
        requires search { IsSearch search.now }
        requires prefix { IsPrefix search.now self.old }
        requires more { length self.old.places.items < length search.now.candidates.now }
        requires number { number < length (slice_index_or search.now.candidates.now (length self.old.places.items) []) }
        ensures prefix { OnOk result (IsPrefix search.now self.new) }
        ensures named { IfOk result (λ found. IfSome found (λ place. place
            ≡ slice_index_or (slice_index_or search.now.candidates.now (length self.old.places.items) []) number no_place)) }
        ensures places { IfOk result (λ found. IfSome found (λ place. self.new.places.items ≡ self.old.places.items ++ place ∷ [])) }
        ensures same { IfOk result (λ found. found ≡ None → self.new ≡ self.old) }
        ensures passed { IfOk result (λ found. found ≡ None → ArePassed (sought_of search.now rule.now.number) (self.old.places.items
            ++ slice_index_or (slice_index_or search.now.candidates.now (length self.old.places.items) []) number no_place ∷ []) best.now) }
    {
        // for the prover: it tells what every lab keeps
        let _kept = search.mapper.lab.range();
        let next = self.places.len();
        let room = search.rooms.at(next, number);
        if self.hosted[room.node.0 as usize] >= room.most {
            return Ok(None);
        }
        let place = *search.candidates.at(next, number);
        let parts = self.parts_with(search, &place);
        if are_dear(rule, parts, best) {
            return Ok(None);
        }
        self.put(search, place, parts)?;
        Ok(Some(place))
    }
}
