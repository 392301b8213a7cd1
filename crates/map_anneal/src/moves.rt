// Moves and exchanges of virtual nodes in the map at hand.
ghost use Rattle.std.specs.Prelude.{◌≡◌, ◌<◌, ◌≤◌, IfOk, OnOk, IsTrue, true, false, Some, Contains};
ghost use Rattle.std.specs.Prelude.{ℕ, List, [], None, length, slice_index_or, slice_set};
ghost use Rattle.lab_base.specs.declared.ids.IfaceId.{IfaceId as IfaceIdSeen};
ghost use Rattle.virt_topo.specs.declared.mapping.Mapping.{Mapping as MappingSeen};
ghost use Rattle.virt_topo.specs.Wirings.{virt_at};
ghost use Rattle.lab_model.specs.Shapes.{Place as PlaceSeen};
ghost use Rattle.lab_model.specs.Rules.{no_place, place_at};
ghost use Rattle.cost_rule.specs.Cost.{soft as soft_in};
ghost use Rattle.cost_rule.specs.declared.rule.RuleNumber.{RuleNumber as NumberSeen};
ghost use Rattle.cost_rule.specs.Parts.{cost_of_parts, AreParts, HangsOnNoUses};
ghost use Rattle.node_maps.specs.NodeMaps.{candidates, node_map, plugs_of};
ghost use Rattle.map_state.specs.States.{IsFeasibleState, IsMapState, IsPlanned, Was};
ghost use Rattle.map_state.specs.Members.{asked_index};
ghost use Rattle.map_state.specs.Hosted.{placed_at};
ghost use Rattle.map_state.specs.Tables.{IsSearch};
ghost use Rattle.map_anneal.specs.Sought.{choices, candidates_at, moved, exchanged, price};
ghost use Rattle.map_anneal.specs.Walk.{named};
ghost use Rattle.map_anneal.specs.RuledOut.{IsNoLess, swapped};
ghost use Rattle.map_anneal.specs.Searches.{sought_of, IsTried};

use crate::priced::place_of;
use crate::tried::Tried;
use cost_rule::StepRule;
use lab_base::{Memory, NodeId};
use map_state::{MapState, Outcome, Predicted, Search};
use node_maps::Place;
use std::alloc::Global;

/// The cost of a map state. Where its sums rest the rule is asked without the uses of trunks.
pub fn cost_of(search: &Search, rule: &StepRule, state: &MapState) -> u64
    requires search { IsSearch search.now }
    requires state { IsMapState search.now state.now }
    requires resting { state.now.sums ≡ None → HangsOnNoUses rule.now.number }
    ensures { result ≡ price (sought_of search.now rule.now.number) state.now.mapping }
{
    // for the prover: it tells what every lab keeps
    let _kept = search.mapper.lab.range();
    match state.parts(search) {
        Some(parts) => rule.ask_parts(parts),
        None => rule.ask_parts(state.parts_at_rest(search)),
    }
}

impl Tried {
    /// Whether a node map of these places, whose plugs are planned, is known to cost at least that: by its parts, or by those but for the uses of
    /// trunks where its parts aren't foreseen. One that was told to cost less isn't asked about.
    fn is_over(
        &self,
        search: &Search,
        rule: &StepRule,
        _first: NodeId,
        _second: NodeId,
        below: u128,
        told: bool,
    ) -> bool
        requires search { IsSearch search.now }
        requires state { IsMapState search.now self.now.state }
        requires planned { IsPlanned search.now self.now.state.mapping.places _first.0 _second.0 self.now.state.changes.items }
        ensures map { IsTrue result → (last : List PlaceSeen)
            → Was search.now self.now.state.mapping.places self.now.state.mapping.plugs _first.0 _second.0 last → (m : MappingSeen)
            → node_map search.now.mapper.lab.now search.now.mapper.free.now search.now.mapper.wiring.now self.now.state.mapping.places
            ≡ Some m → below ≤ price (sought_of search.now rule.now.number) m }
        ensures plugs { IsTrue result → (last : List PlaceSeen)
            → Was search.now self.now.state.mapping.places self.now.state.mapping.plugs _first.0 _second.0 last → (plugs : List IfaceIdSeen)
            → plugs_of search.now.mapper.lab.now search.now.mapper.wiring.now self.now.state.mapping.places ≡ Some plugs
            → below ≤ price (sought_of search.now rule.now.number) (record { places = self.now.state.mapping.places; plugs = plugs }) }
    {
        // for the prover: it tells what every lab keeps
        let _kept = search.mapper.lab.range();
        if told {
            return false;
        }
        match self.state.foreseen(search) {
            Some(parts) => u128::from(rule.ask_parts(parts)) >= below,
            None => u128::from(rule.ask_parts(self.state.parts_at_rest(search))) >= below,
        }
    }

    /// Whether places are known to cost at least that by their nodes and what is soft alone. That is asked where the cost rule ignores uses of trunks, but
    /// not about a move that was told to cost less.
    fn is_least_over(&self, search: &Search, rule: &StepRule, below: u128, told: bool) -> bool
        requires search { IsSearch search.now }
        requires state { IsMapState search.now self.now.state }
        ensures { IsTrue result → (plugs : List IfaceIdSeen) → below
            ≤ price (sought_of search.now rule.now.number) (record { places = self.now.state.mapping.places; plugs = plugs }) }
    {
        // for the prover: it tells what every lab keeps
        let _kept = search.mapper.lab.range();
        if told || !self.ignores_uses {
            return false;
        }
        u128::from(rule.ask_parts(self.state.parts_at_rest(search))) >= below
    }

    /// Commits places that differ from those of a node map on two nodes alone, where the map is feasible and costs less
    /// than that; else the plugs stay. The rule isn't asked again about a move that was told to cost less.
    fn commit_if_cheaper(
        &mut self,
        alloc: Global,
        search: &Search,
        rule: &StepRule,
        first: (NodeId, usize),
        second: (NodeId, usize),
        below: u128,
        told: bool,
    ) -> Result<bool, Memory>
        requires search { IsSearch search.now }
        requires state { IsMapState search.now self.old.state }
        requires none { self.old.state.back.items ≡ [] }
        requires resting { self.old.state.sums ≡ None → HangsOnNoUses rule.now.number }
        requires first { first.0.0 < length search.now.mapper.lab.now.nodes }
        requires first_virt { first.1 < length search.now.mapper.wiring.now.nodes }
        requires second { second.0.0 < length search.now.mapper.lab.now.nodes }
        requires second_virt { second.1 < length search.now.mapper.wiring.now.nodes }
        ensures state { OnOk result (IsMapState search.now self.new.state) }
        ensures none { OnOk result (self.new.state.back.items ≡ []) }
        ensures rest { OnOk result (self.new.state.sums ≡ None → self.old.state.sums ≡ None) }
        ensures places { OnOk result (self.new.state.mapping.places ≡ self.old.state.mapping.places) }
        ensures map { IfOk result (λ yes. yes ≡ true → (last : List PlaceSeen)
            → Was search.now self.old.state.mapping.places self.old.state.mapping.plugs first.0.0 second.0.0 last
            → node_map search.now.mapper.lab.now search.now.mapper.free.now search.now.mapper.wiring.now self.old.state.mapping.places
            ≡ Some self.new.state.mapping) }
        ensures cost { IfOk result (λ yes. yes ≡ true → self.new.cost ≡ price (sought_of search.now rule.now.number) self.new.state.mapping) }
        ensures below { IfOk result (λ yes. yes ≡ true → self.new.cost < below) }
        ensures plugs { IfOk result (λ yes. yes ≡ false → self.new.state.mapping.plugs ≡ self.old.state.mapping.plugs) }
        ensures same_cost { IfOk result (λ yes. yes ≡ false → self.new.cost ≡ self.old.cost) }
        ensures over { IfOk result (λ yes. yes ≡ false → (last : List PlaceSeen)
            → Was search.now self.old.state.mapping.places self.old.state.mapping.plugs first.0.0 second.0.0 last → (m : MappingSeen)
            → node_map search.now.mapper.lab.now search.now.mapper.free.now search.now.mapper.wiring.now self.old.state.mapping.places
            ≡ Some m → below ≤ price (sought_of search.now rule.now.number) m) }
        ensures ruled_out { IfOk result (λ yes. yes ≡ false → self.new.ruled_out ≡ true → (last : List PlaceSeen)
            → Was search.now self.old.state.mapping.places self.old.state.mapping.plugs first.0.0 second.0.0 last
            → IsNoLess (sought_of search.now rule.now.number) below self.old.state.mapping.places) }
    {
        self.ruled_out = false;
        if self.state.is_overfull(search, first.1) {
            return Ok(false);
        }
        if self.is_least_over(search, rule, below, told) {
            self.ruled_out = true;
            return Ok(false);
        }
        if !self.state.plan(alloc, search, first, second)? {
            self.ruled_out = true;
            return Ok(false);
        }
        let known = told || self.ignores_uses;
        if self.is_over(search, rule, first.0, second.0, below, known) {
            self.ruled_out = true;
            return Ok(false);
        }
        if !self.state.may_stay(alloc, search, first.0, second.0)? {
            self.ruled_out = true;
            return Ok(false);
        }
        if !self.state.commit(alloc, search, first.0, second.0)? {
            self.state.undo(alloc, search);
            return Ok(false);
        }
        let cost = cost_of(search, rule, &self.state);
        if u128::from(cost) >= below {
            self.state.undo(alloc, search);
            self.ruled_out = true;
            return Ok(false);
        }
        self.state.forget();
        self.cost = cost;
        Ok(true)
    }

    /// The least that a move of a virtual node to another of its candidates comes to by the interfaces that the rule gives. These are its parts, where
    /// they are told, or those but for the uses of trunks, which are enough where the cost rule ignores uses.
    fn least_of(&self, search: &Search, node: usize, place: &Place) -> Predicted
        requires search { IsSearch search.now }
        requires state { IsFeasibleState search.now self.now.state }
        requires virt { node < length search.now.mapper.wiring.now.nodes }
        requires among { Contains (slice_index_or (candidates search.now.mapper.lab.now search.now.mapper.free.now search.now.mapper.wiring.now) node [])
            place.now }
        ensures least { (number : NumberSeen) (plugs : List IfaceIdSeen)
            → plugs_of search.now.mapper.lab.now search.now.mapper.wiring.now (placed_at self.now.state.mapping node place.now).places ≡ Some plugs
            → cost_of_parts number result.parts ≤ price (sought_of search.now number)
            (record { places = (placed_at self.now.state.mapping node place.now).places; plugs = plugs }) }
        ensures fit { AreParts result.parts }
        ensures soft { result.parts.soft
            ≡ soft_in search.now.mapper.lab.now search.now.mapper.wiring.now (placed_at self.now.state.mapping node place.now) }
        ensures counted { result.counted
            ≡ asked_index search.now.mapper.wiring.now (virt_at search.now.mapper.wiring.now node).asks place.now.1 }
    {
        if !self.ignores_uses {
            if let Some(told) = self.state.predict(search, node, place) {
                return told;
            }
        }
        self.state.predict_but_uses(search, node, place)
    }

    /// Moves a virtual node to another of its candidates, where the map is feasible and costs less than that: where the move isn't told to cost
    /// as much, it is placed there, and back where that comes to nothing.
    fn move_to_if_cheaper(
        &mut self,
        alloc: Global,
        search: &Search,
        rule: &StepRule,
        node: usize,
        place: &Place,
        below: u128,
    ) -> Result<bool, Memory>
        requires search { IsSearch search.now }
        requires tried { IsTried search.now rule.now.number self.old }
        requires within { node < length (choices (sought_of search.now rule.now.number)) }
        requires among { Contains (candidates_at (sought_of search.now rule.now.number) node) place.now }
        ensures tried { OnOk result (IsTried search.now rule.now.number self.new) }
        ensures map { IfOk result (λ yes. yes ≡ true
            → moved (sought_of search.now rule.now.number) self.old.state.mapping node place.now ≡ Some self.new.state.mapping) }
        ensures below { IfOk result (λ yes. yes ≡ true → self.new.cost < below) }
        ensures same { IfOk result (λ yes. yes ≡ false → self.new.state.mapping ≡ self.old.state.mapping) }
        ensures same_cost { IfOk result (λ yes. yes ≡ false → self.new.cost ≡ self.old.cost) }
        ensures over { IfOk result (λ yes. yes ≡ false → (m : MappingSeen)
            → moved (sought_of search.now rule.now.number) self.old.state.mapping node place.now ≡ Some m
            → below ≤ price (sought_of search.now rule.now.number) m) }
        ensures ruled_out { IfOk result (λ yes. yes ≡ false → self.new.ruled_out ≡ true
            → IsNoLess (sought_of search.now rule.now.number) below (slice_set self.old.state.mapping.places node place.now)) }
    {
        let least = self.least_of(search, node, place);
        if u128::from(rule.ask_parts(least.parts)) >= below {
            self.ruled_out = true;
            return Ok(false);
        }
        let told = least.whole || self.ignores_uses;
        let to = place.0;
        let old = place_of(self.state.mapping.places.as_slice(), node);
        let before = Outcome {
            soft: self.state.soft(search),
            counted: self.state.counted(search, node),
        };
        let after = Outcome {
            soft: least.parts.soft,
            counted: least.counted,
        };
        self.state
            .place_predicted(alloc, search, node, *place, after);
        if self.commit_if_cheaper(alloc, search, rule, (to, node), (old.0, node), below, told)? {
            return Ok(true);
        }
        self.state.place_predicted(alloc, search, node, old, before);
        Ok(false)
    }

    /// Whether a virtual node's candidate of a number is on another node that is full.
    fn is_shut(&self, search: &Search, _rule: &StepRule, node: usize, number: usize) -> bool
        requires search { IsSearch search.now }
        requires tried { IsTried search.now _rule.now.number self.now }
        requires within { node < length (choices (sought_of search.now _rule.now.number)) }
        requires number { number < length (candidates_at (sought_of search.now _rule.now.number) node) }
        ensures none { IsTrue result → moved (sought_of search.now _rule.now.number) self.now.state.mapping node
            (slice_index_or (candidates_at (sought_of search.now _rule.now.number) node) number no_place) ≡ None }
        ensures ruled_out { IsTrue result → (below : ℕ) → IsNoLess (sought_of search.now _rule.now.number) below
            (slice_set self.now.state.mapping.places node
            (slice_index_or (candidates_at (sought_of search.now _rule.now.number) node) number no_place)) }
    {
        let room = search.rooms.at(node, number);
        self.state.is_full(search, node, room)
    }

    /// Moves a virtual node to its candidate of a number, where the map is feasible and costs less than that. One that stays is not placed.
    fn move_on_if_cheaper(
        &mut self,
        alloc: Global,
        search: &Search,
        rule: &StepRule,
        node: usize,
        number: usize,
        below: u128,
    ) -> Result<bool, Memory>
        requires search { IsSearch search.now }
        requires tried { IsTried search.now rule.now.number self.old }
        requires within { node < length (choices (sought_of search.now rule.now.number)) }
        requires number { number < length (candidates_at (sought_of search.now rule.now.number) node) }
        ensures tried { OnOk result (IsTried search.now rule.now.number self.new) }
        ensures map { IfOk result (λ yes. yes ≡ true
            → moved (sought_of search.now rule.now.number) self.old.state.mapping node
            (slice_index_or (candidates_at (sought_of search.now rule.now.number) node) number no_place) ≡ Some self.new.state.mapping) }
        ensures below { IfOk result (λ yes. yes ≡ true → self.new.cost < below) }
        ensures same { IfOk result (λ yes. yes ≡ false → self.new.state.mapping ≡ self.old.state.mapping) }
        ensures same_cost { IfOk result (λ yes. yes ≡ false → self.new.cost ≡ self.old.cost) }
        ensures over { IfOk result (λ yes. yes ≡ false → (m : MappingSeen)
            → moved (sought_of search.now rule.now.number) self.old.state.mapping node
            (slice_index_or (candidates_at (sought_of search.now rule.now.number) node) number no_place) ≡ Some m
            → below ≤ price (sought_of search.now rule.now.number) m) }
        ensures ruled_out { IfOk result (λ yes. yes ≡ false → self.new.ruled_out ≡ true
            → IsNoLess (sought_of search.now rule.now.number) below (slice_set self.old.state.mapping.places node
            (slice_index_or (candidates_at (sought_of search.now rule.now.number) node) number no_place))) }
    {
        self.ruled_out = false;
        let place = search.candidates.at(node, number);
        if *place == self.state.mapping.places.as_slice()[node] {
            return Ok(u128::from(self.cost) < below);
        }
        let yes = self.move_to_if_cheaper(alloc, search, rule, node, place, below)?;
        Ok(yes)
    }

    /// Moves a virtual node to its candidate of a number, where the map is feasible and costs less than that. One that
    /// finds the node full is not placed.
    pub fn move_if_cheaper(
        &mut self,
        alloc: Global,
        search: &Search,
        rule: &StepRule,
        node: usize,
        number: usize,
        below: u128,
    ) -> Result<bool, Memory>
        requires search { IsSearch search.now }
        requires tried { IsTried search.now rule.now.number self.old }
        requires within { node < length (choices (sought_of search.now rule.now.number)) }
        requires number { number < length (candidates_at (sought_of search.now rule.now.number) node) }
        ensures tried { OnOk result (IsTried search.now rule.now.number self.new) }
        ensures map { IfOk result (λ yes. yes ≡ true
            → moved (sought_of search.now rule.now.number) self.old.state.mapping node
            (slice_index_or (candidates_at (sought_of search.now rule.now.number) node) number no_place) ≡ Some self.new.state.mapping) }
        ensures below { IfOk result (λ yes. yes ≡ true → self.new.cost < below) }
        ensures same { IfOk result (λ yes. yes ≡ false → self.new.state.mapping ≡ self.old.state.mapping) }
        ensures same_cost { IfOk result (λ yes. yes ≡ false → self.new.cost ≡ self.old.cost) }
        ensures over { IfOk result (λ yes. yes ≡ false → (m : MappingSeen)
            → moved (sought_of search.now rule.now.number) self.old.state.mapping node
            (slice_index_or (candidates_at (sought_of search.now rule.now.number) node) number no_place) ≡ Some m
            → below ≤ price (sought_of search.now rule.now.number) m) }
        ensures ruled_out { IfOk result (λ yes. yes ≡ false → self.new.ruled_out ≡ true
            → IsNoLess (sought_of search.now rule.now.number) below (slice_set self.old.state.mapping.places node
            (slice_index_or (candidates_at (sought_of search.now rule.now.number) node) number no_place))) }
    {
        if self.is_shut(search, rule, node, number) {
            self.ruled_out = true;
            return Ok(false);
        }
        let yes = self.move_on_if_cheaper(alloc, search, rule, node, number, below)?;
        Ok(yes)
    }

    /// Two virtual nodes go to candidates of theirs, one after the other; the plugs stay.
    fn place_both(
        &mut self,
        alloc: Global,
        search: &Search,
        first: usize,
        first_place: &Place,
        second: usize,
        second_place: &Place,
    )
        requires search { IsSearch search.now }
        requires state { IsMapState search.now self.old.state }
        requires first { first < length search.now.mapper.wiring.now.nodes }
        requires second { second < length search.now.mapper.wiring.now.nodes }
        requires first_among { Contains (slice_index_or (candidates search.now.mapper.lab.now search.now.mapper.free.now
            search.now.mapper.wiring.now) first []) first_place.now }
        requires second_among { Contains (slice_index_or (candidates search.now.mapper.lab.now search.now.mapper.free.now
            search.now.mapper.wiring.now) second []) second_place.now }
        ensures state { IsMapState search.now self.new.state }
        ensures mapping { self.new.state.mapping ≡ placed_at (placed_at self.old.state.mapping first first_place.now) second second_place.now }
        ensures back { self.new.state.back.items ≡ self.old.state.back.items }
        ensures sums { self.new.state.sums ≡ self.old.state.sums }
        ensures cost { self.new.cost ≡ self.old.cost }
        ensures ruled_out { self.new.ruled_out ≡ self.old.ruled_out }
    {
        self.state.place_virt(alloc, search, first, *first_place);
        self.state.place_virt(alloc, search, second, *second_place);
    }

    /// Exchanges the places of two virtual nodes, where the map is feasible and costs less than that.
    pub fn exchange_if_cheaper(
        &mut self,
        alloc: Global,
        search: &Search,
        rule: &StepRule,
        first: usize,
        second: usize,
        below: u128,
    ) -> Result<bool, Memory>
        requires search { IsSearch search.now }
        requires tried { IsTried search.now rule.now.number self.old }
        requires ordered { first < second }
        requires second { second < length (choices (sought_of search.now rule.now.number)) }
        requires first_among { Contains (candidates_at (sought_of search.now rule.now.number) first) (place_at self.old.state.mapping second) }
        requires second_among { Contains (candidates_at (sought_of search.now rule.now.number) second) (place_at self.old.state.mapping first) }
        ensures tried { OnOk result (IsTried search.now rule.now.number self.new) }
        ensures map { IfOk result (λ yes. yes ≡ true
            → exchanged (sought_of search.now rule.now.number) self.old.state.mapping first second ≡ Some self.new.state.mapping) }
        ensures below { IfOk result (λ yes. yes ≡ true → self.new.cost < below) }
        ensures same { IfOk result (λ yes. yes ≡ false → self.new.state.mapping ≡ self.old.state.mapping) }
        ensures same_cost { IfOk result (λ yes. yes ≡ false → self.new.cost ≡ self.old.cost) }
        ensures over { IfOk result (λ yes. yes ≡ false → (m : MappingSeen)
            → exchanged (sought_of search.now rule.now.number) self.old.state.mapping first second ≡ Some m
            → below ≤ price (sought_of search.now rule.now.number) m) }
        ensures ruled_out { IfOk result (λ yes. yes ≡ false → self.new.ruled_out ≡ true
            → IsNoLess (sought_of search.now rule.now.number) below (swapped self.old.state.mapping first second)) }
    {
        let one = place_of(self.state.mapping.places.as_slice(), first);
        let other = place_of(self.state.mapping.places.as_slice(), second);
        self.place_both(alloc, search, first, &other, second, &one);
        if self.commit_if_cheaper(
            alloc,
            search,
            rule,
            (one.0, second),
            (other.0, first),
            below,
            false,
        )? {
            return Ok(true);
        }
        self.place_both(alloc, search, first, &one, second, &other);
        Ok(false)
    }

    /// Moves a virtual node as two words name it, where the map is feasible and costs less than that.
    pub fn try_random_move(
        &mut self,
        alloc: Global,
        search: &Search,
        rule: &StepRule,
        first: u32,
        second: u32,
        below: u128,
    ) -> Result<bool, Memory>
        requires search { IsSearch search.now }
        requires tried { IsTried search.now rule.now.number self.old }
        requires some { 0 < length (choices (sought_of search.now rule.now.number)) }
        ensures tried { OnOk result (IsTried search.now rule.now.number self.new) }
        ensures map { IfOk result (λ yes. yes ≡ true
            → named (sought_of search.now rule.now.number) self.old.state.mapping first second ≡ Some self.new.state.mapping) }
        ensures below { IfOk result (λ yes. yes ≡ true → self.new.cost < below) }
        ensures same { IfOk result (λ yes. yes ≡ false → self.new.state.mapping ≡ self.old.state.mapping) }
        ensures same_cost { IfOk result (λ yes. yes ≡ false → self.new.cost ≡ self.old.cost) }
        ensures over { IfOk result (λ yes. yes ≡ false → (m : MappingSeen)
            → named (sought_of search.now rule.now.number) self.old.state.mapping first second ≡ Some m
            → below ≤ price (sought_of search.now rule.now.number) m) }
    {
        // for the prover: it tells what every lab keeps
        let _kept = search.mapper.lab.range();
        let node = search.rooms.virt(first);
        let number = search.rooms.number(node, second);
        // asked here, so that a try which finds the node full makes no call
        if self.is_shut(search, rule, node, number) {
            return Ok(false);
        }
        let yes = self.move_on_if_cheaper(alloc, search, rule, node, number, below)?;
        Ok(yes)
    }
}
