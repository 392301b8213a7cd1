// The ends on one node given anew, whatever is on the others.
ghost use Rattle.std.specs.Prelude.{◌≡◌, ◌≢◌, ◌<◌, ◌↔◌, ◌&&◌, ℕ, List, true, false, length, Some, None, if◌then◌else◌, IfOk, OnOk, IsTrue};
ghost use Rattle.lab_model.specs.Shapes.{Place as PlaceSeen};
ghost use Rattle.lab_model.specs.Rules.{keeps_f7, keeps_f8};
ghost use Rattle.lab_model.specs.Feasible.{AllPass};
ghost use Rattle.node_maps.specs.NodeMaps.{node_map};
ghost use Rattle.node_maps.specs.Moved.{has_class_type, KeepsPlaces, may_share};
ghost use Rattle.map_state.specs.States.{IsMapState};
ghost use Rattle.map_state.specs.Chosen.{IsServed};
ghost use Rattle.map_state.specs.Tables.{IsSearch};

use crate::give::give;
use crate::joints::{all_keep_f7, changed_keep_f7};
use crate::remake::adopt;
use crate::search::Search;
use crate::state::MapState;
use crate::ties::are_kept;
use feas::may_share;
use lab_base::{Items, Memory, NodeId};
use node_maps::has_room;
use phys_lab::Free;
use std::alloc::Global;
use std::mem;
use virt_topo::Wiring;

/// Whether there is a VLAN id for each segment.
fn has_ids(free: &Free, wiring: &Wiring) -> bool
    ensures { result ≡ keeps_f8 free.now wiring.now }
{
    wiring.segments.len() <= free.vlans as usize
}

impl MapState {
    ghost use Rattle.trunk_sums.specs.Remade.{remade, AreChanges};
    ghost use Rattle.map_state.specs.Reverted.{reverted};

    /// Whether the virtual nodes on a node may share it.
    fn may_share(&self, alloc: Global, search: &Search, node: NodeId) -> Result<bool, Memory>
        requires search { IsSearch search.now }
        requires state { IsMapState search.now self.now }
        requires node { node.0 < length search.now.mapper.lab.now.nodes }
        ensures { IfOk result (λ yes. yes ≡ may_share search.now.mapper.lab.now search.now.mapper.wiring.now self.now.mapping.places node.0) }
    {
        let mapper = search.mapper;
        // for the prover: it tells what every lab keeps
        let _kept = mapper.lab.range();
        if self.hosting.hosted[node.0 as usize] <= 1 {
            return Ok(true);
        }
        let nodes = mapper.wiring.nodes.as_slice();
        let places = self.mapping.places.as_slice();
        let yes = may_share(alloc, mapper.lab, nodes, places, node)?;
        Ok(yes)
    }

    /// Whether the virtual nodes on each of two nodes may share it.
    fn may_share_both(
        &self,
        alloc: Global,
        search: &Search,
        first: NodeId,
        second: NodeId,
    ) -> Result<bool, Memory>
        requires search { IsSearch search.now }
        requires state { IsMapState search.now self.now }
        requires first { first.0 < length search.now.mapper.lab.now.nodes }
        requires second { second.0 < length search.now.mapper.lab.now.nodes }
        ensures { IfOk result (λ yes. yes
            ≡ (may_share search.now.mapper.lab.now search.now.mapper.wiring.now self.now.mapping.places first.0
            && may_share search.now.mapper.lab.now search.now.mapper.wiring.now self.now.mapping.places second.0)) }
    {
        if !self.may_share(alloc, search, first)? {
            return Ok(false);
        }
        let yes = self.may_share(alloc, search, second)?;
        Ok(yes)
    }

    /// Whether the members of each class of weight 1,000 or more have one type.
    fn has_types(&self, search: &Search) -> bool
        requires search { IsSearch search.now }
        requires state { IsMapState search.now self.now }
        ensures { IsTrue result ↔ AllPass (length search.now.mapper.wiring.now.nodes) (has_class_type search.now.mapper.wiring.now self.now.mapping.places) }
    {
        are_kept(&search.table.ties, self.mapping.places.as_slice())
    }

    /// Whether virtual nodes that went to two nodes may stay there: those on each of the two may share it, and the members of each class of
    /// weight 1,000 or more have one type.
    pub fn may_stay(
        &self,
        alloc: Global,
        search: &Search,
        first: NodeId,
        second: NodeId,
    ) -> Result<bool, Memory>
        requires search { IsSearch search.now }
        requires state { IsMapState search.now self.now }
        requires first { first.0 < length search.now.mapper.lab.now.nodes }
        requires second { second.0 < length search.now.mapper.lab.now.nodes }
        ensures { IfOk result (λ yes. IsTrue yes
            ↔ KeepsPlaces search.now.mapper.lab.now search.now.mapper.wiring.now self.now.mapping.places first.0 second.0) }
    {
        if !self.has_types(search) {
            return Ok(false);
        }
        let yes = self.may_share_both(alloc, search, first, second)?;
        Ok(yes)
    }

    /// Whether the plugs of each segment are on switches that are joined.
    fn is_joined(&self, search: &Search) -> bool
        requires search { IsSearch search.now }
        requires state { IsMapState search.now self.now }
        ensures { IsTrue result
            ↔ AllPass (length search.now.mapper.wiring.now.segments) (keeps_f7 search.now.mapper.lab.now search.now.mapper.wiring.now self.now.mapping) }
    {
        // for the prover: it tells what every lab keeps
        let _kept = search.mapper.lab.range();
        if search.table.joined {
            return true;
        }
        all_keep_f7(search, &self.mapping)
    }

    /// Whether all segments are joined, where they were before the last try.
    pub(crate) fn is_still_joined(&self, search: &Search) -> bool
        requires search { IsSearch search.now }
        requires state { IsMapState search.now self.now }
        requires backward { AreChanges search.now.mapper.lab.now search.now.mapper.wiring.now self.now.back.items }
        ensures { (last : List PlaceSeen) → AllPass (length search.now.mapper.wiring.now.segments)
            (keeps_f7 search.now.mapper.lab.now search.now.mapper.wiring.now
            (record { places = last; plugs = reverted self.now.mapping.plugs self.now.back.items }))
            → (IsTrue result ↔ AllPass (length search.now.mapper.wiring.now.segments)
            (keeps_f7 search.now.mapper.lab.now search.now.mapper.wiring.now self.now.mapping)) }
    {
        // for the prover: it tells what every lab keeps
        let _kept = search.mapper.lab.range();
        if search.table.joined {
            return true;
        }
        changed_keep_f7(search, &self.mapping, &self.back)
    }

    /// Applies the planned plugs to the mapping and to the sums of trunks, for good.
    fn adopt(&mut self, alloc: Global, search: &Search)
        requires search { IsSearch search.now }
        requires state { IsMapState search.now self.old }
        requires changes { AreChanges search.now.mapper.lab.now search.now.mapper.wiring.now self.old.changes.items }
        ensures state { IsMapState search.now self.new }
        ensures rest { self.new.sums ≡ None → self.old.sums ≡ None }
        ensures places { self.new.mapping.places ≡ self.old.mapping.places }
        ensures plugs { self.new.mapping.plugs ≡ remade self.old.mapping.plugs self.old.changes.items }
    {
        let mapper = search.mapper;
        let mut plugs = mem::replace(&mut self.mapping.plugs, Items::new(alloc)).into_vec();
        adopt(
            mapper.lab,
            mapper.wiring,
            &search.table.crossings,
            &mut self.sums,
            &mut plugs,
            &self.changes,
        );
        self.mapping.plugs = Items::from_vec(plugs);
    }

    /// Gives the ends on a node the plugs of the rule; false where some end gets none. The virtual node may be the only
    /// one there.
    fn give_anew(
        &mut self,
        alloc: Global,
        search: &Search,
        node: NodeId,
        virt: usize,
    ) -> Result<bool, Memory>
        requires search { IsSearch search.now }
        requires state { IsMapState search.now self.old }
        requires node { node.0 < length search.now.mapper.lab.now.nodes }
        requires virt { virt < length search.now.mapper.wiring.now.nodes }
        ensures state { OnOk result (IsMapState search.now self.new) }
        ensures rest { OnOk result (self.new.sums ≡ None → self.old.sums ≡ None) }
        ensures places { OnOk result (self.new.mapping.places ≡ self.old.mapping.places) }
        ensures served { IfOk result (λ yes. yes ≡ true
            → may_share search.now.mapper.lab.now search.now.mapper.wiring.now self.old.mapping.places node.0 ≡ true
            → IsServed search.now self.new.mapping node.0) }
        ensures others { IfOk result (λ yes. yes ≡ true → (n : ℕ) → n ≢ node.0 → IsServed search.now self.old.mapping n
            → IsServed search.now self.new.mapping n) }
        ensures same { IfOk result (λ yes. yes ≡ false → self.new.mapping ≡ self.old.mapping) }
        ensures none { IfOk result (λ yes. yes ≡ false
            → node_map search.now.mapper.lab.now search.now.mapper.free.now search.now.mapper.wiring.now self.old.mapping.places ≡ None) }
    {
        self.changes.clear();
        let yes = give(
            alloc,
            search,
            &self.mapping,
            &self.hosting,
            node,
            virt,
            &mut self.listed,
            &mut self.given,
            &mut self.changes,
        )?;
        if !yes {
            return Ok(false);
        }
        self.adopt(alloc, search);
        Ok(true)
    }

    /// Serves the node of a virtual node; false where that can't be.
    pub(crate) fn serve_anew(
        &mut self,
        alloc: Global,
        search: &Search,
        node: NodeId,
        virt: usize,
    ) -> Result<bool, Memory>
        requires search { IsSearch search.now }
        requires state { IsMapState search.now self.old }
        requires node { node.0 < length search.now.mapper.lab.now.nodes }
        requires virt { virt < length search.now.mapper.wiring.now.nodes }
        ensures state { OnOk result (IsMapState search.now self.new) }
        ensures rest { OnOk result (self.new.sums ≡ None → self.old.sums ≡ None) }
        ensures places { OnOk result (self.new.mapping.places ≡ self.old.mapping.places) }
        ensures served { IfOk result (λ yes. yes ≡ true → IsServed search.now self.new.mapping node.0) }
        ensures others { IfOk result (λ yes. (n : ℕ) → n ≢ node.0 → IsServed search.now self.old.mapping n → IsServed search.now self.new.mapping n) }
        ensures none { IfOk result (λ yes. yes ≡ false
            → node_map search.now.mapper.lab.now search.now.mapper.free.now search.now.mapper.wiring.now self.old.mapping.places ≡ None) }
    {
        if self.is_overfull(search, virt) {
            return Ok(false);
        }
        if !self.may_share(alloc, search, node)? {
            return Ok(false);
        }
        let yes = self.give_anew(alloc, search, node, virt)?;
        Ok(yes)
    }

    /// Whether a mapping whose nodes all are served keeps the eight rules.
    pub(crate) fn is_whole(&self, search: &Search) -> bool
        requires search { IsSearch search.now }
        requires state { IsMapState search.now self.now }
        requires served { (n : ℕ) → n < length search.now.mapper.lab.now.nodes → IsServed search.now self.now.mapping n }
        ensures { node_map search.now.mapper.lab.now search.now.mapper.free.now search.now.mapper.wiring.now self.now.mapping.places
            ≡ (if result then Some self.now.mapping else None) }
    {
        let mapper = search.mapper;
        // for the prover: it tells what every lab keeps
        let _kept = mapper.lab.range();
        if !has_ids(mapper.free, mapper.wiring) {
            return false;
        }
        if !self.has_types(search) {
            return false;
        }
        if !self.is_joined(search) {
            return false;
        }
        self.has_room(search)
    }
}
