// The map state.
ghost use Rattle.std.specs.Prelude.{◌≡◌, ◌↔◌, true, false, ◌<◌, ◌≤◌, [], List, Some, None, length, slice_index_or, if◌then◌else◌, Contains, IfOk, OnOk, IfSome};
ghost use Rattle.std.specs.Prelude.{IsSome, IsTrue};
ghost use Rattle.virt_topo.specs.Wirings.{virt_at};
ghost use Rattle.lab_model.specs.Shapes.{Place as PlaceSeen, IsShaped};
ghost use Rattle.lab_model.specs.Rules.{place_at};
ghost use Rattle.node_maps.specs.NodeMaps.{candidates, IsChoice, node_map, plugs_of};
ghost use Rattle.node_maps.specs.Moved.{KeepsPlaces};
ghost use Rattle.node_maps.specs.Rooms.{room_of};
ghost use Rattle.map_state.specs.Members.{asked_index};
ghost use Rattle.map_state.specs.States.{IsMapState, IsFeasibleState, IsPlanned, Was};
ghost use Rattle.map_state.specs.Tables.{IsSearch};

use crate::full::is_taken;
use crate::give::give;
use crate::hosting::{Hosting, Outcome};
use crate::remake::{remake, revert};
use crate::search::Search;
use crate::spare::are_spare;
use cost_rule::Parts;
use lab_base::{Items, Memory, NodeId};
use node_maps::{Given, Place, Room, has_room};
use std::alloc::Global;
use std::mem;
use trunk_sums::{Change, Sums, are_apart};
use virt_topo::Mapping;

/// A node map, and what is kept of it.
#[derive(Drop)]
pub struct MapState {
    pub mapping: Mapping,
    pub(crate) hosting: Hosting,
    /// The running sums; None where they rest: nobody reads them, and no trunk can be filled.
    pub(crate) sums: Option<Sums>,
    pub(crate) given: Given,
    pub(crate) listed: Vec<u16>,
    pub(crate) changes: Vec<Change>,
    /// The changes that undo the last try.
    pub(crate) back: Vec<Change>,
}

impl MapState {
    ghost use Rattle.lab_base.specs.declared.ids.IfaceId.{IfaceId as IfaceIdSeen};
    ghost use Rattle.cost_rule.specs.Cost.{cost, soft as soft_in};
    ghost use Rattle.cost_rule.specs.declared.rule.RuleNumber.{RuleNumber as NumberSeen};
    ghost use Rattle.cost_rule.specs.Parts.{parts_of, cost_of_parts, without_uses, AreParts};
    ghost use Rattle.lab_model.specs.Feasible.{AllPass};
    ghost use Rattle.lab_model.specs.Rules.{keeps_f6};
    ghost use Rattle.trunk_sums.specs.Foreseen.{AreApart};
    ghost use Rattle.trunk_sums.specs.Remade.{remade, AreChanges};
    ghost use Rattle.map_state.specs.Hosted.{IsOverfull, IsFull, placed_at};
    ghost use Rattle.map_state.specs.Reverted.{reverted};
    ghost use Rattle.map_state.specs.Planned.{planned};

    /// The state of a choice of candidates with any plugs.
    pub(crate) fn of_choice(
        alloc: Global,
        search: &Search,
        start: &Mapping,
    ) -> Result<MapState, Memory>
        requires search { IsSearch search.now }
        requires choice { IsChoice (candidates search.now.mapper.lab.now search.now.mapper.free.now search.now.mapper.wiring.now) start.now.places }
        requires shaped { IsShaped search.now.mapper.lab.now search.now.mapper.wiring.now start.now }
        ensures state { IfOk result (IsMapState search.now) }
        ensures start { IfOk result (λ state. state.mapping ≡ start.now) }
        ensures summed { IfOk result (λ state. IsSome state.sums) }
        ensures none { IfOk result (λ state. state.back.items ≡ []) }
    {
        let mapper = search.mapper;
        let mapping = start.copy(alloc)?;
        let hosting = Hosting::of(alloc, mapper.lab, mapper.wiring, &mapping)?;
        let sums = Sums::of(alloc, mapper.lab, mapper.wiring, &mapping)?;
        let given = Given::nothing(alloc, mapper.lab)?;
        Ok(MapState {
            mapping,
            hosting,
            sums: Some(sums),
            given,
            listed: Vec::new(alloc),
            changes: Vec::new(alloc),
            back: Vec::new(alloc),
        })
    }

    /// The state of a feasible node map.
    pub fn of(alloc: Global, search: &Search, start: &Mapping) -> Result<MapState, Memory>
        requires search { IsSearch search.now }
        requires choice { IsChoice (candidates search.now.mapper.lab.now search.now.mapper.free.now search.now.mapper.wiring.now) start.now.places }
        requires mapped { node_map search.now.mapper.lab.now search.now.mapper.free.now search.now.mapper.wiring.now start.now.places ≡ Some start.now }
        ensures state { IfOk result (IsFeasibleState search.now) }
        ensures start { IfOk result (λ state. state.mapping ≡ start.now) }
        ensures summed { IfOk result (λ state. IsSome state.sums) }
        ensures none { IfOk result (λ state. state.back.items ≡ []) }
    {
        MapState::of_choice(alloc, search, start)
    }

    /// Lets the sums rest, where no mapping can fill a trunk; false, and all as before, where one may.
    pub fn rest(&mut self, search: &Search) -> bool
        requires search { IsSearch search.now }
        requires state { IsMapState search.now self.old }
        ensures state { IsMapState search.now self.new }
        ensures mapping { self.new.mapping ≡ self.old.mapping }
        ensures back { self.new.back.items ≡ self.old.back.items }
        ensures rest { IsTrue result → self.new.sums ≡ None }
        ensures same { result ≡ false → self.new.sums ≡ self.old.sums }
    {
        let mapper = search.mapper;
        if !are_spare(mapper.lab, mapper.free, mapper.wiring) {
            return false;
        }
        self.sums = None;
        true
    }

    /// The parts of the cost, where the sums don't rest.
    pub fn parts(&self, search: &Search) -> Option<Parts>
        requires search { IsSearch search.now }
        requires state { IsMapState search.now self.now }
        ensures parts { IfSome result (λ parts. parts ≡ parts_of search.now.mapper.lab.now search.now.mapper.wiring.now self.now.mapping) }
        ensures told { IsSome result ↔ IsSome self.now.sums }
    {
        let mapper = search.mapper;
        let plugs = self.mapping.plugs.as_slice();
        match &self.sums {
            Some(sums) => Some(Parts {
                uses: sums.total(mapper.lab, mapper.wiring, plugs),
                nodes: self.hosting.nodes,
                soft: self.hosting.soft,
            }),
            None => None,
        }
    }

    /// The parts of the cost but for the uses of trunks: what they cost is at most what any plugs come to.
    pub fn parts_at_rest(&self, search: &Search) -> Parts
        requires search { IsSearch search.now }
        requires state { IsMapState search.now self.now }
        ensures parts { result ≡ without_uses (parts_of search.now.mapper.lab.now search.now.mapper.wiring.now self.now.mapping) }
        ensures fit { AreParts result }
        ensures least { (number : NumberSeen) (plugs : List IfaceIdSeen) → cost_of_parts number result
            ≤ cost number search.now.mapper.lab.now search.now.mapper.wiring.now (record { places = self.now.mapping.places; plugs = plugs }) }
    {
        // for the prover: it tells what every lab keeps
        let _kept = search.mapper.lab.range();
        Parts {
            uses: 0,
            nodes: self.hosting.nodes,
            soft: self.hosting.soft,
        }
    }

    /// The unmet weights of the mapping.
    pub fn soft(&self, _search: &Search) -> u64
        requires state { IsMapState _search.now self.now }
        ensures { result ≡ soft_in _search.now.mapper.lab.now _search.now.mapper.wiring.now self.now.mapping }
    {
        self.hosting.soft
    }

    /// Whether each trunk has room for what is used of it. Where the sums rest, no trunk can be filled.
    pub(crate) fn has_room(&self, search: &Search) -> bool
        requires search { IsSearch search.now }
        requires state { IsMapState search.now self.now }
        ensures { IsTrue result ↔ AllPass (length search.now.mapper.lab.now.trunks)
            (keeps_f6 search.now.mapper.lab.now search.now.mapper.free.now search.now.mapper.wiring.now self.now.mapping) }
    {
        match &self.sums {
            Some(sums) => has_room(search.mapper.free, sums.uses()),
            None => true,
        }
    }

    /// The parts of the cost once what is planned is made, exactly where no two of its changes are of one segment.
    pub fn foreseen(&self, search: &Search) -> Option<Parts>
        requires search { IsSearch search.now }
        requires state { IsMapState search.now self.now }
        requires changes { AreChanges search.now.mapper.lab.now search.now.mapper.wiring.now self.now.changes.items }
        ensures parts { IfSome result (λ parts. parts ≡ parts_of search.now.mapper.lab.now search.now.mapper.wiring.now (planned self.now)) }
        ensures told { IsSome self.now.sums → (IsSome result ↔ AreApart self.now.changes.items) }
        ensures shaped { IsShaped search.now.mapper.lab.now search.now.mapper.wiring.now (planned self.now) }
    {
        if !are_apart(&self.changes) {
            return None;
        }
        let mapper = search.mapper;
        let crossings = &search.table.crossings;
        let plugs = self.mapping.plugs.as_slice();
        let Some(sums) = &self.sums else {
            return None;
        };
        let uses = sums.total_after(mapper.lab, mapper.wiring, crossings, plugs, &self.changes);
        let foreseen = Parts {
            uses,
            nodes: self.hosting.nodes,
            soft: self.hosting.soft,
        };
        Some(foreseen)
    }

    /// Whether more virtual nodes are on the node of one than may have its type there.
    pub fn is_overfull(&self, search: &Search, virt: usize) -> bool
        requires search { IsSearch search.now }
        requires state { IsMapState search.now self.now }
        requires virt { virt < length search.now.mapper.wiring.now.nodes }
        ensures overfull { IsTrue result ↔ IsOverfull search.now.mapper.lab.now self.now.mapping.places virt }
        ensures none { IsTrue result
            → node_map search.now.mapper.lab.now search.now.mapper.free.now search.now.mapper.wiring.now self.now.mapping.places ≡ None }
    {
        let place = self.mapping.places.as_slice()[virt];
        is_taken(
            search.mapper.lab,
            place,
            self.hosting.hosted[place.0.0 as usize] - 1,
        )
    }

    /// Whether a virtual node that goes to another of its candidates, with this room, is one more on a node than may have its type there.
    #[inline(always)]
    pub fn is_full(&self, search: &Search, virt: usize, room: Room) -> bool
        requires search { IsSearch search.now }
        requires state { IsMapState search.now self.now }
        requires virt { virt < length search.now.mapper.wiring.now.nodes }
        requires node { room.node.0 < length search.now.mapper.lab.now.nodes }
        ensures full { IsTrue result ↔ IsFull self.now.mapping.places virt room }
        ensures none { (p : PlaceSeen)
            → Contains (slice_index_or (candidates search.now.mapper.lab.now search.now.mapper.free.now search.now.mapper.wiring.now) virt []) p
            → room ≡ room_of search.now.mapper.lab.now p → IsTrue result
            → node_map search.now.mapper.lab.now search.now.mapper.free.now search.now.mapper.wiring.now (placed_at self.now.mapping virt p).places
            ≡ None }
    {
        let from = self.mapping.places.as_slice()[virt].0;
        from.0 != room.node.0 && self.hosting.hosted[room.node.0 as usize] >= room.most
    }

    /// A virtual node goes to another of its candidates; the plugs stay.
    pub fn place_virt(&mut self, alloc: Global, search: &Search, virt: usize, place: Place)
        requires search { IsSearch search.now }
        requires state { IsMapState search.now self.old }
        requires virt { virt < length search.now.mapper.wiring.now.nodes }
        requires among { Contains (slice_index_or (candidates search.now.mapper.lab.now search.now.mapper.free.now search.now.mapper.wiring.now) virt [])
            place }
        ensures state { IsMapState search.now self.new }
        ensures mapping { self.new.mapping ≡ placed_at self.old.mapping virt place }
        ensures sums { self.new.sums ≡ self.old.sums }
        ensures back { self.new.back.items ≡ self.old.back.items }
    {
        let mapper = search.mapper;
        self.hosting.place_virt(
            alloc,
            mapper.lab,
            mapper.wiring,
            &search.table.softs,
            &mut self.mapping,
            virt,
            place,
        );
    }

    /// Where a virtual node is counted by class and type, if it is.
    pub fn counted(&self, search: &Search, virt: usize) -> Option<usize>
        requires search { IsSearch search.now }
        requires state { IsMapState search.now self.now }
        requires virt { virt < length search.now.mapper.wiring.now.nodes }
        ensures { result ≡ asked_index search.now.mapper.wiring.now (virt_at search.now.mapper.wiring.now virt).asks (place_at self.now.mapping virt).1 }
    {
        self.hosting.members.counted(virt)
    }

    /// A virtual node goes to another of its candidates; the plugs stay. The outcome was predicted.
    pub fn place_predicted(
        &mut self,
        alloc: Global,
        search: &Search,
        virt: usize,
        place: Place,
        outcome: Outcome,
    )
        requires search { IsSearch search.now }
        requires state { IsMapState search.now self.old }
        requires virt { virt < length search.now.mapper.wiring.now.nodes }
        requires among { Contains (slice_index_or (candidates search.now.mapper.lab.now search.now.mapper.free.now search.now.mapper.wiring.now) virt [])
            place }
        requires soft { outcome.soft ≡ soft_in search.now.mapper.lab.now search.now.mapper.wiring.now (placed_at self.old.mapping virt place) }
        requires counted { outcome.counted ≡ asked_index search.now.mapper.wiring.now (virt_at search.now.mapper.wiring.now virt).asks place.1 }
        ensures state { IsMapState search.now self.new }
        ensures mapping { self.new.mapping ≡ placed_at self.old.mapping virt place }
        ensures sums { self.new.sums ≡ self.old.sums }
        ensures back { self.new.back.items ≡ self.old.back.items }
    {
        let mapper = search.mapper;
        self.hosting.place_predicted(
            alloc,
            mapper.lab,
            mapper.wiring,
            &mut self.mapping,
            virt,
            place,
            outcome,
        );
    }

    /// Plans the plugs of the ends on two nodes; false where some end gets none. The virtual nodes may be the only ones there.
    pub fn plan(
        &mut self,
        alloc: Global,
        search: &Search,
        first: (NodeId, usize),
        second: (NodeId, usize),
    ) -> Result<bool, Memory>
        requires search { IsSearch search.now }
        requires state { IsMapState search.now self.old }
        requires first { first.0.0 < length search.now.mapper.lab.now.nodes }
        requires first_virt { first.1 < length search.now.mapper.wiring.now.nodes }
        requires second { second.0.0 < length search.now.mapper.lab.now.nodes }
        requires second_virt { second.1 < length search.now.mapper.wiring.now.nodes }
        ensures state { OnOk result (IsMapState search.now self.new) }
        ensures mapping { self.new.mapping ≡ self.old.mapping }
        ensures sums { self.new.sums ≡ self.old.sums }
        ensures back { self.new.back.items ≡ self.old.back.items }
        ensures planned { IfOk result (λ yes. yes ≡ true → IsPlanned search.now self.new.mapping.places first.0.0 second.0.0 self.new.changes.items) }
        ensures none { IfOk result (λ yes. yes ≡ false → plugs_of search.now.mapper.lab.now search.now.mapper.wiring.now self.new.mapping.places ≡ None) }
    {
        self.changes.clear();
        let yes = give(
            alloc,
            search,
            &self.mapping,
            &self.hosting,
            first.0,
            first.1,
            &mut self.listed,
            &mut self.given,
            &mut self.changes,
        )?;
        if !yes {
            return Ok(false);
        }
        let both = give(
            alloc,
            search,
            &self.mapping,
            &self.hosting,
            second.0,
            second.1,
            &mut self.listed,
            &mut self.given,
            &mut self.changes,
        )?;
        Ok(both)
    }

    /// Applies the planned plugs to the mapping and to the sums of trunks, and notes how they are undone.
    fn make(&mut self, alloc: Global, search: &Search) -> Result<(), Memory>
        requires search { IsSearch search.now }
        requires state { IsMapState search.now self.old }
        requires changes { AreChanges search.now.mapper.lab.now search.now.mapper.wiring.now self.old.changes.items }
        requires none { self.old.back.items ≡ [] }
        ensures state { OnOk result (IsMapState search.now self.new) }
        ensures rest { OnOk result (self.new.sums ≡ None → self.old.sums ≡ None) }
        ensures places { OnOk result (self.new.mapping.places ≡ self.old.mapping.places) }
        ensures plugs { OnOk result (self.new.mapping.plugs ≡ remade self.old.mapping.plugs self.old.changes.items) }
        ensures back { OnOk result (reverted self.new.mapping.plugs self.new.back.items ≡ self.old.mapping.plugs) }
        ensures backward { OnOk result (AreChanges search.now.mapper.lab.now search.now.mapper.wiring.now self.new.back.items) }
    {
        let mapper = search.mapper;
        let mut plugs = mem::replace(&mut self.mapping.plugs, Items::new(alloc)).into_vec();
        remake(
            mapper.lab,
            mapper.wiring,
            &search.table.crossings,
            &mut self.sums,
            &mut plugs,
            &self.changes,
            &mut self.back,
        )?;
        self.mapping.plugs = Items::from_vec(plugs);
        Ok(())
    }

    /// Undoes the changes of the plugs.
    pub fn undo(&mut self, alloc: Global, search: &Search)
        requires search { IsSearch search.now }
        requires state { IsMapState search.now self.old }
        requires backward { AreChanges search.now.mapper.lab.now search.now.mapper.wiring.now self.old.back.items }
        ensures state { IsMapState search.now self.new }
        ensures rest { self.new.sums ≡ None → self.old.sums ≡ None }
        ensures places { self.new.mapping.places ≡ self.old.mapping.places }
        ensures plugs { self.new.mapping.plugs ≡ reverted self.old.mapping.plugs self.old.back.items }
        ensures none { self.new.back.items ≡ [] }
    {
        let mapper = search.mapper;
        let mut plugs = mem::replace(&mut self.mapping.plugs, Items::new(alloc)).into_vec();
        revert(
            mapper.lab,
            mapper.wiring,
            &search.table.crossings,
            &mut self.sums,
            &mut plugs,
            &mut self.back,
        );
        self.mapping.plugs = Items::from_vec(plugs);
    }

    /// Forgets how the last try is undone.
    pub fn forget(&mut self)
        ensures mapping { self.new.mapping ≡ self.old.mapping }
        ensures hosting { self.new.hosting ≡ self.old.hosting }
        ensures sums { self.new.sums ≡ self.old.sums }
        ensures given { self.new.given ≡ self.old.given }
        ensures none { self.new.back.items ≡ [] }
    {
        self.back.clear();
    }

    /// Whether a mapping keeps the eight rules. Its plugs are those of the interface rule. Before the last try it was a node map, and the places
    /// differ from that one's on two nodes alone, and may stay.
    fn is_kept(&self, search: &Search, _first: NodeId, _second: NodeId) -> bool
        requires search { IsSearch search.now }
        requires state { IsMapState search.now self.now }
        requires first { _first.0 < length search.now.mapper.lab.now.nodes }
        requires second { _second.0 < length search.now.mapper.lab.now.nodes }
        requires stays { KeepsPlaces search.now.mapper.lab.now search.now.mapper.wiring.now self.now.mapping.places _first.0 _second.0 }
        requires backward { AreChanges search.now.mapper.lab.now search.now.mapper.wiring.now self.now.back.items }
        ensures { (last : List PlaceSeen)
            → Was search.now self.now.mapping.places (reverted self.now.mapping.plugs self.now.back.items) _first.0 _second.0 last
            → plugs_of search.now.mapper.lab.now search.now.mapper.wiring.now self.now.mapping.places ≡ Some self.now.mapping.plugs
            → node_map search.now.mapper.lab.now search.now.mapper.free.now search.now.mapper.wiring.now self.now.mapping.places
            ≡ (if result then Some self.now.mapping else None) }
    {
        let mapper = search.mapper;
        // for the prover: it tells what every lab keeps
        let _kept = mapper.lab.range();
        self.is_still_joined(search) && self.has_room(search)
    }

    /// Makes the planned changes of the ends on two nodes, where virtual nodes of a node map went from one of them to the other and may stay.
    /// False where the outcome is no node map.
    pub fn commit(
        &mut self,
        alloc: Global,
        search: &Search,
        first: NodeId,
        second: NodeId,
    ) -> Result<bool, Memory>
        requires search { IsSearch search.now }
        requires state { IsMapState search.now self.old }
        requires first { first.0 < length search.now.mapper.lab.now.nodes }
        requires second { second.0 < length search.now.mapper.lab.now.nodes }
        requires planned { IsPlanned search.now self.old.mapping.places first.0 second.0 self.old.changes.items }
        requires stays { KeepsPlaces search.now.mapper.lab.now search.now.mapper.wiring.now self.old.mapping.places first.0 second.0 }
        requires none { self.old.back.items ≡ [] }
        ensures state { OnOk result (IsMapState search.now self.new) }
        ensures rest { OnOk result (self.new.sums ≡ None → self.old.sums ≡ None) }
        ensures places { OnOk result (self.new.mapping.places ≡ self.old.mapping.places) }
        ensures back { OnOk result (reverted self.new.mapping.plugs self.new.back.items ≡ self.old.mapping.plugs) }
        ensures backward { OnOk result (AreChanges search.now.mapper.lab.now search.now.mapper.wiring.now self.new.back.items) }
        ensures map { IfOk result (λ yes. (last : List PlaceSeen) → Was search.now self.old.mapping.places self.old.mapping.plugs first.0 second.0 last
            → node_map search.now.mapper.lab.now search.now.mapper.free.now search.now.mapper.wiring.now self.old.mapping.places
            ≡ (if yes then Some self.new.mapping else None)) }
    {
        self.make(alloc, search)?;
        Ok(self.is_kept(search, first, second))
    }
}
