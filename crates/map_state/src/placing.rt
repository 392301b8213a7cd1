// Virtual nodes that are placed one after another.
ghost use Rattle.std.specs.Prelude.{◌≡◌, ◌<◌, ◌≤◌, ◌↔◌, ◌++◌, ◌∷◌, ◌&&◌, [], true, length, is_some, slice_index_or, Contains, IfOk, OnOk, IsTrue};
ghost use Rattle.node_maps.specs.NodeMaps.{candidates, plugs_of};
ghost use Rattle.node_maps.specs.Moved.{may_share as may_share_in};
ghost use Rattle.map_state.specs.States.{IsIdle};
ghost use Rattle.map_state.specs.Placings.{IsPlacing, IsTrying};
ghost use Rattle.map_state.specs.Hosted.{hosted_at};
ghost use Rattle.map_state.specs.Tables.{IsSearch};

use crate::give::{are_in_order, list_ends, serve_listed};
use crate::search::Search;
use feas::may_share;
use lab_base::Memory;
use node_maps::{Given, Place, Room};
use std::alloc::Global;

/// Places of the first virtual nodes, and what is kept of them.
#[derive(Drop)]
pub struct Placing {
    pub places: Vec<Place>,
    /// By virtual node that is placed its node.
    pub(crate) hosts: Vec<u16>,
    /// By node how many virtual nodes are on it.
    pub(crate) hosted: Vec<u16>,
    pub(crate) given: Given,
    pub(crate) listed: Vec<u16>,
}

impl Placing {
    /// No virtual node is placed.
    pub fn none(alloc: Global, search: &Search) -> Result<Placing, Memory>
        requires search { IsSearch search.now }
        ensures placing { IfOk result (IsPlacing search.now) }
        ensures none { IfOk result (λ placing. placing.places.items ≡ []) }
    {
        let lab = search.mapper.lab;
        Ok(Placing {
            places: Vec::new(alloc),
            hosts: Vec::new(alloc),
            hosted: vec![in alloc; 0u16; lab.nodes().len()]?,
            given: Given::nothing(alloc, lab)?,
            listed: Vec::new(alloc),
        })
    }

    /// Whether as many virtual nodes are on the node of a room as there is room for.
    #[inline(always)]
    pub fn is_full(&self, _search: &Search, room: Room) -> bool
        requires placing { IsPlacing _search.now self.now }
        requires node { room.node.0 < length _search.now.mapper.lab.now.nodes }
        ensures { IsTrue result ↔ (room.most ≤ hosted_at self.now.places.items room.node.0) }
    {
        self.hosted[room.node.0 as usize] >= room.most
    }

    /// Whether those on the node of a place may share it, with the virtual node that is tried there.
    fn may_share(&self, alloc: Global, search: &Search, place: &Place) -> Result<bool, Memory>
        requires trying { IsTrying search.now place.now self.now }
        ensures { IfOk result (λ yes. yes
            ≡ may_share_in search.now.mapper.lab.now search.now.mapper.wiring.now self.now.places.items place.now.0.0) }
    {
        if self.hosted[place.0.0 as usize] == 0 {
            return Ok(true);
        }
        let mapper = search.mapper;
        let nodes = mapper.wiring.nodes.as_slice();
        let yes = may_share(alloc, mapper.lab, nodes, &self.places, place.0)?;
        Ok(yes)
    }

    /// Whether the rule serves the ends of all, with the virtual node that is tried at a place. It serves those of the others, so the place's node
    /// alone is asked.
    fn serves(&mut self, alloc: Global, search: &Search, place: &Place) -> Result<bool, Memory>
        requires search { IsSearch search.now }
        requires trying { IsTrying search.now place.now self.old }
        ensures places { OnOk result (self.new.places ≡ self.old.places) }
        ensures hosts { OnOk result (self.new.hosts ≡ self.old.hosts) }
        ensures hosted { OnOk result (self.new.hosted ≡ self.old.hosted) }
        ensures idle { OnOk result (IsIdle search.now.mapper.lab.now self.new.given) }
        ensures served { IfOk result (λ yes. yes
            ≡ is_some (plugs_of search.now.mapper.lab.now search.now.mapper.wiring.now self.old.places.items)) }
    {
        let mapper = search.mapper;
        list_ends(&mut self.listed, search, &self.hosts, place.0)?;
        if are_in_order(mapper.ends, &self.listed, mapper.ifaces.of(place.0)) {
            return Ok(true);
        }
        let yes = serve_listed(search, &self.places, &self.listed, &mut self.given)?;
        self.given.clear(alloc, mapper.lab);
        Ok(yes)
    }

    /// Whether the virtual node that is tried at a place fits there.
    fn keeps(&mut self, alloc: Global, search: &Search, place: &Place) -> Result<bool, Memory>
        requires search { IsSearch search.now }
        requires trying { IsTrying search.now place.now self.old }
        ensures places { OnOk result (self.new.places ≡ self.old.places) }
        ensures hosts { OnOk result (self.new.hosts ≡ self.old.hosts) }
        ensures hosted { OnOk result (self.new.hosted ≡ self.old.hosted) }
        ensures idle { OnOk result (IsIdle search.now.mapper.lab.now self.new.given) }
        ensures keeps { IfOk result (λ yes. yes
            ≡ (may_share_in search.now.mapper.lab.now search.now.mapper.wiring.now self.old.places.items place.now.0.0
            && is_some (plugs_of search.now.mapper.lab.now search.now.mapper.wiring.now self.old.places.items))) }
    {
        if !self.may_share(alloc, search, place)? {
            return Ok(false);
        }
        let yes = self.serves(alloc, search, place)?;
        Ok(yes)
    }

    /// Whether the next virtual node fits at a candidate of it: those on its node may share it then, and the rule serves the ends of all that are placed.
    /// Each virtual node that is placed has an interface for each of its ends, so the next one's node alone is asked.
    pub fn fits(&mut self, alloc: Global, search: &Search, place: &Place) -> Result<bool, Memory>
        requires search { IsSearch search.now }
        requires placing { IsPlacing search.now self.old }
        requires more { length self.old.places.items < length search.now.mapper.wiring.now.nodes }
        requires among { Contains (slice_index_or (candidates search.now.mapper.lab.now search.now.mapper.free.now search.now.mapper.wiring.now)
            (length self.old.places.items) []) place.now }
        ensures placing { OnOk result (IsPlacing search.now self.new) }
        ensures same { OnOk result (self.new.places.items ≡ self.old.places.items) }
        ensures fits { IfOk result (λ yes. yes
            ≡ (may_share_in search.now.mapper.lab.now search.now.mapper.wiring.now (self.old.places.items ++ place.now ∷ []) place.now.0.0
            && is_some (plugs_of search.now.mapper.lab.now search.now.mapper.wiring.now (self.old.places.items ++ place.now ∷ [])))) }
    {
        // for the prover: it tells what every lab keeps
        let _kept = search.mapper.lab.range();
        self.places.push(*place)?;
        self.hosts.push(place.0.0)?;
        let yes = self.keeps(alloc, search, place)?;
        self.places.pop();
        self.hosts.pop();
        Ok(yes)
    }

    /// The next virtual node is placed where it fits.
    pub fn put(&mut self, _search: &Search, place: Place) -> Result<(), Memory>
        requires search { IsSearch _search.now }
        requires placing { IsPlacing _search.now self.old }
        requires more { length self.old.places.items < length _search.now.mapper.wiring.now.nodes }
        requires node { place.0.0 < length _search.now.mapper.lab.now.nodes }
        requires served { is_some (plugs_of _search.now.mapper.lab.now _search.now.mapper.wiring.now (self.old.places.items ++ place ∷ [])) ≡ true }
        ensures placing { OnOk result (IsPlacing _search.now self.new) }
        ensures places { OnOk result (self.new.places.items ≡ self.old.places.items ++ place ∷ []) }
    {
        self.hosted[place.0.0 as usize] += 1;
        self.hosts.push(place.0.0)?;
        self.places.push(place)?;
        Ok(())
    }
}
