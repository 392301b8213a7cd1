// Choices of candidates that change place by place.
ghost use Rattle.std.specs.Prelude.{◌≡◌, ◌<◌, ◌==◌, ◌&&◌, ℕ, true, false, [], length, slice_index_or, slice_set, Contains, Some, None, if◌then◌else◌, IfOk};
ghost use Rattle.std.specs.Prelude.{OnOk, IsSome};
ghost use Rattle.lab_base.specs.Names.{same_name};
ghost use Rattle.lab_model.specs.Shapes.{IsShaped};
ghost use Rattle.lab_model.specs.Rules.{no_place};
ghost use Rattle.node_maps.specs.NodeMaps.{candidates, IsChoice, node_map};
ghost use Rattle.map_state.specs.Tables.{IsSearch};

use crate::search::Search;
use crate::state::MapState;
use lab_base::Memory;
use node_maps::Place;
use std::alloc::Global;
use virt_topo::Mapping;

/// A choice of candidates, and what is kept of it.
#[derive(Drop)]
pub struct Chosen {
    pub state: MapState,
    /// By node whether virtual nodes came or went since its ends got their plugs.
    pub(crate) unserved: Vec<bool>,
}

/// Whether two places have the same node and type.
fn is_same(one: &Place, other: &Place) -> bool
    ensures { result ≡ (one.now.0.0 == other.now.0.0 && same_name one.now.1 other.now.1) }
{
    one.0.0 == other.0.0 && one.1 == other.1
}

impl Chosen {
    ghost use Rattle.map_state.specs.Chosen.{IsChosen};

    /// A choice to begin with, which may have any plugs.
    pub fn of(alloc: Global, search: &Search, start: &Mapping) -> Result<Chosen, Memory>
        requires search { IsSearch search.now }
        requires choice { IsChoice (candidates search.now.mapper.lab.now search.now.mapper.free.now search.now.mapper.wiring.now) start.now.places }
        requires shaped { IsShaped search.now.mapper.lab.now search.now.mapper.wiring.now start.now }
        ensures chosen { IfOk result (IsChosen search.now) }
        ensures summed { IfOk result (λ chosen. IsSome chosen.state.sums) }
    {
        let state = MapState::of_choice(alloc, search, start)?;
        let unserved = vec![in alloc; true; search.mapper.lab.nodes().len()]?;
        Ok(Chosen { state, unserved })
    }

    /// A virtual node goes to one of its candidates.
    pub fn put(&mut self, alloc: Global, search: &Search, virt: usize, place: Place)
        requires search { IsSearch search.now }
        requires chosen { IsChosen search.now self.old }
        requires virt { virt < length search.now.mapper.wiring.now.nodes }
        requires among { Contains (slice_index_or (candidates search.now.mapper.lab.now search.now.mapper.free.now search.now.mapper.wiring.now) virt [])
            place }
        ensures chosen { IsChosen search.now self.new }
        ensures rest { self.new.state.sums ≡ None → self.old.state.sums ≡ None }
        ensures places { self.new.state.mapping.places ≡ slice_set self.old.state.mapping.places virt place }
    {
        let old = self.state.mapping.places.as_slice()[virt];
        if is_same(&old, &place) {
            return;
        }
        self.state.place_virt(alloc, search, virt, place);
        self.unserved[old.0.0 as usize] = true;
        self.unserved[place.0.0 as usize] = true;
    }

    /// Serves the node of a virtual node, if it is unserved; false where that can't be.
    fn refresh(&mut self, alloc: Global, search: &Search, virt: usize) -> Result<bool, Memory>
        requires search { IsSearch search.now }
        requires chosen { IsChosen search.now self.old }
        requires virt { virt < length search.now.mapper.wiring.now.nodes }
        ensures chosen { OnOk result (IsChosen search.now self.new) }
        ensures rest { OnOk result (self.new.state.sums ≡ None → self.old.state.sums ≡ None) }
        ensures places { OnOk result (self.new.state.mapping.places ≡ self.old.state.mapping.places) }
        ensures fresh { IfOk result (λ yes. yes ≡ true
            → slice_index_or self.new.unserved.items (slice_index_or self.old.state.mapping.places virt no_place).0.0 true ≡ false) }
        ensures kept { OnOk result ((n : ℕ) → slice_index_or self.old.unserved.items n true ≡ false → slice_index_or self.new.unserved.items n true ≡ false) }
        ensures none { IfOk result (λ yes. yes ≡ false
            → node_map search.now.mapper.lab.now search.now.mapper.free.now search.now.mapper.wiring.now self.old.state.mapping.places ≡ None) }
    {
        let node = self.state.mapping.places.as_slice()[virt].0;
        if !self.unserved[node.0 as usize] {
            return Ok(true);
        }
        if !self.state.serve_anew(alloc, search, node, virt)? {
            return Ok(false);
        }
        self.unserved[node.0 as usize] = false;
        Ok(true)
    }

    /// Serves the nodes of all virtual nodes; false where that can't be.
    fn refresh_all(&mut self, alloc: Global, search: &Search) -> Result<bool, Memory>
        requires search { IsSearch search.now }
        requires chosen { IsChosen search.now self.old }
        ensures chosen { OnOk result (IsChosen search.now self.new) }
        ensures rest { OnOk result (self.new.state.sums ≡ None → self.old.state.sums ≡ None) }
        ensures places { OnOk result (self.new.state.mapping.places ≡ self.old.state.mapping.places) }
        ensures fresh { IfOk result (λ yes. yes ≡ true → (v : ℕ) → v < length search.now.mapper.wiring.now.nodes
            → slice_index_or self.new.unserved.items (slice_index_or self.old.state.mapping.places v no_place).0.0 true ≡ false) }
        ensures none { IfOk result (λ yes. yes ≡ false
            → node_map search.now.mapper.lab.now search.now.mapper.free.now search.now.mapper.wiring.now self.old.state.mapping.places ≡ None) }
    {
        for virt in 0..search.mapper.wiring.nodes.len() {
            if !self.refresh(alloc, search, virt)? {
                return Ok(false);
            }
        }
        Ok(true)
    }

    /// Whether the choice is a feasible node map, which the mapping of the state then is.
    pub fn is_map(&mut self, alloc: Global, search: &Search) -> Result<bool, Memory>
        requires search { IsSearch search.now }
        requires chosen { IsChosen search.now self.old }
        ensures chosen { OnOk result (IsChosen search.now self.new) }
        ensures rest { OnOk result (self.new.state.sums ≡ None → self.old.state.sums ≡ None) }
        ensures places { OnOk result (self.new.state.mapping.places ≡ self.old.state.mapping.places) }
        ensures map { IfOk result (λ yes. node_map search.now.mapper.lab.now search.now.mapper.free.now search.now.mapper.wiring.now
            self.old.state.mapping.places ≡ (if yes then Some self.new.state.mapping else None)) }
    {
        if !self.refresh_all(alloc, search)? {
            return Ok(false);
        }
        Ok(self.state.is_whole(search))
    }
}
