// Moves that are told before they are made.
ghost use Rattle.std.specs.Prelude.{◌≡◌, ◌<◌, ◌≤◌, ◌==◌, ◌↔◌, [], List, length, map, slice_index_or, Some, Contains, All, IfSome, IsSome, IsTrue};
ghost use Rattle.lab_base.specs.declared.ids.IfaceId.{IfaceId as IfaceIdSeen};
ghost use Rattle.virt_topo.specs.Ends.{end_nodes};
ghost use Rattle.virt_topo.specs.Wirings.{virt_at};
ghost use Rattle.cost_rule.specs.Cost.{cost, soft as soft_in};
ghost use Rattle.cost_rule.specs.declared.rule.RuleNumber.{RuleNumber as NumberSeen};
ghost use Rattle.cost_rule.specs.Parts.{parts_of, cost_of_parts, without_uses, AreParts};
ghost use Rattle.trunk_sums.specs.Remade.{remade};
ghost use Rattle.trunk_sums.specs.Summed.{IsSummed};
ghost use Rattle.trunk_sums.specs.Totals.{used_of_all};
ghost use Rattle.node_maps.specs.NodeMaps.{candidates, plugs_of};
ghost use Rattle.map_state.specs.States.{IsFeasibleState, IsMapState};
ghost use Rattle.map_state.specs.Predicted.{CanPredict};
ghost use Rattle.map_state.specs.Members.{asked_index};
ghost use Rattle.map_state.specs.Nodes.{changes_of, numbers_of};
ghost use Rattle.map_state.specs.Hosted.{placed_at};
ghost use Rattle.map_state.specs.Tables.{IsSearch};

use crate::give::are_own_in_order;
use crate::search::Search;
use crate::state::MapState;
use cost_rule::Parts;
use lab_base::IfaceId;
use node_maps::{NodeIface, Place};
use std::alloc::Global;
use trunk_sums::{Change, Sums};

/// The parts of the cost after a move, with the uses of trunks or without them, and where the virtual node is counted then, if it is.
#[derive(Clone, Copy)]
pub struct Predicted {
    pub parts: Parts,
    pub counted: Option<usize>,
    /// Whether the uses of trunks are among the parts.
    pub whole: bool,
}

/// The sum of the uses of all trunks once each end of a virtual node has the interface of its own place.
fn uses_in_order(
    search: &Search,
    sums: &Sums,
    plugs: &[IfaceId],
    virt: usize,
    ifaces: &[NodeIface],
) -> u64
    requires search { IsSearch search.now }
    requires virt { virt < length search.now.mapper.wiring.now.nodes }
    requires few { length (numbers_of 0 (λ e. e.node == virt) search.now.mapper.ends.now) ≤ length ifaces.now }
    requires ifaces { All (λ x. x.id.0 < length search.now.mapper.lab.now.ifaces) ifaces.now }
    requires plugged { length plugs.now ≡ length (end_nodes search.now.mapper.wiring.now.segments) }
    requires in_lab { All (λ i. i.0 < length search.now.mapper.lab.now.ifaces) plugs.now }
    requires summed { IsSummed search.now.mapper.lab.now search.now.mapper.wiring.now plugs.now sums.now }
    ensures { result ≡ used_of_all search.now.mapper.lab.now search.now.mapper.wiring.now (remade plugs.now
        (changes_of search.now.table.now.rows.items (numbers_of 0 (λ e. e.node == virt) search.now.mapper.ends.now) (map (λ x. x.id) ifaces.now))) }
{
    let mapper = search.mapper;
    let table = search.table;
    let own = table.own[virt].as_slice();
    let mut uses = sums.total(mapper.lab, mapper.wiring, plugs);
    for number in 0..own.len() {
        let end = own[number];
        let change = Change {
            end,
            row: table.rows[end as usize],
            to: ifaces[number].id,
        };
        uses = sums.total_with(
            mapper.lab,
            mapper.wiring,
            &table.crossings,
            plugs,
            uses,
            change,
        );
    }
    uses
}

impl MapState {
    /// Whether a virtual node is alone where it is, the node of a place is empty, and each of its ends fits the interface of its own place there.
    fn can_predict(&self, search: &Search, virt: usize, place: &Place) -> bool
        requires search { IsSearch search.now }
        requires state { IsMapState search.now self.now }
        requires virt { virt < length search.now.mapper.wiring.now.nodes }
        requires node { place.now.0.0 < length search.now.mapper.lab.now.nodes }
        ensures { IsTrue result ↔ CanPredict search.now self.now.mapping.places virt place.now }
    {
        let from = self.mapping.places.as_slice()[virt].0;
        let hosted = &self.hosting.hosted;
        if hosted[from.0 as usize] != 1 {
            return false;
        }
        if hosted[place.0.0 as usize] != 0 {
            return false;
        }
        are_own_in_order(search, virt, place.0)
    }

    /// The parts of the cost after a move of a virtual node to another of its candidates, but for the uses of trunks, and where it is counted then. What
    /// they cost is at most what the move comes to, whatever interfaces the rule gives.
    pub fn predict_but_uses(&self, search: &Search, virt: usize, place: &Place) -> Predicted
        requires search { IsSearch search.now }
        requires state { IsMapState search.now self.now }
        requires virt { virt < length search.now.mapper.wiring.now.nodes }
        requires among { Contains (slice_index_or (candidates search.now.mapper.lab.now search.now.mapper.free.now search.now.mapper.wiring.now) virt [])
            place.now }
        ensures parts { result.parts
            ≡ without_uses (parts_of search.now.mapper.lab.now search.now.mapper.wiring.now (placed_at self.now.mapping virt place.now)) }
        ensures fit { AreParts result.parts }
        ensures least { (number : NumberSeen) (plugs : List IfaceIdSeen) → cost_of_parts number result.parts
            ≤ cost number search.now.mapper.lab.now search.now.mapper.wiring.now
            (record { places = (placed_at self.now.mapping virt place.now).places; plugs = plugs }) }
        ensures counted { result.counted
            ≡ asked_index search.now.mapper.wiring.now (virt_at search.now.mapper.wiring.now virt).asks place.now.1 }
    {
        let mapper = search.mapper;
        // for the prover: it tells what every lab keeps
        let _kept = mapper.lab.range();
        let (soft, counted) = self.hosting.soft_after(
            mapper.lab,
            mapper.wiring,
            &search.table.softs,
            &self.mapping,
            virt,
            place,
        );
        let nodes = self
            .hosting
            .nodes_after(mapper.lab, mapper.wiring, &self.mapping, virt, place);
        let parts = Parts {
            uses: 0,
            nodes,
            soft,
        };
        Predicted {
            parts,
            counted,
            whole: false,
        }
    }

    /// The parts of the cost after a move of a virtual node to another of its candidates, whatever interfaces the rule gives. They are told exactly
    /// where it is alone on its node, the other node is empty, and each of its ends fits the interface of its own place there.
    pub fn predict(&self, search: &Search, virt: usize, place: &Place) -> Option<Predicted>
        requires search { IsSearch search.now }
        requires state { IsFeasibleState search.now self.now }
        requires virt { virt < length search.now.mapper.wiring.now.nodes }
        requires among { Contains (slice_index_or (candidates search.now.mapper.lab.now search.now.mapper.free.now search.now.mapper.wiring.now) virt [])
            place.now }
        ensures told { IsSome self.now.sums → (IsSome result ↔ CanPredict search.now self.now.mapping.places virt place.now) }
        ensures lone { IsSome result → CanPredict search.now self.now.mapping.places virt place.now }
        ensures parts { IfSome result (λ told. (plugs : List IfaceIdSeen)
            → plugs_of search.now.mapper.lab.now search.now.mapper.wiring.now (placed_at self.now.mapping virt place.now).places ≡ Some plugs
            → told.parts ≡ parts_of search.now.mapper.lab.now search.now.mapper.wiring.now
            (record { places = (placed_at self.now.mapping virt place.now).places; plugs = plugs })) }
        ensures fit { IfSome result (λ told. AreParts told.parts) }
        ensures soft { IfSome result (λ told. told.parts.soft
            ≡ soft_in search.now.mapper.lab.now search.now.mapper.wiring.now (placed_at self.now.mapping virt place.now)) }
        ensures counted { IfSome result (λ told. told.counted
            ≡ asked_index search.now.mapper.wiring.now (virt_at search.now.mapper.wiring.now virt).asks place.now.1) }
    {
        let Some(sums) = &self.sums else {
            return None;
        };
        if !self.can_predict(search, virt, place) {
            return None;
        }
        let mapper = search.mapper;
        // for the prover: it tells what every lab keeps
        let _kept = mapper.lab.range();
        let (soft, counted) = self.hosting.soft_after(
            mapper.lab,
            mapper.wiring,
            &search.table.softs,
            &self.mapping,
            virt,
            place,
        );
        let uses = uses_in_order(
            search,
            sums,
            self.mapping.plugs.as_slice(),
            virt,
            mapper.ifaces.of(place.0),
        );
        let parts = Parts {
            uses,
            nodes: self.hosting.nodes,
            soft,
        };
        Some(Predicted {
            parts,
            counted,
            whole: true,
        })
    }
}
