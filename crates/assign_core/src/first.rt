// FirstFit.
ghost use Rattle.std.specs.Prelude.{◌≡◌, ◌<◌, [], true, length, if◌then◌else◌, Some, None, IfOk, OnOk, IfSome, slice_index_or};
ghost use Rattle.std.specs.List.{find};
ghost use Rattle.virt_topo.specs.Soundness.{IsSound};
ghost use Rattle.lab_model.specs.Shapes.{IsFreeOf};
ghost use Rattle.lab_model.specs.Rules.{no_place};
ghost use Rattle.node_maps.specs.NodeMaps.{IsChoice, candidates as candidates_in};
ghost use Rattle.map_state.specs.Placings.{IsPlacing};
ghost use Rattle.map_state.specs.Tables.{IsSearch};
ghost use Rattle.assign_core.specs.Exact.{fits_next, if_fits, first_fit as first_fit_of, first_fit_from};

use lab_base::Memory;
use map_anneal::Prepared;
use map_state::{Placing, Search};
use node_maps::{Place, node_map};
use phys_lab::{Free, Lab};
use std::alloc::Global;
use virt_topo::{Mapping, Wiring};

/// The next virtual node's candidate of a number, where it fits. One that finds its node full isn't looked up.
fn fitting(
    alloc: Global,
    search: &Search,
    placing: &mut Placing,
    number: usize,
) -> Result<Option<Place>, Memory>
    requires search { IsSearch search.now }
    requires placing { IsPlacing search.now placing.old }
    requires more { length placing.old.places.items < length search.now.candidates.now }
    requires number { number < length (slice_index_or search.now.candidates.now (length placing.old.places.items) []) }
    ensures placing { OnOk result (IsPlacing search.now placing.new) }
    ensures same { OnOk result (placing.new.places.items ≡ placing.old.places.items) }
    ensures fitting { IfOk result (λ found. found ≡ if_fits search.now.mapper.lab.now search.now.mapper.wiring.now placing.old.places.items
        (slice_index_or (slice_index_or search.now.candidates.now (length placing.old.places.items) []) number no_place)) }
{
    let next = placing.places.len();
    if placing.is_full(search, search.rooms.at(next, number)) {
        return Ok(None);
    }
    let place = search.candidates.at(next, number);
    if !placing.fits(alloc, search, place)? {
        return Ok(None);
    }
    Ok(Some(*place))
}

/// The first candidate of the next virtual node that fits.
fn first_fitting(
    alloc: Global,
    search: &Search,
    placing: &mut Placing,
) -> Result<Option<Place>, Memory>
    requires search { IsSearch search.now }
    requires placing { IsPlacing search.now placing.old }
    requires more { length placing.old.places.items < length search.now.candidates.now }
    ensures placing { OnOk result (IsPlacing search.now placing.new) }
    ensures same { OnOk result (placing.new.places.items ≡ placing.old.places.items) }
    ensures first { IfOk result (λ place. place
        ≡ find (λ p. fits_next search.now.mapper.lab.now search.now.mapper.wiring.now placing.old.places.items p)
        (slice_index_or search.now.candidates.now (length placing.old.places.items) [])) }
{
    let next = placing.places.len();
    for number in 0..search.candidates.count(next) {
        if let Some(place) = fitting(alloc, search, placing, number)? {
            return Ok(Some(place));
        }
    }
    Ok(None)
}

/// Places all virtual nodes, each at its first candidate that fits; false where one has none.
fn place_all(alloc: Global, search: &Search, placing: &mut Placing) -> Result<bool, Memory>
    requires search { IsSearch search.now }
    requires placing { IsPlacing search.now placing.old }
    requires none { placing.old.places.items ≡ [] }
    ensures places { IfOk result (λ yes. (if yes then Some placing.new.places.items else None)
        ≡ first_fit_from search.now.mapper.lab.now search.now.mapper.wiring.now [] search.now.candidates.now) }
    ensures choice { IfOk result (λ yes. yes ≡ true → IsChoice search.now.candidates.now placing.new.places.items) }
{
    for _virt in 0..search.candidates.len() {
        match first_fitting(alloc, search, placing)? {
            Some(place) => placing.put(search, place)?,
            None => return Ok(false),
        }
    }
    Ok(true)
}

/// The map of FirstFit, by what is prepared.
#[tactic(auto, unfolding(crate::specs::Exact::first_fit))]
pub(crate) fn fit_by(alloc: Global, search: &Search) -> Result<Option<Mapping>, Memory>
    requires search { IsSearch search.now }
    ensures found { IfOk result (λ found. found
        ≡ first_fit_of search.now.mapper.lab.now search.now.mapper.free.now search.now.mapper.wiring.now) }
    ensures choice { IfOk result (λ found. IfSome found (λ m. IsChoice (candidates_in search.now.mapper.lab.now search.now.mapper.free.now
        search.now.mapper.wiring.now) m.places)) }
{
    let mut placing = Placing::none(alloc, search)?;
    if !place_all(alloc, search, &mut placing)? {
        return Ok(None);
    }
    let mapper = search.mapper;
    let mapping = node_map(
        alloc,
        mapper.lab,
        mapper.free,
        mapper.wiring,
        mapper.ends,
        &placing.places,
    )?;
    Ok(mapping)
}

/// The map of FirstFit, which places virtual node after virtual node at its first candidate that fits; None where it
/// isn't feasible.
pub fn first_fit(
    alloc: Global,
    lab: &Lab,
    free: &Free,
    wiring: &Wiring,
) -> Result<Option<Mapping>, Memory>
    requires free { IsFreeOf lab.now free.now }
    requires sound { IsSound wiring.now }
    ensures found { IfOk result (λ found. found ≡ first_fit_of lab.now free.now wiring.now) }
    ensures choice { IfOk result (λ found. IfSome found (λ m. IsChoice (candidates_in lab.now free.now wiring.now) m.places)) }
{
    let prepared = Prepared::of(alloc, lab, free, wiring)?;
    let search = prepared.search(lab, free, wiring);
    let found = fit_by(alloc, &search)?;
    Ok(found)
}
