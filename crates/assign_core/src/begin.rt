// A choice of candidates to begin with.
ghost use Rattle.std.specs.Prelude.{◌≡◌, ◌<◌, false, [], length, All, None, IsTrue, IfOk, IfSome};
ghost use Rattle.lab_model.specs.Shapes.{IsShaped};
ghost use Rattle.cost_rule.specs.declared.rule.RuleNumber.{RuleNumber as AnyNumber};
ghost use Rattle.node_maps.specs.NodeMaps.{IsChoice, candidates};
ghost use Rattle.map_state.specs.Tables.{IsSearch};
ghost use Rattle.map_anneal.specs.Searches.{sought_of};
ghost use Rattle.assign_core.specs.Exact.{node_maps};
ghost use Rattle.assign_core.specs.Begun.{HasNone};

use lab_base::{IfaceId, Items, Memory};
use map_state::Search;
use node_maps::{Candidates, Place};
use phys_lab::Lab;
use std::alloc::Global;
use virt_topo::Mapping;

/// The first candidate of each virtual node; None where one has none.
fn first_places(alloc: Global, listed: &Candidates) -> Result<Option<Items<Place>>, Memory>
    ensures choice { IfOk result (λ found. IfSome found (IsChoice listed.now)) }
    ensures none { IfOk result (λ found. found ≡ None → HasNone listed.now) }
{
    let mut places = Items::new(alloc);
    for virt in 0..listed.len() {
        if listed.count(virt) == 0 {
            return Ok(None);
        }
        places.push(*listed.at(virt, 0))?;
    }
    Ok(Some(places))
}

/// Whether there are ends, and the lab has no interface.
fn wants_ifaces(lab: &Lab, ends: usize) -> bool
    ensures none { IsTrue result → length lab.now.ifaces ≡ 0 }
    ensures some { IsTrue result → 0 < ends }
    ensures enough { result ≡ false → 0 < ends → 0 < length lab.now.ifaces }
{
    lab.ifaces().is_empty() && ends > 0
}

/// Any plug for each of so many ends; None where the lab has none.
fn any_plugs(alloc: Global, lab: &Lab, ends: usize) -> Result<Option<Items<IfaceId>>, Memory>
    ensures one_each { IfOk result (λ found. IfSome found (λ plugs. length plugs ≡ ends)) }
    ensures in_lab { IfOk result (λ found. IfSome found (λ plugs. All (λ i. i.0 < length lab.now.ifaces) plugs)) }
    ensures none { IfOk result (λ found. found ≡ None → length lab.now.ifaces ≡ 0) }
    ensures some { IfOk result (λ found. found ≡ None → 0 < ends) }
{
    if wants_ifaces(lab, ends) {
        return Ok(None);
    }
    let plugs = vec![in alloc; IfaceId(0); ends]?;
    Ok(Some(Items::from_vec(plugs)))
}

/// The first candidate of each virtual node, with any plugs; None where there is no node map for want of candidates or of
/// interfaces.
pub(crate) fn first_choice(alloc: Global, search: &Search) -> Result<Option<Mapping>, Memory>
    requires search { IsSearch search.now }
    ensures choice { IfOk result (λ found. IfSome found (λ m. IsChoice (candidates search.now.mapper.lab.now search.now.mapper.free.now
        search.now.mapper.wiring.now) m.places)) }
    ensures shaped { IfOk result (λ found. IfSome found (IsShaped search.now.mapper.lab.now search.now.mapper.wiring.now)) }
    ensures none { IfOk result (λ found. found ≡ None → (number : AnyNumber) → node_maps (sought_of search.now number) ≡ []) }
{
    let mapper = search.mapper;
    let Some(places) = first_places(alloc, search.candidates)? else {
        return Ok(None);
    };
    let Some(plugs) = any_plugs(alloc, mapper.lab, mapper.ends.len())? else {
        return Ok(None);
    };
    Ok(Some(Mapping { places, plugs }))
}
