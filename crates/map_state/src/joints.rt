// Segments, whose plugs must be on switches that are joined.
ghost use Rattle.std.specs.Prelude.{◌≡◌, ◌<◌, ◌↔◌, true, length, All, IsTrue};
ghost use Rattle.std.specs.List.{list_all};
ghost use Rattle.phys_lab.specs.Sides.{joined};
ghost use Rattle.lab_model.specs.Shapes.{IsShaped};
ghost use Rattle.lab_model.specs.Rules.{are_joined, keeps_f7};
ghost use Rattle.lab_model.specs.Uses.{switch_of};
ghost use Rattle.lab_model.specs.Feasible.{AllPass};
ghost use Rattle.trunk_sums.specs.Summed.{IsRow};
ghost use Rattle.map_state.specs.Tables.{IsSearch};

use crate::search::Search;
use lab_base::IfaceId;
use phys_lab::Lab;
use trunk_sums::Change;
use virt_topo::Mapping;

/// Whether the switches of two plugs are one or joined by trunks.
fn is_joined(lab: &Lab, one: IfaceId, other: IfaceId) -> bool
    requires one { one.0 < length lab.now.ifaces }
    requires other { other.0 < length lab.now.ifaces }
    ensures { result ≡ joined lab.now.trunks (switch_of lab.now one) (switch_of lab.now other) }
{
    let ifaces = lab.ifaces();
    lab.joined(
        ifaces[one.0 as usize].switch,
        ifaces[other.0 as usize].switch,
    )
}

fn is_joined_to_all(lab: &Lab, one: IfaceId, plugs: &[IfaceId]) -> bool
    requires one { one.0 < length lab.now.ifaces }
    requires plugs { All (λ i. i.0 < length lab.now.ifaces) plugs.now }
    ensures { result ≡ list_all (λ j. joined lab.now.trunks (switch_of lab.now one) (switch_of lab.now j)) plugs.now }
{
    plugs.iter().all(|plug| is_joined(lab, one, *plug))
}

/// Whether the switches of all plugs are one or joined by trunks: it suffices that the first one's is joined to the
/// others'.
fn are_joined(lab: &Lab, plugs: &[IfaceId]) -> bool
    requires { All (λ i. i.0 < length lab.now.ifaces) plugs.now }
    ensures { result ≡ are_joined lab.now plugs.now }
{
    match plugs.split_first() {
        Some((first, _others)) => is_joined_to_all(lab, *first, plugs),
        None => true,
    }
}

/// Whether the plugs of a segment are on switches that are joined.
fn keeps_f7(search: &Search, mapping: &Mapping, segment: usize) -> bool
    requires search { IsSearch search.now }
    requires shaped { IsShaped search.now.mapper.lab.now search.now.mapper.wiring.now mapping.now }
    requires segment { segment < length search.now.mapper.wiring.now.segments }
    ensures { result ≡ keeps_f7 search.now.mapper.lab.now search.now.mapper.wiring.now mapping.now segment }
{
    let mapper = search.mapper;
    let first = search.table.firsts[segment] as usize;
    let ends = mapper.wiring.segments.as_slice()[segment].ends.len();
    let (_before, rest) = mapping.plugs.as_slice().split_at(first);
    let (own, _after) = rest.split_at(ends);
    are_joined(mapper.lab, own)
}

/// Whether the plugs of each segment are on switches that are joined.
pub(crate) fn all_keep_f7(search: &Search, mapping: &Mapping) -> bool
    requires search { IsSearch search.now }
    requires shaped { IsShaped search.now.mapper.lab.now search.now.mapper.wiring.now mapping.now }
    ensures { IsTrue result
        ↔ AllPass (length search.now.mapper.wiring.now.segments) (keeps_f7 search.now.mapper.lab.now search.now.mapper.wiring.now mapping.now) }
{
    for segment in 0..search.mapper.wiring.segments.len() {
        if !keeps_f7(search, mapping, segment) {
            return false;
        }
    }
    true
}

/// Whether each segment with a changed end keeps the seventh rule.
pub(crate) fn changed_keep_f7(search: &Search, mapping: &Mapping, changes: &[Change]) -> bool
    requires search { IsSearch search.now }
    requires shaped { IsShaped search.now.mapper.lab.now search.now.mapper.wiring.now mapping.now }
    requires rows { All (λ c. IsRow search.now.mapper.wiring.now c.end c.row) changes.now }
    ensures { result ≡ list_all (λ c. keeps_f7 search.now.mapper.lab.now search.now.mapper.wiring.now mapping.now c.row.segment) changes.now }
{
    changes.iter().all(|change| keeps_f7(search, mapping, change.row.segment as usize))
}
