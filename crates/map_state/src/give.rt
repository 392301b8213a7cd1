// The interfaces of the ends on one node.
ghost use Rattle.std.specs.Prelude.{◌≡◌, true, false, ◌<◌, ◌≤◌, ◌++◌, ◌==◌, map, length, slice_index_or, Some, None, if◌then◌else◌, filter, ◌&&◌, All, IfOk};
ghost use Rattle.std.specs.Prelude.{OnOk};
ghost use Rattle.lab_model.specs.Shapes.{IsShaped};
ghost use Rattle.lab_model.specs.Rules.{no_place};
ghost use Rattle.node_maps.specs.NodeMaps.{plugs_from};
ghost use Rattle.node_maps.specs.Indexed.{AreOrdered, are_in_order, fits, ifaces_of};
ghost use Rattle.map_state.specs.Nodes.{is_host, is_on, numbers_of, changes_of, no_end};
ghost use Rattle.map_state.specs.States.{IsIdle, IsGiving, IsNoted};
ghost use Rattle.map_state.specs.Hosted.{IsHosting};
ghost use Rattle.map_state.specs.Tables.{IsSearch};

use crate::hosting::Hosting;
use crate::search::Search;
use lab_base::{IfaceId, Memory, NodeId};
use node_maps::{End, Given, NodeIface, Place};
use std::alloc::Global;
use trunk_sums::{Change, EndRow};
use virt_topo::Mapping;

/// The numbers of the ends on a node: of each virtual node there its own. The hosts are by virtual node its node, of the first virtual nodes.
pub(crate) fn list_ends(
    listed: &mut Vec<u16>,
    search: &Search,
    hosts: &[u16],
    node: NodeId,
) -> Result<(), Memory>
    requires search { IsSearch search.now }
    requires hosts { length hosts.now ≤ length search.now.mapper.wiring.now.nodes }
    ensures { OnOk result (listed.new.items ≡ numbers_of 0 (is_host hosts.now node.0) search.now.mapper.ends.now) }
{
    listed.clear();
    for virt in 0..hosts.len() {
        if hosts[virt] == node.0 {
            listed.extend_from_slice(search.table.own[virt].as_slice())?;
        }
    }
    listed.sort_unstable();
    Ok(())
}

/// Gives the ends of these numbers their interfaces; false where some end gets none.
pub(crate) fn serve_listed(
    search: &Search,
    places: &[Place],
    listed: &[u16],
    given: &mut Given,
) -> Result<bool, Memory>
    requires search { IsSearch search.now }
    requires idle { IsIdle search.now.mapper.lab.now given.old }
    requires within { All (λ k. k < length search.now.mapper.ends.now) listed.now }
    requires ordered { AreOrdered (map (λ k. slice_index_or search.now.mapper.ends.now k no_end) listed.now) }
    ensures giving { OnOk result (IsGiving search.now.mapper.lab.now given.new) }
    ensures given { IfOk result (λ yes. plugs_from search.now.mapper.lab.now places.now (map (λ k. slice_index_or search.now.mapper.ends.now k no_end)
        listed.now) ≡ (if yes then Some given.new.plugs else None)) }
{
    let mapper = search.mapper;
    for number in listed {
        if !given.add(
            mapper.lab,
            mapper.ifaces,
            places,
            mapper.ends[*number as usize],
        )? {
            return Ok(false);
        }
    }
    Ok(true)
}

/// Notes the plugs of the ends of these numbers.
fn note(
    rows: &[EndRow],
    listed: &[u16],
    plugs: &[IfaceId],
    changes: &mut Vec<Change>,
) -> Result<(), Memory>
    requires one_each { length listed.now ≡ length plugs.now }
    requires within { All (λ k. k < length rows.now) listed.now }
    ensures { OnOk result (changes.new.items ≡ changes.old.items ++ changes_of rows.now listed.now plugs.now) }
{
    for number in 0..listed.len() {
        let end = listed[number];
        changes.push(Change {
            end,
            row: rows[end as usize],
            to: plugs[number],
        })?;
    }
    Ok(())
}

/// Whether an end fits an interface that bears nothing else.
fn fits(end: End, iface: NodeIface) -> bool
    ensures { result ≡ fits end iface }
{
    !end.multiplexed && end.kbps <= iface.kbps
}

/// Whether each end of these numbers fits the interface of its own place.
pub(crate) fn are_in_order(ends: &[End], listed: &[u16], ifaces: &[NodeIface]) -> bool
    requires { All (λ k. k < length ends.now) listed.now }
    ensures { result ≡ are_in_order (map (λ k. slice_index_or ends.now k no_end) listed.now) ifaces.now }
{
    for number in 0..listed.len() {
        let Some(iface) = ifaces.get(number) else {
            return false;
        };
        if !fits(ends[listed[number] as usize], *iface) {
            return false;
        }
    }
    true
}

/// Whether each end of a virtual node fits the interface of its own place on a node. Each is asked where the speeds don't tell.
pub(crate) fn are_own_in_order(search: &Search, virt: usize, node: NodeId) -> bool
    requires search { IsSearch search.now }
    requires virt { virt < length search.now.mapper.wiring.now.nodes }
    requires node { node.0 < length search.now.mapper.lab.now.nodes }
    ensures { result ≡ are_in_order (map (λ k. slice_index_or search.now.mapper.ends.now k no_end)
        (numbers_of 0 (λ e. e.node == virt) search.now.mapper.ends.now)) (ifaces_of 0 search.now.mapper.lab.now.ifaces node.0) }
{
    let own = search.table.own[virt].as_slice();
    let ifaces = search.mapper.ifaces.of(node);
    if own.len() > ifaces.len() {
        return false;
    }
    if search.table.speeds.suffice(virt, node) {
        return true;
    }
    are_in_order(search.mapper.ends, own, ifaces)
}

/// Notes the interface of its own place for each end of these numbers.
fn note_in_order(
    rows: &[EndRow],
    listed: &[u16],
    ifaces: &[NodeIface],
    changes: &mut Vec<Change>,
) -> Result<(), Memory>
    requires few { length listed.now ≤ length ifaces.now }
    requires within { All (λ k. k < length rows.now) listed.now }
    ensures { OnOk result (changes.new.items ≡ changes.old.items ++ changes_of rows.now listed.now (map (λ x. x.id) ifaces.now)) }
{
    for number in 0..listed.len() {
        let end = listed[number];
        changes.push(Change {
            end,
            row: rows[end as usize],
            to: ifaces[number].id,
        })?;
    }
    Ok(())
}

/// Gives the ends of these numbers, which are those on a node, their interfaces, and notes them; false where some end gets
/// none.
fn serve_noted(
    search: &Search,
    places: &[Place],
    node: NodeId,
    listed: &[u16],
    given: &mut Given,
    changes: &mut Vec<Change>,
) -> Result<bool, Memory>
    requires search { IsSearch search.now }
    requires placed { length places.now ≡ length search.now.mapper.wiring.now.nodes }
    requires listed { listed.now ≡ numbers_of 0 (is_on places.now node.0) search.now.mapper.ends.now }
    requires idle { IsIdle search.now.mapper.lab.now given.old }
    ensures giving { OnOk result (IsGiving search.now.mapper.lab.now given.new) }
    ensures given { IfOk result (λ yes. yes ≡ true → IsNoted search.now.mapper.lab.now search.now.table.now.rows.items search.now.mapper.ends.now places.now
        node.0 changes.old.items changes.new.items) }
    ensures none { IfOk result (λ yes. yes ≡ false
        → plugs_from search.now.mapper.lab.now places.now (filter (is_on places.now node.0) search.now.mapper.ends.now) ≡ None) }
{
    let yes = serve_listed(search, places, listed, given)?;
    if !yes {
        return Ok(false);
    }
    note(&search.table.rows, listed, given.plugs(), changes)?;
    Ok(true)
}

/// Gives the listed ends their interfaces, each that of its own place where they all fit these. Else it then forgets which were given.
fn give_listed(
    alloc: Global,
    search: &Search,
    places: &[Place],
    node: NodeId,
    listed: &[u16],
    given: &mut Given,
    changes: &mut Vec<Change>,
) -> Result<bool, Memory>
    requires search { IsSearch search.now }
    requires placed { length places.now ≡ length search.now.mapper.wiring.now.nodes }
    requires listed { listed.now ≡ numbers_of 0 (is_on places.now node.0) search.now.mapper.ends.now }
    requires idle { IsIdle search.now.mapper.lab.now given.old }
    ensures idle { OnOk result (IsIdle search.now.mapper.lab.now given.new) }
    ensures given { IfOk result (λ yes. yes ≡ true → IsNoted search.now.mapper.lab.now search.now.table.now.rows.items search.now.mapper.ends.now places.now
        node.0 changes.old.items changes.new.items) }
    ensures none { IfOk result (λ yes. yes ≡ false
        → plugs_from search.now.mapper.lab.now places.now (filter (is_on places.now node.0) search.now.mapper.ends.now) ≡ None) }
{
    let ifaces = search.mapper.ifaces.of(node);
    if are_in_order(search.mapper.ends, listed, ifaces) {
        note_in_order(&search.table.rows, listed, ifaces, changes)?;
        return Ok(true);
    }
    let yes = serve_noted(search, places, node, listed, given, changes)?;
    given.clear(alloc, search.mapper.lab);
    Ok(yes)
}

/// Whether a virtual node is the only one on a node.
fn is_alone(places: &[Place], hosting: &Hosting, node: NodeId, virt: usize) -> bool
    requires virt { virt < length places.now }
    requires node { node.0 < length hosting.now.hosted.items }
    ensures { result ≡ ((slice_index_or hosting.now.hosted.items node.0 0 == 1) && ((slice_index_or places.now virt no_place).0.0 == node.0)) }
{
    hosting.hosted[node.0 as usize] == 1 && places[virt].0.0 == node.0
}

/// Gives the ends on a node their interfaces, and notes them; false where some end gets none. The virtual node may be the
/// only one there.
pub(crate) fn give(
    alloc: Global,
    search: &Search,
    mapping: &Mapping,
    hosting: &Hosting,
    node: NodeId,
    virt: usize,
    listed: &mut Vec<u16>,
    given: &mut Given,
    changes: &mut Vec<Change>,
) -> Result<bool, Memory>
    requires search { IsSearch search.now }
    requires shaped { IsShaped search.now.mapper.lab.now search.now.mapper.wiring.now mapping.now }
    requires hosting { IsHosting search.now.mapper.lab.now search.now.mapper.wiring.now mapping.now hosting.now }
    requires node { node.0 < length search.now.mapper.lab.now.nodes }
    requires virt { virt < length search.now.mapper.wiring.now.nodes }
    requires idle { IsIdle search.now.mapper.lab.now given.old }
    ensures idle { OnOk result (IsIdle search.now.mapper.lab.now given.new) }
    ensures given { IfOk result (λ yes. yes ≡ true → IsNoted search.now.mapper.lab.now search.now.table.now.rows.items search.now.mapper.ends.now
        mapping.now.places node.0 changes.old.items changes.new.items) }
    ensures none { IfOk result (λ yes. yes ≡ false
        → plugs_from search.now.mapper.lab.now mapping.now.places (filter (is_on mapping.now.places node.0) search.now.mapper.ends.now) ≡ None) }
{
    let places = mapping.places.as_slice();
    if hosting.hosted[node.0 as usize] == 0 {
        return Ok(true);
    }
    if is_alone(places, hosting, node, virt) {
        let own = search.table.own[virt].as_slice();
        return give_listed(alloc, search, places, node, own, given, changes);
    }
    list_ends(listed, search, &hosting.hosts, node)?;
    give_listed(alloc, search, places, node, listed, given, changes)
}
