// Nodes and classes that a step from one map to another touches.
ghost use Rattle.std.specs.Prelude.{◌≡◌, ◌≢◌, ◌<◌, ◌≤◌, ◌⊎◌, ℕ, true, false, length, slice_index_or, slice_set, All, IfOk, IsTrue};
ghost use Rattle.virt_topo.specs.Wirings.{virt_at};
ghost use Rattle.lab_model.specs.Rules.{is_member, place_at};
ghost use Rattle.lab_model.specs.Uses.{switch_of};
ghost use Rattle.node_maps.specs.declared.ends.End.{End as EndSeen};
ghost use Rattle.map_state.specs.Nodes.{no_end};
ghost use Rattle.map_state.specs.Tables.{IsSearch};
ghost use Rattle.map_anneal.specs.Sought.{IsNodeMap};
ghost use Rattle.map_anneal.specs.Searches.{sought_of};
ghost use Rattle.map_anneal.specs.Steps.{HasTwo, IsStaying, IsStep, KeepsTypes, StaysAt};

use cost_rule::StepRule;
use lab_base::{IfaceId, Memory, Name};
use map_state::Search;
use node_maps::End;
use phys_lab::Lab;
use std::alloc::Global;
use virt_topo::{Asks, MAX_ENDS, Mapping, Wiring};

/// Whether a place of a list is marked; those beyond its end are.
pub(crate) fn is_marked(marks: &[bool], number: u16) -> bool
    ensures { result ≡ slice_index_or marks.now number true }
{
    match marks.get(number as usize) {
        Some(mark) => *mark,
        None => true,
    }
}

/// Sets a place of a list, if it has it.
fn set_mark(marks: &mut Vec<bool>, number: u16, mark: bool)
    ensures { marks.new.items ≡ slice_set marks.old.items number mark }
{
    if (number as usize) < marks.len() {
        marks[number as usize] = mark;
    }
}

/// Whether two plugs are on one switch.
fn is_one_switch(lab: &Lab, one: IfaceId, other: IfaceId) -> bool
    requires one { one.0 < length lab.now.ifaces }
    requires other { other.0 < length lab.now.ifaces }
    ensures { IsTrue result → switch_of lab.now one ≡ switch_of lab.now other }
{
    let ifaces = lab.ifaces();
    ifaces[one.0 as usize].switch.0 == ifaces[other.0 as usize].switch.0
}

/// Notes that a segment isn't still, where two plugs of it are on two switches.
fn note_end(still: &mut Vec<bool>, lab: &Lab, one: IfaceId, other: IfaceId, segment: u16)
    requires one { one.0 < length lab.now.ifaces }
    requires other { other.0 < length lab.now.ifaces }
    ensures kept { (s : ℕ) → slice_index_or still.new.items s false ≡ true → slice_index_or still.old.items s false ≡ true }
    ensures own { slice_index_or still.new.items segment false ≡ true → switch_of lab.now one ≡ switch_of lab.now other }
{
    if !is_one_switch(lab, one, other) {
        set_mark(still, segment, false);
    }
}

/// By segment whether all its plugs stay on their switches.
fn still_segments(
    alloc: Global,
    search: &Search,
    last: &Mapping,
    next: &Mapping,
) -> Result<Vec<bool>, Memory>
    requires few { length search.now.mapper.ends.now ≤ MAX_ENDS }
    requires last { length last.now.plugs ≡ length search.now.mapper.ends.now }
    requires next { length next.now.plugs ≡ length search.now.mapper.ends.now }
    requires last_in { All (λ i. i.0 < length search.now.mapper.lab.now.ifaces) last.now.plugs }
    requires next_in { All (λ i. i.0 < length search.now.mapper.lab.now.ifaces) next.now.plugs }
    ensures { IfOk result (λ still. (e : ℕ) → e < length search.now.mapper.ends.now
        → slice_index_or still.items (slice_index_or search.now.mapper.ends.now e no_end).segment false ≡ true
        → StaysAt search.now.mapper.lab.now last.now next.now e) }
{
    let mapper = search.mapper;
    let mut still = vec![in alloc; true; mapper.wiring.segments.len()]?;
    for number in 0..mapper.ends.len() {
        let one = last.plugs.as_slice()[number];
        let other = next.plugs.as_slice()[number];
        note_end(
            &mut still,
            mapper.lab,
            one,
            other,
            mapper.ends[number].segment,
        );
    }
    Ok(still)
}

/// Marks the nodes that a virtual node leaves and takes, where it goes to another place.
fn mark_place(marks: &mut Vec<bool>, last: &Mapping, next: &Mapping, virt: usize)
    requires last { virt < length last.now.places }
    requires next { virt < length next.now.places }
    ensures kept { (n : ℕ) → slice_index_or marks.new.items n true ≡ false → slice_index_or marks.old.items n true ≡ false }
    ensures aside { (n : ℕ) → slice_index_or marks.new.items n true ≡ false
        → (place_at last.now virt ≡ place_at next.now virt) ⊎ ((place_at last.now virt).0.0 ≢ n) × ((place_at next.now virt).0.0 ≢ n) }
{
    let one = last.places.as_slice()[virt];
    let other = next.places.as_slice()[virt];
    if one != other {
        set_mark(marks, one.0.0, true);
        set_mark(marks, other.0.0, true);
    }
}

/// Marks the nodes that virtual nodes leave and take.
fn mark_places(marks: &mut Vec<bool>, last: &Mapping, next: &Mapping)
    requires { length last.now.places ≡ length next.now.places }
    ensures kept { (n : ℕ) → slice_index_or marks.new.items n true ≡ false → slice_index_or marks.old.items n true ≡ false }
    ensures aside { (n : ℕ) → slice_index_or marks.new.items n true ≡ false → (u : ℕ) → u < length last.now.places
        → (place_at last.now u ≡ place_at next.now u) ⊎ ((place_at last.now u).0.0 ≢ n) × ((place_at next.now u).0.0 ≢ n) }
{
    for virt in 0..last.places.len() {
        mark_place(marks, last, next, virt);
    }
}

/// Whether all plugs of a segment stay on their switches, as is noted.
fn is_still(still: &[bool], segment: u16) -> bool
    ensures { result ≡ slice_index_or still.now segment false }
{
    match still.get(segment as usize) {
        Some(yes) => *yes,
        None => false,
    }
}

/// Marks the node of an end, where its segment isn't still.
fn mark_end(marks: &mut Vec<bool>, last: &Mapping, still: &[bool], end: End)
    requires { end.node < length last.now.places }
    ensures kept { (n : ℕ) → slice_index_or marks.new.items n true ≡ false → slice_index_or marks.old.items n true ≡ false }
    ensures aside { (n : ℕ) → slice_index_or marks.new.items n true ≡ false → slice_index_or still.now end.segment false ≡ false
        → (place_at last.now end.node).0.0 ≢ n }
{
    let node = last.places.as_slice()[end.node as usize].0;
    if !is_still(still, end.segment) {
        set_mark(marks, node.0, true);
    }
}

/// Marks the nodes of the ends of segments that aren't still.
fn mark_ends(marks: &mut Vec<bool>, last: &Mapping, still: &[bool], ends: &[End])
    requires { All (λ (e : EndSeen). e.node < length last.now.places) ends.now }
    ensures kept { (n : ℕ) → slice_index_or marks.new.items n true ≡ false → slice_index_or marks.old.items n true ≡ false }
    ensures aside { (n : ℕ) → slice_index_or marks.new.items n true ≡ false → (e : ℕ) → e < length ends.now
        → slice_index_or still.now (slice_index_or ends.now e no_end).segment false ≡ false
        → (place_at last.now (slice_index_or ends.now e no_end).node).0.0 ≢ n }
{
    for end in ends {
        mark_end(marks, last, still, *end);
    }
}

/// By node whether a step touches it.
pub(crate) fn touched_nodes(
    alloc: Global,
    search: &Search,
    _rule: &StepRule,
    last: &Mapping,
    next: &Mapping,
) -> Result<Vec<bool>, Memory>
    requires search { IsSearch search.now }
    requires last { IsNodeMap (sought_of search.now _rule.now.number) last.now }
    requires next { IsNodeMap (sought_of search.now _rule.now.number) next.now }
    ensures { IfOk result (λ nodes. IsStep search.now.mapper.lab.now search.now.mapper.wiring.now last.now next.now nodes.items) }
{
    let mapper = search.mapper;
    let still = still_segments(alloc, search, last, next)?;
    let mut nodes = vec![in alloc; false; mapper.lab.nodes().len()]?;
    mark_places(&mut nodes, last, next);
    mark_ends(&mut nodes, last, &still, mapper.ends);
    Ok(nodes)
}

/// Whether a virtual node is a member of the class, stays where it is, and has that type.
fn is_staying(
    wiring: &Wiring,
    last: &Mapping,
    next: &Mapping,
    class: u16,
    kind: Name,
    virt: usize,
) -> bool
    requires virt { virt < length wiring.now.nodes }
    requires last { length last.now.places ≡ length wiring.now.nodes }
    requires next { length next.now.places ≡ length wiring.now.nodes }
    ensures { IsTrue result → IsStaying wiring.now last.now next.now class kind virt }
{
    let Asks::Class(own) = wiring.nodes.as_slice()[virt].asks else {
        return false;
    };
    let place = last.places.as_slice()[virt];
    own == class && place == next.places.as_slice()[virt] && place.1 == kind
}

/// Whether two members of the class stay where they are and have that type.
fn has_two(wiring: &Wiring, last: &Mapping, next: &Mapping, class: u16, kind: Name) -> bool
    requires last { length last.now.places ≡ length wiring.now.nodes }
    requires next { length next.now.places ≡ length wiring.now.nodes }
    ensures { IsTrue result → HasTwo wiring.now last.now next.now class kind }
{
    let mut found = false;
    let mut _first = 0;
    for virt in 0..wiring.nodes.len() {
        if is_staying(wiring, last, next, class, kind, virt) {
            if found {
                return true;
            }
            found = true;
            _first = virt;
        }
    }
    false
}

/// Whether a virtual node keeps its type, or both its types are those of two members of the class that stay.
fn keeps_type(wiring: &Wiring, last: &Mapping, next: &Mapping, class: u16, virt: usize) -> bool
    requires virt { virt < length wiring.now.nodes }
    requires last { length last.now.places ≡ length wiring.now.nodes }
    requires next { length next.now.places ≡ length wiring.now.nodes }
    ensures { IsTrue result
        → ((place_at last.now virt).1 ≡ (place_at next.now virt).1)
        ⊎ (HasTwo wiring.now last.now next.now class (place_at last.now virt).1 × HasTwo wiring.now last.now next.now class (place_at next.now virt).1) }
{
    let one = last.places.as_slice()[virt].1;
    let other = next.places.as_slice()[virt].1;
    one == other
        || has_two(wiring, last, next, class, one) && has_two(wiring, last, next, class, other)
}

/// Marks the class of a virtual node, where the step may change what its members cost.
fn mark_class(marks: &mut Vec<bool>, wiring: &Wiring, last: &Mapping, next: &Mapping, virt: usize)
    requires virt { virt < length wiring.now.nodes }
    requires last { length last.now.places ≡ length wiring.now.nodes }
    requires next { length next.now.places ≡ length wiring.now.nodes }
    ensures kept { (c : ℕ) → slice_index_or marks.new.items c true ≡ false → slice_index_or marks.old.items c true ≡ false }
    ensures own { (c : ℕ) → slice_index_or marks.new.items c true ≡ false → is_member c (virt_at wiring.now virt).asks ≡ true
        → ((place_at last.now virt).1 ≡ (place_at next.now virt).1)
        ⊎ (HasTwo wiring.now last.now next.now c (place_at last.now virt).1 × HasTwo wiring.now last.now next.now c (place_at next.now virt).1) }
{
    if let Asks::Class(class) = wiring.nodes.as_slice()[virt].asks {
        if !keeps_type(wiring, last, next, class, virt) {
            set_mark(marks, class, true);
        }
    }
}

/// By class whether a step may change what its members cost.
pub(crate) fn touched_classes(
    alloc: Global,
    wiring: &Wiring,
    last: &Mapping,
    next: &Mapping,
) -> Result<Vec<bool>, Memory>
    requires last { length last.now.places ≡ length wiring.now.nodes }
    requires next { length next.now.places ≡ length wiring.now.nodes }
    ensures { IfOk result (λ classes. (c : ℕ) → slice_index_or classes.items c true ≡ false → KeepsTypes wiring.now last.now next.now c) }
{
    let mut classes = vec![in alloc; false; wiring.classes.len()]?;
    for virt in 0..wiring.nodes.len() {
        mark_class(&mut classes, wiring, last, next, virt);
    }
    Ok(classes)
}
