// Whether a name, a type, a desire or an address of a wiring is given twice.
ghost use Rattle.std.specs.Prelude.{◌≡◌, ◌++◌, ◌||◌, ◌==◌};
ghost use Rattle.std.specs.List.{list_any};
ghost use Rattle.lab_base.specs.Names.{same_name};
ghost use Rattle.virt_topo.specs.Repeats.{stands_again};
ghost use Rattle.virt_topo.specs.Soundness.{all_ends, asks_class_name, has_same, has_twice, same_address, same_some};

use crate::{Asks, Class, Segment, VirtEnd, VirtNode, Wiring};
use lab_base::Name;

fn has_class(classes: &[Class], name: Name) -> bool
    ensures { result ≡ list_any (λ c. same_name name c.name) classes.now }
{
    classes.iter().any(|class| name == class.name)
}

fn repeat_class(classes: &[Class]) -> bool
    ensures { result ≡ stands_again (λ a b. same_name a.name b.name) classes.now }
{
    let mut rest = classes;
    while let Some((first, others)) = rest.split_first() {
        if has_class(others, first.name) {
            return true;
        }
        rest = others;
    }
    false
}

fn has_node(nodes: &[VirtNode], name: Name) -> bool
    ensures { result ≡ list_any (λ v. same_name name v.name) nodes.now }
{
    nodes.iter().any(|node| name == node.name)
}

fn repeat_node(nodes: &[VirtNode]) -> bool
    ensures { result ≡ stands_again (λ a b. same_name a.name b.name) nodes.now }
{
    let mut rest = nodes;
    while let Some((first, others)) = rest.split_first() {
        if has_node(others, first.name) {
            return true;
        }
        rest = others;
    }
    false
}

fn has_segment(segments: &[Segment], name: Name) -> bool
    ensures { result ≡ list_any (λ s. same_name name s.name) segments.now }
{
    segments.iter().any(|segment| name == segment.name)
}

fn repeat_segment(segments: &[Segment]) -> bool
    ensures { result ≡ stands_again (λ a b. same_name a.name b.name) segments.now }
{
    let mut rest = segments;
    while let Some((first, others)) = rest.split_first() {
        if has_segment(others, first.name) {
            return true;
        }
        rest = others;
    }
    false
}

fn has_type(types: &[Name], name: Name) -> bool
    ensures { result ≡ list_any (same_name name) types.now }
{
    types.iter().any(|other| name == *other)
}

/// Whether a type stands twice.
pub fn repeat_type(types: &[Name]) -> bool
    ensures { result ≡ stands_again same_name types.now }
{
    let mut rest = types;
    while let Some((first, others)) = rest.split_first() {
        if has_type(others, *first) {
            return true;
        }
        rest = others;
    }
    false
}

fn have_repeated_type(classes: &[Class]) -> bool
    ensures { result ≡ list_any (λ c. stands_again same_name c.types) classes.now }
{
    classes
        .iter()
        .any(|class| repeat_type(class.types.as_slice()))
}

fn has_desire(desires: &[(Name, u32)], name: Name) -> bool
    ensures { result ≡ list_any (λ d. same_name name d.0) desires.now }
{
    desires.iter().any(|desire| name == desire.0)
}

/// Whether a desire stands twice.
pub fn repeat_desire(desires: &[(Name, u32)]) -> bool
    ensures { result ≡ stands_again (λ a b. same_name a.0 b.0) desires.now }
{
    let mut rest = desires;
    while let Some((first, others)) = rest.split_first() {
        if has_desire(others, first.0) {
            return true;
        }
        rest = others;
    }
    false
}

fn have_repeated_desire(nodes: &[VirtNode]) -> bool
    ensures { result ≡ list_any (λ v. stands_again (λ a b. same_name a.0 b.0) v.desires) nodes.now }
{
    nodes
        .iter()
        .any(|node| repeat_desire(node.desires.as_slice()))
}

fn is_same_address(one: Option<u32>, other: Option<u32>) -> bool
    ensures { result ≡ same_some one other }
{
    match (one, other) {
        (Some(one), Some(other)) => one == other,
        (Some(_), None) => false,
        (None, _) => false,
    }
}

fn has_address(ends: &[VirtEnd], end: VirtEnd) -> bool
    ensures { result ≡ list_any (same_address end) ends.now }
{
    ends.iter()
        .any(|other| is_same_address(end.address, other.address))
}

fn have_address(segments: &[Segment], end: VirtEnd) -> bool
    ensures { result ≡ list_any (same_address end) (all_ends segments.now) }
{
    for segment in segments {
        if has_address(segment.ends.as_slice(), end) {
            return true;
        }
    }
    false
}

/// Whether an address of some ends stands again in these ends or in the segments after them.
fn repeat_address_in(ends: &[VirtEnd], later: &[Segment]) -> bool
    ensures { (result || stands_again same_address (all_ends later.now)) ≡ stands_again same_address (ends.now ++ all_ends later.now) }
{
    let mut rest = ends;
    while let Some((first, others)) = rest.split_first() {
        if has_address(others, *first) || have_address(later, *first) {
            return true;
        }
        rest = others;
    }
    false
}

fn repeat_address(segments: &[Segment]) -> bool
    ensures { result ≡ stands_again same_address (all_ends segments.now) }
{
    let mut rest = segments;
    while let Some((first, others)) = rest.split_first() {
        if repeat_address_in(first.ends.as_slice(), others) {
            return true;
        }
        rest = others;
    }
    false
}

fn is_class_name(classes: &[Class], name: Name) -> bool
    ensures { result ≡ list_any (λ c. same_name c.name name) classes.now }
{
    classes.iter().any(|class| class.name == name)
}

fn asks_class_name(classes: &[Class], asks: &Asks) -> bool
    ensures { result ≡ asks_class_name classes.now asks.now }
{
    match asks {
        Asks::Plain(kind) => is_class_name(classes, *kind),
        Asks::Class(_) => false,
    }
}

fn ask_class_name(classes: &[Class], nodes: &[VirtNode]) -> bool
    ensures { result ≡ list_any (λ v. asks_class_name classes.now v.asks) nodes.now }
{
    nodes
        .iter()
        .any(|node| asks_class_name(classes, &node.asks))
}

/// Whether the wiring gives a name, a type, a desire or an address twice.
pub fn has_twice(wiring: &Wiring) -> bool
    ensures { result ≡ has_twice wiring.now }
{
    let classes = wiring.classes.as_slice();
    let nodes = wiring.nodes.as_slice();
    let segments = wiring.segments.as_slice();
    repeat_class(classes)
        || repeat_node(nodes)
        || repeat_segment(segments)
        || have_repeated_type(classes)
        || have_repeated_desire(nodes)
        || repeat_address(segments)
        || ask_class_name(classes, nodes)
}

fn has_end_on(ends: &[VirtEnd], node: u16) -> bool
    ensures { result ≡ list_any (λ e. node == e.node) ends.now }
{
    ends.iter().any(|end| node == end.node)
}

/// Whether two ends are on one virtual node.
pub fn repeat_node_of(ends: &[VirtEnd]) -> bool
    ensures { result ≡ stands_again (λ a b. a.node == b.node) ends.now }
{
    let mut rest = ends;
    while let Some((first, others)) = rest.split_first() {
        if has_end_on(others, first.node) {
            return true;
        }
        rest = others;
    }
    false
}

/// Whether a segment has two ends on one virtual node.
pub fn has_same(wiring: &Wiring) -> bool
    ensures { result ≡ has_same wiring.now }
{
    wiring
        .segments
        .as_slice()
        .iter()
        .any(|segment| repeat_node_of(segment.ends.as_slice()))
}
