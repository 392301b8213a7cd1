// The weights of desires, features and classes that a mapping leaves unmet.
ghost use Rattle.std.specs.Prelude.{◌≡◌, ◌<◌, ◌≤◌, ◌*◌, ◌+◌, ◌-◌, ◌&&◌, not, length};
ghost use Rattle.std.specs.List.{list_any};
ghost use Rattle.lab_base.specs.Names.{same_name};
ghost use Rattle.virt_topo.specs.Soundness.{IsSound};
ghost use Rattle.virt_topo.specs.Wirings.{virt_at};
ghost use Rattle.lab_model.specs.Shapes.{IsShaped, has_name};
ghost use Rattle.lab_model.specs.Rules.{is_member, place_at};
ghost use Rattle.cost_rule.specs.Cost.{sum_below, missed_weight, missed, soft_at, node_soft, kinds_of, class_soft, soft};
ghost use Rattle.cost_rule.specs.Counting.{is_of_kind, types_from};

use lab_base::{Name, NodeId};
use lab_model::{node_at, place_at, virt_at};
use phys_lab::{Lab, MAX_FEATURES};
use virt_topo::{
    Asks, MAX_CLASSES, MAX_DESIRES, MAX_SOFT_WEIGHT, MAX_TOPOLOGY_NODES, Mapping, Wiring,
};

/// A bound on the unmet weights of a mapping, those of nodes and of classes together.
pub const MAX_SOFT: u64 = 1_000_000_000;

fn has_name(pairs: &[(Name, u32)], name: Name) -> bool
    ensures { result ≡ has_name pairs.now name }
{
    pairs.iter().any(|pair| pair.0 == name)
}

fn missed_weight(wanted: &(Name, u32), given: &[(Name, u32)]) -> u64
    ensures weight { result ≡ missed_weight given.now wanted.now }
    ensures small { result ≤ MAX_SOFT_WEIGHT }
{
    if wanted.1 < 1_000 && !has_name(given, wanted.0) {
        wanted.1 as u64
    } else {
        0
    }
}

/// The sum of the weights below 1,000 of those first names that are not among the others.
fn missed(wanted: &[(Name, u32)], given: &[(Name, u32)]) -> u64
    requires { length wanted.now ≤ MAX_FEATURES }
    ensures sum { result ≡ missed wanted.now given.now }
    ensures small { result ≤ MAX_FEATURES * MAX_SOFT_WEIGHT }
{
    let mut total = 0;
    for pair in wanted {
        total += missed_weight(pair, given);
    }
    total
}

/// The unmet weights of a virtual node on a node: its desires that the node doesn't have, and the node's features that it doesn't desire.
pub fn soft_at(lab: &Lab, wiring: &Wiring, virt: usize, node: NodeId) -> u64
    requires sound { IsSound wiring.now }
    requires virt { virt < length wiring.now.nodes }
    requires node { node.0 < length lab.now.nodes }
    ensures sum { result ≡ soft_at lab.now wiring.now virt node }
    ensures small { result ≤ (MAX_DESIRES + MAX_FEATURES) * MAX_SOFT_WEIGHT }
{
    // for the prover: it tells what every lab keeps
    let _kept = lab.range();
    let desires = virt_at(wiring, virt).desires.as_slice();
    let features = node_at(lab, node).features.as_slice();
    missed(desires, features) + missed(features, desires)
}

/// The unmet weights of a virtual node on the node that it is on.
pub fn node_soft(lab: &Lab, wiring: &Wiring, mapping: &Mapping, virt: usize) -> u64
    requires sound { IsSound wiring.now }
    requires shaped { IsShaped lab.now wiring.now mapping.now }
    requires virt { virt < length wiring.now.nodes }
    ensures sum { result ≡ node_soft lab.now wiring.now mapping.now virt }
    ensures small { result ≤ (MAX_DESIRES + MAX_FEATURES) * MAX_SOFT_WEIGHT }
{
    soft_at(lab, wiring, virt, place_at(mapping, virt).0)
}

fn nodes_soft(lab: &Lab, wiring: &Wiring, mapping: &Mapping) -> u64
    requires sound { IsSound wiring.now }
    requires shaped { IsShaped lab.now wiring.now mapping.now }
    ensures sum { result ≡ sum_below (length wiring.now.nodes) (node_soft lab.now wiring.now mapping.now) }
    ensures small { result ≤ MAX_TOPOLOGY_NODES * ((MAX_DESIRES + MAX_FEATURES) * MAX_SOFT_WEIGHT) }
{
    let mut total = 0;
    for virt in 0..wiring.nodes.len() {
        total += node_soft(lab, wiring, mapping, virt);
    }
    total
}

/// Whether a virtual node that asks so is a member of a class.
pub fn is_member(class: u16, asks: &Asks) -> bool
    ensures { result ≡ is_member class asks.now }
{
    match asks {
        Asks::Plain(_) => false,
        Asks::Class(other) => *other == class,
    }
}

/// Whether a virtual node is a member of a class and has the type.
fn is_of_kind(wiring: &Wiring, mapping: &Mapping, class: u16, kind: Name, virt: usize) -> bool
    requires virt { virt < length wiring.now.nodes }
    requires placed { length mapping.now.places ≡ length wiring.now.nodes }
    ensures { result ≡ is_of_kind wiring.now mapping.now class kind virt }
{
    is_member(class, &virt_at(wiring, virt).asks) && kind == place_at(mapping, virt).1
}

/// Whether a member of the class, from a virtual node on, has the type.
pub fn has_kind(wiring: &Wiring, mapping: &Mapping, class: u16, kind: Name, from: usize) -> bool
    requires placed { length mapping.now.places ≡ length wiring.now.nodes }
    ensures { result ≡ list_any (same_name kind) (types_from wiring.now mapping.now class from) }
{
    for virt in from..wiring.nodes.len() {
        if is_of_kind(wiring, mapping, class, kind, virt) {
            return true;
        }
    }
    false
}

/// Whether a virtual node is a member of a class, and the last one of its type.
fn is_last_of_kind(wiring: &Wiring, mapping: &Mapping, class: u16, virt: usize) -> bool
    requires few { length wiring.now.nodes ≤ MAX_TOPOLOGY_NODES }
    requires virt { virt < length wiring.now.nodes }
    requires placed { length mapping.now.places ≡ length wiring.now.nodes }
    ensures { result ≡ (is_member class (virt_at wiring.now virt).asks
        && not (list_any (same_name (place_at mapping.now virt).1) (types_from wiring.now mapping.now class (virt + 1)))) }
{
    is_member(class, &virt_at(wiring, virt).asks)
        && !has_kind(wiring, mapping, class, place_at(mapping, virt).1, virt + 1)
}

/// The number of different types that the members of a class have.
fn kinds_of(wiring: &Wiring, mapping: &Mapping, class: u16) -> usize
    requires few { length wiring.now.nodes ≤ MAX_TOPOLOGY_NODES }
    requires placed { length mapping.now.places ≡ length wiring.now.nodes }
    ensures number { result ≡ kinds_of wiring.now mapping.now class }
    ensures within { result ≤ length wiring.now.nodes }
{
    let mut kinds = 0;
    for virt in 0..wiring.nodes.len() {
        kinds += usize::from(is_last_of_kind(wiring, mapping, class, virt));
    }
    kinds
}

/// The cost of a class with a weight below 1,000: that weight for each type of its members but one.
pub fn class_soft(wiring: &Wiring, mapping: &Mapping, class: usize) -> u64
    requires sound { IsSound wiring.now }
    requires placed { length mapping.now.places ≡ length wiring.now.nodes }
    requires class { class < length wiring.now.classes }
    ensures sum { result ≡ class_soft wiring.now mapping.now class }
    ensures small { result ≤ MAX_SOFT_WEIGHT * MAX_TOPOLOGY_NODES }
{
    let weight = wiring.classes.as_slice()[class].weight;
    if weight < 1_000 {
        weight as u64 * kinds_of(wiring, mapping, class as u16).saturating_sub(1) as u64
    } else {
        0
    }
}

fn classes_soft(wiring: &Wiring, mapping: &Mapping) -> u64
    requires sound { IsSound wiring.now }
    requires placed { length mapping.now.places ≡ length wiring.now.nodes }
    ensures sum { result ≡ sum_below (length wiring.now.classes) (class_soft wiring.now mapping.now) }
    ensures small { result ≤ MAX_CLASSES * (MAX_SOFT_WEIGHT * MAX_TOPOLOGY_NODES) }
{
    let mut total = 0;
    for class in 0..wiring.classes.len() {
        total += class_soft(wiring, mapping, class);
    }
    total
}

/// The unmet weights of a mapping: of all virtual nodes, and of all classes.
pub(crate) fn soft(lab: &Lab, wiring: &Wiring, mapping: &Mapping) -> u64
    requires sound { IsSound wiring.now }
    requires shaped { IsShaped lab.now wiring.now mapping.now }
    ensures sum { result ≡ soft lab.now wiring.now mapping.now }
    ensures small { result ≤ MAX_SOFT }
{
    nodes_soft(lab, wiring, mapping) + classes_soft(wiring, mapping)
}
