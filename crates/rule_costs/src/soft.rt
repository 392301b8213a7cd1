// The unmet weights of the virtual nodes that moved, and of their classes.
ghost use Rattle.std.specs.Prelude.{◌≡◌, ◌<◌, ◌≤◌, ◌*◌, ◌↔◌, ◌+◌, ℕ, true, false, length};
ghost use Rattle.virt_topo.specs.Soundness.{IsSound};
ghost use Rattle.virt_topo.specs.Wirings.{virt_at};
ghost use Rattle.lab_model.specs.Shapes.{IsShaped};
ghost use Rattle.lab_model.specs.Rules.{is_member, place_at};
ghost use Rattle.cost_rule.specs.Cost.{sum_below, node_soft, class_soft, soft};
ghost use Rattle.rule_costs.specs.Moved.{IsDifference};

use crate::moved::Moved;
use cost_rule::{MAX_SOFT, class_soft, is_member, node_soft};
use phys_lab::{Lab, MAX_FEATURES};
use virt_topo::{MAX_CLASSES, MAX_DESIRES, MAX_SOFT_WEIGHT, MAX_TOPOLOGY_NODES, Mapping, Wiring};

/// Whether a virtual node has another place in one mapping than in the other.
fn has_moved(from: &Mapping, to: &Mapping, virt: usize) -> bool
    requires from { virt < length from.now.places }
    requires to { virt < length to.now.places }
    ensures { (result ≡ false) ↔ (place_at from.now virt ≡ place_at to.now virt) }
{
    from.places.as_slice()[virt] != to.places.as_slice()[virt]
}

/// The unmet weights of a virtual node at one place and at another one.
fn moved_node_soft(lab: &Lab, wiring: &Wiring, from: &Mapping, to: &Mapping, virt: usize) -> Moved
    requires sound { IsSound wiring.now }
    requires from { IsShaped lab.now wiring.now from.now }
    requires to { IsShaped lab.now wiring.now to.now }
    requires virt { virt < length wiring.now.nodes }
    ensures difference { IsDifference (node_soft lab.now wiring.now from.now virt) (node_soft lab.now wiring.now to.now virt) result }
    ensures before { result.before ≤ (MAX_DESIRES + MAX_FEATURES) * MAX_SOFT_WEIGHT }
    ensures after { result.after ≤ (MAX_DESIRES + MAX_FEATURES) * MAX_SOFT_WEIGHT }
{
    if !has_moved(from, to, virt) {
        return Moved::nothing();
    }
    Moved {
        before: node_soft(lab, wiring, from, virt),
        after: node_soft(lab, wiring, to, virt),
    }
}

/// The unmet weights of the virtual nodes that moved.
fn moved_nodes_soft(lab: &Lab, wiring: &Wiring, from: &Mapping, to: &Mapping) -> Moved
    requires sound { IsSound wiring.now }
    requires from { IsShaped lab.now wiring.now from.now }
    requires to { IsShaped lab.now wiring.now to.now }
    ensures difference { IsDifference (sum_below (length wiring.now.nodes) (node_soft lab.now wiring.now from.now))
        (sum_below (length wiring.now.nodes) (node_soft lab.now wiring.now to.now)) result }
    ensures before { result.before ≤ MAX_TOPOLOGY_NODES * ((MAX_DESIRES + MAX_FEATURES) * MAX_SOFT_WEIGHT) }
    ensures after { result.after ≤ MAX_TOPOLOGY_NODES * ((MAX_DESIRES + MAX_FEATURES) * MAX_SOFT_WEIGHT) }
{
    let mut before = 0;
    let mut after = 0;
    for virt in 0..wiring.nodes.len() {
        let moved = moved_node_soft(lab, wiring, from, to, virt);
        before += moved.before;
        after += moved.after;
    }
    Moved { before, after }
}

/// Whether a virtual node is a member of a class, and moved.
fn is_moved_member(wiring: &Wiring, from: &Mapping, to: &Mapping, class: u16, virt: usize) -> bool
    requires virt { virt < length wiring.now.nodes }
    requires from { length from.now.places ≡ length wiring.now.nodes }
    requires to { length to.now.places ≡ length wiring.now.nodes }
    ensures { result ≡ false → is_member class (virt_at wiring.now virt).asks ≡ true → place_at from.now virt ≡ place_at to.now virt }
{
    is_member(class, &wiring.nodes.as_slice()[virt].asks) && has_moved(from, to, virt)
}

/// Whether a member of a class moved.
fn has_moved_member(wiring: &Wiring, from: &Mapping, to: &Mapping, class: u16) -> bool
    requires from { length from.now.places ≡ length wiring.now.nodes }
    requires to { length to.now.places ≡ length wiring.now.nodes }
    ensures { result ≡ false → (v : ℕ) → v < length wiring.now.nodes → is_member class (virt_at wiring.now v).asks ≡ true
        → place_at from.now v ≡ place_at to.now v }
{
    for virt in 0..wiring.nodes.len() {
        if is_moved_member(wiring, from, to, class, virt) {
            return true;
        }
    }
    false
}

/// The cost of a class before and after a member moved.
fn moved_class_soft(wiring: &Wiring, from: &Mapping, to: &Mapping, class: usize) -> Moved
    requires sound { IsSound wiring.now }
    requires from { length from.now.places ≡ length wiring.now.nodes }
    requires to { length to.now.places ≡ length wiring.now.nodes }
    requires class { class < length wiring.now.classes }
    ensures difference { IsDifference (class_soft wiring.now from.now class) (class_soft wiring.now to.now class) result }
    ensures before { result.before ≤ MAX_SOFT_WEIGHT * MAX_TOPOLOGY_NODES }
    ensures after { result.after ≤ MAX_SOFT_WEIGHT * MAX_TOPOLOGY_NODES }
{
    if !has_moved_member(wiring, from, to, class as u16) {
        return Moved::nothing();
    }
    Moved {
        before: class_soft(wiring, from, class),
        after: class_soft(wiring, to, class),
    }
}

/// The costs of the classes with a member that moved.
fn moved_classes_soft(wiring: &Wiring, from: &Mapping, to: &Mapping) -> Moved
    requires sound { IsSound wiring.now }
    requires from { length from.now.places ≡ length wiring.now.nodes }
    requires to { length to.now.places ≡ length wiring.now.nodes }
    ensures difference { IsDifference (sum_below (length wiring.now.classes) (class_soft wiring.now from.now))
        (sum_below (length wiring.now.classes) (class_soft wiring.now to.now)) result }
    ensures before { result.before ≤ MAX_CLASSES * (MAX_SOFT_WEIGHT * MAX_TOPOLOGY_NODES) }
    ensures after { result.after ≤ MAX_CLASSES * (MAX_SOFT_WEIGHT * MAX_TOPOLOGY_NODES) }
{
    let mut before = 0;
    let mut after = 0;
    for class in 0..wiring.classes.len() {
        let moved = moved_class_soft(wiring, from, to, class);
        before += moved.before;
        after += moved.after;
    }
    Moved { before, after }
}

/// The unmet weights of the virtual nodes that moved, and of their classes.
pub(crate) fn moved_soft(lab: &Lab, wiring: &Wiring, from: &Mapping, to: &Mapping) -> Moved
    requires sound { IsSound wiring.now }
    requires from { IsShaped lab.now wiring.now from.now }
    requires to { IsShaped lab.now wiring.now to.now }
    ensures difference { IsDifference (soft lab.now wiring.now from.now) (soft lab.now wiring.now to.now) result }
    ensures before { result.before ≤ MAX_SOFT }
    ensures after { result.after ≤ MAX_SOFT }
{
    let nodes = moved_nodes_soft(lab, wiring, from, to);
    let classes = moved_classes_soft(wiring, from, to);
    Moved {
        before: nodes.before + classes.before,
        after: nodes.after + classes.after,
    }
}
