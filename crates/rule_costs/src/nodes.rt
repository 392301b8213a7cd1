// The nodes in use of the virtual nodes that moved.
ghost use Rattle.std.specs.Prelude.{◌≡◌, ◌<◌, ◌≤◌, ◌+◌, ◌++◌, not, length, drop, slice_index_or};
ghost use Rattle.std.specs.List.{list_any};
ghost use Rattle.lab_model.specs.Rules.{no_place};
ghost use Rattle.cost_rule.specs.Cost.{same_node, nodes_in_use};
ghost use Rattle.rule_costs.specs.Moved.{IsDifference};
ghost use Rattle.rule_costs.specs.Nodes.{nodes_of, beyond};

use crate::moved::Moved;
use cost_rule::is_on;
use lab_base::{Name, NodeId};
use virt_topo::Mapping;

/// Whether a virtual node is the last of the first places on its node, and none of the others is on that node.
fn is_left(first: &[(NodeId, Name)], others: &[(NodeId, Name)], virt: usize) -> bool
    requires virt { virt < length first.now }
    requires alike { length first.now ≡ length others.now }
    ensures { result ≡ not (list_any (same_node (slice_index_or first.now virt no_place).0.0) (nodes_of (drop (virt + 1) first.now) ++ nodes_of others.now)) }
{
    let place = first[virt];
    if place.0.0 == others[virt].0.0 {
        return false;
    }
    if is_on(place.0, others) {
        return false;
    }
    let later = &first[virt + 1..];
    !is_on(place.0, later)
}

/// The number of nodes that the first places use, and the others don't. They are nodes of virtual nodes that moved.
fn nodes_beyond(first: &[(NodeId, Name)], others: &[(NodeId, Name)]) -> u64
    requires alike { length first.now ≡ length others.now }
    ensures number { result ≡ beyond (nodes_of first.now) (nodes_of others.now) }
    ensures few { result ≤ length first.now }
{
    let mut nodes = 0;
    for virt in 0..first.len() {
        nodes += u64::from(is_left(first, others, virt));
    }
    nodes
}

/// The number of nodes that only one of two mappings uses, for each of them.
pub(crate) fn moved_nodes(from: &Mapping, to: &Mapping) -> Moved
    requires alike { length from.now.places ≡ length to.now.places }
    ensures difference { IsDifference (nodes_in_use from.now) (nodes_in_use to.now) result }
    ensures before { result.before ≤ length from.now.places }
    ensures after { result.after ≤ length from.now.places }
{
    let old = from.places.as_slice();
    let new = to.places.as_slice();
    Moved {
        before: nodes_beyond(old, new),
        after: nodes_beyond(new, old),
    }
}
