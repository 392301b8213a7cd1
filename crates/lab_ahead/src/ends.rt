// Nodes left for a run, from the ends of the runs before it on.
ghost use Rattle.std.specs.Prelude.{◌≡◌, ◌<◌, ◌≤◌, ◌↔◌, ℕ, List, [], length, map, slice_index_or, All, IfOk, false};
ghost use Rattle.lab_base.specs.Lists.{Has, AllDiffer};
ghost use Rattle.lab_base.specs.declared.ids.NodeId.{NodeId as AnyNode};
ghost use Rattle.lab_ahead.specs.declared.ends.End.{End as AnyEnd};
ghost use Rattle.lab_ahead.specs.Moments.{left_at};
ghost use Rattle.lab_ahead.specs.Ends.{IsLeftAt, run_end, from_of, is_placed, left_of, left_for};

use crate::times::Left;
use lab_base::{Items, Memory, Name, NodeId};
use phys_lab::MAX_LAB_NODES;
use std::alloc::Global;

/// An experiment that a batch swapped in, and the moment at which its run ends.
#[derive(Clone, Copy, PartialEq, Eq)]
pub struct End {
    pub exp: Name,
    pub at: u64,
}

/// When the run of an experiment ends, if the batch swapped it in.
fn run_end(ends: &[End], exp: Name) -> Option<u64>
    ensures { result ≡ run_end ends.now exp }
{
    for end in ends {
        if end.exp == exp {
            return Some(end.at);
        }
    }
    None
}

/// From when on a node is left that these experiments claim.
fn from_of(ends: &[End], claimers: &[Name]) -> Option<u64>
    ensures { result ≡ from_of ends.now claimers.now }
{
    match claimers {
        [] => Some(0),
        [exp] => run_end(ends, *exp),
        _ => None,
    }
}

fn is_placed(places: &[(NodeId, Name)], node: NodeId) -> bool
    ensures { result ≡ is_placed places.now node }
{
    places.iter().any(|place| place.0 == node)
}

fn left_of(ends: &[End], places: &[(NodeId, Name)], node: NodeId, claimers: &[Name]) -> Option<Left>
    ensures { result ≡ left_of ends.now places.now node claimers.now }
{
    if is_placed(places, node) {
        return None;
    }
    match from_of(ends, claimers) {
        Some(from) => Some(Left { node, from }),
        None => None,
    }
}

/// The nodes that are left for a run with these places, each from when on: one that no experiment claims at once, and one that
/// a single experiment claims, which the batch swapped in, from its run's end on. The nodes of the places are not left.
/// `claimers` tells of each node of the lab which experiments claim it.
pub fn left_for(
    alloc: Global,
    claimers: &[Items<Name>],
    ends: &[End],
    places: &[(NodeId, Name)],
) -> Result<Items<Left>, Memory>
    requires { length claimers.now ≤ MAX_LAB_NODES }
    ensures left { IfOk result (λ left. left ≡ left_for claimers.now ends.now places.now) }
    ensures differ { IfOk result (λ left. AllDiffer (map (λ entry. entry.node) left)) }
    ensures of_lab { IfOk result (All (λ entry. entry.node.0 < length claimers.now)) }
{
    let mut left = Items::new(alloc);
    for n in 0..claimers.len() {
        if let Some(entry) = left_of(ends, places, NodeId(n as u16), claimers[n].as_slice()) {
            left.push(entry)?;
        }
    }
    Ok(left)
}

/// A law of what is left: at a moment exactly the nodes of the lab are left that the run has no place on and that no experiment
/// claims, or one alone whose run has ended.
pub fn left_nodes()
    ensures { (claimers : List (List (List ℕ))) (ends : List AnyEnd) (places : List (AnyNode × List ℕ)) (t : ℕ) (node : AnyNode)
        → Has (left_at (left_for claimers ends places) t) node
        ↔ ((node.0 < length claimers) × (is_placed places node ≡ false) × IsLeftAt ends (slice_index_or claimers node.0 []) t) }
{}
