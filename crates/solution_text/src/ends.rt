// The ends of a wiring by their virtual nodes.
ghost use Rattle.std.specs.Prelude.{◌≡◌, ◌++◌, [], map, nat_eq, unwrap_or, IfOk, OnOk};
ghost use Rattle.indexmap.specs.IndexMap.{get};
ghost use Rattle.virt_topo.specs.Ends.{end_nodes};
ghost use Rattle.solution_text.specs.CanonicalSolution.{end_keys};

use indexmap::IndexMap;
use lab_base::{Items, Memory};
use std::alloc::Global;
use virt_topo::{Segment, VirtEnd};

fn push_nodes(listed: &mut Items<usize>, ends: &[VirtEnd]) -> Result<(), Memory>
    ensures { OnOk result (listed.new ≡ listed.old ++ map (λ e. e.node) ends.now) }
{
    for end in ends {
        listed.push(usize::from(end.node))?;
    }
    Ok(())
}

/// By end, its virtual node.
pub(crate) fn end_nodes(alloc: Global, segments: &[Segment]) -> Result<Items<usize>, Memory>
    ensures { IfOk result (λ listed. listed ≡ end_nodes segments.now) }
{
    let mut listed = Items::new(alloc);
    for segment in segments {
        push_nodes(&mut listed, segment.ends.as_slice())?;
    }
    Ok(listed)
}

/// The number of ends that a virtual node has so far.
fn counted(counts: &IndexMap<usize, usize>, node: usize) -> usize
    ensures { result ≡ unwrap_or (get nat_eq counts.now node) 0 }
{
    match counts.get(&node) {
        Some(count) => *count,
        None => 0,
    }
}

fn keys_of(alloc: Global, nodes: &[usize]) -> Result<Items<(usize, usize)>, Memory>
    ensures { IfOk result (λ keys. keys ≡ end_keys [] nodes.now) }
{
    let mut counts = IndexMap::new(alloc);
    let mut keys = Items::new(alloc);
    for node in nodes {
        let earlier = counted(&counts, *node);
        keys.push((*node, earlier))?;
        counts.insert(*node, earlier + 1)?;
    }
    Ok(keys)
}

/// By end, its virtual node, and the number of earlier ends that this one has.
pub(crate) fn end_keys(alloc: Global, segments: &[Segment]) -> Result<Items<(usize, usize)>, Memory>
    ensures { IfOk result (λ keys. keys ≡ end_keys [] (end_nodes segments.now)) }
{
    let nodes = end_nodes(alloc, segments)?;
    keys_of(alloc, nodes.as_slice())
}
