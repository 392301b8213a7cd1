// The ends of a wiring, each with what it puts on its interface.
ghost use Rattle.std.specs.Prelude.{◌≡◌, ◌≤◌, ◌++◌, map, length, IfOk, OnOk};
ghost use Rattle.node_maps.specs.NodeMaps.{segment_end, ends_of};

use lab_base::Memory;
use std::alloc::Global;
use virt_topo::{MAX_SEGMENTS, Segment};

/// An end of a segment.
#[derive(Clone, Copy)]
pub struct End {
    /// The number of its virtual node.
    pub node: u16,
    /// The number of its segment.
    pub segment: u16,
    /// Whether its segment is multiplexed.
    pub multiplexed: bool,
    /// The bandwidth of its segment.
    pub kbps: u64,
}

fn push_ends(listed: &mut Vec<End>, number: u16, segment: &Segment) -> Result<(), Memory>
    ensures { OnOk result (listed.new.items ≡ listed.old.items ++ map (segment_end number segment.now) segment.now.ends) }
{
    for end in segment.ends.as_slice() {
        listed.push(End {
            node: end.node,
            segment: number,
            multiplexed: segment.multiplexed,
            kbps: segment.kbps,
        })?;
    }
    Ok(())
}

/// The ends of segments, by segment, then by place in the segment.
pub fn ends_of(alloc: Global, segments: &[Segment]) -> Result<Vec<End>, Memory>
    requires { length segments.now ≤ MAX_SEGMENTS }
    ensures { IfOk result (λ listed. listed.items ≡ ends_of segments.now) }
{
    let mut listed = Vec::new(alloc);
    for number in 0..segments.len() {
        push_ends(&mut listed, number as u16, &segments[number])?;
    }
    Ok(listed)
}
