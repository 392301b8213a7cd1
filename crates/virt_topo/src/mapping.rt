ghost use Rattle.std.specs.Prelude.{◌≡◌, ◌<◌, ◌≤◌, ◌*◌, ◌-◌, true, length, All, IfOk, min};
ghost use Rattle.virt_topo.specs.Ends.{end_nodes};
ghost use Rattle.virt_topo.specs.Cables.{cables, cut_use, cable_use, plugs_on};
ghost use Rattle.virt_topo.specs.Soundness.{keeps_limits};

use crate::limits::{MAX_KBPS, MAX_SEGMENT_ENDS};
use crate::{Segment, Wiring};
use lab_base::{IfaceId, Items, Memory, Name, NodeId, Tags};
use std::alloc::Global;

/// A mapping of a wiring onto a lab.
#[derive(Drop)]
pub struct Mapping {
    /// By virtual node, its node, and one of that node's types.
    pub places: Items<(NodeId, Name)>,
    /// By end, its interface. The ends are ordered by segment, then by place in the segment.
    pub plugs: Items<IfaceId>,
}

/// A wiring with its mapping, and by segment its VLAN id.
#[derive(Drop)]
pub struct Mapped {
    pub wiring: Wiring,
    pub mapping: Mapping,
    pub tags: Tags,
}

/// The number of plugs on a side, which is given by interface.
fn plugs_on(side: &[bool], plugs: &[IfaceId]) -> usize
    requires { All (λ i. i.0 < length side.now) plugs.now }
    ensures { result ≡ plugs_on side.now plugs.now }
{
    plugs.iter().filter(|plug| side[plug.0 as usize]).count()
}

/// The kbps that a segment with these plugs uses of the cut between a side and the rest.
fn segment_use(side: &[bool], segment: &Segment, plugs: &[IfaceId]) -> u64
    requires within { All (λ i. i.0 < length side.now) plugs.now }
    requires few { length plugs.now ≤ MAX_SEGMENT_ENDS }
    requires slow { segment.now.kbps ≤ MAX_KBPS }
    ensures { result ≡ cable_use side.now (record { segment = segment.now; plugs = plugs.now }) }
{
    let on_side = plugs_on(side, plugs);
    on_side.min(plugs.len() - on_side) as u64 * segment.kbps
}

impl Mapping {
    /// An equal mapping, in memory of its own.
    pub fn copy(&self, alloc: Global) -> Result<Mapping, Memory>
        ensures { IfOk result (λ copy. copy ≡ self.now) }
    {
        let places = self.places.copy(alloc)?;
        let plugs = self.plugs.copy(alloc)?;
        Ok(Mapping { places, plugs })
    }

    /// The kbps that the segments use of the cut between a side and the rest. `first` tells by interface whether it is on that side.
    /// Each segment uses its kbps once for each plug on that side, or for each other plug, whichever are fewer.
    pub fn cut_use(&self, wiring: &Wiring, first: &[bool]) -> u64
        requires limits { keeps_limits wiring.now ≡ true }
        requires plugged { length self.now.plugs ≡ length (end_nodes wiring.now.segments) }
        requires sides { All (λ i. i.0 < length first.now) self.now.plugs }
        ensures { result ≡ cut_use first.now (cables wiring.now.segments self.now.plugs) }
    {
        let mut used = 0;
        let mut rest = self.plugs.as_slice();
        for segment in wiring.segments.as_slice() {
            let (own, later) = rest.split_at(segment.ends.len());
            used += segment_use(first, segment, own);
            rest = later;
        }
        used
    }
}
