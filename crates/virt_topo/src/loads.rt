// The loads of ends on their interfaces.
ghost use Rattle.std.specs.Prelude.{◌≡◌, ◌<◌, ◌≤◌, ◌++◌, length, replicate, IfOk, OnOk};
ghost use Rattle.virt_topo.specs.Loads.{load_of, loads_from};

use crate::Segment;
use crate::limits::MAX_SEGMENTS;
use lab_base::Memory;
use std::alloc::Global;

/// The load of an end on its interface: the kbps of its segment. The segment's number tells which loads are of one.
#[derive(Clone, Copy)]
pub struct Load {
    pub segment: u16,
    pub kbps: u64,
    pub multiplexed: bool,
}

fn push_loads(listed: &mut Vec<Load>, number: u16, segment: &Segment) -> Result<(), Memory>
    ensures { OnOk result (listed.new.items ≡ listed.old.items ++ replicate (length segment.now.ends) (load_of number segment.now)) }
{
    for _end in 0..segment.ends.len() {
        listed.push(Load {
            segment: number,
            kbps: segment.kbps,
            multiplexed: segment.multiplexed,
        })?;
    }
    Ok(())
}

/// By end, its load on its interface.
pub fn loads_of(alloc: Global, segments: &[Segment]) -> Result<Vec<Load>, Memory>
    requires { length segments.now ≤ MAX_SEGMENTS }
    ensures { IfOk result (λ listed. listed.items ≡ loads_from 0 segments.now) }
{
    let mut listed = Vec::new(alloc);
    for number in 0..segments.len() {
        push_loads(&mut listed, number as u16, &segments[number])?;
    }
    Ok(listed)
}
