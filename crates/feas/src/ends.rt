// The virtual nodes of the ends of a wiring.
ghost use Rattle.std.specs.Prelude.{◌≡◌, ◌++◌, map, IfOk, OnOk};
ghost use Rattle.virt_topo.specs.Ends.{end_nodes};

use lab_base::Memory;
use std::alloc::Global;
use virt_topo::{Segment, VirtEnd};

fn push_nodes(listed: &mut Vec<u16>, ends: &[VirtEnd]) -> Result<(), Memory>
    ensures { OnOk result (listed.new.items ≡ listed.old.items ++ map (λ e. e.node) ends.now) }
{
    for end in ends {
        listed.push(end.node)?;
    }
    Ok(())
}

pub(crate) fn end_nodes(alloc: Global, segments: &[Segment]) -> Result<Vec<u16>, Memory>
    ensures { IfOk result (λ listed. listed.items ≡ end_nodes segments.now) }
{
    let mut listed = Vec::new(alloc);
    for segment in segments {
        push_nodes(&mut listed, segment.ends.as_slice())?;
    }
    Ok(listed)
}
