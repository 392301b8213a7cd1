// Copies of wirings.
ghost use Rattle.std.specs.Prelude.{◌≡◌, IfOk};

use crate::{Class, Segment, VirtNode, Wiring};
use lab_base::{Items, Memory};
use std::alloc::Global;

fn copy_class(alloc: Global, class: &Class) -> Result<Class, Memory>
    ensures { IfOk result (λ copy. copy ≡ class.now) }
{
    let types = class.types.copy(alloc)?;
    Ok(Class {
        name: class.name,
        weight: class.weight,
        types,
    })
}

/// An equal list of classes, in memory of its own. The one error is `Memory`.
pub fn copy_classes(alloc: Global, classes: &[Class]) -> Result<Items<Class>, Memory>
    ensures { IfOk result (λ copy. copy ≡ classes.now) }
{
    let mut copy = Items::new(alloc);
    for class in classes {
        copy.push(copy_class(alloc, class)?)?;
    }
    Ok(copy)
}

fn copy_node(alloc: Global, node: &VirtNode) -> Result<VirtNode, Memory>
    ensures { IfOk result (λ copy. copy ≡ node.now) }
{
    let desires = node.desires.copy(alloc)?;
    Ok(VirtNode {
        name: node.name,
        asks: node.asks,
        desires,
        os: node.os,
        fixed: node.fixed,
    })
}

fn copy_nodes(alloc: Global, nodes: &[VirtNode]) -> Result<Items<VirtNode>, Memory>
    ensures { IfOk result (λ copy. copy ≡ nodes.now) }
{
    let mut copy = Items::new(alloc);
    for node in nodes {
        copy.push(copy_node(alloc, node)?)?;
    }
    Ok(copy)
}

fn copy_segment(alloc: Global, segment: &Segment) -> Result<Segment, Memory>
    ensures { IfOk result (λ copy. copy ≡ segment.now) }
{
    let ends = segment.ends.copy(alloc)?;
    Ok(Segment {
        name: segment.name,
        owner: segment.owner,
        kbps: segment.kbps,
        multiplexed: segment.multiplexed,
        ends,
    })
}

fn copy_segments(alloc: Global, segments: &[Segment]) -> Result<Items<Segment>, Memory>
    ensures { IfOk result (λ copy. copy ≡ segments.now) }
{
    let mut copy = Items::new(alloc);
    for segment in segments {
        copy.push(copy_segment(alloc, segment)?)?;
    }
    Ok(copy)
}

impl Wiring {
    /// An equal wiring, in memory of its own.
    pub fn copy(&self, alloc: Global) -> Result<Wiring, Memory>
        ensures { IfOk result (λ copy. copy ≡ self.now) }
    {
        let classes = copy_classes(alloc, self.classes.as_slice())?;
        let nodes = copy_nodes(alloc, self.nodes.as_slice())?;
        let segments = copy_segments(alloc, self.segments.as_slice())?;
        let pipes = self.pipes.copy(alloc)?;
        Ok(Wiring {
            classes,
            nodes,
            segments,
            pipes,
        })
    }
}
