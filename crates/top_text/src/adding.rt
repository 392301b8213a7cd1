// Adding the parts of a line to the wiring so far, and to its tables.
ghost use Rattle.std.specs.Prelude.{◌≡◌, ◌≤◌, ◌<◌, Ok, OnOk, IfOk, IfSome, map, length, is_some};
ghost use Rattle.virt_topo.specs.Wirings.{virt_at};
ghost use Rattle.line_text.specs.Refusals.{Takes};
ghost use Rattle.top_text.specs.Adding.{kept, with_class, with_node, end_at, segment_of, with_segment};
ghost use Rattle.top_text.specs.Adding.{pipe_of, with_pipe, with_place, placed, with_multiplexed, marked};
ghost use Rattle.top_text.specs.Tables.{IsReading};

use crate::lines::{End, LinkRead, NodeRead, PipeRead};
use crate::so_far::{SoFar, is_multiplexed};
use crate::tables::{join, put, put_ends, put_node, put_segment, repeats_addresses};
use lab_base::{Items, Kind, Memory, Name};
use line_text::LineFault;
use std::alloc::Global;
use std::mem::replace;
use virt_topo::{Class, MAX_SEGMENT_ENDS, Pipe, Segment, VirtEnd, VirtNode, Wiring};

fn ends_of(alloc: Global, so_far: &SoFar, ends: &[End]) -> Result<Items<VirtEnd>, Memory>
    requires { IsReading so_far.now }
    ensures { IfOk result (λ listed. listed ≡ map (end_at so_far.now.wiring) ends.now) }
{
    let mut listed = Items::new(alloc);
    for end in ends {
        listed.push(VirtEnd {
            node: so_far.virt_number(end.0),
            address: end.1,
        })?;
    }
    Ok(listed)
}

pub(crate) fn add_class(so_far: &mut SoFar, class: Class) -> Result<(), LineFault>
    requires { IsReading so_far.old }
    ensures takes { Takes result so_far.new.wiring (kept (with_class so_far.old.wiring class)) }
    ensures keeps { OnOk result (IsReading so_far.new) }
{
    so_far.check_class(&class)?;
    put(&mut so_far.tables.classes, class.name)?;
    so_far.wiring.classes.push(class)?;
    Ok(())
}

pub(crate) fn add_node(so_far: &mut SoFar, alloc: Global, read: NodeRead) -> Result<(), LineFault>
    requires { IsReading so_far.old }
    ensures takes { Takes result so_far.new.wiring (kept (with_node so_far.old.wiring read)) }
    ensures keeps { OnOk result (IsReading so_far.new) }
{
    let (name, (kind, (os, desires))) = read;
    let node = VirtNode {
        name,
        asks: so_far.asks_of(kind),
        desires,
        os,
        fixed: None,
    };
    so_far.check_node(&node)?;
    put(&mut so_far.tables.nodes, node.name)?;
    put_node(&mut so_far.tables.on_node, alloc)?;
    so_far.wiring.nodes.push(node)?;
    Ok(())
}

fn add_segment(so_far: &mut SoFar, segment: Segment) -> Result<(), LineFault>
    requires reading { IsReading so_far.old }
    requires few { length segment.ends ≤ MAX_SEGMENT_ENDS }
    ensures takes { Takes result so_far.new.wiring (kept (with_segment so_far.old.wiring segment)) }
    ensures keeps { OnOk result (IsReading so_far.new) }
{
    let ends = segment.ends.as_slice();
    let again = repeats_addresses(&mut so_far.tables.addresses, ends)?;
    so_far.check_segment(&segment, again)?;
    put(&mut so_far.tables.segments, segment.name)?;
    let number = so_far.wiring.segments.len() as u16;
    put_ends(&mut so_far.tables.on_node, number, ends)?;
    put_segment(&mut so_far.tables.joined)?;
    so_far.tables.ends += ends.len();
    so_far.wiring.segments.push(segment)?;
    Ok(())
}

pub(crate) fn add_link(so_far: &mut SoFar, alloc: Global, read: LinkRead) -> Result<(), LineFault>
    requires reading { IsReading so_far.old }
    requires few { length read.1.1.1 ≤ MAX_SEGMENT_ENDS }
    ensures takes { Takes result so_far.new.wiring (kept (with_segment so_far.old.wiring (segment_of so_far.old.wiring read))) }
    ensures keeps { OnOk result (IsReading so_far.new) }
{
    let (name, (owner, (kbps, ends))) = read;
    let ends = ends_of(alloc, so_far, ends.as_slice())?;
    let segment = Segment {
        name,
        owner,
        kbps,
        multiplexed: false,
        ends,
    };
    add_segment(so_far, segment)
}

pub(crate) fn add_pipe(so_far: &mut SoFar, read: PipeRead) -> Result<(), LineFault>
    requires { IsReading so_far.old }
    ensures takes { Takes result so_far.new.wiring (kept (with_pipe so_far.old.wiring (pipe_of so_far.old.wiring read))) }
    ensures keeps { OnOk result (IsReading so_far.new) }
{
    let (name, ((from, to), (there, back))) = read;
    let node = so_far.virt_number(name);
    let pipe = Pipe {
        node,
        from,
        to,
        there,
        back,
    };
    so_far.check_pipe(&pipe)?;
    put(&mut so_far.tables.piped, (node, from))?;
    put(&mut so_far.tables.piped, (node, to))?;
    let first = so_far.tables.segment(node, from);
    let second = so_far.tables.segment(node, to);
    join(&mut so_far.tables.joined, first, second);
    so_far.wiring.pipes.push(pipe)?;
    Ok(())
}

/// Sets the fixed place of a virtual node.
fn set_place(wiring: &mut Wiring, alloc: Global, virt: usize, place: Name)
    requires { virt < length wiring.old.nodes }
    ensures { wiring.new ≡ with_place wiring.old virt place }
{
    let mut nodes = replace(&mut wiring.nodes, Items::new(alloc)).into_vec();
    nodes[virt].fixed = Some(place);
    wiring.nodes = Items::from_vec(nodes);
}

fn is_fixed(wiring: &Wiring, virt: usize) -> bool
    requires { virt < length wiring.now.nodes }
    ensures { result ≡ is_some (virt_at wiring.now virt).fixed }
{
    wiring.nodes.as_slice()[virt].fixed.is_some()
}

pub(crate) fn add_place(
    so_far: &mut SoFar,
    alloc: Global,
    named: Option<usize>,
    place: Name,
) -> Result<(), LineFault>
    requires reading { IsReading so_far.old }
    requires named { IfSome named (λ virt. virt < length so_far.old.wiring.nodes) }
    ensures takes { Takes result so_far.new.wiring (placed so_far.old.wiring place named) }
    ensures keeps { OnOk result (IsReading so_far.new) }
{
    match named {
        Some(virt) => {
            if is_fixed(&so_far.wiring, virt) {
                return Err(LineFault::Kind(Kind::Twice));
            }
            set_place(&mut so_far.wiring, alloc, virt, place);
            Ok(())
        }
        None => Err(LineFault::Kind(Kind::Unknown)),
    }
}

/// Marks a segment as multiplexed.
fn set_multiplexed(wiring: &mut Wiring, alloc: Global, segment: usize)
    requires { segment < length wiring.old.segments }
    ensures { wiring.new ≡ with_multiplexed wiring.old segment }
{
    let mut segments = replace(&mut wiring.segments, Items::new(alloc)).into_vec();
    segments[segment].multiplexed = true;
    wiring.segments = Items::from_vec(segments);
}

pub(crate) fn add_mark(
    so_far: &mut SoFar,
    alloc: Global,
    named: Option<usize>,
) -> Result<(), LineFault>
    requires reading { IsReading so_far.old }
    requires named { IfSome named (λ s. s < length so_far.old.wiring.segments) }
    ensures takes { Takes result so_far.new.wiring (marked so_far.old.wiring named) }
    ensures keeps { OnOk result (IsReading so_far.new) }
{
    match named {
        Some(segment) => {
            if is_multiplexed(&so_far.wiring, segment) {
                return Err(LineFault::Kind(Kind::Twice));
            }
            if so_far.tables.joined[segment] {
                return Err(LineFault::Kind(Kind::Pipe));
            }
            set_multiplexed(&mut so_far.wiring, alloc, segment);
            Ok(())
        }
        None => Err(LineFault::Kind(Kind::Unknown)),
    }
}
