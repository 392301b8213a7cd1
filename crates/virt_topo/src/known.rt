// Whether each number of a wiring names something.
ghost use Rattle.std.specs.Prelude.{◌≡◌, ◌≤◌, length, true};
ghost use Rattle.std.specs.List.{list_all};
ghost use Rattle.virt_topo.specs.Ends.{end_nodes};
ghost use Rattle.virt_topo.specs.Soundness.{knows_class, knows_node, is_end, knows_pipe, knows_all};

use crate::limits::END_NUMBERS;
use crate::{Asks, Pipe, Segment, VirtEnd, VirtNode, Wiring};

fn knows_class(wiring: &Wiring, asks: &Asks) -> bool
    ensures { result ≡ knows_class wiring.now asks.now }
{
    match asks {
        Asks::Plain(_) => true,
        Asks::Class(number) => (*number as usize) < wiring.classes.len(),
    }
}

fn knows_classes(wiring: &Wiring, nodes: &[VirtNode]) -> bool
    ensures { result ≡ list_all (λ v. knows_class wiring.now v.asks) nodes.now }
{
    nodes.iter().all(|node| knows_class(wiring, &node.asks))
}

fn knows_node(wiring: &Wiring, node: u16) -> bool
    ensures { result ≡ knows_node wiring.now node }
{
    (node as usize) < wiring.nodes.len()
}

fn knows_ends(wiring: &Wiring, ends: &[VirtEnd]) -> bool
    ensures { result ≡ list_all (λ e. knows_node wiring.now e.node) ends.now }
{
    ends.iter().all(|end| knows_node(wiring, end.node))
}

fn knows_segments(wiring: &Wiring, segments: &[Segment]) -> bool
    ensures { result ≡ list_all (λ s. list_all (λ e. knows_node wiring.now e.node) s.ends) segments.now }
{
    segments
        .iter()
        .all(|segment| knows_ends(wiring, segment.ends.as_slice()))
}

fn is_end(wiring: &Wiring, node: u16, k: u16) -> bool
    requires { length (end_nodes wiring.now.segments) ≤ END_NUMBERS }
    ensures { result ≡ is_end wiring.now node k }
{
    wiring.end(node, k).is_some()
}

fn knows_pipe(wiring: &Wiring, pipe: &Pipe) -> bool
    requires { length (end_nodes wiring.now.segments) ≤ END_NUMBERS }
    ensures { result ≡ knows_pipe wiring.now pipe.now }
{
    knows_node(wiring, pipe.node)
        && is_end(wiring, pipe.node, pipe.from)
        && is_end(wiring, pipe.node, pipe.to)
}

fn knows_pipes(wiring: &Wiring, pipes: &[Pipe]) -> bool
    requires { length (end_nodes wiring.now.segments) ≤ END_NUMBERS }
    ensures { result ≡ list_all (knows_pipe wiring.now) pipes.now }
{
    pipes.iter().all(|pipe| knows_pipe(wiring, pipe))
}

/// Whether each number of the wiring names something.
pub fn knows_all(wiring: &Wiring) -> bool
    requires { length (end_nodes wiring.now.segments) ≤ END_NUMBERS }
    ensures { result ≡ knows_all wiring.now }
{
    knows_classes(wiring, wiring.nodes.as_slice())
        && knows_segments(wiring, wiring.segments.as_slice())
        && knows_pipes(wiring, wiring.pipes.as_slice())
}
