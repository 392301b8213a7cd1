// The pipes of a wiring.
ghost use Rattle.std.specs.Prelude.{◌≡◌, ◌≤◌, false, [], length, slice_index_or};
ghost use Rattle.std.specs.List.{list_any};
ghost use Rattle.virt_topo.specs.Ends.{end_nodes, end_owners, end_multiplexed, end_number};
ghost use Rattle.virt_topo.specs.Repeats.{stands_again};
ghost use Rattle.virt_topo.specs.Soundness.{has_bad_pipe, is_bad_pipe, multiplexed_at, owner_at, shares_end};

use crate::limits::END_NUMBERS;
use crate::{Pipe, Segment, Wiring};

fn owner_among(segments: &[Segment], end: u16) -> &[u8]
    ensures { result.now ≡ slice_index_or (end_owners segments.now) end [] }
{
    let mut before = end as usize;
    for segment in segments {
        if before < segment.ends.len() {
            return segment.owner.bytes();
        }
        before -= segment.ends.len();
    }
    &[]
}

/// The owner of the segment of a virtual node's end that has `k` earlier ones; no bytes where there is none.
pub fn owner_at(wiring: &Wiring, node: u16, k: u16) -> &[u8]
    requires { length (end_nodes wiring.now.segments) ≤ END_NUMBERS }
    ensures { result.now ≡ owner_at wiring.now (end_number (end_nodes wiring.now.segments) node k) }
{
    match wiring.end(node, k) {
        Some(end) => owner_among(wiring.segments.as_slice(), end),
        None => &[],
    }
}

fn multiplexed_among(segments: &[Segment], end: u16) -> bool
    ensures { result ≡ slice_index_or (end_multiplexed segments.now) end false }
{
    let mut before = end as usize;
    for segment in segments {
        if before < segment.ends.len() {
            return segment.multiplexed;
        }
        before -= segment.ends.len();
    }
    false
}

/// Whether the segment of a virtual node's end that has `k` earlier ones is multiplexed; false where there is none.
pub fn is_multiplexed_at(wiring: &Wiring, node: u16, k: u16) -> bool
    requires { length (end_nodes wiring.now.segments) ≤ END_NUMBERS }
    ensures { result ≡ multiplexed_at wiring.now (end_number (end_nodes wiring.now.segments) node k) }
{
    match wiring.end(node, k) {
        Some(end) => multiplexed_among(wiring.segments.as_slice(), end),
        None => false,
    }
}

fn is_bad_pipe(wiring: &Wiring, pipe: &Pipe) -> bool
    requires { length (end_nodes wiring.now.segments) ≤ END_NUMBERS }
    ensures { result ≡ is_bad_pipe wiring.now pipe.now }
{
    pipe.from == pipe.to
        || owner_at(wiring, pipe.node, pipe.from) != owner_at(wiring, pipe.node, pipe.to)
        || is_multiplexed_at(wiring, pipe.node, pipe.from)
        || is_multiplexed_at(wiring, pipe.node, pipe.to)
}

fn have_bad_pipe(wiring: &Wiring, pipes: &[Pipe]) -> bool
    requires { length (end_nodes wiring.now.segments) ≤ END_NUMBERS }
    ensures { result ≡ list_any (is_bad_pipe wiring.now) pipes.now }
{
    pipes.iter().any(|pipe| is_bad_pipe(wiring, pipe))
}

fn shares_end(one: Pipe, other: &Pipe) -> bool
    ensures { result ≡ shares_end one other.now }
{
    one.node == other.node
        && (one.from == other.from
            || one.from == other.to
            || one.to == other.from
            || one.to == other.to)
}

fn share_end(pipes: &[Pipe], pipe: Pipe) -> bool
    ensures { result ≡ list_any (shares_end pipe) pipes.now }
{
    pipes.iter().any(|other| shares_end(pipe, other))
}

fn repeat_end(pipes: &[Pipe]) -> bool
    ensures { result ≡ stands_again shares_end pipes.now }
{
    let mut rest = pipes;
    while let Some((first, others)) = rest.split_first() {
        if share_end(others, *first) {
            return true;
        }
        rest = others;
    }
    false
}

/// Whether a pipe has one end twice, ends of two owners, an end of a multiplexed segment, or an end of an earlier pipe.
pub fn has_bad_pipe(wiring: &Wiring) -> bool
    requires { length (end_nodes wiring.now.segments) ≤ END_NUMBERS }
    ensures { result ≡ has_bad_pipe wiring.now }
{
    have_bad_pipe(wiring, wiring.pipes.as_slice()) || repeat_end(wiring.pipes.as_slice())
}
