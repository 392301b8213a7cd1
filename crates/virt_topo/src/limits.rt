// Whether the quantities of a wiring keep their limits.
ghost use Rattle.std.specs.Prelude.{◌≡◌, length, nat_le};
ghost use Rattle.std.specs.List.{list_all};
ghost use Rattle.virt_topo.specs.Ends.{end_nodes};
ghost use Rattle.virt_topo.specs.Soundness.{is_between, is_address, is_speed, are_rates, limits_class, limits_node, limits_segment, limits_pipe, keeps_limits};

use crate::{Class, Pipe, Segment, VirtEnd, VirtNode, Wiring};
use lab_base::{Name, Rates};

/// The most classes of a wiring.
pub const MAX_CLASSES: usize = 64;

/// The most types of a class.
pub const MAX_TYPES: usize = 8;

/// The largest weight of a class or of a feature, in thousandths.
pub const MAX_WEIGHT: u32 = 1_000_000;

/// The largest weight, in thousandths, of a class or feature that may stay unmet. A larger one has to be met.
pub const MAX_SOFT_WEIGHT: u32 = 999;

/// The most virtual nodes of a wiring.
pub const MAX_TOPOLOGY_NODES: usize = 256;

/// The most features that a virtual node asks for.
pub const MAX_DESIRES: usize = 8;

/// The most segments of a wiring.
pub const MAX_SEGMENTS: usize = 512;

/// The most ends of a segment.
pub const MAX_SEGMENT_ENDS: usize = 256;

/// The most ends of a wiring, those of all its segments together.
pub const MAX_ENDS: usize = 4_096;

/// How many numbers of ends there are. A wiring that breaks its limits may have so many ends, and no more.
pub const END_NUMBERS: usize = 65_536;

/// The highest speed, in kbps.
pub const MAX_KBPS: u64 = 1_000_000_000;

/// The longest delay, in microseconds.
pub const MAX_MICROS: u32 = 10_000_000;

/// The highest loss, in packets of a million.
pub const MAX_PPM: u32 = 1_000_000;

/// The highest last number of an address.
pub const MAX_HOST: u32 = 254;

fn is_between(least: u64, most: u64, n: u64) -> bool
    ensures { result ≡ is_between least most n }
{
    least <= n && n <= most
}

fn is_address(address: Option<u32>) -> bool
    ensures { result ≡ is_address address }
{
    match address {
        Some(address) => is_between(1, u64::from(MAX_HOST), (address % 256) as u64),
        None => true,
    }
}

fn is_speed(kbps: u64) -> bool
    ensures { result ≡ is_speed kbps }
{
    is_between(1, MAX_KBPS, kbps)
}

fn are_rates(rates: Rates) -> bool
    ensures { result ≡ are_rates rates }
{
    is_speed(rates.kbps) && rates.micros <= MAX_MICROS && rates.ppm <= MAX_PPM
}

/// Whether a class keeps its limits.
pub fn limits_class(class: &Class) -> bool
    ensures { result ≡ limits_class class.now }
{
    class.weight <= MAX_WEIGHT && is_between(1, MAX_TYPES as u64, class.types.len() as u64)
}

fn limits_classes(classes: &[Class]) -> bool
    ensures { result ≡ list_all limits_class classes.now }
{
    classes.iter().all(|class| limits_class(class))
}

fn limits_desires(desires: &[(Name, u32)]) -> bool
    ensures { result ≡ list_all (λ d. nat_le d.1 MAX_WEIGHT) desires.now }
{
    desires.iter().all(|desire| desire.1 <= MAX_WEIGHT)
}

/// Whether a virtual node keeps its limits.
pub fn limits_node(node: &VirtNode) -> bool
    ensures { result ≡ limits_node node.now }
{
    node.desires.len() <= MAX_DESIRES && limits_desires(node.desires.as_slice())
}

fn limits_nodes(nodes: &[VirtNode]) -> bool
    ensures { result ≡ list_all limits_node nodes.now }
{
    nodes.iter().all(|node| limits_node(node))
}

fn are_addresses(ends: &[VirtEnd]) -> bool
    ensures { result ≡ list_all (λ e. is_address e.address) ends.now }
{
    ends.iter().all(|end| is_address(end.address))
}

/// Whether a segment keeps its limits.
pub fn limits_segment(segment: &Segment) -> bool
    ensures { result ≡ limits_segment segment.now }
{
    is_speed(segment.kbps)
        && is_between(2, MAX_SEGMENT_ENDS as u64, segment.ends.len() as u64)
        && are_addresses(segment.ends.as_slice())
}

fn limits_segments(segments: &[Segment]) -> bool
    ensures { result ≡ list_all limits_segment segments.now }
{
    segments.iter().all(|segment| limits_segment(segment))
}

/// Whether a pipe keeps its limits.
pub fn limits_pipe(pipe: &Pipe) -> bool
    ensures { result ≡ limits_pipe pipe.now }
{
    are_rates(pipe.there) && are_rates(pipe.back)
}

fn limits_pipes(pipes: &[Pipe]) -> bool
    ensures { result ≡ list_all limits_pipe pipes.now }
{
    pipes.iter().all(|pipe| limits_pipe(pipe))
}

/// Whether these segments have at most so many ends in all.
fn has_at_most(segments: &[Segment], most: usize) -> bool
    ensures { result ≡ nat_le (length (end_nodes segments.now)) most }
{
    let mut left = most;
    for segment in segments {
        if left < segment.ends.len() {
            return false;
        }
        left -= segment.ends.len();
    }
    true
}

/// Whether the wiring keeps its limits.
pub fn keeps_limits(wiring: &Wiring) -> bool
    ensures { result ≡ keeps_limits wiring.now }
{
    wiring.classes.len() <= MAX_CLASSES
        && wiring.nodes.len() <= MAX_TOPOLOGY_NODES
        && wiring.segments.len() <= MAX_SEGMENTS
        && has_at_most(wiring.segments.as_slice(), MAX_ENDS)
        && limits_classes(wiring.classes.as_slice())
        && limits_nodes(wiring.nodes.as_slice())
        && limits_segments(wiring.segments.as_slice())
        && limits_pipes(wiring.pipes.as_slice())
}
