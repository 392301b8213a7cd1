// The segments of an expansion.
ghost use Rattle.std.specs.Prelude.{◌≡◌, ◌≤◌, ◌+◌, ◌++◌, ◌∷◌, [], OnOk, IfOk, map, length, sum_by, false};
ghost use Rattle.std.specs.List.{flat_map, range_with_len, enumerate_from};
ghost use Rattle.net_plan.specs.Expansion.{numbered};
ghost use Rattle.net_plan.specs.Parts.{is_shaped, IsExpandable, AreExpandable, delays, part};
ghost use Rattle.net_plan.specs.Parts.{delay_end, member_segment, lan_segments, link_segments, segments_of};

use crate::names;
use crate::nodes::{delays, is_shaped};
use lab_base::{Items, Memory, Name};
use std::alloc::Global;
use virt_topo::{AskedLink, MAX_TOPOLOGY_NODES, Segment, VirtEnd};

fn part(link: &AskedLink, name: Name, ends: Items<VirtEnd>) -> Segment
    ensures { result ≡ part link.now name ends }
{
    Segment {
        name,
        owner: link.name,
        kbps: link.rates.kbps,
        multiplexed: !is_shaped(link.rates) && link.multiplexed,
        ends,
    }
}

fn delay_end(node: u16) -> VirtEnd
    ensures { result ≡ delay_end node }
{
    VirtEnd {
        node,
        address: None,
    }
}

fn two_ends(alloc: Global, one: VirtEnd, other: VirtEnd) -> Result<Items<VirtEnd>, Memory>
    ensures { IfOk result (λ ends. ends ≡ one ∷ other ∷ []) }
{
    let mut ends = Items::new(alloc);
    ends.push(one)?;
    ends.push(other)?;
    Ok(ends)
}

/// An end for each of so many delay nodes.
fn delay_ends(alloc: Global, first: u16, count: u16) -> Result<Items<VirtEnd>, Memory>
    requires { first + count ≤ MAX_TOPOLOGY_NODES }
    ensures { IfOk result (λ ends. ends ≡ map delay_end (range_with_len first count)) }
{
    let mut ends = Items::new(alloc);
    for node in first..first + count {
        ends.push(delay_end(node))?;
    }
    Ok(ends)
}

/// The segment between a member of a shaped LAN and its delay node.
fn member_segment(
    alloc: Global,
    lan: &AskedLink,
    first: u16,
    place: usize,
    end: VirtEnd,
) -> Result<Segment, Memory>
    requires lan { IsExpandable lan.now }
    requires place { place + 1 ≤ length lan.now.ends }
    requires few { first + length lan.now.ends ≤ MAX_TOPOLOGY_NODES }
    ensures { IfOk result (λ segment. segment ≡ member_segment lan.now first (place, end)) }
{
    let name = names::numbered(alloc, lan.name, b".m", place as u64 + 1)?;
    let ends = two_ends(alloc, end, delay_end(first + place as u16))?;
    Ok(part(lan, name, ends))
}

/// Adds the segments between the members of a shaped LAN and their delay nodes.
fn push_member_segments(
    alloc: Global,
    segments: &mut Items<Segment>,
    lan: &AskedLink,
    first: u16,
) -> Result<(), Memory>
    requires lan { IsExpandable lan.now }
    requires few { first + length lan.now.ends ≤ MAX_TOPOLOGY_NODES }
    ensures { OnOk result (segments.new ≡ segments.old ++ map (member_segment lan.now first) (enumerate_from 0 lan.now.ends)) }
{
    for (place, end) in lan.ends.as_slice().iter().enumerate() {
        segments.push(member_segment(alloc, lan, first, place, *end)?)?;
    }
    Ok(())
}

/// Adds the segments of a shaped LAN.
fn push_lan_segments(
    alloc: Global,
    segments: &mut Items<Segment>,
    lan: &AskedLink,
    first: u16,
) -> Result<(), Memory>
    requires lan { IsExpandable lan.now }
    requires few { first + length lan.now.ends ≤ MAX_TOPOLOGY_NODES }
    ensures { OnOk result (segments.new ≡ segments.old ++ lan_segments lan.now first) }
{
    push_member_segments(alloc, segments, lan, first)?;
    let ends = delay_ends(alloc, first, lan.ends.len() as u16)?;
    segments.push(part(lan, lan.name, ends))
}

/// Adds the segments of a shaped link.
fn push_link_segments(
    alloc: Global,
    segments: &mut Items<Segment>,
    link: &AskedLink,
    first: u16,
) -> Result<(), Memory>
    requires link { IsExpandable link.now }
    requires two { link.now.lan ≡ false }
    ensures { OnOk result (segments.new ≡ segments.old ++ link_segments link.now first link.now.ends) }
{
    let ends = link.ends.as_slice();
    let name = names::marked(alloc, link.name, b".0")?;
    let before = two_ends(alloc, ends[0], delay_end(first))?;
    segments.push(part(link, name, before))?;
    let name = names::marked(alloc, link.name, b".1")?;
    let behind = two_ends(alloc, delay_end(first), ends[1])?;
    segments.push(part(link, name, behind))
}

/// Adds the segments of a link or LAN.
fn push_segments(
    alloc: Global,
    segments: &mut Items<Segment>,
    link: &AskedLink,
    first: u16,
) -> Result<(), Memory>
    requires link { IsExpandable link.now }
    requires few { first + delays link.now ≤ MAX_TOPOLOGY_NODES }
    ensures { OnOk result (segments.new ≡ segments.old ++ segments_of (first, link.now)) }
{
    if !is_shaped(link.rates) {
        let ends = link.ends.copy(alloc)?;
        return segments.push(part(link, link.name, ends));
    }
    if link.lan {
        push_lan_segments(alloc, segments, link, first)
    } else {
        push_link_segments(alloc, segments, link, first)
    }
}

/// The segments of links and LANs, whose delay nodes are numbered from `asked` on.
pub(crate) fn wired_segments(
    alloc: Global,
    links: &[AskedLink],
    asked: u16,
) -> Result<Items<Segment>, Memory>
    requires links { AreExpandable links.now }
    requires few { asked + sum_by delays links.now ≤ MAX_TOPOLOGY_NODES }
    ensures { IfOk result (λ segments. segments ≡ flat_map segments_of (numbered asked links.now)) }
{
    let mut segments = Items::new(alloc);
    let mut first = asked;
    for link in links {
        push_segments(alloc, &mut segments, link, first)?;
        first += delays(link) as u16;
    }
    Ok(segments)
}
