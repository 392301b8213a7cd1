// Whether an expansion keeps the limits.
ghost use Rattle.std.specs.Prelude.{◌≡◌, ◌≤◌, ◌&&◌, ◌*◌, ◌+◌, nat_le, length, sum_by};
ghost use Rattle.virt_topo.specs.Ends.{end_nodes};
ghost use Rattle.virt_topo.specs.Soundness.{keeps_limits};
ghost use Rattle.net_plan.specs.Expansion.{wired};
ghost use Rattle.net_plan.specs.Parts.{IsExpandable, AreExpandable, delays, segments_of};

use crate::nodes::{delays, is_shaped};
use virt_topo::{AskedLink, MAX_ENDS, MAX_SEGMENTS, MAX_TOPOLOGY_NODES, Topo};

/// The most links and LANs of a network.
pub const MAX_LINKS: usize = 512;

/// The most ends of a link or LAN.
pub const MAX_MEMBERS: usize = 254;

/// The number of segments that a link or LAN has.
fn segments(link: &AskedLink) -> usize
    requires { IsExpandable link.now }
    ensures count { result ≡ length (segments_of (0, link.now)) }
    ensures few { result ≤ MAX_MEMBERS + 1 }
{
    if !is_shaped(link.rates) {
        return 1;
    }
    if link.lan { link.ends.len() + 1 } else { 2 }
}

/// The number of ends of the segments that a link or LAN has.
fn ends(link: &AskedLink) -> usize
    requires { IsExpandable link.now }
    ensures count { result ≡ length (end_nodes (segments_of (0, link.now))) }
    ensures few { result ≤ 3 * MAX_MEMBERS }
{
    if !is_shaped(link.rates) {
        return link.ends.len();
    }
    if link.lan { 3 * link.ends.len() } else { 4 }
}

fn count_delays(links: &[AskedLink]) -> usize
    requires expandable { AreExpandable links.now }
    requires few { length links.now ≤ MAX_LINKS }
    ensures count { result ≡ sum_by delays links.now }
    ensures few { result ≤ MAX_LINKS * MAX_MEMBERS }
{
    let mut count = 0;
    for link in links {
        count += delays(link);
    }
    count
}

fn count_segments(links: &[AskedLink]) -> usize
    requires expandable { AreExpandable links.now }
    requires few { length links.now ≤ MAX_LINKS }
    ensures { result ≡ sum_by (λ l. length (segments_of (0, l))) links.now }
{
    let mut count = 0;
    for link in links {
        count += segments(link);
    }
    count
}

fn count_ends(links: &[AskedLink]) -> usize
    requires expandable { AreExpandable links.now }
    requires few { length links.now ≤ MAX_LINKS }
    ensures { result ≡ sum_by (λ l. length (end_nodes (segments_of (0, l)))) links.now }
{
    let mut count = 0;
    for link in links {
        count += ends(link);
    }
    count
}

fn are_few(nodes: usize, segments: usize, ends: usize) -> bool
    ensures { result ≡ (nat_le nodes MAX_TOPOLOGY_NODES && (nat_le segments MAX_SEGMENTS && nat_le ends MAX_ENDS)) }
{
    nodes <= MAX_TOPOLOGY_NODES && segments <= MAX_SEGMENTS && ends <= MAX_ENDS
}

/// Whether the wiring of a network keeps the limits.
pub(crate) fn fits(topo: &Topo) -> bool
    ensures { result ≡ keeps_limits (wired topo.now topo.now.links) }
{
    let asked = topo.nodes().len();
    let links = topo.links();
    are_few(
        asked + count_delays(links),
        count_segments(links),
        count_ends(links),
    )
}
