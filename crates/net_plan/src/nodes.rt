// The virtual nodes of an expansion.
ghost use Rattle.std.specs.Prelude.{◌≡◌, ◌++◌, OnOk, IfOk, map, length};
ghost use Rattle.std.specs.List.{flat_map, range_with_len};
ghost use Rattle.net_plan.specs.Parts.{is_plain_speed, is_shaped, IsExpandable, AreExpandable, asked_node, delay_node, delay_nodes, delays, member_node_name};

use crate::names::{marked, named, numbered};
use lab_base::{Items, Memory, Name, Rates};
use std::alloc::Global;
use virt_topo::{AskedLink, AskedNode, Asks, VirtNode};

fn is_plain_speed(kbps: u64) -> bool
    ensures { result ≡ is_plain_speed kbps }
{
    kbps == 10_000 || kbps == 100_000 || kbps == 1_000_000
}

/// Whether a link or LAN is shaped.
pub(crate) fn is_shaped(rates: Rates) -> bool
    ensures { result ≡ is_shaped rates }
{
    rates.micros >= 2_000 || rates.ppm > 0 || !is_plain_speed(rates.kbps)
}

/// The number of delay nodes that a link or LAN has.
pub(crate) fn delays(link: &AskedLink) -> usize
    ensures { result ≡ delays link.now }
{
    if !is_shaped(link.rates) {
        return 0;
    }
    if link.lan { link.ends.len() } else { 1 }
}

fn asked_node(alloc: Global, node: &AskedNode) -> VirtNode
    ensures { result ≡ asked_node node.now }
{
    VirtNode {
        name: node.name,
        asks: node.asks,
        desires: Items::new(alloc),
        os: node.os,
        fixed: node.fixed,
    }
}

fn delay_node(alloc: Global, name: Name) -> VirtNode
    ensures { result ≡ delay_node name }
{
    let delay = named(b"delay");
    VirtNode {
        name,
        asks: Asks::Plain(delay),
        desires: Items::new(alloc),
        os: delay,
        fixed: None,
    }
}

/// Adds a delay node for each member of a shaped LAN.
fn push_member_nodes(
    alloc: Global,
    nodes: &mut Items<VirtNode>,
    lan: &AskedLink,
) -> Result<(), Memory>
    requires { IsExpandable lan.now }
    ensures { OnOk result (nodes.new ≡ nodes.old ++ map (λ i. delay_node (member_node_name lan.now i)) (range_with_len 1 (length lan.now.ends))) }
{
    for member in 1..lan.ends.len() + 1 {
        let name = numbered(alloc, lan.name, b".d", member as u64)?;
        nodes.push(delay_node(alloc, name))?;
    }
    Ok(())
}

/// Adds the delay nodes of a link or LAN.
fn push_delay_nodes(
    alloc: Global,
    nodes: &mut Items<VirtNode>,
    link: &AskedLink,
) -> Result<(), Memory>
    requires { IsExpandable link.now }
    ensures { OnOk result (nodes.new ≡ nodes.old ++ delay_nodes link.now) }
{
    if !is_shaped(link.rates) {
        return Ok(());
    }
    if link.lan {
        return push_member_nodes(alloc, nodes, link);
    }
    let name = marked(alloc, link.name, b".d")?;
    nodes.push(delay_node(alloc, name))
}

/// The virtual nodes of the nodes asked for.
pub(crate) fn asked_nodes(alloc: Global, asked: &[AskedNode]) -> Result<Items<VirtNode>, Memory>
    ensures { IfOk result (λ nodes. nodes ≡ map asked_node asked.now) }
{
    let mut nodes = Items::new(alloc);
    for node in asked {
        nodes.push(asked_node(alloc, node))?;
    }
    Ok(nodes)
}

/// Adds the delay nodes of links and LANs, in their order.
pub(crate) fn push_all_delay_nodes(
    alloc: Global,
    nodes: &mut Items<VirtNode>,
    links: &[AskedLink],
) -> Result<(), Memory>
    requires { AreExpandable links.now }
    ensures { OnOk result (nodes.new ≡ nodes.old ++ flat_map delay_nodes links.now) }
{
    for link in links {
        push_delay_nodes(alloc, nodes, link)?;
    }
    Ok(())
}
