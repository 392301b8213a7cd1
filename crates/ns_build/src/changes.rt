//! Changes of a network.

ghost use Rattle.std.specs.Prelude.{◌≡◌, ◌++◌, ◌∷◌, [], length, map, IfOk, OnOk, OnErr, true};
ghost use Rattle.lab_base.specs.Names.{is_name};
ghost use Rattle.ns_build.specs.Networks as networks;
ghost use Rattle.ns_build.specs.Networks.{addressed, node_with, link_with};
ghost use Rattle.ns_build.specs.declared.task.LinkChange.TheVariants as links;
ghost use Rattle.ns_build.specs.Words.{node_word, link_word};
ghost use Rattle.ns_build.specs.Host as hosts;

use crate::network::Network;
use crate::task::{LinkChange, NodeChange, Task};
use crate::words::{LINK, NODE, SIMULATOR, word_of};
use lab_base::{Items, Memory, Name, Text};
use std::alloc::Global;
use std::mem::replace;
use tcl_eval::Called;
use virt_topo::{AskedLink, AskedNode, Asks, VirtEnd};

/// The name of these bytes.
fn fixed_name(bytes: &'static [u8]) -> Name
    requires { is_name bytes.now ≡ true }
    ensures { result ≡ bytes.now }
{
    Name::read(bytes).unwrap()
}

/// Sets the address of an end, if the end is the node's.
fn address_end(end: &mut VirtEnd, node: u16, address: u32)
    ensures { end.new ≡ addressed node address end.old }
{
    if end.node == node {
        end.address = Some(address);
    }
}

/// Sets the address of a node's end.
fn address_ends(ends: &mut Vec<VirtEnd>, node: u16, address: u32)
    ensures { ends.new.items ≡ map (addressed node address) ends.old.items }
{
    for end in ends.iter_mut() {
        address_end(end, node, address);
    }
}

/// Changes a node.
fn change_node(node: &mut AskedNode, change: NodeChange)
    ensures { node.new ≡ node_with change node.old }
{
    match change {
        NodeChange::Name(name) => node.name = name,
        NodeChange::Asks(asks) => node.asks = asks,
        NodeChange::Os(os) => node.os = os,
        NodeChange::Fixed(fixed) => node.fixed = Some(fixed),
    }
}

/// Sets the address of a node's end on a link or LAN.
fn address_link(alloc: Global, link: &mut AskedLink, node: u16, address: u32)
    ensures { link.new ≡ link_with (links.Address node address) link.old }
{
    let mut ends = replace(&mut link.ends, Items::new(alloc)).into_vec();
    address_ends(&mut ends, node, address);
    link.ends = Items::from_vec(ends);
}

/// Changes a link or LAN.
pub(crate) fn change_link(alloc: Global, link: &mut AskedLink, change: LinkChange)
    ensures { link.new ≡ link_with change link.old }
{
    match change {
        LinkChange::Name(name) => link.name = name,
        LinkChange::Loss(ppm) => link.rates.ppm = ppm,
        LinkChange::Multiplexed(multiplexed) => link.multiplexed = multiplexed,
        LinkChange::Address { node, address } => address_link(alloc, link, node, address),
    }
}

impl Network {
    fn add_node(&mut self, alloc: Global, name: Name) -> Result<Text, Memory>
        ensures word { IfOk result (λ word. word ≡ node_word (length self.old.nodes)) }
        ensures ok { OnOk result (self.new ≡ record self.old { nodes = self.old.nodes ++ networks.fresh_node name ∷ [] }) }
        ensures err { OnErr result (self.new ≡ self.old) }
    {
        let word = word_of(alloc, NODE, self.nodes.len())?;
        self.nodes.push(AskedNode {
            name,
            asks: Asks::Plain(fixed_name(b"pc")),
            os: fixed_name(b"default"),
            fixed: None,
        })?;
        Ok(word)
    }

    fn add_link(&mut self, alloc: Global, link: AskedLink) -> Result<Text, Memory>
        ensures word { IfOk result (λ word. word ≡ link_word (length self.old.links)) }
        ensures ok { OnOk result (self.new ≡ record self.old { links = self.old.links ++ link ∷ [] }) }
        ensures err { OnErr result (self.new ≡ self.old) }
    {
        let word = word_of(alloc, LINK, self.links.len())?;
        self.links.push(link)?;
        Ok(word)
    }

    /// Changes the node at an index, if there is one.
    fn change_node_at(&mut self, index: u16, change: NodeChange)
        ensures { self.new ≡ networks.change_node self.old index change }
    {
        let index = usize::from(index);
        if index < self.nodes.len() {
            change_node(&mut self.nodes[index], change);
        }
    }

    /// Changes the link or LAN at an index, if there is one.
    fn change_link_at(&mut self, alloc: Global, index: usize, change: LinkChange)
        ensures { self.new ≡ networks.change_link self.old index change }
    {
        self.links.change(alloc, index, change);
    }

    /// Carries a task out, and answers the command. On `Memory` nothing changes.
    pub(crate) fn obey(&mut self, alloc: Global, task: Task) -> Result<Called, Memory>
        ensures called { IfOk result (λ called. called ≡ hosts.result_of self.old task) }
        ensures ok { OnOk result (self.new ≡ hosts.done self.old task) }
        ensures err { OnErr result (self.new ≡ self.old) }
    {
        match task {
            Task::NotMine => return Ok(Called::NotMine),
            Task::Stop => return Ok(Called::Stop),
            Task::MakeSimulator => {
                let word = Text::from_slice(alloc, SIMULATOR)?;
                self.simulator = true;
                return Ok(Called::Value(word));
            }
            Task::AddNode { name } => return Ok(Called::Value(self.add_node(alloc, name)?)),
            Task::AddLink { link } => return Ok(Called::Value(self.add_link(alloc, link)?)),
            Task::AddClass { class } => self.classes.push(class)?,
            Task::AddEvent { event } => self.events.push(event)?,
            Task::Nothing => {}
            Task::ChangeNode { index, change } => self.change_node_at(index, change),
            Task::ChangeLink { index, change } => self.change_link_at(alloc, index, change),
        }
        Ok(Called::Value(Text::new(alloc)))
    }
}
