//! The network that a text has made so far.

ghost use Rattle.std.specs.Prelude.{◌≡◌, ◌≤◌, ◌<◌, false, length, map, slice_index_or, position, IfSome};
ghost use Rattle.lab_base.specs.Names.{same_name};
ghost use Rattle.virt_topo.specs.Topos.{IsTopo};
ghost use Rattle.ns_build.specs.Networks as networks;
ghost use Rattle.ns_build.specs.Words as words;

use crate::links::Links;
use crate::task::Planned;
use crate::words::{LINK, NODE, index_in};
use lab_base::{Items, Name};
use std::alloc::Global;
use std::marker::Model;
use virt_topo::{AskedLink, AskedNode, Asks, Class, MAX_CLASSES, Topo, VirtEnd};

/// The network that a text has made so far, with or without a simulator. It has nodes, links and LANs, classes, and events, each in order of
/// creation.
/// Until a variable names it, a node, a link or a LAN has the name by its number.
#[derive(Drop)]
pub(crate) struct Network {
    pub(crate) simulator: bool,
    pub(crate) nodes: Vec<AskedNode>,
    pub(crate) links: Links,
    pub(crate) classes: Vec<Class>,
    pub(crate) events: Vec<Planned>,
}

impl Model for Network {
    ghost use Rattle.ns_build.specs.Networks.{Network as NetworkSeen};

    ghost Value = { NetworkSeen };

    ghost view = { λ n. record { simulator = n.simulator; nodes = n.nodes.items; links = n.links; classes = n.classes.items; events = n.events.items } };
}

/// Whether an end is on that node.
pub(crate) fn has_end(node: u16, ends: &[VirtEnd]) -> bool
    ensures { result ≡ networks.has_end node ends.now }
{
    ends.iter().any(|end| end.node == node)
}

/// Whether a node is on a link or LAN.
fn is_on(node: u16, link: &AskedLink) -> bool
    ensures { result ≡ networks.is_on node link.now }
{
    has_end(node, link.ends.as_slice())
}

/// The index of the class of a name.
fn class_named(name: Name, classes: &[Class]) -> Option<usize>
    ensures index { result ≡ position (λ c. same_name c.name name) classes.now }
    ensures fits { IfSome result (λ index. index < length classes.now) }
{
    classes.iter().position(|class| class.name == name)
}

impl Network {
    /// The network before the first command.
    pub fn new(alloc: Global) -> Network
        ensures { result ≡ networks.empty }
    {
        Network {
            simulator: false,
            nodes: Vec::new(alloc),
            links: Links::new(alloc),
            classes: Vec::new(alloc),
            events: Vec::new(alloc),
        }
    }

    /// The network as it was made.
    pub fn into_topo(self) -> Topo
        requires { IsTopo (networks.topo_of self) }
        ensures { result ≡ networks.topo_of self }
    {
        let Network {
            simulator: _,
            nodes,
            links,
            classes,
            events: _,
        } = self;
        Topo::new(
            Items::from_vec(nodes),
            Items::from_vec(links.into_vec()),
            Items::from_vec(classes),
        )
    }

    /// The index of the node that a word stands for.
    pub fn node_of(&self, word: &[u8]) -> Option<u16>
        ensures index { result ≡ words.node_of self.now word.now }
        ensures fits { IfSome result (λ index. index < u16.MAX) }
    {
        index_in(NODE, self.nodes.len(), word)
    }

    /// The index of the link or LAN that a word stands for.
    pub fn link_of(&self, word: &[u8]) -> Option<usize>
        ensures index { result ≡ words.link_of self.now word.now }
        ensures fits { IfSome result (λ index. index < u16.MAX) }
    {
        match index_in(LINK, self.links.len(), word) {
            Some(index) => Some(usize::from(index)),
            None => None,
        }
    }

    /// Whether there is a LAN at an index.
    fn is_lan(&self, index: usize) -> bool
        ensures { result ≡ slice_index_or (map (λ l. l.lan) self.now.links) index false }
    {
        match self.links.as_slice().get(index) {
            Some(link) => link.lan,
            None => false,
        }
    }

    /// The index of the LAN, or else of the link, that a word stands for.
    pub fn link_of_kind(&self, lan: bool, word: &[u8]) -> Option<usize>
        ensures { result ≡ words.link_of_kind self.now lan word.now }
    {
        match self.link_of(word) {
            Some(index) => {
                if self.is_lan(index) == lan {
                    Some(index)
                } else {
                    None
                }
            }
            None => None,
        }
    }

    /// Whether a node is on the link or LAN at an index.
    pub fn is_on_at(&self, node: u16, index: usize) -> bool
        ensures { result ≡ networks.is_on_at self.now node index }
    {
        match self.links.as_slice().get(index) {
            Some(link) => is_on(node, link),
            None => false,
        }
    }

    /// The index of the only link or LAN that a node is on.
    pub fn only_link(&self, node: u16) -> Option<usize>
        ensures { result ≡ networks.only_link self.now node }
    {
        self.links.only(node)
    }

    /// The class of that name where one is made, else the type of that name.
    pub fn asks_of(&self, name: Name) -> Asks
        requires { length self.now.classes ≤ MAX_CLASSES }
        ensures { result ≡ networks.asks_of self.now name }
    {
        match class_named(name, &self.classes) {
            Some(index) => Asks::Class(index as u16),
            None => Asks::Plain(name),
        }
    }
}
