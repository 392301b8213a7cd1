ghost use Rattle.std.specs.Prelude.{◌≡◌};
ghost use Rattle.virt_topo.specs.Topos.{IsTopo};

use crate::{Asks, Class, VirtEnd};
use lab_base::{Items, Name, Rates};
use std::marker::Model;

/// A node that an NS file asks for.
#[derive(Drop)]
pub struct AskedNode {
    /// The name of its variable, `v` or `v-i`, or `tb.nK` for the K-th node.
    pub name: Name,
    pub asks: Asks,
    pub os: Name,
    /// The node of the lab that it has to be on, if one is set.
    pub fixed: Option<Name>,
}

/// A link or a LAN that an NS file asks for.
#[derive(Drop)]
pub struct AskedLink {
    /// The name of its variable, `v` or `v-i`, or `tb.lK` for the K-th link or LAN.
    pub name: Name,
    pub lan: bool,
    /// The rates in each direction.
    pub rates: Rates,
    /// Whether its ends may share interfaces with ends of other multiplexed links, where it is not shaped.
    pub multiplexed: bool,
    /// Its ends: two of a link, 2 to 254 of a LAN, on different nodes.
    pub ends: Items<VirtEnd>,
}

/// The network that an NS file asks for: nodes, links and LANs, and classes, each in order of creation. Contracts see these lists. Its
/// fields are private, so that what the builder found of it stays so.
#[derive(Drop)]
pub struct Topo {
    nodes: Items<AskedNode>,
    links: Items<AskedLink>,
    classes: Items<Class>,
}

impl Model for Topo {
    ghost use Rattle.virt_topo.specs.Topos.{Topo as TopoSeen, IsTopo};

    ghost Value = { TopoSeen };

    ghost view = { λ topo. record { nodes = topo.nodes; links = topo.links; classes = topo.classes } };

    ghost invariant = { λ topo. IsTopo (record { nodes = topo.nodes; links = topo.links; classes = topo.classes }) };
}

impl Topo {
    /// The network of these lists.
    pub fn new(nodes: Items<AskedNode>, links: Items<AskedLink>, classes: Items<Class>) -> Topo
        requires { IsTopo (record { nodes = nodes; links = links; classes = classes }) }
        ensures { result ≡ record { nodes = nodes; links = links; classes = classes } }
    {
        Topo {
            nodes,
            links,
            classes,
        }
    }

    /// The nodes. The clause `topo` holds of every network.
    pub fn nodes(&self) -> &[AskedNode]
        ensures nodes { result.now ≡ self.now.nodes }
        ensures topo { IsTopo self.now }
    {
        self.nodes.as_slice()
    }

    pub fn links(&self) -> &[AskedLink]
        ensures { result.now ≡ self.now.links }
    {
        self.links.as_slice()
    }

    pub fn classes(&self) -> &[Class]
        ensures { result.now ≡ self.now.classes }
    {
        self.classes.as_slice()
    }
}
