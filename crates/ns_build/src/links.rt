//! The links and LANs of a network.

ghost use Rattle.std.specs.Prelude.{◌≡◌, ◌<◌, ◌≤◌, ◌+◌, ◌++◌, ◌∷◌, ◌==◌, [], ℕ};
ghost use Rattle.std.specs.Prelude.{length, count_by, position, nat_eq, None, Some, OnOk, OnErr, if◌then◌else◌};
ghost use Rattle.indexmap.specs.IndexMap.{get, spare};
ghost use Rattle.ns_build.specs.Networks.{changed_at, has_end, is_on, link_with};
ghost use Rattle.ns_build.specs.Places.{noted};

use crate::changes::change_link;
use crate::task::LinkChange;
use indexmap::IndexMap;
use lab_base::Memory;
use std::alloc::Global;
use std::marker::Model;
use virt_topo::{AskedLink, VirtEnd};

/// The links and LANs of a network, with a table by node. Contracts see them as a list.
#[derive(Drop)]
pub(crate) struct Links {
    list: Vec<AskedLink>,
    /// By node on a link or LAN, the index of its only one; None where it is on several.
    places: IndexMap<u16, Option<usize>>,
}

impl Model for Links {
    ghost use Rattle.std.specs.Prelude.{List};
    ghost use Rattle.virt_topo.specs.declared.topo.AskedLink.{AskedLink as LinkSeen};
    ghost use Rattle.ns_build.specs.Places.{ArePlaces};

    ghost Value = { List LinkSeen };

    ghost view = { λ links. links.list.items };

    ghost invariant = { λ links. ArePlaces links.list.items links.places };
}

/// Notes a node as on the link or LAN at an index.
fn note_end(places: &mut IndexMap<u16, Option<usize>>, index: usize, node: u16)
    requires { 0 < spare places.old }
    ensures noted { (v : ℕ) → get nat_eq places.new v ≡ (if node == v then Some (noted index (get nat_eq places.old node)) else get nat_eq places.old v) }
    ensures room { spare places.old ≤ spare places.new + 1 }
{
    let noted = match places.get(&node) {
        Some(Some(other)) => if *other == index { Some(index) } else { None },
        Some(None) => None,
        None => Some(index),
    };
    places.insert(node, noted).unwrap();
}

/// Notes the nodes of these ends as on the link or LAN at an index.
fn note_ends(places: &mut IndexMap<u16, Option<usize>>, index: usize, ends: &[VirtEnd])
    requires { length ends.now ≤ spare places.old }
    ensures { (v : ℕ) → get nat_eq places.new v ≡ (if has_end v ends.now then Some (noted index (get nat_eq places.old v)) else get nat_eq places.old v) }
{
    for end in ends {
        note_end(places, index, end.node);
    }
}

impl Links {
    pub(crate) fn new(alloc: Global) -> Links
        ensures { result ≡ [] }
    {
        Links {
            list: Vec::new(alloc),
            places: IndexMap::new(alloc),
        }
    }

    pub(crate) fn as_slice(&self) -> &[AskedLink]
        ensures { result.now ≡ self.now }
    {
        self.list.as_slice()
    }

    pub(crate) fn len(&self) -> usize
        ensures { result ≡ length self.now }
    {
        self.list.len()
    }

    /// The index of the only link or LAN that a node is on.
    pub(crate) fn only(&self, node: u16) -> Option<usize>
        ensures { result ≡ (if count_by (is_on node) self.now == 1 then position (is_on node) self.now else None) }
    {
        match self.places.get(&node) {
            Some(index) => *index,
            None => None,
        }
    }

    pub(crate) fn push(&mut self, link: AskedLink) -> Result<(), Memory>
        ensures ok { OnOk result (self.new ≡ self.old ++ link ∷ []) }
        ensures err { OnErr result (self.new ≡ self.old) }
    {
        self.list.reserve(1)?;
        self.places.reserve(link.ends.len())?;
        note_ends(&mut self.places, self.list.len(), link.ends.as_slice());
        self.list.push_reserved(link);
        Ok(())
    }

    /// Changes the link or LAN at an index, if there is one.
    pub(crate) fn change(&mut self, alloc: Global, index: usize, change: LinkChange)
        ensures { self.new ≡ changed_at (link_with change) index self.old }
    {
        if index < self.list.len() {
            change_link(alloc, &mut self.list[index], change);
        }
    }

    pub(crate) fn into_vec(self) -> Vec<AskedLink>
        ensures { result.items ≡ self }
    {
        self.list
    }
}
