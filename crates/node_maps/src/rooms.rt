// The nodes of candidates, and how many virtual nodes may have a candidate's type there.
ghost use Rattle.std.specs.Prelude.{◌≡◌, ◌<◌, ◌≤◌, ◌%◌, ◌^◌, [], length, map, slice_index_or, All, IfOk};
ghost use Rattle.lab_model.specs.Shapes.{node_at};
ghost use Rattle.node_maps.specs.Kinds.{listed, places_of, AreNumbers};
ghost use Rattle.node_maps.specs.Rooms.{room_of, no_room};

use crate::divisor::Divisor;
use crate::lists::{Candidates, Place};
use crate::marked::copy_kinds;
use feas::number_of;
use lab_base::{Items, Memory, Name, NodeId};
use phys_lab::Lab;
use std::alloc::Global;
use std::marker::Model;

/// A candidate's node, and how many virtual nodes may have the candidate's type there.
#[derive(Clone, Copy)]
pub struct Room {
    pub node: NodeId,
    pub most: u16,
}

/// By virtual node and candidate its room. Virtual nodes of one kind share a list.
#[derive(Drop)]
pub struct Rooms {
    /// By kind of virtual node.
    lists: Vec<Items<Room>>,
    /// By kind how many candidates there are.
    counts: Vec<Divisor>,
    /// By virtual node its kind.
    kinds: Vec<usize>,
    /// How many virtual nodes there are.
    all: Divisor,
}

impl Model for Rooms {
    ghost use Rattle.std.specs.Prelude.{List};
    ghost use Rattle.node_maps.specs.declared.rooms.Room.{Room as RoomSeen};
    ghost use Rattle.node_maps.specs.Kinds.{by_kind as rooms_by_kind};
    ghost use Rattle.node_maps.specs.Rooms.{AreCounts};

    ghost Value = { List (List RoomSeen) };

    ghost view = { λ a. rooms_by_kind a.lists.items a.kinds.items };

    ghost invariant = { λ a. AreCounts a.lists.items a.kinds.items a.counts.items a.all };
}

/// The types of a node; none where the lab has no such node.
fn types_of(lab: &Lab, node: NodeId) -> &[(Name, u16)]
    ensures { result.now ≡ (node_at lab.now node).types }
{
    match lab.nodes().get(node.0 as usize) {
        Some(node) => node.types.as_slice(),
        None => &[],
    }
}

/// The room of a place.
fn room_of(lab: &Lab, place: &Place) -> Room
    ensures { result ≡ room_of lab.now place.now }
{
    Room {
        node: place.0,
        most: number_of(types_of(lab, place.0), place.1),
    }
}

/// The rooms of the places of these numbers.
fn rooms_at(
    alloc: Global,
    lab: &Lab,
    places: &[Place],
    numbers: &[u16],
) -> Result<Items<Room>, Memory>
    requires { All (λ k. k < length places.now) numbers.now }
    ensures { IfOk result (λ own. own ≡ map (room_of lab.now) (places_of places.now numbers.now)) }
{
    let mut own = Items::new(alloc);
    for number in numbers {
        own.push(room_of(lab, &places[*number as usize]))?;
    }
    Ok(own)
}

/// By list and number the room of its place.
fn all_rooms(
    alloc: Global,
    lab: &Lab,
    places: &[Place],
    lists: &[Items<u16>],
) -> Result<Vec<Items<Room>>, Memory>
    requires { AreNumbers places.now lists.now }
    ensures { IfOk result (λ all. all.items ≡ map (map (room_of lab.now)) (listed places.now lists.now)) }
{
    let mut all = Vec::new(alloc);
    for numbers in lists {
        let own = rooms_at(alloc, lab, places, numbers.as_slice())?;
        all.push(own)?;
    }
    Ok(all)
}

/// By list how many rooms it has.
fn counts_of(alloc: Global, lists: &[Items<Room>]) -> Result<Vec<Divisor>, Memory>
    ensures { IfOk result (λ counts. counts.items ≡ map length lists.now) }
{
    let mut counts = Vec::new(alloc);
    for list in lists {
        counts.push(Divisor::of(list.len()))?;
    }
    Ok(counts)
}

impl Candidates {
    /// By virtual node and candidate its room.
    pub fn rooms(&self, alloc: Global, lab: &Lab) -> Result<Rooms, Memory>
        ensures { IfOk result (λ rooms. rooms ≡ map (map (room_of lab.now)) self.now) }
    {
        let lists = all_rooms(alloc, lab, &self.places, &self.lists)?;
        let counts = counts_of(alloc, &lists)?;
        let kinds = copy_kinds(&self.kinds)?;
        let all = Divisor::of(kinds.len());
        Ok(Rooms {
            lists,
            counts,
            kinds,
            all,
        })
    }
}

impl Rooms {
    /// The virtual node that a word names.
    #[inline(always)]
    pub fn virt(&self, word: u32) -> usize
        requires some { 0 < length self.now }
        requires few { length self.now ≤ 2 ^ 32 }
        ensures { result ≡ word % length self.now }
    {
        self.all.remainder(word)
    }

    /// The number of a virtual node's candidate that a word names.
    #[inline(always)]
    pub fn number(&self, virt: usize, word: u32) -> usize
        requires virt { virt < length self.now }
        requires some { 0 < length (slice_index_or self.now virt []) }
        requires few { length (slice_index_or self.now virt []) ≤ 2 ^ 32 }
        ensures { result ≡ word % length (slice_index_or self.now virt []) }
    {
        self.counts[self.kinds[virt]].remainder(word)
    }

    /// The room of a virtual node's candidate of that number.
    #[inline(always)]
    pub fn at(&self, virt: usize, number: usize) -> Room
        requires virt { virt < length self.now }
        requires number { number < length (slice_index_or self.now virt []) }
        ensures { result ≡ slice_index_or (slice_index_or self.now virt []) number no_room }
    {
        let rooms = self.lists[self.kinds[virt]].as_slice();
        rooms[number]
    }
}
