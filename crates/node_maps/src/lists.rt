ghost use Rattle.std.specs.Prelude.{◌≡◌, ◌<◌, length, slice_index_or, [], Contains};
ghost use Rattle.lab_model.specs.Rules.{no_place};
ghost use Rattle.node_maps.specs.Kinds.{by_kind, listed, AreNumbers};

use lab_base::{Items, Name, NodeId};
use std::marker::Model;

/// A node, and one of its types.
pub type Place = (NodeId, Name);

/// By virtual node the places that it may have, in the lab's order.
///
/// A candidate is a number in one list of the lab's places, which virtual nodes of one kind share. So the fields are private, and calls give the places.
#[derive(Drop)]
pub struct Candidates {
    /// The places of the lab.
    pub(crate) places: Vec<Place>,
    /// By kind of virtual node the numbers of its candidates' places.
    pub(crate) lists: Vec<Items<u16>>,
    /// By virtual node its kind.
    pub(crate) kinds: Vec<usize>,
}

impl Model for Candidates {
    ghost use Rattle.std.specs.Prelude.{List};
    ghost use Rattle.lab_model.specs.Shapes.{Place as PlaceSeen};
    ghost use Rattle.node_maps.specs.Kinds.{by_kind as listed_by_kind, listed as places_listed, AreNumbers as AreNumbersOf};

    ghost Value = { List (List PlaceSeen) };

    ghost view = { λ a. listed_by_kind (places_listed a.places.items a.lists.items) a.kinds.items };

    ghost invariant = { λ a. AreNumbersOf a.places.items a.lists.items };
}

fn numbers_of(lists: &[Items<u16>], kind: usize) -> &[u16]
    ensures { result.now ≡ slice_index_or lists.now kind [] }
{
    match lists.get(kind) {
        Some(numbers) => numbers.as_slice(),
        None => &[],
    }
}

impl Candidates {
    /// These numbers of places by kind, of virtual nodes of these kinds.
    pub(crate) fn of_kinds(
        places: Vec<Place>,
        lists: Vec<Items<u16>>,
        kinds: Vec<usize>,
    ) -> Candidates
        requires { AreNumbers places.items lists.items }
        ensures { result ≡ by_kind (listed places.items lists.items) kinds.items }
    {
        Candidates {
            places,
            lists,
            kinds,
        }
    }

    /// How many virtual nodes there are.
    pub fn len(&self) -> usize
        ensures { result ≡ length self.now }
    {
        self.kinds.len()
    }

    /// How many candidates a virtual node has.
    pub fn count(&self, virt: usize) -> usize
        requires { virt < length self.now }
        ensures { result ≡ length (slice_index_or self.now virt []) }
    {
        numbers_of(&self.lists, self.kinds[virt]).len()
    }

    /// A virtual node's candidate of that number.
    pub fn at(&self, virt: usize, number: usize) -> &Place
        requires virt { virt < length self.now }
        requires number { number < length (slice_index_or self.now virt []) }
        ensures named { result.now ≡ slice_index_or (slice_index_or self.now virt []) number no_place }
        ensures among { Contains (slice_index_or self.now virt []) result.now }
    {
        let own = numbers_of(&self.lists, self.kinds[virt]);
        &self.places[own[number] as usize]
    }
}
