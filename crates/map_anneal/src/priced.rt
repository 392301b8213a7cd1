// Maps with their costs.
ghost use Rattle.std.specs.Prelude.{◌≡◌, ◌<◌, length, slice_index_or, OnOk};
ghost use Rattle.lab_model.specs.Rules.{no_place};

use lab_base::{Items, Memory};
use node_maps::Place;
use std::alloc::Global;
use std::mem;
use virt_topo::Mapping;

/// A mapping and its cost.
#[derive(Drop)]
pub struct Priced {
    pub mapping: Mapping,
    pub cost: u64,
}

/// The place of a virtual node.
pub fn place_of(places: &[Place], node: usize) -> Place
    requires { node < length places.now }
    ensures { result ≡ slice_index_or places.now node no_place }
{
    places[node]
}

/// Copies these items into the memory of a list, in the place of its own.
pub fn copy_onto<T: Copy + Drop>(
    alloc: Global,
    items: &[T],
    list: &mut Items<T>,
) -> Result<(), Memory>
    ensures { OnOk result (list.new ≡ items.now) }
{
    let mut own = mem::replace(list, Items::new(alloc)).into_vec();
    own.clear();
    own.extend_from_slice(items)?;
    *list = Items::from_vec(own);
    Ok(())
}
