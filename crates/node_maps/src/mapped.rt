// The mapping of a node map.
ghost use Rattle.std.specs.Prelude.{◌≡◌, length, IfOk, is_none};
ghost use Rattle.virt_topo.specs.Soundness.{IsSound};
ghost use Rattle.lab_model.specs.Shapes.{IsFreeOf, IsShaped};
ghost use Rattle.lab_model.specs.Feasible.{violation};
ghost use Rattle.node_maps.specs.NodeMaps.{ArePlaces, ends_of, node_map as node_map_of};

use crate::ends::End;
use crate::ifaces::serve;
use crate::lists::Place;
use feas::{CheckFault, check};
use lab_base::{Items, Memory};
use phys_lab::{Free, Lab};
use std::alloc::Global;
use virt_topo::{Mapping, Wiring};

/// Whether a mapping keeps the eight rules.
pub fn is_feasible(
    alloc: Global,
    lab: &Lab,
    free: &Free,
    wiring: &Wiring,
    mapping: &Mapping,
) -> Result<bool, Memory>
    requires free { IsFreeOf lab.now free.now }
    requires sound { IsSound wiring.now }
    requires shaped { IsShaped lab.now wiring.now mapping.now }
    ensures { IfOk result (λ yes. yes ≡ is_none (violation lab.now free.now wiring.now mapping.now)) }
{
    match check(alloc, lab, free, wiring, mapping) {
        Ok(()) => Ok(true),
        Err(
            CheckFault::Violation {
                rule: _,
                subject: _,
            },
        ) => Ok(false),
        Err(CheckFault::Memory) => Err(Memory),
    }
}

/// Equal places.
pub fn copy_places(alloc: Global, places: &[Place]) -> Result<Items<Place>, Memory>
    ensures { IfOk result (λ copy. copy ≡ places.now) }
{
    let mut copy = Items::new(alloc);
    for place in places {
        copy.push(*place)?;
    }
    Ok(copy)
}

/// The mapping of the places, where the interface rule serves every end and the mapping is feasible.
#[tactic(auto, unfolding(crate::specs::NodeMaps::node_map))]
pub fn node_map(
    alloc: Global,
    lab: &Lab,
    free: &Free,
    wiring: &Wiring,
    ends: &[End],
    places: &[Place],
) -> Result<Option<Mapping>, Memory>
    requires free { IsFreeOf lab.now free.now }
    requires sound { IsSound wiring.now }
    requires ends { ends.now ≡ ends_of wiring.now.segments }
    requires placed { length places.now ≡ length wiring.now.nodes }
    requires places { ArePlaces lab.now places.now }
    ensures { IfOk result (λ mapped. mapped ≡ node_map_of lab.now free.now wiring.now places.now) }
{
    let Some(plugs) = serve(alloc, lab, places, ends)? else {
        return Ok(None);
    };
    let mapping = Mapping {
        places: copy_places(alloc, places)?,
        plugs,
    };
    if is_feasible(alloc, lab, free, wiring, &mapping)? {
        Ok(Some(mapping))
    } else {
        Ok(None)
    }
}
