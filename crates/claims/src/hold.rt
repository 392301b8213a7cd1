ghost use Rattle.std.specs.Prelude.{◌≡◌, ◌<◌, length, map, IfOk};
ghost use Rattle.std.specs.List.{range_with_len};
ghost use Rattle.virt_topo.specs.Soundness.{IsSound};
ghost use Rattle.lab_model.specs.Shapes.{IsShaped};
ghost use Rattle.lab_model.specs.Uses.{use_of};
ghost use Rattle.claims.specs.Holds.{hold_of};

use lab_base::{IfaceId, Items, Memory, NodeId, Tags, TrunkId};
use phys_lab::Lab;
use std::alloc::Global;
use virt_topo::{Mapped, Mapping};

/// The claim of one mapping on a lab: its nodes, interfaces, kbps of trunks, and VLAN ids.
#[derive(Drop)]
pub struct Hold {
    /// By virtual node, its node.
    pub nodes: Items<NodeId>,
    /// By end, its interface.
    pub plugs: Items<IfaceId>,
    /// By trunk, the kbps that the mapping uses.
    pub uses: Items<u64>,
    /// By segment, its VLAN id.
    pub tags: Tags,
}

fn nodes_of(alloc: Global, mapping: &Mapping) -> Result<Items<NodeId>, Memory>
    ensures { IfOk result (λ nodes. nodes ≡ map (λ p. p.0) mapping.now.places) }
{
    let mut nodes = Items::new(alloc);
    for place in mapping.places.as_slice() {
        nodes.push(place.0)?;
    }
    Ok(nodes)
}

fn use_of(lab: &Lab, mapped: &Mapped, trunk: usize) -> u64
    requires sound { IsSound mapped.now.wiring }
    requires shaped { IsShaped lab.now mapped.now.wiring mapped.now.mapping }
    requires trunk { trunk < length lab.now.trunks }
    ensures { result ≡ use_of lab.now mapped.now.wiring mapped.now.mapping trunk }
{
    // for the prover: it tells what every lab keeps
    let _kept = lab.range();
    let first = lab.first_side(TrunkId(trunk as u16));
    mapped.mapping.cut_use(&mapped.wiring, first)
}

fn uses_of(alloc: Global, lab: &Lab, mapped: &Mapped) -> Result<Items<u64>, Memory>
    requires sound { IsSound mapped.now.wiring }
    requires shaped { IsShaped lab.now mapped.now.wiring mapped.now.mapping }
    ensures { IfOk result (λ uses. uses ≡ map (use_of lab.now mapped.now.wiring mapped.now.mapping) (range_with_len 0 (length lab.now.trunks))) }
{
    let mut uses = Items::new(alloc);
    for trunk in 0..lab.trunks().len() {
        uses.push(use_of(lab, mapped, trunk))?;
    }
    Ok(uses)
}

impl Hold {
    /// The claim of a mapping with its wiring and VLAN ids.
    pub fn of(alloc: Global, lab: &Lab, mapped: &Mapped) -> Result<Hold, Memory>
        requires sound { IsSound mapped.now.wiring }
        requires shaped { IsShaped lab.now mapped.now.wiring mapped.now.mapping }
        ensures { IfOk result (λ hold. hold ≡ hold_of lab.now mapped.now) }
    {
        Ok(Hold {
            nodes: nodes_of(alloc, &mapped.mapping)?,
            plugs: mapped.mapping.plugs.copy(alloc)?,
            uses: uses_of(alloc, lab, mapped)?,
            tags: mapped.tags.copy(alloc)?,
        })
    }
}
