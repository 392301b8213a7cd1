ghost use Rattle.std.specs.Prelude.{◌≡◌, ◌≤◌, ◌+◌, length, sum_by, IfOk};
ghost use Rattle.virt_topo.specs.Soundness.{IsSound};
ghost use Rattle.net_plan.specs.Expansion.{wired, expansion, Answers};
ghost use Rattle.net_plan.specs.Parts.{AreExpandable, delays};

use crate::PlanFault;
use crate::addresses::addressed;
use crate::limits::fits;
use crate::nodes::{asked_nodes, push_all_delay_nodes};
use crate::pipes::wired_pipes;
use crate::segments::wired_segments;
use lab_base::Memory;
use std::alloc::Global;
use virt_topo::{AskedLink, MAX_TOPOLOGY_NODES, Topo, Wiring, copy_classes};

/// The wiring of a network with these links and LANs.
fn wired(alloc: Global, topo: &Topo, links: &[AskedLink]) -> Result<Wiring, Memory>
    requires links { AreExpandable links.now }
    requires few { length topo.now.nodes + sum_by delays links.now ≤ MAX_TOPOLOGY_NODES }
    ensures { IfOk result (λ wiring. wiring ≡ wired topo.now links.now) }
{
    let asked = topo.nodes().len() as u16;
    let classes = copy_classes(alloc, topo.classes())?;
    let mut nodes = asked_nodes(alloc, topo.nodes())?;
    push_all_delay_nodes(alloc, &mut nodes, links)?;
    let segments = wired_segments(alloc, links, asked)?;
    let pipes = wired_pipes(alloc, links, asked)?;
    Ok(Wiring {
        classes,
        nodes,
        segments,
        pipes,
    })
}

/// The wiring of a network, in which each end but those of delay nodes has an address; else the first fault.
#[tactic(auto, unfolding(crate::specs::Expansion::expansion))]
pub fn expand(alloc: Global, topo: &Topo) -> Result<Wiring, PlanFault>
    ensures expansion { Answers result (expansion topo.now) }
    ensures sound { IfOk result (λ wiring. IsSound wiring) }
{
    if !fits(topo) {
        return Err(PlanFault::Limit);
    }
    if topo.nodes().is_empty() {
        return Err(PlanFault::Empty);
    }
    let links = addressed(alloc, topo.links())?;
    Ok(wired(alloc, topo, links.as_slice())?)
}
