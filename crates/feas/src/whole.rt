ghost use Rattle.std.specs.Prelude.{◌≡◌};
ghost use Rattle.virt_topo.specs.Soundness.{IsSound};
ghost use Rattle.lab_model.specs.Shapes.{IsFreeOf, IsShaped};
ghost use Rattle.lab_model.specs.Feasible.{violation};
ghost use Rattle.feas.specs.Checked.{IsChecked};

use crate::fault::CheckFault;
use crate::nodes::first_crowded;
use crate::places::{first_claimed, first_misplaced, first_unsuited};
use crate::plugs::first_misplugged;
use crate::segments::first_parted;
use crate::trunks::first_overfull;
use lab_base::{NodeId, TrunkId};
use phys_lab::{Free, Lab};
use std::alloc::Global;
use virt_topo::{Broken, Mapping, Subject, Wiring};

fn breaks(rule: Broken, subject: Subject) -> Result<(), CheckFault>
    ensures { result ≡ Err (CheckFault.Violation rule subject) }
{
    Err(CheckFault::Violation { rule, subject })
}

/// Checks that a mapping keeps the eight rules on the rest that others leave. Else it answers the first broken rule, with its first subject that
/// breaks it.
pub fn check(
    alloc: Global,
    lab: &Lab,
    free: &Free,
    wiring: &Wiring,
    mapping: &Mapping,
) -> Result<(), CheckFault>
    requires free { IsFreeOf lab.now free.now }
    requires sound { IsSound wiring.now }
    requires shaped { IsShaped lab.now wiring.now mapping.now }
    ensures { IsChecked result (violation lab.now free.now wiring.now mapping.now) }
{
    // for the prover: it tells what every lab keeps
    let _kept = lab.range();
    if let Some(virt) = first_claimed(lab, free, wiring, mapping) {
        return breaks(Broken::F1, Subject::Virt(virt as u16));
    }
    if let Some(node) = first_crowded(alloc, lab, wiring, mapping)? {
        return breaks(Broken::F2, Subject::Node(NodeId(node as u16)));
    }
    if let Some(virt) = first_unsuited(lab, wiring, mapping) {
        return breaks(Broken::F3, Subject::Virt(virt as u16));
    }
    if let Some(virt) = first_misplaced(lab, wiring, mapping) {
        return breaks(Broken::F4, Subject::Virt(virt as u16));
    }
    if let Some(end) = first_misplugged(alloc, lab, wiring, mapping)? {
        return breaks(Broken::F5, Subject::End(end as u16));
    }
    if let Some(trunk) = first_overfull(lab, free, wiring, mapping) {
        return breaks(Broken::F6, Subject::Trunk(TrunkId(trunk as u16)));
    }
    if let Some(segment) = first_parted(lab, wiring, mapping) {
        return breaks(Broken::F7, Subject::Segment(segment as u16));
    }
    if wiring.segments.len() > free.vlans as usize {
        return breaks(Broken::F8, Subject::Vlans);
    }
    Ok(())
}
