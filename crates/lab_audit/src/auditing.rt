ghost use Rattle.std.specs.Prelude.{IfOk, IfSome};
ghost use Rattle.plant.specs.Worlds.{world_of};
ghost use Rattle.records_model.specs.Labs.{lab_in};
ghost use Rattle.lab_audit.specs.Diff.{IsDiff, IsKnown, TellsSwitches};
ghost use Rattle.lab_audit.specs.Reads.{Reads, unread_by};

use crate::gather::wanted_of;
use crate::node_lines::node_lines;
use crate::switch_lines::{append, switch_lines};
use crate::{AuditFault, Report};
use lab_base::Items;
use lab_state::LabState;
use plant::Tables;
use std::alloc::Global;

/// Compares what the devices of a lab hold with what its experiments want of them.
///
/// Switches are read first, in order, and then nodes. Of a node its row is read first, and then its pipes. A node of an experiment that moves isn't read.
/// The first reading that fails ends the call, and the fault names its device. No side of the disk and no table changes.
///
/// Where the plant tells its trace, the report is exactly the difference, unless the boot state is open of a node that is compared. The lines of switches
/// are exact without that.
pub fn audit<P: Tables>(
    alloc: Global,
    state: &LabState,
    plant: &mut P,
) -> Result<Report, AuditFault>
    ensures reads { Reads (P.seen plant.old) (P.seen plant.new) (unread_by result) }
    ensures exact { IfSome (P.seen plant.old).told (λ t. IfOk result (λ report. IsKnown (lab_in state.now.state.lab) state.now.state.experiments (world_of t.trace)
        → IsDiff (lab_in state.now.state.lab) state.now.state.experiments (world_of t.trace) report)) }
    ensures switches { IfSome (P.seen plant.old).told (λ t. IfOk result (TellsSwitches (lab_in state.now.state.lab) state.now.state.experiments (world_of t.trace))) }
{
    let Some(lab) = state.lab() else {
        return Ok(Items::new(alloc));
    };
    let wanted = wanted_of(alloc, state, lab)?;
    let mut report = switch_lines(alloc, plant, lab, &wanted)?;
    let nodes = node_lines(alloc, plant, state, lab)?;
    append(&mut report, nodes.as_slice())?;
    Ok(report)
}
