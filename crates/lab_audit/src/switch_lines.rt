// The lines of the switches of a lab.
ghost use Rattle.std.specs.Prelude.{◌≡◌, ◌++◌, List, IfOk, OnOk, IfSome};
ghost use Rattle.phys_lab.specs.Labs.{Lab as AnyLab};
ghost use Rattle.virt_topo.specs.declared.experiment.Experiment.{Experiment as AnyExperiment};
ghost use Rattle.plant.specs.Worlds.{world_of};
ghost use Rattle.script_text.specs.declared.reply.AuditLine.{AuditLine as AnyLine};
ghost use Rattle.lab_audit.specs.Diff.{AreLinesOf, AreLines};
ghost use Rattle.lab_audit.specs.Lines.{AreAllWanted};
ghost use Rattle.lab_audit.specs.Reads.{Reads, unread_by};

use crate::readings::rows_on;
use crate::switches::compare_switch;
use crate::wanted::Wanted;
use crate::{AuditFault, Report};
use lab_base::{Items, Memory, Name};
use phys_lab::Lab;
use plant::Tables;
use script_text::AuditLine;
use std::alloc::Global;

/// Adds lines.
pub(crate) fn append(lines: &mut Report, more: &[AuditLine]) -> Result<(), Memory>
    ensures { OnOk result (lines.new ≡ lines.old ++ more.now) }
{
    for line in more {
        lines.push(*line)?;
    }
    Ok(())
}

/// The lines of a switch.
fn lines_on<P: Tables>(
    alloc: Global,
    plant: &mut P,
    switch: Name,
    wanted: &[Wanted],
) -> Result<Vec<AuditLine>, AuditFault>
    ensures reads { Reads (P.seen plant.old) (P.seen plant.new) (unread_by result) }
    ensures lines { IfSome (P.seen plant.old).told (λ t. IfOk result (λ lines. (lab : AnyLab) (es : List AnyExperiment) → AreAllWanted lab es wanted.now
        → AreLinesOf lab es (world_of t.trace) switch lines.items)) }
{
    let found = rows_on(alloc, plant, switch)?;
    let lines = compare_switch(alloc, switch, found.as_slice(), wanted)?;
    Ok(lines)
}

/// Adds the lines of a switch.
fn push_switch<P: Tables>(
    alloc: Global,
    plant: &mut P,
    lines: &mut Report,
    switch: Name,
    wanted: &[Wanted],
) -> Result<(), AuditFault>
    ensures reads { Reads (P.seen plant.old) (P.seen plant.new) (unread_by result) }
    ensures lines { IfSome (P.seen plant.old).told (λ t. OnOk result ((own : List AnyLine) × (lines.new ≡ lines.old ++ own)
        × ((lab : AnyLab) (es : List AnyExperiment) → AreAllWanted lab es wanted.now → AreLinesOf lab es (world_of t.trace) switch own))) }
{
    let own = lines_on(alloc, plant, switch, wanted)?;
    append(lines, &own)?;
    Ok(())
}

/// The lines of the switches of a lab, in order.
pub(crate) fn switch_lines<P: Tables>(
    alloc: Global,
    plant: &mut P,
    lab: &Lab,
    wanted: &[Wanted],
) -> Result<Report, AuditFault>
    ensures reads { Reads (P.seen plant.old) (P.seen plant.new) (unread_by result) }
    ensures lines { IfSome (P.seen plant.old).told (λ t. IfOk result (λ lines. (es : List AnyExperiment) → AreAllWanted lab.now es wanted.now
        → AreLines lab.now es (world_of t.trace) lab.now.switches lines)) }
{
    let mut lines = Items::new(alloc);
    let switches = lab.switches();
    for switch in switches {
        push_switch(alloc, plant, &mut lines, *switch, wanted)?;
    }
    Ok(lines)
}
