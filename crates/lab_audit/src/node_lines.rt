// Nodes of a lab that differ.
ghost use Rattle.std.specs.Prelude.{◌≡◌, ◌↔◌, ◌<◌, ◌++◌, [], ◌∷◌, ℕ, Bool, List, is_some, true, length, Some, IfOk, OnOk, IfSome};
ghost use Rattle.lab_base.specs.Lists.{Has};
ghost use Rattle.virt_topo.specs.declared.mapping.Mapped.{Mapped as AnyMapped};
ghost use Rattle.plant.specs.Worlds.{world_of, wiped};
ghost use Rattle.lab_model.specs.Cabled.{SameNode};
ghost use Rattle.lab_model.specs.Courses.{node_names};
ghost use Rattle.lab_model.specs.Holding.{Suits};
ghost use Rattle.lab_model.specs.Wants.{node_name};
ghost use Rattle.records_model.specs.Labs.{Sane};
ghost use Rattle.script_text.specs.declared.reply.AuditLine.{AuditLine as AnyLine};
ghost use Rattle.script_text.specs.declared.reply.AuditLine.TheVariants as lines;
ghost use Rattle.lab_audit.specs.Diff.{AreDiffering, Differs, IsCompared, IsKnown, standing};
ghost use Rattle.lab_audit.specs.Nodes.{IsOff, line_if};
ghost use Rattle.lab_audit.specs.Reads.{Reads, unread_by};

use crate::holders::claimer;
use crate::nodes::is_as_wanted;
use crate::{AuditFault, Report};
use lab_base::{Items, Memory, Name, NodeId};
use lab_model::name_at;
use lab_state::LabState;
use phys_lab::Lab;
use plant::Tables;
use script_text::AuditLine;
use std::alloc::Global;
use swap_plan::node_row_of;
use virt_topo::{Experiment, Phase};

/// Whether a node isn't wiped.
fn is_unwiped<P: Tables>(alloc: Global, plant: &mut P, node: Name) -> Result<bool, AuditFault>
    ensures reads { Reads (P.seen plant.old) (P.seen plant.new) (unread_by result) }
    ensures exact { IfSome (P.seen plant.old).told (λ t. IfOk result (λ differs. is_some ((world_of t.trace).node node).boot ≡ true
        → (differs ≡ true ↔ (SameNode ((world_of t.trace).node node) wiped → ⊥)))) }
{
    let same = is_as_wanted(alloc, plant, node, None, false, &[])?;
    Ok(!same)
}

/// Whether a node isn't as the experiment wants it that has it. Of one that doesn't stand nothing is compared.
fn is_off<P: Tables>(
    alloc: Global,
    plant: &mut P,
    lab: &Lab,
    experiment: &Experiment,
    node: NodeId,
) -> Result<bool, AuditFault>
    requires node { node.0 < length lab.now.nodes }
    requires fits { (m : AnyMapped) → standing experiment.now ≡ Some m → Suits lab.now m }
    ensures reads { Reads (P.seen plant.old) (P.seen plant.new) (unread_by result) }
    ensures exact { IfSome (P.seen plant.old).told (λ t. IfOk result (λ off.
        ((m : AnyMapped) → standing experiment.now ≡ Some m → is_some ((world_of t.trace).node (node_name lab.now node)).boot ≡ true)
        → (off ≡ true ↔ IsOff lab.now (world_of t.trace) (node_name lab.now node) (standing experiment.now)))) }
{
    match &experiment.phase {
        Phase::In { mapping, .. } => {
            let wants = node_row_of(alloc, lab, &experiment.wiring, mapping, node)?;
            let same = is_as_wanted(
                alloc,
                plant,
                name_at(lab, node),
                wants.os,
                true,
                &wants.pipes,
            )?;
            Ok(!same)
        }
        Phase::Out | Phase::Moving { .. } => Ok(false),
    }
}

/// Whether a node differs from what is wanted of it.
fn differs<P: Tables>(
    alloc: Global,
    plant: &mut P,
    state: &LabState,
    lab: &Lab,
    node: NodeId,
) -> Result<bool, AuditFault>
    requires sane { Sane state.now.state }
    requires lab { state.now.state.lab ≡ Some lab.now }
    requires node { node.0 < length lab.now.nodes }
    ensures reads { Reads (P.seen plant.old) (P.seen plant.new) (unread_by result) }
    ensures exact { IfSome (P.seen plant.old).told (λ t. IfOk result (λ differs.
        (IsCompared lab.now state.now.state.experiments (node_name lab.now node) → is_some ((world_of t.trace).node (node_name lab.now node)).boot ≡ true)
        → (differs ≡ true ↔ Differs lab.now state.now.state.experiments (world_of t.trace) (node_name lab.now node)))) }
{
    let name = name_at(lab, node);
    match claimer(state, node) {
        Some(experiment) => is_off(alloc, plant, lab, experiment, node),
        None => is_unwiped(alloc, plant, name),
    }
}

fn push_if(nodes: &mut Report, differs: bool, node: Name) -> Result<(), Memory>
    ensures { OnOk result (nodes.new ≡ nodes.old ++ line_if differs node) }
{
    if differs {
        nodes.push(AuditLine::Node { node })?;
    }
    Ok(())
}

/// Adds the line of a node, if it differs.
fn push_node<P: Tables>(
    alloc: Global,
    plant: &mut P,
    nodes: &mut Report,
    state: &LabState,
    lab: &Lab,
    node: NodeId,
) -> Result<(), AuditFault>
    requires sane { Sane state.now.state }
    requires lab { state.now.state.lab ≡ Some lab.now }
    requires node { node.0 < length lab.now.nodes }
    ensures reads { Reads (P.seen plant.old) (P.seen plant.new) (unread_by result) }
    ensures line { OnOk result ((differs : Bool) × (nodes.new ≡ nodes.old ++ line_if differs (node_name lab.now node))) }
    ensures exact { IfSome (P.seen plant.old).told (λ t. OnOk result (
        (IsCompared lab.now state.now.state.experiments (node_name lab.now node) → is_some ((world_of t.trace).node (node_name lab.now node)).boot ≡ true)
        → (own : List AnyLine) × (nodes.new ≡ nodes.old ++ own)
        × AreDiffering lab.now state.now.state.experiments (world_of t.trace) (node_name lab.now node ∷ []) own)) }
{
    let differs = differs(alloc, plant, state, lab, node)?;
    push_if(nodes, differs, name_at(lab, node))?;
    Ok(())
}

/// The lines of the nodes that differ, in order.
pub(crate) fn node_lines<P: Tables>(
    alloc: Global,
    plant: &mut P,
    state: &LabState,
    lab: &Lab,
) -> Result<Report, AuditFault>
    requires sane { Sane state.now.state }
    requires lab { state.now.state.lab ≡ Some lab.now }
    ensures reads { Reads (P.seen plant.old) (P.seen plant.new) (unread_by result) }
    ensures lines { IfOk result (λ nodes. (line : AnyLine) → Has nodes line → (name : List ℕ) × (line ≡ lines.Node name)) }
    ensures exact { IfSome (P.seen plant.old).told (λ t. IfOk result (λ nodes. IsKnown lab.now state.now.state.experiments (world_of t.trace)
        → AreDiffering lab.now state.now.state.experiments (world_of t.trace) (node_names lab.now) nodes)) }
{
    // for the prover: a lab has no more nodes than a number can count
    let _range = lab.range();
    let mut nodes = Items::new(alloc);
    for node in 0..lab.nodes().len() {
        push_node(alloc, plant, &mut nodes, state, lab, NodeId(node as u16))?;
    }
    Ok(nodes)
}
