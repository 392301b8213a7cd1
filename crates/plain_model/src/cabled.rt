// Whether rows and nodes are as the claimed mappings want them.
ghost use Rattle.std.specs.Prelude.{◌≡◌, ◌<◌, ◌&&◌, true, length, is_none, IfOk, IsTrue, ◌↔◌};
ghost use Rattle.std.specs.List.{list_all};
ghost use Rattle.lab_model.specs.Cabled.{Cabled};
ghost use Rattle.lab_model.specs.Beside.{is_claimed};
ghost use Rattle.lab_model.specs.Courses.{op_node};
ghost use Rattle.plain_model.specs.Holds.{fits, all_fit, all_pass};
ghost use Rattle.plain_model.specs.Rows.{has_row, rows_of, world_sent};
ghost use Rattle.plain_model.specs.Isolation.{wanted_in};
ghost use Rattle.plain_model.specs.Cabling.{is_right, is_moving_right, is_right_at, rows_stand, is_cabled_by, is_free_wiped, is_cabled};

use crate::isolation::are_wanted;
use crate::nodes::{are_sets_of, is_node, stays, wants_of};
use crate::wants::owned_rows;
use crate::{Owned, Sent, Wanted, has_row, rows_after, wanted_rows};
use lab_base::{Memory, Name, NodeId};
use lab_model::{claims, name_at};
use phys_lab::Lab;
use plant::DeviceOp;
use std::alloc::Global;
use swap_plan::{NodeWants, Port, node_row_of};
use virt_topo::{Experiment, Phase};

/// Whether a node is as a mapping wants it, where that wants something of it.
fn is_right(commands: &[Sent], name: &[u8], wants: &NodeWants) -> bool
    ensures { result ≡ is_right commands.now name.now wants.now.os wants.now.pipes.items }
{
    wants.os.is_none() || is_node(commands, name, wants.os, true, &wants.pipes)
}

/// Whether a node is claimed neither before a move nor then.
fn is_unclaimed(before: &NodeWants, after: &NodeWants) -> bool
    ensures { result ≡ (is_none before.now.os && is_none after.now.os) }
{
    before.os.is_none() && after.os.is_none()
}

/// Whether a node is as a move may leave it. One that stays is exactly as wanted. Each pipe of another one that is claimed is wanted before or then.
fn is_moving_right(commands: &[Sent], name: &[u8], before: &NodeWants, after: &NodeWants) -> bool
    ensures { result
        ≡ is_moving_right commands.now name.now before.now.os before.now.pipes.items after.now.os after.now.pipes.items }
{
    if stays(before, after) {
        is_node(commands, name, after.os, true, &after.pipes)
    } else {
        is_unclaimed(before, after)
            || are_sets_of(commands, name, &before.pipes, &after.pipes, commands)
    }
}

/// Whether a node is as the phase of an experiment wants it.
fn is_right_at(
    alloc: Global,
    commands: &[Sent],
    lab: &Lab,
    experiment: &Experiment,
    node: NodeId,
) -> Result<bool, Memory>
    requires fits { fits lab.now experiment.now ≡ true }
    requires node { node.0 < length lab.now.nodes }
    ensures { IfOk result (λ right. right ≡ is_right_at commands.now lab.now experiment.now node.0) }
{
    let name = name_at(lab, node);
    match &experiment.phase {
        Phase::Out => Ok(true),
        Phase::In { mapping, .. } => {
            let wants = node_row_of(alloc, lab, &experiment.wiring, mapping, node)?;
            Ok(is_right(commands, name.bytes(), &wants))
        }
        Phase::Moving { old, new } => {
            let before = wants_of(alloc, lab, old, node)?;
            let after = wants_of(alloc, lab, new, node)?;
            Ok(is_moving_right(commands, name.bytes(), &before, &after))
        }
    }
}

/// Whether all nodes are as the phase of an experiment wants them.
fn are_right(
    alloc: Global,
    commands: &[Sent],
    lab: &Lab,
    experiment: &Experiment,
) -> Result<bool, Memory>
    requires { fits lab.now experiment.now ≡ true }
    ensures { IfOk result (λ right. right ≡ all_pass (length lab.now.nodes) (is_right_at commands.now lab.now experiment.now)) }
{
    // for the prover: it tells what every lab keeps
    let _kept = lab.range();
    for node in 0..lab.nodes().len() {
        if !is_right_at(alloc, commands, lab, experiment, NodeId(node as u16))? {
            return Ok(false);
        }
    }
    Ok(true)
}

fn all_stand(commands: &[Sent], rows: &[Owned]) -> bool
    ensures { result ≡ list_all (λ o. has_row commands.now o.row) rows.now }
{
    rows.iter().all(|owned| has_row(commands, &owned.row))
}

/// Whether all rows of an experiment stand, where it is in.
fn rows_stand(
    alloc: Global,
    commands: &[Sent],
    lab: &Lab,
    experiment: &Experiment,
) -> Result<bool, Memory>
    requires { fits lab.now experiment.now ≡ true }
    ensures { IfOk result (λ stand. stand ≡ rows_stand commands.now lab.now experiment.now.wiring experiment.now.phase) }
{
    match &experiment.phase {
        Phase::Out | Phase::Moving { .. } => Ok(true),
        Phase::In { mapping, tags } => {
            let rows = owned_rows(alloc, lab, &experiment.wiring, mapping, tags.as_slice())?;
            Ok(all_stand(commands, &rows))
        }
    }
}

/// Whether the rows and nodes of an experiment are as its phase wants them.
fn is_cabled_by(
    alloc: Global,
    commands: &[Sent],
    lab: &Lab,
    experiment: &Experiment,
) -> Result<bool, Memory>
    requires { fits lab.now experiment.now ≡ true }
    ensures { IfOk result (λ right. right ≡ is_cabled_by commands.now lab.now experiment.now) }
{
    let rows = rows_stand(alloc, commands, lab, experiment)?;
    let nodes = are_right(alloc, commands, lab, experiment)?;
    Ok(rows && nodes)
}

fn are_cabled(
    alloc: Global,
    commands: &[Sent],
    lab: &Lab,
    experiments: &[Experiment],
) -> Result<bool, Memory>
    requires { all_fit lab.now experiments.now ≡ true }
    ensures { IfOk result (λ right. right ≡ list_all (is_cabled_by commands.now lab.now) experiments.now) }
{
    match experiments.split_first() {
        Some((experiment, others)) => {
            let here = is_cabled_by(alloc, commands, lab, experiment)?;
            let later = are_cabled(alloc, commands, lab, others)?;
            Ok(here && later)
        }
        None => Ok(true),
    }
}

fn is_claimed(lab: &Lab, experiments: &[Experiment], name: &[u8]) -> bool
    ensures { result ≡ is_claimed lab.now experiments.now name.now }
{
    experiments
        .iter()
        .any(|experiment| claims(lab, experiment, name))
}

fn node_of(op: DeviceOp) -> Option<Name>
    ensures { result ≡ op_node op }
{
    match op {
        DeviceOp::Join { .. } | DeviceOp::Leave { .. } => None,
        DeviceOp::Shape { node, .. }
        | DeviceOp::Load { node, .. }
        | DeviceOp::Boot { node }
        | DeviceOp::Poll { node }
        | DeviceOp::Wipe { node } => Some(node),
    }
}

fn is_free_wiped(
    commands: &[Sent],
    lab: &Lab,
    experiments: &[Experiment],
    node: Option<Name>,
) -> bool
    ensures { result ≡ is_free_wiped commands.now lab.now experiments.now node }
{
    match node {
        Some(node) => {
            is_claimed(lab, experiments, node.bytes())
                || is_node(commands, node.bytes(), None, false, &[])
        }
        None => true,
    }
}

/// Whether each node without a claim that a command went to is wiped.
fn are_free_wiped(commands: &[Sent], lab: &Lab, experiments: &[Experiment], rest: &[Sent]) -> bool
    ensures { result ≡ list_all (λ sent. is_free_wiped commands.now lab.now experiments.now (op_node sent.op)) rest.now }
{
    match rest.split_first() {
        Some((sent, others)) => {
            is_free_wiped(commands, lab, experiments, node_of(sent.op))
                && are_free_wiped(commands, lab, experiments, others)
        }
        None => true,
    }
}

fn holds(
    commands: &[Sent],
    lab: &Lab,
    experiments: &[Experiment],
    wanted: &[Wanted],
    rows: &[Port],
    phases: bool,
) -> bool
    requires wanted { wanted.now ≡ wanted_in lab.now experiments.now }
    requires rows { rows.now ≡ rows_of commands.now commands.now }
    requires phases { phases ≡ list_all (is_cabled_by commands.now lab.now) experiments.now }
    ensures { result ≡ is_cabled commands.now lab.now experiments.now }
{
    are_wanted(wanted, rows) && (phases && are_free_wiped(commands, lab, experiments, commands))
}

/// Whether after these commands rows and nodes are as the claimed mappings want them.
/// Each row is wanted, each experiment has the rows and nodes of its phase, and each node without a claim is wiped.
pub fn is_cabled(
    alloc: Global,
    lab: &Lab,
    experiments: &[Experiment],
    commands: &[Sent],
) -> Result<bool, Memory>
    requires { all_fit lab.now experiments.now ≡ true }
    ensures { IfOk result (λ cabled. IsTrue cabled ↔ Cabled lab.now experiments.now (world_sent commands.now)) }
{
    let wanted = wanted_rows(alloc, lab, experiments)?;
    let rows = rows_after(alloc, commands)?;
    let phases = are_cabled(alloc, commands, lab, experiments)?;
    Ok(holds(commands, lab, experiments, &wanted, &rows, phases))
}
