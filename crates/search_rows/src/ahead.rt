//! The outlook.
ghost use Rattle.std.specs.Prelude.{◌<◌, ◌≤◌, length, All, IfOk};
ghost use Rattle.lab_base.specs.Lists.{AllDiffer};

use crate::problem::{lab_of, tell_short};
use lab_ahead::{Fit, MAX_PROMISES, Need, fits, needs_at, read_batch};
use lab_base::{Items, Kind, Memory, NodeId, Text};
use phys_lab::Lab;
use row_words::RowFault;
use std::alloc::Global;

fn all_nodes(alloc: Global, lab: &Lab) -> Result<Vec<NodeId>, Memory>
    ensures differ { IfOk result (λ nodes. AllDiffer nodes.items) }
    ensures of_lab { IfOk result (λ nodes. All (λ node. node.0 < length lab.now.nodes) nodes.items) }
{
    // for the prover: it tells what every lab keeps
    let _few = lab.range();
    let mut nodes = Vec::new(alloc);
    for n in 0..lab.nodes().len() {
        nodes.push(NodeId(n as u16))?;
    }
    Ok(nodes)
}

/// Adds how many nodes are given, or how many types are short.
fn push_fit(out: &mut Text, fit: &Fit) -> Result<(), Memory> {
    match fit {
        Fit::Yes(given) => {
            out.push_number(given.len() as u64)?;
            out.push_bytes(b" nodes given\n")
        }
        Fit::No(kinds) => {
            out.push_number(kinds.len() as u64)?;
            out.push_bytes(b" types are short\n")
        }
    }
}

/// Adds whether needs fit.
fn push_fitted(
    out: &mut Text,
    alloc: Global,
    lab: &Lab,
    nodes: &[NodeId],
    needs: &[Need],
) -> Result<(), Memory>
    requires differ { AllDiffer nodes.now }
    requires of_lab { All (λ node. node.0 < length lab.now.nodes) nodes.now }
    requires few { length needs.now ≤ MAX_PROMISES }
{
    match fits(alloc, lab, nodes, needs) {
        Ok(fit) => {
            let pushed = push_fit(out, &fit);
            drop(fit);
            pushed
        }
        Err(memory) => Err(memory),
    }
}

/// The needs of a batch's promises that hold at 0.
fn needs_of(alloc: Global, batch: &[u8]) -> Result<Items<Need>, RowFault> {
    tell_short(batch)?;
    let batch = read_batch(alloc, batch)?;
    let needs = needs_at(alloc, batch.promises.as_slice(), 0);
    drop(batch);
    Ok(needs?)
}

/// Adds so many times whether needs fit.
fn push_times(
    out: &mut Text,
    alloc: Global,
    times: u64,
    lab: &Lab,
    needs: &[Need],
) -> Result<(), RowFault> {
    if needs.len() > MAX_PROMISES {
        return Err(RowFault::Word(Kind::Many));
    }
    let nodes = all_nodes(alloc, lab)?;
    for _time in 0..times {
        push_fitted(out, alloc, lab, &nodes, needs)?;
    }
    Ok(())
}

/// Adds so many times whether the promises of a batch that hold at 0 fit.
pub fn add_output(
    out: &mut Text,
    alloc: Global,
    times: u64,
    ptop: &[u8],
    batch: &[u8],
) -> Result<(), RowFault> {
    let needs = needs_of(alloc, batch)?;
    let lab = lab_of(alloc, ptop)?;
    let told = push_times(out, alloc, times, &lab, needs.as_slice());
    drop(lab);
    told
}
