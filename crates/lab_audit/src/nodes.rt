// Whether a node is as it is wanted.
ghost use Rattle.std.specs.Prelude.{◌≡◌, ◌↔◌, is_some, true, IfOk, IfSome};
ghost use Rattle.plant.specs.Worlds.{world_of};
ghost use Rattle.plant.specs.Readings.{pipe_of};
ghost use Rattle.lab_model.specs.Cabled.{SameNode};
ghost use Rattle.lab_audit.specs.Nodes.{agree, same_pipe, same_rates, state_if, row_with};
ghost use Rattle.lab_audit.specs.Reads.{Reads, unread_by};

use crate::AuditFault;
use crate::readings::{node_at, pipes_of};
use lab_base::{Boot, Name, Rates};
use plant::{NodeRow, PipeRow, Tables};
use std::alloc::Global;
use swap_plan::NodePipe;

fn same_rates(a: &Rates, b: &Rates) -> bool
    ensures { result ≡ same_rates a.now b.now }
{
    a.kbps == b.kbps && a.micros == b.micros && a.ppm == b.ppm
}

fn same_pipe(pipe: &PipeRow, wanted: &NodePipe) -> bool
    ensures { result ≡ same_pipe (pipe_of pipe.now) wanted.now }
{
    pipe.from == wanted.from
        && pipe.to == wanted.to
        && same_rates(&pipe.there, &wanted.there)
        && same_rates(&pipe.back, &wanted.back)
}

/// Whether the pipes are the wanted ones, numbered from 0.
fn agree(found: &[PipeRow], wanted: &[NodePipe]) -> bool
    ensures { result ≡ agree 0 found.now wanted.now }
{
    if found.len() != wanted.len() {
        return false;
    }
    for k in 0..found.len() {
        if !(found[k].pipe as usize == k && same_pipe(&found[k], &wanted[k])) {
            return false;
        }
    }
    true
}

fn same_os(a: Option<Name>, b: Option<Name>) -> bool
    ensures { result ≡ true ↔ a ≡ b }
{
    match (a, b) {
        (Some(a), Some(b)) => a == b,
        (None, None) => true,
        (Some(_), None) | (None, Some(_)) => false,
    }
}

fn is_state(state: Boot, up: bool) -> bool
    ensures { result ≡ true ↔ state ≡ state_if up }
{
    if up {
        matches!(&state, Boot::IsUp)
    } else {
        matches!(&state, Boot::Off)
    }
}

/// Whether what is read of a node is what is wanted of it.
fn is_same(row: &NodeRow, found: &[PipeRow], os: Option<Name>, up: bool, pipes: &[NodePipe]) -> bool
    ensures { result ≡ true ↔ ((row.now).os ≡ os) × ((row.now).state ≡ state_if up) × (agree 0 found.now pipes.now ≡ true) }
{
    same_os(row.os, os) && is_state(row.state, up) && agree(found, pipes)
}

/// Whether a node has that OS, those pipes and no others, numbered from 0, and is up, or else off. Where its boot state is open,
/// the answer is for the state that it told. Its row is read first, and then all its pipes.
pub(crate) fn is_as_wanted<P: Tables>(
    alloc: Global,
    plant: &mut P,
    node: Name,
    os: Option<Name>,
    up: bool,
    pipes: &[NodePipe],
) -> Result<bool, AuditFault>
    ensures reads { Reads (P.seen plant.old) (P.seen plant.new) (unread_by result) }
    ensures exact { IfSome (P.seen plant.old).told (λ t. IfOk result (λ same. is_some ((world_of t.trace).node node).boot ≡ true
        → (same ≡ true ↔ SameNode ((world_of t.trace).node node) (row_with os up pipes.now)))) }
{
    let row = node_at(plant, node)?;
    let found = pipes_of(alloc, plant, node)?;
    Ok(is_same(&row, found.as_slice(), os, up, pipes))
}
