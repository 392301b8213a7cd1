ghost use Rattle.std.specs.Prelude.{◌↔◌, ℕ, map, IfOk, OnOk, IfSome};
ghost use Rattle.lab_base.specs.Lists.{Has};
ghost use Rattle.plant.specs.Worlds.{world_of};
ghost use Rattle.plant.specs.Readings.{IsEntry, entry_of, TellsRow, TellsNode, TellsPipe, RowsFit, PipesFit};
ghost use Rattle.lab_audit.specs.Reads.{Reads, unread_by, ArePipes};

use crate::AuditFault;
use lab_base::{Items, Name, VlanId};
use plant::{MAX_PIPES, NodeRow, PipeRow, Tables};
use std::alloc::Global;

/// The number of rows that a port and a VLAN id can make.
const MOST_ROWS: u64 = 4_294_967_296;

fn row_at<P: Tables>(
    plant: &mut P,
    switch: Name,
    nth: u32,
) -> Result<Option<(u16, VlanId)>, AuditFault>
    ensures reads { Reads (P.seen plant.old) (P.seen plant.new) (unread_by result) }
    ensures row { IfSome (P.seen plant.old).told (λ t. IfOk result (TellsRow (world_of t.trace) switch nth)) }
    ensures fits { IfSome (P.seen plant.old).told (λ t. OnOk result (RowsFit (world_of t.trace) switch)) }
{
    match plant.row(switch, nth) {
        Ok(row) => Ok(row),
        Err(_) => Err(AuditFault::Unread(switch)),
    }
}

fn pipe_at<P: Tables>(plant: &mut P, node: Name, nth: u16) -> Result<Option<PipeRow>, AuditFault>
    ensures reads { Reads (P.seen plant.old) (P.seen plant.new) (unread_by result) }
    ensures pipe { IfSome (P.seen plant.old).told (λ t. IfOk result (TellsPipe ((world_of t.trace).node node) nth)) }
    ensures fits { IfSome (P.seen plant.old).told (λ t. OnOk result (PipesFit ((world_of t.trace).node node))) }
{
    match plant.pipe(node, nth) {
        Ok(pipe) => Ok(pipe),
        Err(_) => Err(AuditFault::Unread(node)),
    }
}

/// The OS and the boot state of a node.
pub(crate) fn node_at<P: Tables>(plant: &mut P, node: Name) -> Result<NodeRow, AuditFault>
    ensures reads { Reads (P.seen plant.old) (P.seen plant.new) (unread_by result) }
    ensures node { IfSome (P.seen plant.old).told (λ t. IfOk result (TellsNode ((world_of t.trace).node node))) }
{
    match plant.node(node) {
        Ok(row) => Ok(row),
        Err(_) => Err(AuditFault::Unread(node)),
    }
}

/// The rows that stand on a switch.
pub(crate) fn rows_on<P: Tables>(
    alloc: Global,
    plant: &mut P,
    switch: Name,
) -> Result<Items<(u16, VlanId)>, AuditFault>
    ensures reads { Reads (P.seen plant.old) (P.seen plant.new) (unread_by result) }
    ensures exact { IfSome (P.seen plant.old).told (λ t. IfOk result (λ rows. (e : ℕ × ℕ) → Has (map entry_of rows) e ↔ IsEntry (world_of t.trace) switch e)) }
{
    let mut rows = Items::new(alloc);
    for nth in 0..MOST_ROWS {
        match row_at(plant, switch, nth as u32)? {
            Some(row) => rows.push(row)?,
            None => return Ok(rows),
        }
    }
    Ok(rows)
}

/// The pipes that a node has, by number.
pub(crate) fn pipes_of<P: Tables>(
    alloc: Global,
    plant: &mut P,
    node: Name,
) -> Result<Items<PipeRow>, AuditFault>
    ensures reads { Reads (P.seen plant.old) (P.seen plant.new) (unread_by result) }
    ensures exact { IfSome (P.seen plant.old).told (λ t. IfOk result (λ pipes. ArePipes ((world_of t.trace).node node) pipes)) }
{
    let mut pipes = Items::new(alloc);
    for nth in 0..MAX_PIPES {
        match pipe_at(plant, node, nth as u16)? {
            Some(pipe) => pipes.push(pipe)?,
            None => return Ok(pipes),
        }
    }
    Ok(pipes)
}
