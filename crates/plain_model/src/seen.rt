// The rows and pipes that commands leave.
ghost use Rattle.std.specs.Prelude.{◌≡◌, ◌++◌, fold, None, IfOk, OnOk};
ghost use Rattle.plain_model.specs.Rows.{row_seen, rows_by, rows_of, pipe_then, pipe_seen, pipes_by, pipes_of};

use crate::{PipeEnds, Sent, has_row, pipe_of};
use lab_base::{Memory, Name};
use plant::DeviceOp;
use std::alloc::Global;
use swap_plan::Port;

fn push_row(listed: &mut Vec<Port>, commands: &[Sent], row: Port) -> Result<(), Memory>
    ensures { OnOk result (listed.new.items ≡ listed.old.items ++ row_seen commands.now row) }
{
    if has_row(commands, &row) {
        listed.push(row)?;
    }
    Ok(())
}

/// Adds the row that a command joins, if it is there after all commands.
fn push_joined(listed: &mut Vec<Port>, commands: &[Sent], op: DeviceOp) -> Result<(), Memory>
    ensures { OnOk result (listed.new.items ≡ listed.old.items ++ rows_by commands.now op) }
{
    match op {
        DeviceOp::Join { switch, port, vlan } => {
            push_row(listed, commands, Port { switch, port, vlan })
        }
        _ => Ok(()),
    }
}

fn push_rows(listed: &mut Vec<Port>, commands: &[Sent], rest: &[Sent]) -> Result<(), Memory>
    ensures { OnOk result (listed.new.items ≡ listed.old.items ++ rows_of commands.now rest.now) }
{
    match rest.split_first() {
        Some((sent, others)) => {
            push_joined(listed, commands, sent.op)?;
            push_rows(listed, commands, others)
        }
        None => Ok(()),
    }
}

/// The rows that are there after these commands, each as often as commands joined it.
pub fn rows_after(alloc: Global, commands: &[Sent]) -> Result<Vec<Port>, Memory>
    ensures { IfOk result (λ listed. listed.items ≡ rows_of commands.now commands.now) }
{
    let mut listed = Vec::new(alloc);
    push_rows(&mut listed, commands, commands)?;
    Ok(listed)
}

fn push_pipe(
    listed: &mut Vec<PipeEnds>,
    commands: &[Sent],
    node: Name,
    number: u16,
) -> Result<(), Memory>
    ensures { OnOk result (listed.new.items ≡ listed.old.items ++ pipe_seen node (fold (pipe_then node number) None commands.now)) }
{
    if let Some(pipe) = pipe_of(commands, node.bytes(), number as usize) {
        listed.push(PipeEnds {
            node,
            from: pipe.from,
            to: pipe.to,
        })?;
    }
    Ok(())
}

/// Adds the pipe that a command sets, as it is after all commands.
fn push_set(listed: &mut Vec<PipeEnds>, commands: &[Sent], op: DeviceOp) -> Result<(), Memory>
    ensures { OnOk result (listed.new.items ≡ listed.old.items ++ pipes_by commands.now op) }
{
    match op {
        DeviceOp::Shape { node, pipe, .. } => push_pipe(listed, commands, node, pipe),
        _ => Ok(()),
    }
}

fn push_pipes(listed: &mut Vec<PipeEnds>, commands: &[Sent], rest: &[Sent]) -> Result<(), Memory>
    ensures { OnOk result (listed.new.items ≡ listed.old.items ++ pipes_of commands.now rest.now) }
{
    match rest.split_first() {
        Some((sent, others)) => {
            push_set(listed, commands, sent.op)?;
            push_pipes(listed, commands, others)
        }
        None => Ok(()),
    }
}

/// The pipes of nodes after these commands, each as often as commands set it.
pub fn pipes_after(alloc: Global, commands: &[Sent]) -> Result<Vec<PipeEnds>, Memory>
    ensures { IfOk result (λ listed. listed.items ≡ pipes_of commands.now commands.now) }
{
    let mut listed = Vec::new(alloc);
    push_pipes(&mut listed, commands, commands)?;
    Ok(listed)
}
