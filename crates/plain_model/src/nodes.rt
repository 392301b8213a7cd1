// Whether commands leave a node as it is wanted.
ghost use Rattle.std.specs.Prelude.{◌≡◌, ◌<◌, ◌&&◌, true, length, slice_get, IfOk};
ghost use Rattle.std.specs.List.{list_all};
ghost use Rattle.std.specs.Cmp.Lexicographic.{pointwise};
ghost use Rattle.lab_model.specs.Wants.{node_name};
ghost use Rattle.lab_model.specs.Kept.{same_rates, same_pipe, same_os};
ghost use Rattle.swap_plan.specs.Plans.{both_os};
ghost use Rattle.plain_model.specs.Holds.{fits_in, all_pass};
ghost use Rattle.plain_model.specs.Cabling.{is_state, same_some, is_pipe, is_of_one, is_set_of, is_node, os_wanted, pipes_wanted, stays};

use crate::{Sent, boot_of, os_of, pipe_of};
use lab_base::{Boot, Memory, Name, NodeId, Rates};
use phys_lab::Lab;
use plant::DeviceOp;
use std::alloc::Global;
use swap_plan::{NodePipe, NodeWants, node_row_of};
use virt_topo::Mapped;

fn same_os(a: Option<Name>, b: Option<Name>) -> bool
    ensures { result ≡ same_os a b }
{
    match (a, b) {
        (Some(a), Some(b)) => a == b,
        (None, None) => true,
        _ => false,
    }
}

fn is_state(state: Option<Boot>, up: bool) -> bool
    ensures { result ≡ is_state state up }
{
    match state {
        Some(Boot::IsUp) => up,
        Some(Boot::Off) => !up,
        _ => false,
    }
}

fn same_rates(a: &Rates, b: &Rates) -> bool
    ensures { result ≡ same_rates a.now b.now }
{
    a.kbps == b.kbps && a.micros == b.micros && a.ppm == b.ppm
}

fn same_pipe(a: &NodePipe, b: &NodePipe) -> bool
    ensures { result ≡ same_pipe a.now b.now }
{
    a.from == b.from
        && a.to == b.to
        && same_rates(&a.there, &b.there)
        && same_rates(&a.back, &b.back)
}

/// Whether that pipe is the one of that number; also where there is neither.
fn is_at(pipes: &[NodePipe], number: usize, pipe: &Option<NodePipe>) -> bool
    ensures { result ≡ same_some pipe.now (slice_get pipes.now number) }
{
    match (pipe, pipes.get(number)) {
        (Some(pipe), Some(other)) => same_pipe(pipe, other),
        (None, None) => true,
        _ => false,
    }
}

fn is_pipe(commands: &[Sent], name: &[u8], pipes: &[NodePipe], number: usize) -> bool
    ensures { result ≡ is_pipe commands.now name.now pipes.now number }
{
    is_at(pipes, number, &pipe_of(commands, name, number))
}

fn are_pipes(commands: &[Sent], name: &[u8], pipes: &[NodePipe]) -> bool
    ensures { result ≡ all_pass (length pipes.now) (is_pipe commands.now name.now pipes.now) }
{
    for number in 0..pipes.len() {
        if !is_pipe(commands, name, pipes, number) {
            return false;
        }
    }
    true
}

/// Whether a pipe, if there is one, is the one of that number of one of two lists.
fn is_of_one(old: &[NodePipe], new: &[NodePipe], number: usize, pipe: &Option<NodePipe>) -> bool
    ensures { result ≡ is_of_one old.now new.now number pipe.now }
{
    match pipe {
        Some(_) => is_at(old, number, pipe) || is_at(new, number, pipe),
        None => true,
    }
}

fn is_set_of(
    commands: &[Sent],
    name: &[u8],
    old: &[NodePipe],
    new: &[NodePipe],
    op: DeviceOp,
) -> bool
    ensures { result ≡ is_set_of commands.now name.now old.now new.now op }
{
    match op {
        DeviceOp::Shape { node, pipe, .. } => {
            let number = pipe as usize;
            name != node.bytes() || is_of_one(old, new, number, &pipe_of(commands, name, number))
        }
        _ => true,
    }
}

/// Whether each pipe of a node that these commands set is of one of two lists, as all commands leave it.
pub(crate) fn are_sets_of(
    commands: &[Sent],
    name: &[u8],
    old: &[NodePipe],
    new: &[NodePipe],
    rest: &[Sent],
) -> bool
    ensures { result ≡ list_all (λ sent. is_set_of commands.now name.now old.now new.now sent.op) rest.now }
{
    match rest.split_first() {
        Some((sent, others)) => {
            is_set_of(commands, name, old, new, sent.op)
                && are_sets_of(commands, name, old, new, others)
        }
        None => true,
    }
}

/// Whether commands leave a node with that OS and exactly these pipes, and up or off.
pub(crate) fn is_node(
    commands: &[Sent],
    name: &[u8],
    os: Option<Name>,
    up: bool,
    pipes: &[NodePipe],
) -> bool
    ensures { result ≡ is_node commands.now name.now os up pipes.now }
{
    same_os(os_of(commands, name), os)
        && (is_state(boot_of(commands, name), up)
            && (are_pipes(commands, name, pipes)
                && are_sets_of(commands, name, pipes, pipes, commands)))
}

/// The OS and the pipes that a mapping wants on a node; none where there is no mapping.
pub(crate) fn wants_of(
    alloc: Global,
    lab: &Lab,
    mapped: &Option<Mapped>,
    node: NodeId,
) -> Result<NodeWants, Memory>
    requires fits { fits_in lab.now mapped.now ≡ true }
    requires node { node.0 < length lab.now.nodes }
    ensures os { IfOk result (λ wants. wants.os ≡ os_wanted lab.now mapped.now (node_name lab.now node)) }
    ensures pipes { IfOk result (λ wants. wants.pipes.items ≡ pipes_wanted lab.now mapped.now (node_name lab.now node)) }
{
    match mapped {
        Some(m) => node_row_of(alloc, lab, &m.wiring, &m.mapping, node),
        None => Ok(NodeWants {
            os: None,
            pipes: Vec::new(alloc),
        }),
    }
}

fn both_os(one: Option<Name>, other: Option<Name>) -> bool
    ensures { result ≡ both_os one other }
{
    match (one, other) {
        (Some(one), Some(other)) => one == other,
        _ => false,
    }
}

fn same_pipes(ones: &[NodePipe], others: &[NodePipe]) -> bool
    ensures { result ≡ pointwise same_pipe ones.now others.now }
{
    match (ones.split_first(), others.split_first()) {
        (Some((one, ones)), Some((other, others))) => {
            same_pipe(one, other) && same_pipes(ones, others)
        }
        (None, None) => true,
        _ => false,
    }
}

/// Whether a node stays: an OS is wanted before and then, and it and the pipes are equal.
pub(crate) fn stays(before: &NodeWants, after: &NodeWants) -> bool
    ensures { result ≡ stays before.now.os before.now.pipes.items after.now.os after.now.pipes.items }
{
    both_os(before.os, after.os) && same_pipes(&before.pipes, &after.pipes)
}
