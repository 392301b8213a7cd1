// The table of nodes, by name.
ghost use Rattle.std.specs.Prelude.{◌≡◌, ◌<◌, ◌≤◌, ◌+◌, List, ℕ, Option, length, vec_len, vec_capacity, if◌then◌else◌};
ghost use Rattle.std.specs.Cmp.Lexicographic.{slice_cmp};
ghost use Rattle.std.specs.List.{find};
ghost use Rattle.std.specs.List.Sorted.{IsBinarySearchResult, IsSearchInRange};
ghost use Rattle.std.specs.Ordering.{nat_cmp};
ghost use Rattle.std.specs.Str.{bytes_eq};
ghost use Rattle.plant_mem.specs.Boots.{is_of, state_in, state_after, os_in, os_after, answer_of, NodesRise};

use crate::boot_step::BootStep;
use lab_base::{Boot, Name};
use plant::{Answer, DeviceOp};

/// The boot state and the OS of a node.
#[derive(Clone, Copy)]
pub struct NodeState {
    pub node: Name,
    pub state: Boot,
    pub os: Option<Name>,
}

/// The place of a node's entry, or the place where it would stand.
fn place_of(nodes: &[NodeState], node: &Name) -> Result<usize, usize>
    ensures bound { IsSearchInRange result (length nodes.now) }
    ensures place { IsBinarySearchResult (λ entry. slice_cmp nat_cmp entry.node node.now) nodes.now result }
{
    nodes.binary_search_by_key(node, |entry| entry.node)
}

fn entry_of(nodes: &[NodeState], node: &Name) -> Option<NodeState>
    requires { NodesRise nodes.now }
    ensures { result ≡ find (is_of node.now) nodes.now }
{
    match place_of(nodes, node) {
        Ok(at) => Some(nodes[at]),
        Err(_) => None,
    }
}

/// The boot state that the table has for a node.
pub(crate) fn state_in(nodes: &[NodeState], node: &Name) -> Boot
    requires { NodesRise nodes.now }
    ensures { result ≡ state_in node.now nodes.now }
{
    match entry_of(nodes, node) {
        Some(entry) => entry.state,
        None => Boot::Off,
    }
}

/// The OS that the table has for a node.
pub(crate) fn os_in(nodes: &[NodeState], node: &Name) -> Option<Name>
    requires { NodesRise nodes.now }
    ensures { result ≡ os_in node.now nodes.now }
{
    match entry_of(nodes, node) {
        Some(entry) => entry.os,
        None => None,
    }
}

/// Puts an entry in the place of its node's, or among the others.
fn put(nodes: &mut Vec<NodeState>, entry: NodeState)
    requires room { vec_len nodes.old < vec_capacity nodes.old }
    requires rise { NodesRise nodes.old.items }
    ensures rise { NodesRise nodes.new.items }
    ensures found { (name : List ℕ) → find (is_of name) nodes.new.items
        ≡ (if bytes_eq entry.node name then Option.Some entry else find (is_of name) nodes.old.items) }
    ensures len { vec_len nodes.new ≤ vec_len nodes.old + 1 }
    ensures capacity { vec_capacity nodes.new ≡ vec_capacity nodes.old }
{
    match place_of(nodes, &entry.node) {
        Ok(at) => nodes[at] = entry,
        Err(at) => nodes.insert(at, entry).unwrap(),
    }
}

/// Sets the boot state and the OS of a node.
fn set(nodes: &mut Vec<NodeState>, node: &Name, state: Boot, os: Option<Name>)
    requires room { vec_len nodes.old < vec_capacity nodes.old }
    requires rise { NodesRise nodes.old.items }
    ensures rise { NodesRise nodes.new.items }
    ensures states { (name : List ℕ) → state_in name nodes.new.items ≡ (if bytes_eq node.now name then state else state_in name nodes.old.items) }
    ensures oses { (name : List ℕ) → os_in name nodes.new.items ≡ (if bytes_eq node.now name then os else os_in name nodes.old.items) }
    ensures len { vec_len nodes.new ≤ vec_len nodes.old + 1 }
    ensures capacity { vec_capacity nodes.new ≡ vec_capacity nodes.old }
{
    put(
        nodes,
        NodeState {
            node: *node,
            state,
            os,
        },
    );
}

/// Sets the boot state of a node.
fn set_state(nodes: &mut Vec<NodeState>, node: &Name, state: Boot)
    requires room { vec_len nodes.old < vec_capacity nodes.old }
    requires rise { NodesRise nodes.old.items }
    ensures rise { NodesRise nodes.new.items }
    ensures states { (name : List ℕ) → state_in name nodes.new.items ≡ (if bytes_eq node.now name then state else state_in name nodes.old.items) }
    ensures oses { (name : List ℕ) → os_in name nodes.new.items ≡ os_in name nodes.old.items }
    ensures len { vec_len nodes.new ≤ vec_len nodes.old + 1 }
    ensures capacity { vec_capacity nodes.new ≡ vec_capacity nodes.old }
{
    let os = os_in(nodes, node);
    set(nodes, node, state, os);
}

/// Applies a command to the nodes, and answers it.
pub(crate) fn apply(nodes: &mut Vec<NodeState>, op: &DeviceOp, boot_step: BootStep) -> Answer
    requires room { vec_len nodes.old < vec_capacity nodes.old }
    requires rise { NodesRise nodes.old.items }
    ensures rise { NodesRise nodes.new.items }
    ensures states { (name : List ℕ) → state_in name nodes.new.items ≡ state_after op.now boot_step name (state_in name nodes.old.items) }
    ensures oses { (name : List ℕ) → os_in name nodes.new.items ≡ os_after op.now name (os_in name nodes.old.items) }
    ensures answer { result ≡ answer_of op.now boot_step (λ name. state_in name nodes.old.items) }
    ensures len { vec_len nodes.new ≤ vec_len nodes.old + 1 }
    ensures capacity { vec_capacity nodes.new ≡ vec_capacity nodes.old }
{
    match op {
        DeviceOp::Load { node, os } => {
            set(nodes, node, Boot::Off, Some(*os));
            Answer::Done
        }
        DeviceOp::Wipe { node } => {
            set(nodes, node, Boot::Off, None);
            Answer::Done
        }
        DeviceOp::Boot { node } => {
            set_state(nodes, node, Boot::Booting);
            Answer::Done
        }
        DeviceOp::Poll { node } => {
            let state = boot_step.of(state_in(nodes, node));
            set_state(nodes, node, state);
            Answer::State(state)
        }
        DeviceOp::Join { .. } | DeviceOp::Leave { .. } | DeviceOp::Shape { .. } => Answer::Done,
    }
}
