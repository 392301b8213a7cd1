// The plan of a change.
ghost use Rattle.std.specs.Prelude.{◌≡◌, ◌<◌, ◌++◌, ◌∷◌, [], length, slice_index_or, if◌then◌else◌, IfOk, OnOk, Some, None, true};
ghost use Rattle.std.specs.Cmp.Lexicographic.{pointwise};
ghost use Rattle.std.specs.Option.{option_or};
ghost use Rattle.lab_base.specs.Lists.{Has};
ghost use Rattle.lab_model.specs.Courses.{node_names, commands, undo};
ghost use Rattle.lab_model.specs.Kept.{is_kept};
ghost use Rattle.virt_topo.specs.declared.wiring.Pipe.{Pipe as PipeSeen};
ghost use Rattle.swap_plan.specs.Plans.{IsFit, are_same, both_os, fresh_os, wiped_os, hosts_at, rows_from, changed};
ghost use Rattle.swap_plan.specs.Tables.{IsTable};
ghost use Rattle.swap_plan.specs.Changes.{IsChange, IsFresh};

use crate::loads::plug_name;
use crate::plans::{building, leaves, push_wipes};
use crate::port::Port;
use crate::rows::rows_of;
use crate::tables::NodeTable;
use crate::{Commands, Ops};
use lab_base::{Memory, Name};
use phys_lab::Lab;
use std::alloc::Global;
use virt_topo::{Mapped, Pipe};

/// Whether two pipes join interfaces of the same names at the same rates.
fn same_pipe(lab: &Lab, old: &Mapped, new: &Mapped, one: &Pipe, other: &Pipe) -> bool
    requires old_fit { IsFit lab.now old.now }
    requires new_fit { IsFit lab.now new.now }
    requires one_there { Has (old.now).wiring.pipes one.now }
    requires other_there { Has (new.now).wiring.pipes other.now }
    ensures { result ≡ are_same lab.now old.now new.now one.now other.now }
{
    plug_name(lab, &old.wiring, &old.mapping, one.node, one.from)
        == plug_name(lab, &new.wiring, &new.mapping, other.node, other.from)
        && plug_name(lab, &old.wiring, &old.mapping, one.node, one.to)
            == plug_name(lab, &new.wiring, &new.mapping, other.node, other.to)
        && one.there == other.there
        && one.back == other.back
}

/// Whether these pipes are equal, one by one.
fn same_pipes(lab: &Lab, old: &Mapped, new: &Mapped, ones: &[Pipe], others: &[Pipe]) -> bool
    requires old_fit { IsFit lab.now old.now }
    requires new_fit { IsFit lab.now new.now }
    requires ones_there { (p : PipeSeen) → Has ones.now p → Has (old.now).wiring.pipes p }
    requires others_there { (p : PipeSeen) → Has others.now p → Has (new.now).wiring.pipes p }
    ensures { result ≡ pointwise (are_same lab.now old.now new.now) ones.now others.now }
{
    if ones.len() != others.len() {
        return false;
    }
    for number in 0..ones.len() {
        if !same_pipe(lab, old, new, &ones[number], &others[number]) {
            return false;
        }
    }
    true
}

fn same_os(one: Option<Name>, other: Option<Name>) -> bool
    ensures { result ≡ both_os one other }
{
    match (one, other) {
        (Some(one), Some(other)) => one == other,
        _ => false,
    }
}

/// A change between two mappings, with the node table of each.
#[derive(Clone, Copy)]
struct Change<'a> {
    lab: &'a Lab,
    old: &'a Mapped,
    new: &'a Mapped,
    before: &'a NodeTable,
    after: &'a NodeTable,
}

/// By node of the lab, the OS that the change sends for it; None where the node is kept, or has none.
#[derive(Drop)]
struct Fresh {
    /// The OS under the old mapping.
    leaving: Vec<Option<Name>>,
    /// The OS under the new mapping.
    coming: Vec<Option<Name>>,
    /// The OS under the old mapping, else under the new one.
    wiped: Vec<Option<Name>>,
}

/// Whether both mappings claim a node, and want the same of it.
fn is_kept(change: &Change, node: usize) -> bool
    requires change { IsChange change.now }
    requires node { node < length (change.now).lab.now.nodes }
    ensures { result ≡ is_kept (change.now).lab.now (Some (change.now).old.now) (Some (change.now).new.now)
        (slice_index_or (node_names (change.now).lab.now) node []) }
{
    if !same_os(change.before.oses[node], change.after.oses[node]) {
        return false;
    }
    let ones = change.before.pipes[node].as_slice();
    let others = change.after.pipes[node].as_slice();
    same_pipes(change.lab, change.old, change.new, ones, others)
}

/// The OS of a node; None where the node is kept.
fn fresh_os(kept: bool, os: Option<Name>) -> Option<Name>
    ensures { result ≡ (if kept then None else os) }
{
    if kept { None } else { os }
}

/// The first OS that there is of the two; None where the node is kept.
fn wiped_os(kept: bool, one: Option<Name>, other: Option<Name>) -> Option<Name>
    ensures { result ≡ (if kept then None else option_or one other) }
{
    fresh_os(kept, if one.is_some() { one } else { other })
}

/// One node's entries of `Fresh`.
#[derive(Clone, Copy)]
struct FreshNode {
    leaving: Option<Name>,
    coming: Option<Name>,
    wiped: Option<Name>,
}

fn fresh_node(change: &Change, node: usize) -> FreshNode
    requires change { IsChange change.now }
    requires node { node < length (change.now).lab.now.nodes }
    ensures leaving { result.leaving
        ≡ fresh_os (change.now).lab.now (change.now).old.now (change.now).new.now (change.now).old.now
        (slice_index_or (node_names (change.now).lab.now) node []) }
    ensures coming { result.coming ≡ fresh_os (change.now).lab.now (change.now).old.now (change.now).new.now (change.now).new.now
        (slice_index_or (node_names (change.now).lab.now) node []) }
    ensures wiped { result.wiped ≡ wiped_os (change.now).lab.now (change.now).old.now (change.now).new.now
        (slice_index_or (node_names (change.now).lab.now) node []) }
{
    let kept = is_kept(change, node);
    let one = &change.before.oses[node];
    let other = &change.after.oses[node];
    let leaving = fresh_os(kept, *one);
    let coming = fresh_os(kept, *other);
    let wiped = wiped_os(kept, *one, *other);
    FreshNode {
        leaving,
        coming,
        wiped,
    }
}

fn push_node(fresh: &mut Fresh, node: FreshNode) -> Result<(), Memory>
    ensures leaving { OnOk result (fresh.new.leaving.items ≡ fresh.old.leaving.items ++ node.leaving ∷ []) }
    ensures coming { OnOk result (fresh.new.coming.items ≡ fresh.old.coming.items ++ node.coming ∷ []) }
    ensures wiped { OnOk result (fresh.new.wiped.items ≡ fresh.old.wiped.items ++ node.wiped ∷ []) }
{
    fresh.leaving.push(node.leaving)?;
    fresh.coming.push(node.coming)?;
    fresh.wiped.push(node.wiped)?;
    Ok(())
}

/// The rows that a mapping wants.
fn mapped_rows(alloc: Global, lab: &Lab, mapped: &Mapped) -> Result<Vec<Port>, Memory>
    requires { IsFit lab.now mapped.now }
    ensures { IfOk result (λ rows. rows.items ≡ rows_from lab.now (mapped.now).wiring.segments (mapped.now).mapping.plugs (mapped.now).tags) }
{
    rows_of(
        alloc,
        lab,
        &mapped.wiring,
        &mapped.mapping,
        mapped.tags.as_slice(),
    )
}

fn fresh_nodes(alloc: Global, change: &Change) -> Result<Fresh, Memory>
    requires { IsChange change.now }
    ensures { IfOk result (IsFresh change.now) }
{
    let mut fresh = Fresh {
        leaving: Vec::new(alloc),
        coming: Vec::new(alloc),
        wiped: Vec::new(alloc),
    };
    let nodes = change.lab.nodes();
    for node in 0..nodes.len() {
        push_node(&mut fresh, fresh_node(change, node))?;
    }
    Ok(fresh)
}

/// Rows, and by node of the lab an OS, where the node is meant.
#[derive(Clone, Copy)]
struct Part<'a> {
    rows: &'a [Port],
    oses: &'a [Option<Name>],
}

/// The commands that clear rows and nodes away, and then build a mapping on others.
fn changing(
    alloc: Global,
    lab: &Lab,
    mapped: &Mapped,
    table: &NodeTable,
    left: &Part,
    wanted: &Part,
) -> Result<Commands, Memory>
    requires fit { IsFit lab.now mapped.now }
    requires table { IsTable lab.now (mapped.now).wiring (mapped.now).mapping table.now }
    requires left { length (left.now).oses.now ≡ length lab.now.nodes }
    requires wanted { length (wanted.now).oses.now ≡ length lab.now.nodes }
    ensures { IfOk result (λ commands. commands ≡ changed lab.now mapped.now (left.now).rows.now (hosts_at (node_names lab.now) (left.now).oses.now)
        (wanted.now).rows.now (hosts_at (node_names lab.now) (wanted.now).oses.now)) }
{
    let mut clear = leaves(alloc, left.rows)?;
    push_wipes(&mut clear, lab, left.oses)?;
    let built = building(
        alloc,
        lab,
        &mapped.wiring,
        &mapped.mapping,
        table,
        wanted.rows,
        wanted.oses,
    )?;
    Ok(Commands { clear, ..built })
}

/// The commands of a change and of its undo, by the rows under the old mapping and those under the new one.
fn ops_by(
    alloc: Global,
    change: &Change,
    left: &[Port],
    rows: &[Port],
    fresh: &Fresh,
) -> Result<Ops, Memory>
    requires change { IsChange change.now }
    requires left { left.now ≡ rows_from (change.now).lab.now (change.now).old.now.wiring.segments
        (change.now).old.now.mapping.plugs (change.now).old.now.tags }
    requires rows { rows.now ≡ rows_from (change.now).lab.now (change.now).new.now.wiring.segments
        (change.now).new.now.mapping.plugs (change.now).new.now.tags }
    requires fresh { IsFresh change.now fresh.now }
    ensures commands { IfOk result (λ ops. ops.commands ≡ commands (change.now).lab.now (Some (change.now).old.now) (Some (change.now).new.now)) }
    ensures undo { IfOk result (λ ops. ops.undo ≡ undo (change.now).lab.now (Some (change.now).old.now) (Some (change.now).new.now)) }
    ensures inside { IfOk result (λ ops. ops.inside ≡ true) }
{
    let leaving = Part {
        rows: left,
        oses: &fresh.leaving,
    };
    let coming = Part {
        rows,
        oses: &fresh.coming,
    };
    let wiped = Part {
        rows,
        oses: &fresh.wiped,
    };
    let commands = changing(
        alloc,
        change.lab,
        change.new,
        change.after,
        &leaving,
        &coming,
    )?;
    let undo = changing(
        alloc,
        change.lab,
        change.old,
        change.before,
        &wiped,
        &leaving,
    )?;
    Ok(Ops {
        commands,
        undo,
        inside: true,
    })
}

fn ops_of(alloc: Global, change: &Change) -> Result<Ops, Memory>
    requires { IsChange change.now }
    ensures commands { IfOk result (λ ops. ops.commands ≡ commands (change.now).lab.now (Some (change.now).old.now) (Some (change.now).new.now)) }
    ensures undo { IfOk result (λ ops. ops.undo ≡ undo (change.now).lab.now (Some (change.now).old.now) (Some (change.now).new.now)) }
    ensures inside { IfOk result (λ ops. ops.inside ≡ true) }
{
    let left = mapped_rows(alloc, change.lab, change.old)?;
    let rows = mapped_rows(alloc, change.lab, change.new)?;
    let fresh = fresh_nodes(alloc, change)?;
    ops_by(alloc, change, &left, &rows, &fresh)
}

/// The commands of a change and of its undo.
pub fn plan_change(alloc: Global, lab: &Lab, old: &Mapped, new: &Mapped) -> Result<Ops, Memory>
    requires old_fit { IsFit lab.now old.now }
    requires new_fit { IsFit lab.now new.now }
    ensures commands { IfOk result (λ ops. ops.commands ≡ commands lab.now (Some old.now) (Some new.now)) }
    ensures undo { IfOk result (λ ops. ops.undo ≡ undo lab.now (Some old.now) (Some new.now)) }
    ensures inside { IfOk result (λ ops. ops.inside ≡ true) }
{
    let before = NodeTable::of(alloc, lab, &old.wiring, &old.mapping)?;
    let after = NodeTable::of(alloc, lab, &new.wiring, &new.mapping)?;
    let change = Change {
        lab,
        old,
        new,
        before: &before,
        after: &after,
    };
    ops_of(alloc, &change)
}
