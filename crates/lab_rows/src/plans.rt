//! Plans of swaps.
ghost use Rattle.std.specs.Prelude.{IfOk};
ghost use Rattle.swap_plan.specs.Plans.{IsFit};

use crate::reading::{lab_of, mapping_of, wiring_of};
use crate::texts::Texts;
use lab_base::{Items, Kind, Memory, Name, Tags, Text, VlanId};
use line_text::{field_at, push_field};
use phys_lab::Lab;
use plant::DeviceOp;
use row_words::{RowFault, number_at, push_answer, push_number};
use std::alloc::Global;
use swap_plan::{Commands, Ops, plan_change, plan_in, plan_out};
use virt_topo::Mapped;

fn one_tag(alloc: Global, tag: u16) -> Result<Tags, Memory> {
    let mut tags = Items::new(alloc);
    tags.push(VlanId(tag))?;
    Ok(tags)
}

/// A wiring with its mapping and that VLAN id, where it has one segment.
fn mapped(
    alloc: Global,
    lab: &Lab,
    texts: &Texts,
    words: &[&[u8]],
    tag: u16,
) -> Result<Mapped, RowFault>
    ensures { IfOk result (λ mapped. IsFit lab.now mapped) }
{
    let tags = one_tag(alloc, tag)?;
    let wiring = wiring_of(alloc, texts, field_at(words, 1))?;
    if tags.len() != wiring.segments.len() {
        drop(wiring);
        return Err(RowFault::Word(Kind::Many));
    }
    match mapping_of(alloc, texts, field_at(words, 2), lab, &wiring) {
        Ok(mapping) => Ok(Mapped {
            wiring,
            mapping,
            tags,
        }),
        Err(wrong) => {
            drop(wiring);
            Err(wrong)
        }
    }
}

/// Adds a Join or a Leave.
fn push_at_port(
    out: &mut Text,
    verb: &[u8],
    switch: &Name,
    port: u16,
    vlan: VlanId,
) -> Result<(), Memory> {
    out.push_bytes(verb)?;
    push_field(out, switch)?;
    push_number(out, u64::from(port))?;
    push_number(out, u64::from(vlan.0))
}

fn push_op(out: &mut Text, op: &DeviceOp) -> Result<(), Memory> {
    match op {
        DeviceOp::Join { switch, port, vlan } => {
            push_at_port(out, b"join", switch, *port, *vlan)?;
        }
        DeviceOp::Leave { switch, port, vlan } => {
            push_at_port(out, b"leave", switch, *port, *vlan)?;
        }
        DeviceOp::Load { node, os } => {
            out.push_bytes(b"load")?;
            push_field(out, node)?;
            push_field(out, os)?;
        }
        DeviceOp::Wipe { node } => {
            out.push_bytes(b"wipe")?;
            push_field(out, node)?;
        }
        _ => out.push_bytes(b"another")?,
    }
    out.push(b'\n')
}

fn push_ops(out: &mut Text, ops: &[DeviceOp]) -> Result<(), Memory> {
    for op in ops {
        push_op(out, op)?;
    }
    Ok(())
}

/// Adds commands, those of each list after its name, a line each.
fn push_commands(out: &mut Text, commands: &Commands) -> Result<(), Memory> {
    out.push_bytes(b"clear\n")?;
    push_ops(out, commands.clear.as_slice())?;
    out.push_bytes(b"cable\n")?;
    push_ops(out, commands.cable.as_slice())?;
    out.push_bytes(b"load\n")?;
    push_ops(out, commands.load.as_slice())?;
    out.push_bytes(b"boot")?;
    for node in commands.boot.as_slice() {
        push_field(out, node)?;
    }
    out.push(b'\n')
}

/// Adds the commands of a swap, those of its undo, and whether that leads back into the lab.
fn push_plan(out: &mut Text, ops: &Ops) -> Result<(), Memory> {
    push_commands(out, &ops.commands)?;
    out.push_bytes(b"undo: ")?;
    push_commands(out, &ops.undo)?;
    out.push_bytes(b"inside")?;
    push_answer(out, ops.inside)
}

fn ops_in(alloc: Global, lab: &Lab, new: &Mapped) -> Result<Ops, RowFault>
    requires { IsFit lab.now new.now }
{
    Ok(plan_in(alloc, lab, &new.wiring, &new.mapping, &new.tags)?)
}

fn ops_out(alloc: Global, lab: &Lab, old: &Mapped) -> Result<Ops, RowFault>
    requires { IsFit lab.now old.now }
{
    Ok(plan_out(alloc, lab, &old.wiring, &old.mapping, &old.tags)?)
}

/// The plan of a change from one VLAN id to another.
fn ops_between(
    alloc: Global,
    lab: &Lab,
    texts: &Texts,
    words: &[&[u8]],
    new: &Mapped,
) -> Result<Ops, RowFault>
    requires { IsFit lab.now new.now }
{
    let old = mapped(alloc, lab, texts, words, number_at(words, 3)?)?;
    let ops = plan_change(alloc, lab, &old, new);
    drop(old);
    Ok(ops?)
}

/// The plan of a swap: in where there is no old VLAN id, out where there is no new one, or else a change.
fn ops_of(alloc: Global, lab: &Lab, texts: &Texts, words: &[&[u8]]) -> Result<Ops, RowFault> {
    let (from, to) = (number_at(words, 3)?, number_at(words, 4)?);
    let one = mapped(alloc, lab, texts, words, if to == 0 { from } else { to })?;
    let ops = if from == 0 {
        ops_in(alloc, lab, &one)
    } else if to == 0 {
        ops_out(alloc, lab, &one)
    } else {
        ops_between(alloc, lab, texts, words, &one)
    };
    drop(one);
    ops
}

/// The plan of a swap. The words are the texts of the lab, the wiring and the mapping, and its VLAN id before and then, 0 for none.
pub fn add_output(
    out: &mut Text,
    alloc: Global,
    texts: &Texts,
    words: &[&[u8]],
) -> Result<(), RowFault> {
    let lab = lab_of(alloc, texts, field_at(words, 0))?;
    let ops = ops_of(alloc, &lab, texts, words);
    drop(lab);
    let ops = ops?;
    let told = push_plan(out, &ops);
    drop(ops);
    Ok(told?)
}
