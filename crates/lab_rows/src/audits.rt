//! Audits of devices that another hand commanded.
use crate::records::state_of;
use crate::steps::ops_of;
use crate::texts::Texts;
use lab_audit::{AuditFault, audit};
use lab_base::{Kind, Memory, Name, Text, VlanId};
use lab_state::LabState;
use plant::{DeviceOp, Plant};
use plant_mem::MemLab;
use row_words::{RowFault, at_bar, push_number};
use script_text::AuditLine;
use std::alloc::Global;

/// Adds a word, a switch, a port and a VLAN id.
fn push_row(
    out: &mut Text,
    word: &[u8],
    switch: &Name,
    port: u16,
    vlan: VlanId,
) -> Result<(), Memory> {
    out.push_bytes(word)?;
    out.push_bytes(switch.bytes())?;
    push_number(out, u64::from(port))?;
    push_number(out, u64::from(vlan.0))
}

fn push_line(out: &mut Text, line: &AuditLine) -> Result<(), Memory> {
    match line {
        AuditLine::Lacks { switch, port, vlan } => push_row(out, b"lacks ", switch, *port, *vlan)?,
        AuditLine::Strange { switch, port, vlan } => push_row(
            out,
            b"strange ",
            switch,
            *port,
            *vlan,
        )?,
        AuditLine::Node { node } => {
            out.push_bytes(b"node ")?;
            out.push_bytes(node.bytes())?;
        }
    }
    out.push(b'\n')
}

fn push_lines(out: &mut Text, lines: &[AuditLine]) -> Result<(), Memory> {
    for line in lines {
        push_line(out, line)?;
    }
    out.push_number(lines.len() as u64)
}

/// A plant in memory that was sent commands.
fn plant_of(alloc: Global, ops: &[DeviceOp]) -> Result<MemLab, Memory> {
    let mut plant = MemLab::blank(alloc)?;
    for op in ops {
        let _answer = plant.command(*op);
    }
    Ok(plant)
}

/// Adds what an audit tells.
fn push_audit(
    out: &mut Text,
    alloc: Global,
    state: &LabState,
    plant: &mut MemLab,
) -> Result<(), RowFault> {
    match audit(alloc, state, plant) {
        Ok(report) => Ok(push_lines(out, report.as_slice())?),
        Err(AuditFault::Unread(_)) => Err(RowFault::Word(Kind::Missing)),
        Err(AuditFault::Memory) => Err(RowFault::Memory),
    }
}

/// In what devices differ, to which the commands after a bar were sent, from the lab of the records before it.
pub fn add_output(
    out: &mut Text,
    alloc: Global,
    texts: &Texts,
    words: &[&[u8]],
) -> Result<(), RowFault> {
    let halves = at_bar(words);
    let state = state_of(alloc, texts, halves.before)?;
    let ops = ops_of(alloc, texts, halves.behind)?;
    let mut plant = plant_of(alloc, ops.as_slice())?;
    let told = push_audit(out, alloc, &state, &mut plant);
    drop(plant);
    drop(state);
    told
}
