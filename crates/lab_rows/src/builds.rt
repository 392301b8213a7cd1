//! Labs and wirings, part by part.
ghost use Rattle.std.specs.Prelude.{◌<◌, length};

use crate::reading::{lab_of, wiring_of};
use crate::texts::Texts;
use lab_base::{Items, Memory, SwitchId, Text, TrunkId};
use line_text::{field_at, name_at};
use phys_lab::{Lab, LabBuilder, LabFault, MAX_SWITCHES, MAX_TRUNKS, Trunk};
use row_words::{RowFault, number_at, parts_of, push_number};
use std::alloc::Global;
use virt_topo::{VirtNode, Wiring, WiringFault};

/// The trunk that parts say: its name, and the switch and the port of both ends.
fn trunk_of(parts: &[&[u8]]) -> Result<Trunk, RowFault> {
    Ok(Trunk {
        link: name_at(parts, 0)?,
        first: (SwitchId(number_at(parts, 1)?), number_at(parts, 2)?),
        second: (SwitchId(number_at(parts, 3)?), number_at(parts, 4)?),
        kbps: 1_000,
    })
}

/// Adds a switch, which is a name, or a trunk.
fn add(builder: &mut LabBuilder, parts: &[&[u8]]) -> Result<Result<(), LabFault>, RowFault> {
    if parts.len() == 1 {
        return Ok(builder.add_switch(name_at(parts, 0)?));
    }
    Ok(builder.add_trunk(trunk_of(parts)?))
}

fn word_of(added: Result<(), LabFault>) -> &'static [u8] {
    match added {
        Ok(()) => b"added\n",
        Err(LabFault::Twice) => b"twice\n",
        Err(LabFault::PortTaken) => b"port\n",
        Err(LabFault::Cycle) => b"cycle\n",
        Err(_) => b"otherwise\n",
    }
}

/// Adds the outcome of each word, which is a switch or a trunk.
fn push_added(
    out: &mut Text,
    alloc: Global,
    builder: &mut LabBuilder,
    words: &[&[u8]],
) -> Result<(), RowFault> {
    for word in words {
        let parts = parts_of(alloc, word)?;
        out.push_bytes(word_of(add(builder, &parts)?))?;
    }
    Ok(())
}

fn push_counts(out: &mut Text, lab: &Lab) -> Result<(), Memory> {
    push_number(out, lab.trunks().len() as u64)?;
    push_number(out, lab.switches().len() as u64)
}

/// Adds the outcome of each word, and the numbers of trunks and switches that the lab then has.
pub fn add_output(out: &mut Text, alloc: Global, words: &[&[u8]]) -> Result<(), RowFault> {
    let Ok(mut builder) = LabBuilder::new(alloc, 2, 4_094) else {
        return Err(RowFault::Memory);
    };
    let added = push_added(out, alloc, &mut builder, words);
    let lab = builder.finish()?;
    let counted = push_counts(out, &lab);
    drop(lab);
    added?;
    Ok(counted?)
}

/// Adds for each switch whether it is on the first side of a trunk.
fn push_side(out: &mut Text, lab: &Lab, trunk: TrunkId) -> Result<(), Memory>
    requires { trunk.0 < length lab.now.trunks }
{
    for switch in 0..lab.switches().len().min(MAX_SWITCHES) as u16 {
        let first = lab.side(trunk, SwitchId(switch));
        out.push(if first { b'y' } else { b'n' })?;
    }
    out.push(b'\n')
}

fn push_sides(out: &mut Text, lab: &Lab) -> Result<(), Memory> {
    for trunk in 0..lab.trunks().len().min(MAX_TRUNKS) as u16 {
        push_side(out, lab, TrunkId(trunk))?;
    }
    Ok(())
}

/// For each trunk of a lab, for each switch, whether it is on the first side.
pub fn tell_sides(
    out: &mut Text,
    alloc: Global,
    texts: &Texts,
    words: &[&[u8]],
) -> Result<(), RowFault> {
    let lab = lab_of(alloc, texts, field_at(words, 0))?;
    let told = push_sides(out, &lab);
    drop(lab);
    Ok(told?)
}

fn push_checked(out: &mut Text, wiring: &Wiring) -> Result<(), Memory> {
    out.push_bytes(match wiring.check() {
        Ok(()) => b" sound",
        Err(WiringFault::Twice) => b" twice",
        Err(_) => b" otherwise",
    })
}

fn add_nodes(wiring: &mut Wiring, nodes: Items<VirtNode>) -> Result<(), Memory> {
    for node in nodes.into_vec() {
        wiring.nodes.push(node)?;
    }
    Ok(())
}

/// Adds the check of a copy of a wiring with further nodes.
fn push_with(
    out: &mut Text,
    alloc: Global,
    wiring: &Wiring,
    nodes: Items<VirtNode>,
) -> Result<(), Memory> {
    let mut copy = wiring.copy(alloc)?;
    let added = add_nodes(&mut copy, nodes);
    let told = push_checked(out, &copy);
    drop(copy);
    added?;
    told
}

/// The nodes of a wiring.
fn nodes_of(alloc: Global, texts: &Texts, name: &[u8]) -> Result<Items<VirtNode>, RowFault> {
    let Wiring { nodes, .. } = wiring_of(alloc, texts, name)?;
    Ok(nodes)
}

/// Adds the check of a wiring, and that of one with the nodes of another wiring too.
fn push_both(
    out: &mut Text,
    alloc: Global,
    texts: &Texts,
    wiring: &Wiring,
    more: &[u8],
) -> Result<(), RowFault> {
    push_checked(out, wiring)?;
    Ok(push_with(out, alloc, wiring, nodes_of(alloc, texts, more)?)?)
}

/// The check of a wiring, and of a copy of it with the nodes of another one.
pub fn tell_check(
    out: &mut Text,
    alloc: Global,
    texts: &Texts,
    words: &[&[u8]],
) -> Result<(), RowFault> {
    let wiring = wiring_of(alloc, texts, field_at(words, 0))?;
    let told = push_both(out, alloc, texts, &wiring, field_at(words, 1));
    drop(wiring);
    told
}
