//! Texts of labs.
ghost use Rattle.std.specs.Prelude.{◌<◌};

use lab_base::{Memory, SwitchId, Text, TextRefused, TrunkId};
use phys_lab::Lab;
use ptop_text::{print_ptop, read_ptop};
use row_words::RowFault;
use std::alloc::Global;

/// The lab of a text.
pub fn read(alloc: Global, text: &[u8]) -> Result<Lab, TextRefused> {
    if text.len() < 4_294_967_295 {
        read_ptop(alloc, text)
    } else {
        Err(TextRefused::Memory)
    }
}

/// Adds how many switches, nodes and trunks a lab has, and its canonical text.
fn push_lab(out: &mut Text, alloc: Global, lab: &Lab) -> Result<(), Memory> {
    for count in [lab.switches().len(), lab.nodes().len(), lab.trunks().len()] {
        out.push_number(count as u64)?;
        out.push(b'\n')?;
    }
    out.push_bytes(print_ptop(alloc, lab)?.bytes())
}

/// How many switches, nodes and trunks the lab of a text has, and its canonical text.
pub fn told(alloc: Global, text: &[u8]) -> Result<Text, RowFault> {
    let mut out = Text::new(alloc);
    match read(alloc, text) {
        Ok(lab) => {
            let pushed = push_lab(&mut out, alloc, &lab);
            drop(lab);
            pushed?;
            Ok(out)
        }
        Err(refused) => Err(RowFault::from(refused)),
    }
}

/// Adds `yes` or `no`.
fn push_answer(out: &mut Text, answer: bool) -> Result<(), Memory> {
    out.push_bytes(if answer { b"yes\n" } else { b"no\n" })
}

/// Adds answers about the first trunk's first side.
/// They tell whether the first two switches are on it, whether they are joined, and for each switch and then each node whether it is on that side.
fn push_sides(out: &mut Text, lab: &Lab) -> Result<(), Memory> {
    let (trunk, first, second) = (TrunkId(0), SwitchId(0), SwitchId(1));
    if lab.trunks().is_empty() || lab.switches().len() < 2 {
        return Ok(());
    }
    push_answer(out, lab.side(trunk, first))?;
    push_answer(out, lab.side(trunk, second))?;
    push_answer(out, lab.joined(first, second))?;
    for is_first in lab.first_side(trunk) {
        push_answer(out, *is_first)?;
    }
    Ok(())
}

/// The sides of the first trunk of a lab.
pub fn sides(alloc: Global, text: &[u8]) -> Result<Text, RowFault> {
    let mut out = Text::new(alloc);
    match read(alloc, text) {
        Ok(lab) => {
            let pushed = push_sides(&mut out, &lab);
            drop(lab);
            pushed?;
            Ok(out)
        }
        Err(refused) => Err(RowFault::from(refused)),
    }
}

/// 64 switches in a chain, and 1,024 nodes with 16 interfaces each.
fn largest(alloc: Global) -> Result<Text, Memory> {
    let mut text = Text::new(alloc);
    text.push_bytes(b"vlans 2 4094\n")?;
    for switch in 0..64u64 {
        text.push_bytes(b"node s")?;
        text.push_number(switch)?;
        text.push_bytes(b" switch\n")?;
    }
    for node in 0..1_024u64 {
        text.push_bytes(b"node n")?;
        text.push_number(node)?;
        text.push_bytes(b" pc:1\n")?;
    }
    for link in 0..16_384u64 {
        add_link(&mut text, link)?;
    }
    for trunk in 1..64u64 {
        add_trunk(&mut text, trunk)?;
    }
    Ok(text)
}

fn add_link(text: &mut Text, link: u64) -> Result<(), Memory> {
    text.push_bytes(b"link l")?;
    text.push_number(link)?;
    text.push_bytes(b" n")?;
    text.push_number(link / 16)?;
    text.push_bytes(b":e")?;
    text.push_number(link % 16)?;
    text.push_bytes(b" s")?;
    text.push_number(link % 64)?;
    text.push(b':')?;
    text.push_number(1 + link / 64)?;
    text.push_bytes(b" 1000000000\n")?;
    Ok(())
}

fn add_trunk(text: &mut Text, trunk: u64) -> Result<(), Memory>
    requires { 0 < trunk }
{
    text.push_bytes(b"link t")?;
    text.push_number(trunk)?;
    text.push_bytes(b" s")?;
    text.push_number(trunk - 1)?;
    text.push_bytes(b":4095 s")?;
    text.push_number(trunk)?;
    text.push_bytes(b":4096 1\n")?;
    Ok(())
}

/// Whether a lab is printed as a text.
fn is_printed_as(alloc: Global, lab: &Lab, text: &Text) -> Result<bool, Memory> {
    Ok(print_ptop(alloc, lab)? == *text)
}

/// The largest lab, as it is read and printed.
pub fn told_largest(alloc: Global) -> Result<Text, Memory> {
    let text = largest(alloc)?;
    match read(alloc, text.bytes()) {
        Ok(lab) => {
            let same = is_printed_as(alloc, &lab, &text);
            drop(lab);
            let word: &[u8] = if same? { b"the same" } else { b"otherwise" };
            Text::from_slice(alloc, word)
        }
        Err(_) => Text::from_slice(alloc, b"refused"),
    }
}
