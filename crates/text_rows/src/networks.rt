//! Networks of NS texts.
use lab_base::{Memory, Name, Text};
use ns_build::{Asked, read_ns};
use row_words::{RowFault, push_number};
use std::alloc::Global;
use virt_topo::{AskedLink, AskedNode, Asks, Class, Topo, VirtEnd};

/// Two nodes.
const HEAD: &[u8] =
    b"set ns [new Simulator]\nsource tb_compat.tcl\nset a [$ns node]\nset b [$ns node]\n";

fn push_name(out: &mut Text, name: Name) -> Result<(), Memory> {
    out.push(b' ')?;
    out.push_bytes(name.bytes())
}

fn push_asks(out: &mut Text, asks: &Asks) -> Result<(), Memory> {
    match asks {
        Asks::Plain(name) => push_name(out, *name),
        Asks::Class(number) => {
            out.push_bytes(b" class")?;
            push_number(out, u64::from(*number))
        }
    }
}

/// The name, what it asks for, the OS and perhaps the fixed place.
fn push_node(out: &mut Text, node: &AskedNode) -> Result<(), Memory> {
    out.push_bytes(b"node")?;
    push_name(out, node.name)?;
    push_asks(out, &node.asks)?;
    push_name(out, node.os)?;
    if let Some(place) = node.fixed {
        push_name(out, place)?;
    }
    out.push(b'\n')
}

fn push_end(out: &mut Text, end: VirtEnd) -> Result<(), Memory> {
    push_number(out, u64::from(end.node))?;
    if let Some(address) = end.address {
        out.push(b'=')?;
        out.push_number(u64::from(address))?;
    }
    Ok(())
}

/// The name, kbps, microseconds, millionths, whether it is multiplexed, and the numbers of the nodes with their addresses.
fn push_link(out: &mut Text, link: &AskedLink) -> Result<(), Memory> {
    out.push_bytes(if link.lan { b"lan" } else { b"link" })?;
    push_name(out, link.name)?;
    push_number(out, link.rates.kbps)?;
    push_number(out, u64::from(link.rates.micros))?;
    push_number(out, u64::from(link.rates.ppm))?;
    if link.multiplexed {
        out.push_bytes(b" multiplexed")?;
    }
    for end in link.ends.as_slice() {
        push_end(out, *end)?;
    }
    out.push(b'\n')
}

/// The name, the weight and the types.
fn push_class(out: &mut Text, class: &Class) -> Result<(), Memory> {
    out.push_bytes(b"class")?;
    push_name(out, class.name)?;
    push_number(out, u64::from(class.weight))?;
    for kind in class.types.as_slice() {
        push_name(out, *kind)?;
    }
    out.push(b'\n')
}

fn push_nodes(out: &mut Text, nodes: &[AskedNode]) -> Result<(), Memory> {
    for node in nodes {
        push_node(out, node)?;
    }
    Ok(())
}

fn push_links(out: &mut Text, links: &[AskedLink]) -> Result<(), Memory> {
    for link in links {
        push_link(out, link)?;
    }
    Ok(())
}

fn push_classes(out: &mut Text, classes: &[Class]) -> Result<(), Memory> {
    for class in classes {
        push_class(out, class)?;
    }
    Ok(())
}

fn push_topo(out: &mut Text, topo: &Topo) -> Result<(), Memory> {
    push_nodes(out, topo.nodes())?;
    push_links(out, topo.links())?;
    push_classes(out, topo.classes())
}

/// Adds the line of `$ns run` and the network.
fn push_asked(out: &mut Text, asked: &Asked) -> Result<(), Memory> {
    out.push_number(u64::from(asked.line))?;
    out.push(b'\n')?;
    push_topo(out, &asked.topo)
}

/// The line of `$ns run` and the network.
pub fn told(alloc: Global, text: &[u8]) -> Result<Text, RowFault> {
    let mut out = Text::new(alloc);
    if text.len() > 100_000 {
        return Ok(out);
    }
    match read_ns(alloc, text) {
        Ok(asked) => {
            let pushed = push_asked(&mut out, &asked);
            drop(asked);
            pushed?;
            Ok(out)
        }
        Err(refused) => Err(RowFault::from(refused)),
    }
}

/// The network of a text of two nodes, with lines after them, and the run.
pub fn told_over_two(alloc: Global, lines: &[u8]) -> Result<Text, RowFault> {
    let mut text = Text::from_slice(alloc, HEAD)?;
    text.push_bytes(lines)?;
    text.push_bytes(b"\n$ns run\n")?;
    told(alloc, text.bytes())
}

/// The fault of a text with an open quote on line 3, of 65,536 bytes and further ones.
pub fn told_long(alloc: Global, further: &[u8]) -> Result<Text, RowFault> {
    let mut text = Text::from_slice(alloc, b"\n\n\"")?;
    for _ in 0..65_533 {
        text.push(b'x')?;
    }
    text.push_bytes(further)?;
    told(alloc, text.bytes())
}
