ghost use Rattle.std.specs.Prelude.{◌≡◌, ◌≤◌, ◌/◌, ◌%◌, ◌++◌, ◌∷◌, [], true, map, length, codes, decimal, Ok, OnOk, IfOk};
ghost use Rattle.std.specs.List.{flat_map, list_all};
ghost use Rattle.lab_base.specs.Names.{is_name};
ghost use Rattle.line_text.specs.Printing.{line_text, spaced, text_of, with_number};
ghost use Rattle.virt_topo.specs.Soundness.{IsSound};
ghost use Rattle.top_text.specs.Adding.{wiring_of_text};
ghost use Rattle.top_text.specs.Printable.{named_asks, named_class, named_node, named_place, named_segment, is_address, is_printable};
ghost use Rattle.top_text.specs.Canonical.{virt_name, class_name, address_text, after_name, end_field, asked_name};
ghost use Rattle.top_text.specs.Canonical.{class_fields, node_fields, fix_at, fix_lines, link_fields, multiplex_lines, pipe_fields, canonical_top};

use lab_base::{MAX_PAYLOAD_TEXT, Memory, Name, Text};
use line_text::{push_both_rates, push_count, push_field, push_numbered, push_word};
use std::alloc::Global;
use virt_topo::{Asks, Class, Pipe, Segment, VirtEnd, VirtNode, Wiring};

/// The name of a virtual node; empty where there is none.
pub fn virt_name(wiring: &Wiring, virt: usize) -> &[u8]
    ensures { result.now ≡ virt_name wiring.now virt }
{
    match wiring.nodes.as_slice().get(virt) {
        Some(node) => node.name.bytes(),
        None => &[],
    }
}

fn class_name(wiring: &Wiring, class: u16) -> &[u8]
    ensures { result.now ≡ class_name wiring.now class }
{
    match wiring.classes.as_slice().get(class as usize) {
        Some(class) => class.name.bytes(),
        None => &[],
    }
}

fn asked_name<'a>(wiring: &'a Wiring, asks: &'a Asks) -> &'a [u8]
    ensures name { result.now ≡ asked_name wiring.now asks.now }
    ensures named { named_asks asks.now ≡ true }
{
    match asks {
        Asks::Plain(kind) => kind.bytes(),
        Asks::Class(class) => class_name(wiring, *class),
    }
}

fn push_names(text: &mut Text, names: &[Name]) -> Result<(), Memory>
    ensures text { OnOk result (text.new ≡ text.old ++ spaced names.now) }
    ensures named { OnOk result (list_all is_name names.now ≡ true) }
{
    for name in names {
        push_field(text, name)?;
    }
    Ok(())
}

fn push_class(text: &mut Text, class: &Class) -> Result<(), Memory>
    ensures text { OnOk result (text.new ≡ text.old ++ line_text (class_fields class.now)) }
    ensures named { OnOk result (named_class class.now ≡ true) }
{
    text.push_bytes(b"make-vclass")?;
    push_field(text, &class.name)?;
    push_count(text, u64::from(class.weight))?;
    push_names(text, class.types.as_slice())?;
    text.push(b'\n')
}

fn push_classes(text: &mut Text, classes: &[Class]) -> Result<(), Memory>
    ensures text { OnOk result (text.new ≡ text.old ++ text_of (map class_fields classes.now)) }
    ensures named { OnOk result (list_all named_class classes.now ≡ true) }
{
    for class in classes {
        push_class(text, class)?;
    }
    Ok(())
}

fn push_desires(text: &mut Text, desires: &[(Name, u32)]) -> Result<(), Memory>
    ensures text { OnOk result (text.new ≡ text.old ++ spaced (map with_number desires.now)) }
    ensures named { OnOk result (list_all (λ d. is_name d.0) desires.now ≡ true) }
{
    for desire in desires {
        push_numbered(text, &desire.0, u64::from(desire.1))?;
    }
    Ok(())
}

fn push_node(text: &mut Text, wiring: &Wiring, node: &VirtNode) -> Result<(), Memory>
    ensures text { OnOk result (text.new ≡ text.old ++ line_text (node_fields wiring.now node.now)) }
    ensures named { OnOk result (named_node node.now ≡ true) }
{
    text.push_bytes(b"node")?;
    push_field(text, &node.name)?;
    push_word(text, asked_name(wiring, &node.asks))?;
    push_field(text, &node.os)?;
    push_desires(text, node.desires.as_slice())?;
    text.push(b'\n')
}

fn push_nodes(text: &mut Text, wiring: &Wiring, nodes: &[VirtNode]) -> Result<(), Memory>
    ensures text { OnOk result (text.new ≡ text.old ++ text_of (map (node_fields wiring.now) nodes.now)) }
    ensures named { OnOk result (list_all named_node nodes.now ≡ true) }
{
    for node in nodes {
        push_node(text, wiring, node)?;
    }
    Ok(())
}

fn push_fix(text: &mut Text, name: &Name, fixed: Option<Name>) -> Result<(), Memory>
    ensures text { OnOk result (text.new ≡ text.old ++ text_of (fix_at name.now fixed)) }
    ensures named { OnOk result (named_place fixed ≡ true) }
{
    match fixed {
        Some(place) => {
            text.push_bytes(b"fix-node")?;
            push_field(text, name)?;
            push_field(text, &place)?;
            text.push(b'\n')
        }
        None => Ok(()),
    }
}

fn push_fixes(text: &mut Text, nodes: &[VirtNode]) -> Result<(), Memory>
    ensures text { OnOk result (text.new ≡ text.old ++ text_of (flat_map fix_lines nodes.now)) }
    ensures named { OnOk result (list_all (λ v. named_place v.fixed) nodes.now ≡ true) }
{
    for node in nodes {
        push_fix(text, &node.name, node.fixed)?;
    }
    Ok(())
}

fn push_octets(text: &mut Text, address: u32) -> Result<(), Memory>
    ensures { OnOk result (text.new ≡ text.old ++ decimal (address / 16777216) ++ 46 ∷ decimal (address / 65536 % 256)) }
{
    text.push_number(u64::from(address / 16_777_216))?;
    text.push(b'.')?;
    text.push_number(u64::from(address / 65_536 % 256))
}

fn push_address(text: &mut Text, address: u32) -> Result<(), Memory>
    ensures { OnOk result (text.new ≡ text.old ++ address_text address) }
{
    push_octets(text, address)?;
    text.push(b'.')?;
    text.push_number(u64::from(address / 256 % 256))?;
    text.push(b'.')?;
    text.push_number(u64::from(address % 256))
}

fn push_after_name(text: &mut Text, address: Option<u32>) -> Result<(), Memory>
    ensures text { OnOk result (text.new ≡ text.old ++ after_name address) }
    ensures named { OnOk result (is_address address ≡ true) }
{
    match address {
        Some(address) => {
            text.push(b'=')?;
            push_address(text, address)
        }
        None => Ok(()),
    }
}

fn push_end(text: &mut Text, wiring: &Wiring, end: VirtEnd) -> Result<(), Memory>
    ensures text { OnOk result (text.new ≡ text.old ++ 32 ∷ end_field wiring.now end) }
    ensures named { OnOk result (is_address end.address ≡ true) }
{
    push_word(text, virt_name(wiring, usize::from(end.node)))?;
    push_after_name(text, end.address)
}

fn push_ends(text: &mut Text, wiring: &Wiring, ends: &[VirtEnd]) -> Result<(), Memory>
    ensures text { OnOk result (text.new ≡ text.old ++ spaced (map (end_field wiring.now) ends.now)) }
    ensures named { OnOk result (list_all (λ e. is_address e.address) ends.now ≡ true) }
{
    for end in ends {
        push_end(text, wiring, *end)?;
    }
    Ok(())
}

fn push_link(text: &mut Text, wiring: &Wiring, segment: &Segment) -> Result<(), Memory>
    ensures text { OnOk result (text.new ≡ text.old ++ line_text (link_fields wiring.now segment.now)) }
    ensures named { OnOk result (named_segment segment.now ≡ true) }
{
    text.push_bytes(b"link")?;
    push_field(text, &segment.name)?;
    push_field(text, &segment.owner)?;
    push_count(text, segment.kbps)?;
    push_ends(text, wiring, segment.ends.as_slice())?;
    text.push(b'\n')
}

fn push_links(text: &mut Text, wiring: &Wiring, segments: &[Segment]) -> Result<(), Memory>
    ensures text { OnOk result (text.new ≡ text.old ++ text_of (map (link_fields wiring.now) segments.now)) }
    ensures named { OnOk result (list_all named_segment segments.now ≡ true) }
{
    for segment in segments {
        push_link(text, wiring, segment)?;
    }
    Ok(())
}

fn push_multiplex(text: &mut Text, name: &Name) -> Result<(), Memory>
    ensures { OnOk result (text.new ≡ text.old ++ line_text (codes "multiplex" ∷ name.now ∷ [])) }
{
    text.push_bytes(b"multiplex")?;
    push_field(text, name)?;
    text.push(b'\n')
}

fn push_mark(text: &mut Text, segment: &Segment) -> Result<(), Memory>
    ensures { OnOk result (text.new ≡ text.old ++ text_of (multiplex_lines segment.now)) }
{
    if segment.multiplexed {
        push_multiplex(text, &segment.name)?;
    }
    Ok(())
}

fn push_marks(text: &mut Text, segments: &[Segment]) -> Result<(), Memory>
    ensures { OnOk result (text.new ≡ text.old ++ text_of (flat_map multiplex_lines segments.now)) }
{
    for segment in segments {
        push_mark(text, segment)?;
    }
    Ok(())
}

fn push_pipe(text: &mut Text, wiring: &Wiring, pipe: &Pipe) -> Result<(), Memory>
    ensures { OnOk result (text.new ≡ text.old ++ line_text (pipe_fields wiring.now pipe.now)) }
{
    text.push_bytes(b"pipe")?;
    push_word(text, virt_name(wiring, usize::from(pipe.node)))?;
    push_count(text, u64::from(pipe.from))?;
    push_count(text, u64::from(pipe.to))?;
    push_both_rates(text, pipe.there, pipe.back)?;
    text.push(b'\n')
}

fn push_pipes(text: &mut Text, wiring: &Wiring, pipes: &[Pipe]) -> Result<(), Memory>
    ensures { OnOk result (text.new ≡ text.old ++ text_of (map (pipe_fields wiring.now) pipes.now)) }
{
    for pipe in pipes {
        push_pipe(text, wiring, pipe)?;
    }
    Ok(())
}

fn push_all(text: &mut Text, wiring: &Wiring) -> Result<(), Memory>
    ensures text { OnOk result (text.new ≡ text.old ++ canonical_top wiring.now) }
    ensures named { OnOk result (is_printable wiring.now ≡ true) }
{
    push_classes(text, wiring.classes.as_slice())?;
    push_nodes(text, wiring, wiring.nodes.as_slice())?;
    push_fixes(text, wiring.nodes.as_slice())?;
    push_links(text, wiring, wiring.segments.as_slice())?;
    push_marks(text, wiring.segments.as_slice())?;
    push_pipes(text, wiring, wiring.pipes.as_slice())
}

/// The canonical top text of a wiring.
pub fn print_top(alloc: Global, wiring: &Wiring) -> Result<Text, Memory>
    ensures text { IfOk result (λ text. text ≡ canonical_top wiring.now) }
    ensures again { IsSound wiring.now → IfOk result (λ text. wiring_of_text text ≡ Ok wiring.now) }
    ensures size { IsSound wiring.now → IfOk result (λ text. length text ≤ MAX_PAYLOAD_TEXT) }
    ensures printable { OnOk result (is_printable wiring.now ≡ true) }
{
    let mut text = Text::new(alloc);
    push_all(&mut text, wiring)?;
    Ok(text)
}
