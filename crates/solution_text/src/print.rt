ghost use Rattle.std.specs.Prelude.{◌≡◌, ◌<◌, ◌≤◌, ◌++◌, ◌∷◌, [], true, map, length, slice_index_or, All, Ok, OnOk, IfOk};
ghost use Rattle.std.specs.List.{zip};
ghost use Rattle.lab_base.specs.Names.{is_name};
ghost use Rattle.line_text.specs.Printing.{line_text, text_of};
ghost use Rattle.virt_topo.specs.Ends.{end_nodes};
ghost use Rattle.virt_topo.specs.Soundness.{IsSound};
ghost use Rattle.lab_model.specs.Shapes.{IsShaped, node_at};
ghost use Rattle.top_text.specs.Printable.{are_named};
ghost use Rattle.solution_text.specs.Solutions.{mapping_of_text};
ghost use Rattle.solution_text.specs.CanonicalSolution.{end_keys, end_name, place_fields, iface_field, plug_fields, canonical_solution};

use crate::ends::end_keys;
use lab_base::{IfaceId, MAX_PAYLOAD_TEXT, Memory, Name, NodeId, Text};
use line_text::push_field;
use phys_lab::Lab;
use std::alloc::Global;
use top_text::virt_name;
use virt_topo::{Mapping, VirtNode, Wiring};

fn node_name(lab: &Lab, node: NodeId) -> &Name
    requires { node.0 < length lab.now.nodes }
    ensures { result.now ≡ (node_at lab.now node).name }
{
    &lab.nodes()[node.0 as usize].name
}

fn push_place(
    text: &mut Text,
    lab: &Lab,
    virt: &VirtNode,
    place: (NodeId, Name),
) -> Result<(), Memory>
    requires { place.0.0 < length lab.now.nodes }
    ensures text { OnOk result (text.new ≡ text.old ++ line_text (place_fields lab.now (virt.now, place))) }
    ensures named { OnOk result (is_name virt.now.name ≡ true) }
{
    text.push_bytes(b"node")?;
    push_field(text, &virt.name)?;
    push_field(text, node_name(lab, place.0))?;
    push_field(text, &place.1)?;
    text.push(b'\n')
}

fn push_places(
    text: &mut Text,
    lab: &Lab,
    nodes: &[VirtNode],
    places: &[(NodeId, Name)],
) -> Result<(), Memory>
    requires places { length places.now ≡ length nodes.now }
    requires within { All (λ p. p.0.0 < length lab.now.nodes) places.now }
    ensures text { OnOk result (text.new ≡ text.old ++ text_of (map (place_fields lab.now) (zip nodes.now places.now))) }
    ensures named { OnOk result (are_named nodes.now ≡ true) }
{
    for virt in 0..nodes.len() {
        push_place(text, lab, &nodes[virt], places[virt])?;
    }
    Ok(())
}

fn push_end(text: &mut Text, wiring: &Wiring, key: (usize, usize)) -> Result<(), Memory>
    ensures { OnOk result (text.new ≡ text.old ++ end_name wiring.now key) }
{
    text.push_bytes(virt_name(wiring, key.0))?;
    text.push(b':')?;
    text.push_number(key.1 as u64)
}

/// A space and an interface.
fn push_iface(text: &mut Text, lab: &Lab, plug: IfaceId) -> Result<(), Memory>
    requires { plug.0 < length lab.now.ifaces }
    ensures { OnOk result (text.new ≡ text.old ++ 32 ∷ iface_field lab.now plug) }
{
    let iface = &lab.ifaces()[plug.0 as usize];
    push_field(text, node_name(lab, iface.node))?;
    text.push(b':')?;
    text.push_bytes(iface.name.bytes())
}

fn push_plug(
    text: &mut Text,
    lab: &Lab,
    wiring: &Wiring,
    key: (usize, usize),
    plug: IfaceId,
) -> Result<(), Memory>
    requires { plug.0 < length lab.now.ifaces }
    ensures { OnOk result (text.new ≡ text.old ++ line_text (plug_fields lab.now wiring.now (key, plug))) }
{
    text.push_bytes(b"plug ")?;
    push_end(text, wiring, key)?;
    push_iface(text, lab, plug)?;
    text.push(b'\n')
}

fn push_plugs(
    text: &mut Text,
    lab: &Lab,
    wiring: &Wiring,
    keys: &[(usize, usize)],
    plugs: &[IfaceId],
) -> Result<(), Memory>
    requires plugs { length plugs.now ≡ length keys.now }
    requires within { All (λ i. i.0 < length lab.now.ifaces) plugs.now }
    ensures { OnOk result (text.new ≡ text.old ++ text_of (map (plug_fields lab.now wiring.now) (zip keys.now plugs.now))) }
{
    for end in 0..keys.len() {
        push_plug(text, lab, wiring, keys[end], plugs[end])?;
    }
    Ok(())
}

fn push_mapping(
    text: &mut Text,
    alloc: Global,
    lab: &Lab,
    wiring: &Wiring,
    mapping: &Mapping,
) -> Result<(), Memory>
    requires { IsShaped lab.now wiring.now mapping.now }
    ensures text { OnOk result (text.new ≡ text.old ++ canonical_solution lab.now wiring.now mapping.now) }
    ensures named { OnOk result (are_named wiring.now.nodes ≡ true) }
{
    let keys = end_keys(alloc, wiring.segments.as_slice())?;
    push_places(
        text,
        lab,
        wiring.nodes.as_slice(),
        mapping.places.as_slice(),
    )?;
    push_plugs(text, lab, wiring, keys.as_slice(), mapping.plugs.as_slice())
}

/// The canonical solution text of a mapping.
pub fn print_solution(
    alloc: Global,
    lab: &Lab,
    wiring: &Wiring,
    mapping: &Mapping,
) -> Result<Text, Memory>
    requires { IsShaped lab.now wiring.now mapping.now }
    ensures text { IfOk result (λ text. text ≡ canonical_solution lab.now wiring.now mapping.now) }
    ensures again { IsSound wiring.now → IfOk result (λ text. mapping_of_text lab.now wiring.now text ≡ Ok mapping.now) }
    ensures size { IsSound wiring.now → IfOk result (λ text. length text ≤ MAX_PAYLOAD_TEXT) }
{
    // for the prover: it tells what every lab keeps
    let _kept = lab.range();
    let mut text = Text::new(alloc);
    push_mapping(&mut text, alloc, lab, wiring, mapping)?;
    Ok(text)
}

/// The virtual node of the end of that number, and the end's number there.
fn key_at(keys: &[(usize, usize)], end: u16) -> (usize, usize)
    ensures { result ≡ slice_index_or keys.now end (0, 0) }
{
    match keys.get(end as usize) {
        Some(key) => *key,
        None => (0, 0),
    }
}

/// The name of an end, `V:K`: its virtual node, and its number among the ends of that one. `end` is its number among all ends.
pub fn print_end(alloc: Global, wiring: &Wiring, end: u16) -> Result<Text, Memory>
    ensures { IfOk result (λ text. text ≡ end_name wiring.now (slice_index_or (end_keys [] (end_nodes wiring.now.segments)) end (0, 0))) }
{
    let keys = end_keys(alloc, wiring.segments.as_slice())?;
    let mut text = Text::new(alloc);
    push_end(&mut text, wiring, key_at(keys.as_slice(), end))?;
    Ok(text)
}
