ghost use Rattle.std.specs.Prelude.{◌≡◌, ◌<◌, ◌≤◌, ◌++◌, ◌∷◌, [], map, length, decimal, codes, Ok, OnOk, IfOk};
ghost use Rattle.phys_lab.specs.Forests.{IsWithin};
ghost use Rattle.ptop_text.specs.Adding.{lab_of_text};
ghost use Rattle.ptop_text.specs.Canonical.{port_field, range_line, switch_line, node_line, iface_line, trunk_line, canonical, feature_fields};
ghost use Rattle.line_text.specs.Printing.{line_text, text_of, with_number, spaced};

use lab_base::{MAX_PAYLOAD_TEXT, Memory, Name, SwitchId, Text};
use line_text::push_numbered;
use phys_lab::{Iface, Lab, Node, Trunk};
use std::alloc::Global;

fn push_range(text: &mut Text, range: (u16, u16)) -> Result<(), Memory>
    ensures { OnOk result (text.new ≡ text.old ++ line_text (range_line range)) }
{
    text.push_bytes(b"vlans ")?;
    text.push_number(u64::from(range.0))?;
    text.push(b' ')?;
    text.push_number(u64::from(range.1))?;
    text.push(b'\n')
}

fn push_switch(text: &mut Text, name: &Name) -> Result<(), Memory>
    ensures { OnOk result (text.new ≡ text.old ++ line_text (switch_line name.now)) }
{
    text.push_bytes(b"node ")?;
    text.push_bytes(name.bytes())?;
    text.push_bytes(b" switch\n")
}

fn push_types(text: &mut Text, types: &[(Name, u16)]) -> Result<(), Memory>
    ensures { OnOk result (text.new ≡ text.old ++ spaced (map with_number types.now)) }
{
    for kind in types {
        push_numbered(text, &kind.0, u64::from(kind.1))?;
    }
    Ok(())
}

fn push_features(text: &mut Text, features: &[(Name, u32)]) -> Result<(), Memory>
    ensures { OnOk result (text.new ≡ text.old ++ spaced (map with_number features.now)) }
{
    for feature in features {
        push_numbered(text, &feature.0, u64::from(feature.1))?;
    }
    Ok(())
}

/// A lone `-` and the features, or nothing where there is none.
fn push_feature_fields(text: &mut Text, features: &[(Name, u32)]) -> Result<(), Memory>
    ensures { OnOk result (text.new ≡ text.old ++ spaced (feature_fields features.now)) }
{
    if features.is_empty() {
        return Ok(());
    }
    text.push_bytes(b" -")?;
    push_features(text, features)
}

fn push_node(text: &mut Text, node: &Node) -> Result<(), Memory>
    ensures { OnOk result (text.new ≡ text.old ++ line_text (node_line node.now)) }
{
    text.push_bytes(b"node ")?;
    text.push_bytes(node.name.bytes())?;
    push_types(text, node.types.as_slice())?;
    push_feature_fields(text, node.features.as_slice())?;
    text.push(b'\n')
}

/// A space and a port of a switch.
fn push_port(text: &mut Text, lab: &Lab, port: (SwitchId, u16)) -> Result<(), Memory>
    requires { port.0.0 < length lab.now.switches }
    ensures { OnOk result (text.new ≡ text.old ++ 32 ∷ port_field lab.now port) }
{
    push_numbered(text, &lab.switches()[port.0.0 as usize], u64::from(port.1))
}

/// A space, the kbps and the end of the line.
fn push_speed(text: &mut Text, kbps: u64) -> Result<(), Memory>
    ensures { OnOk result (text.new ≡ text.old ++ 32 ∷ decimal kbps ++ 10 ∷ []) }
{
    text.push(b' ')?;
    text.push_number(kbps)?;
    text.push(b'\n')
}

/// The word `link`, its name and a space.
fn push_link(text: &mut Text, link: &Name) -> Result<(), Memory>
    ensures { OnOk result (text.new ≡ text.old ++ codes "link" ++ 32 ∷ link.now) }
{
    text.push_bytes(b"link ")?;
    text.push_bytes(link.bytes())
}

/// A space and an interface of a node.
fn push_iface_name(text: &mut Text, node: &Name, name: &Name) -> Result<(), Memory>
    ensures { OnOk result (text.new ≡ text.old ++ 32 ∷ node.now ++ 58 ∷ name.now) }
{
    text.push(b' ')?;
    text.push_bytes(node.bytes())?;
    text.push(b':')?;
    text.push_bytes(name.bytes())
}

fn push_iface(text: &mut Text, lab: &Lab, iface: &Iface) -> Result<(), Memory>
    requires switch { iface.now.switch.0 < length lab.now.switches }
    requires node { iface.now.node.0 < length lab.now.nodes }
    ensures { OnOk result (text.new ≡ text.old ++ line_text (iface_line lab.now iface.now)) }
{
    push_link(text, &iface.link)?;
    push_iface_name(text, &lab.nodes()[iface.node.0 as usize].name, &iface.name)?;
    push_port(text, lab, (iface.switch, iface.port))?;
    push_speed(text, iface.kbps)
}

fn push_trunk(text: &mut Text, lab: &Lab, trunk: &Trunk) -> Result<(), Memory>
    requires { IsWithin (length lab.now.switches) trunk.now }
    ensures { OnOk result (text.new ≡ text.old ++ line_text (trunk_line lab.now trunk.now)) }
{
    push_link(text, &trunk.link)?;
    push_port(text, lab, trunk.first)?;
    push_port(text, lab, trunk.second)?;
    push_speed(text, trunk.kbps)
}

fn push_switches(text: &mut Text, switches: &[Name]) -> Result<(), Memory>
    ensures { OnOk result (text.new ≡ text.old ++ text_of (map switch_line switches.now)) }
{
    for name in switches {
        push_switch(text, name)?;
    }
    Ok(())
}

fn push_nodes(text: &mut Text, nodes: &[Node]) -> Result<(), Memory>
    ensures { OnOk result (text.new ≡ text.old ++ text_of (map node_line nodes.now)) }
{
    for node in nodes {
        push_node(text, node)?;
    }
    Ok(())
}

fn push_ifaces(text: &mut Text, lab: &Lab) -> Result<(), Memory>
    ensures { OnOk result (text.new ≡ text.old ++ text_of (map (iface_line lab.now) lab.now.ifaces)) }
{
    for iface in lab.ifaces() {
        push_iface(text, lab, iface)?;
    }
    Ok(())
}

fn push_trunks(text: &mut Text, lab: &Lab) -> Result<(), Memory>
    ensures { OnOk result (text.new ≡ text.old ++ text_of (map (trunk_line lab.now) lab.now.trunks)) }
{
    for trunk in lab.trunks() {
        push_trunk(text, lab, trunk)?;
    }
    Ok(())
}

/// The canonical ptop text of a lab.
pub fn print_ptop(alloc: Global, lab: &Lab) -> Result<Text, Memory>
    ensures text { IfOk result (λ text. text ≡ canonical lab.now) }
    ensures again { IfOk result (λ text. lab_of_text text ≡ Ok lab.now) }
    ensures size { IfOk result (λ text. length text ≤ MAX_PAYLOAD_TEXT) }
{
    let mut text = Text::new(alloc);
    push_range(&mut text, lab.range())?;
    push_switches(&mut text, lab.switches())?;
    push_nodes(&mut text, lab.nodes())?;
    push_ifaces(&mut text, lab)?;
    push_trunks(&mut text, lab)?;
    Ok(text)
}
