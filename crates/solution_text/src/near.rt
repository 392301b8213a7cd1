// Nodes and interfaces of a lab by name, looked for first where they stand in a lab whose parts are in order.
ghost use Rattle.std.specs.Prelude.{◌≡◌, ◌==◌, ◌&&◌, position, IfSome};
ghost use Rattle.lab_base.specs.Names.{same_name};
ghost use Rattle.solution_text.specs.Solutions.{node_named, iface_on};
ghost use Rattle.solution_text.specs.Names.{IsNode, IsIface};

use lab_base::Name;
use phys_lab::{Iface, Lab, Node};

/// Whether a name is the shorter one, or of two as long ones the lower one.
fn is_before(name: Name, other: Name) -> bool {
    let own = name.bytes().len();
    let others = other.bytes().len();
    own < others || (own == others && name < other)
}

/// The number of a node, where the nodes are in the order of their names.
fn node_near(nodes: &[Node], name: Name) -> Option<usize>
    ensures { IfSome result (IsNode nodes.now name) }
{
    let place = nodes.partition_point(|node| is_before(node.name, name));
    if place < nodes.len() && nodes[place].name == name {
        Some(place)
    } else {
        None
    }
}

fn node_among(nodes: &[Node], name: Name) -> Option<usize>
    ensures { result ≡ position (λ n. same_name name n.name) nodes.now }
{
    nodes.iter().position(|node| name == node.name)
}

/// The number of a node. Where the nodes are in no order, all of them are gone over.
pub(crate) fn find_node(lab: &Lab, name: Name) -> Option<usize>
    ensures { result ≡ node_named lab.now name }
{
    // for the prover: it tells what every lab keeps
    let _kept = lab.range();
    match node_near(lab.nodes(), name) {
        Some(number) => Some(number),
        None => node_among(lab.nodes(), name),
    }
}

/// The number of an interface, where the interfaces are in the order of their nodes.
fn iface_near(ifaces: &[Iface], node: usize, name: Name) -> Option<usize>
    ensures { IfSome result (IsIface ifaces.now node name) }
{
    let first = ifaces.partition_point(|iface| usize::from(iface.node.0) < node);
    for number in first..ifaces.len() {
        if usize::from(ifaces[number].node.0) != node {
            return None;
        }
        if ifaces[number].name == name {
            return Some(number);
        }
    }
    None
}

fn is_iface(iface: &Iface, node: usize, name: Name) -> bool
    ensures { result ≡ (node == iface.now.node.0) && same_name name iface.now.name }
{
    node == usize::from(iface.node.0) && name == iface.name
}

fn iface_among(ifaces: &[Iface], node: usize, name: Name) -> Option<usize>
    ensures { result ≡ position (λ i. (node == i.node.0) && same_name name i.name) ifaces.now }
{
    ifaces.iter().position(|iface| is_iface(iface, node, name))
}

/// The number of an interface of a node. Where the interfaces are in no order, all of them are gone over.
pub(crate) fn find_iface(lab: &Lab, node: usize, name: Name) -> Option<usize>
    ensures { result ≡ iface_on lab.now node name }
{
    // for the prover: it tells what every lab keeps
    let _kept = lab.range();
    match iface_near(lab.ifaces(), node, name) {
        Some(number) => Some(number),
        None => iface_among(lab.ifaces(), node, name),
    }
}
