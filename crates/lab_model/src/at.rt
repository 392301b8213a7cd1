// The parts that the numbers of a mapping name.
ghost use Rattle.std.specs.Prelude.{◌≡◌, ◌<◌, length};
ghost use Rattle.virt_topo.specs.Wirings.{virt_at};
ghost use Rattle.lab_model.specs.Shapes.{node_at};
ghost use Rattle.lab_model.specs.Rules.{place_at, plug_at};
ghost use Rattle.lab_model.specs.Uses.{iface_at};
ghost use Rattle.lab_model.specs.Wants.{node_name};

use lab_base::{IfaceId, Name, NodeId};
use phys_lab::{Iface, Lab, Node};
use virt_topo::{Mapping, VirtNode, Wiring};

/// The virtual node of that number.
pub fn virt_at(wiring: &Wiring, virt: usize) -> &VirtNode
    requires { virt < length wiring.now.nodes }
    ensures { result.now ≡ virt_at wiring.now virt }
{
    &wiring.nodes.as_slice()[virt]
}

/// The node and the type of the virtual node of that number.
pub fn place_at(mapping: &Mapping, virt: usize) -> (NodeId, Name)
    requires { virt < length mapping.now.places }
    ensures { result ≡ place_at mapping.now virt }
{
    mapping.places.as_slice()[virt]
}

/// The node of a lab with that id.
pub fn node_at(lab: &Lab, node: NodeId) -> &Node
    requires { node.0 < length lab.now.nodes }
    ensures { result.now ≡ node_at lab.now node }
{
    &lab.nodes()[node.0 as usize]
}

/// The interface that the end of that number is plugged into, by its id.
pub fn plug_at(mapping: &Mapping, end: usize) -> IfaceId
    requires { end < length mapping.now.plugs }
    ensures { result ≡ plug_at mapping.now end }
{
    mapping.plugs.as_slice()[end]
}

/// The interface of a lab with that id.
pub fn iface_at(lab: &Lab, plug: IfaceId) -> &Iface
    requires { plug.0 < length lab.now.ifaces }
    ensures { result.now ≡ iface_at lab.now plug }
{
    &lab.ifaces()[plug.0 as usize]
}

/// The name of the node of a lab with that id.
pub fn name_at(lab: &Lab, node: NodeId) -> Name
    requires { node.0 < length lab.now.nodes }
    ensures { result ≡ node_name lab.now node }
{
    lab.nodes()[node.0 as usize].name
}

/// The name of a node; the empty one where there is no such node.
pub fn node_name(lab: &Lab, node: NodeId) -> &[u8]
    ensures { result.now ≡ node_name lab.now node }
{
    match lab.nodes().get(node.0 as usize) {
        Some(node) => node.name.bytes(),
        None => &[],
    }
}
