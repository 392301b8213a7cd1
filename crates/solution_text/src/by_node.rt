// The interfaces of each node, one after another.
ghost use Rattle.std.specs.Prelude.{◌≡◌, ◌<◌, length, IfOk};
ghost use Rattle.solution_text.specs.Solutions.{iface_on};
ghost use Rattle.solution_text.specs.Names.{AreListed};

use lab_base::{Memory, Name};
use phys_lab::Lab;
use std::alloc::Global;

/// By node its first interface, and by interface the next one of its node. Where there is none, the count of all stands.
#[derive(Drop)]
pub(crate) struct NodeIfaces {
    first: Vec<u16>,
    next: Vec<u16>,
}

impl NodeIfaces {
    pub(crate) fn new(alloc: Global, lab: &Lab) -> Result<NodeIfaces, Memory>
        ensures { IfOk result (AreListed lab.now) }
    {
        // for the prover: it tells what every lab keeps
        let _kept = lab.range();
        let ifaces = lab.ifaces();
        let mut first = vec![in alloc; ifaces.len() as u16; lab.nodes().len()]?;
        let mut next = vec![in alloc; ifaces.len() as u16; ifaces.len()]?;
        for number in (0..ifaces.len()).rev() {
            let node = ifaces[number].node.0 as usize;
            next[number] = first[node];
            first[node] = number as u16;
        }
        Ok(NodeIfaces { first, next })
    }

    /// The number of an interface of a node.
    pub(crate) fn find(&self, lab: &Lab, node: usize, name: Name) -> Option<usize>
        requires lists { AreListed lab.now self.now }
        requires node { node < length lab.now.nodes }
        ensures { result ≡ iface_on lab.now node name }
    {
        let ifaces = lab.ifaces();
        let mut number = self.first[node] as usize;
        while number < ifaces.len() {
            if name == ifaces[number].name {
                return Some(number);
            }
            number = self.next[number] as usize;
        }
        None
    }
}
