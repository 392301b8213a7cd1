// Mappers, from which node maps are made, and the room of trunks.
ghost use Rattle.std.specs.Prelude.{◌≡◌, ◌↔◌, nat_le, length, IsTrue, slice_index_or};
ghost use Rattle.lab_model.specs.Feasible.{AllPass};

use crate::ends::End;
use crate::index::NodeIfaces;
use phys_lab::{Free, Lab};
use virt_topo::Wiring;

/// A mapper: a lab, its free rest and a wiring, from which node maps are made.
#[derive(Clone, Copy)]
pub struct Mapper<'a> {
    pub lab: &'a Lab,
    pub free: &'a Free,
    pub wiring: &'a Wiring,
    /// The ends of the wiring, in order.
    pub ends: &'a [End],
    /// The interfaces of the lab by node.
    pub ifaces: &'a NodeIfaces,
}

/// Whether each trunk has room for what is used of it.
pub fn has_room(free: &Free, uses: &[u64]) -> bool
    requires { length uses.now ≡ length free.now.left }
    ensures { IsTrue result ↔ AllPass (length uses.now) (λ t. nat_le (slice_index_or uses.now t 0) (slice_index_or free.now.left t 0)) }
{
    let left = free.left.as_slice();
    for trunk in 0..uses.len() {
        if uses[trunk] > left[trunk] {
            return false;
        }
    }
    true
}
