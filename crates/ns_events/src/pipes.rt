//! The pipes of a link or LAN.

ghost use Rattle.std.specs.Prelude.{◌≡◌, ◌≤◌, IfOk, length};
ghost use Rattle.virt_topo.specs.Ends.{end_nodes};
ghost use Rattle.ns_events.specs.Pipes as pipes;

use lab_base::{Memory, Name};
use std::alloc::Global;
use virt_topo::{END_NUMBERS, Pipe, Wiring, owner_at};

/// Whether a pipe is the link's or LAN's.
pub(crate) fn is_of(wiring: &Wiring, link: Name, pipe: &Pipe) -> bool
    requires { length (end_nodes wiring.now.segments) ≤ END_NUMBERS }
    ensures { result ≡ pipes.is_of wiring.now link pipe.now }
{
    owner_at(wiring, pipe.node, pipe.from) == link.bytes()
}

/// The pipes of a link or LAN, in their order.
pub(crate) fn own_pipes(alloc: Global, wiring: &Wiring, link: Name) -> Result<Vec<Pipe>, Memory>
    requires { length (end_nodes wiring.now.segments) ≤ END_NUMBERS }
    ensures { IfOk result (λ own. own.items ≡ pipes.own_pipes wiring.now link) }
{
    let mut own = Vec::new(alloc);
    for pipe in wiring.pipes.as_slice() {
        if is_of(wiring, link, pipe) {
            own.push(*pipe)?;
        }
    }
    Ok(own)
}
