// The ends of a wiring.
ghost use Rattle.std.specs.Prelude.{◌≡◌, ◌<◌, ◌≤◌, ◌+◌, ℕ, List, length, map};
ghost use Rattle.virt_topo.specs.Ends.{end_nodes};
ghost use Rattle.virt_topo.specs.Soundness.{end_of};
ghost use Rattle.virt_topo.specs.Sought.{IsSought};

use crate::limits::END_NUMBERS;
use crate::{VirtEnd, Wiring};

/// The outcome of a search for an end in one segment.
#[derive(Clone, Copy)]
pub(crate) enum Sought {
    /// The end is here, at that place.
    At(usize),
    /// The end isn't here, and so many ends of the virtual node are still to be passed.
    Later(u16),
}

/// The place of the end that has `k` earlier ends of the virtual node.
fn sought_in(ends: &[VirtEnd], node: u16, k: u16) -> Sought
    ensures { (rest : List ℕ) → IsSought (map (λ e. e.node) ends.now) rest node k result }
{
    let mut left = k;
    for (at, end) in ends.iter().enumerate() {
        if end.node == node {
            if left == 0 {
                return Sought::At(at);
            }
            left -= 1;
        }
    }
    Sought::Later(left)
}

impl Wiring {
    /// The number, among all ends, of the end that has `k` earlier ends of the virtual node.
    pub fn end(&self, node: u16, k: u16) -> Option<u16>
        requires { length (end_nodes self.now.segments) ≤ END_NUMBERS }
        ensures { result ≡ end_of self.now node k }
    {
        let mut passed: usize = 0;
        let mut left = k;
        for segment in self.segments.as_slice() {
            match sought_in(segment.ends.as_slice(), node, left) {
                Sought::At(at) => return Some((passed + at) as u16),
                Sought::Later(more) => left = more,
            }
            passed += segment.ends.len();
        }
        None
    }
}
