// Trunks that no mapping can fill.
ghost use Rattle.std.specs.Prelude.{◌≡◌, ◌≤◌, ◌+◌, ◌*◌, IsTrue};
ghost use Rattle.virt_topo.specs.Soundness.{IsSound};
ghost use Rattle.lab_model.specs.Shapes.{IsFreeOf};
ghost use Rattle.map_state.specs.Spare.{most_of, AreSpare};

use phys_lab::{Free, Lab};
use virt_topo::{MAX_KBPS, MAX_SEGMENT_ENDS, MAX_SEGMENTS, Wiring};

/// Twice the most that all segments can use of a trunk.
fn most_of(wiring: &Wiring) -> u64
    requires { IsSound wiring.now }
    ensures is { result ≡ most_of wiring.now.segments }
    ensures small { result ≤ MAX_SEGMENTS * (MAX_SEGMENT_ENDS * MAX_KBPS) }
{
    let mut most = 0u64;
    for segment in wiring.segments.as_slice() {
        most += segment.ends.len() as u64 * segment.kbps;
    }
    most
}

/// Whether no mapping of a wiring can fill a trunk.
pub(crate) fn are_spare(_lab: &Lab, free: &Free, wiring: &Wiring) -> bool
    requires free { IsFreeOf _lab.now free.now }
    requires sound { IsSound wiring.now }
    ensures { IsTrue result → AreSpare _lab.now free.now wiring.now }
{
    let most = most_of(wiring);
    let half = most / 2 + most % 2;
    for left in free.left.as_slice() {
        if *left < half {
            return false;
        }
    }
    true
}
