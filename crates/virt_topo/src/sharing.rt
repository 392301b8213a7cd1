// Whether segments of a wiring may share interfaces.
ghost use Rattle.std.specs.Prelude.{◌≡◌};
ghost use Rattle.virt_topo.specs.Sharing.{has_multiplexed};

use crate::Wiring;

/// Whether some segment of the wiring is multiplexed.
pub fn has_multiplexed(wiring: &Wiring) -> bool
    ensures { result ≡ has_multiplexed wiring.now }
{
    let segments = wiring.segments.as_slice();
    segments.iter().any(|segment| segment.multiplexed)
}
