// The rule on the switches of a segment.
ghost use Rattle.std.specs.Prelude.{◌≡◌, IfSome, ◌<◌, length, All};
ghost use Rattle.std.specs.List.{list_all};
ghost use Rattle.phys_lab.specs.Sides.{joined};
ghost use Rattle.lab_model.specs.Shapes.{IsShaped};
ghost use Rattle.lab_model.specs.Rules.{are_joined, keeps_f7};
ghost use Rattle.lab_model.specs.Uses.{switch_of};
ghost use Rattle.lab_model.specs.Feasible.{first_below};

use lab_base::IfaceId;
use lab_model::iface_at;
use phys_lab::Lab;
use virt_topo::{Mapping, Wiring};

/// Whether the switches of two plugs are one or joined by trunks.
fn is_joined(lab: &Lab, one: IfaceId, other: IfaceId) -> bool
    requires one { one.0 < length lab.now.ifaces }
    requires other { other.0 < length lab.now.ifaces }
    ensures { result ≡ joined lab.now.trunks (switch_of lab.now one) (switch_of lab.now other) }
{
    let _linked = lab.ifaces();
    lab.joined(iface_at(lab, one).switch, iface_at(lab, other).switch)
}

fn is_joined_to_all(lab: &Lab, one: IfaceId, plugs: &[IfaceId]) -> bool
    requires one { one.0 < length lab.now.ifaces }
    requires plugs { All (λ i. i.0 < length lab.now.ifaces) plugs.now }
    ensures { result ≡ list_all (λ j. joined lab.now.trunks (switch_of lab.now one) (switch_of lab.now j)) plugs.now }
{
    plugs.iter().all(|plug| is_joined(lab, one, *plug))
}

/// Whether the switches of all plugs are one or joined by trunks. It suffices that the first one's is joined to the others'.
fn are_joined(lab: &Lab, plugs: &[IfaceId]) -> bool
    requires { All (λ i. i.0 < length lab.now.ifaces) plugs.now }
    ensures { result ≡ are_joined lab.now plugs.now }
{
    match plugs.split_first() {
        Some((first, _others)) => is_joined_to_all(lab, *first, plugs),
        None => true,
    }
}

/// The first segment with plugs at switches that aren't joined.
pub(crate) fn first_parted(lab: &Lab, wiring: &Wiring, mapping: &Mapping) -> Option<usize>
    requires { IsShaped lab.now wiring.now mapping.now }
    ensures first { result ≡ first_below (length wiring.now.segments) (keeps_f7 lab.now wiring.now mapping.now) }
    ensures within { IfSome result (λ segment. segment < length wiring.now.segments) }
{
    let segments = wiring.segments.as_slice();
    let mut rest = mapping.plugs.as_slice();
    for segment in 0..segments.len() {
        let (own, later) = rest.split_at(segments[segment].ends.len());
        if !are_joined(lab, own) {
            return Some(segment);
        }
        rest = later;
    }
    None
}
