// The rule on trunks.
ghost use Rattle.std.specs.Prelude.{◌≡◌, IfSome, ◌<◌, length};
ghost use Rattle.virt_topo.specs.Soundness.{IsSound};
ghost use Rattle.lab_model.specs.Shapes.{IsFreeOf, IsShaped};
ghost use Rattle.lab_model.specs.Rules.{keeps_f6};
ghost use Rattle.lab_model.specs.Feasible.{first_below};

use lab_base::TrunkId;
use phys_lab::{Free, Lab};
use virt_topo::{Mapping, Wiring};

fn keeps_f6(lab: &Lab, free: &Free, wiring: &Wiring, mapping: &Mapping, trunk: usize) -> bool
    requires free { IsFreeOf lab.now free.now }
    requires sound { IsSound wiring.now }
    requires shaped { IsShaped lab.now wiring.now mapping.now }
    requires trunk { trunk < length lab.now.trunks }
    ensures { result ≡ keeps_f6 lab.now free.now wiring.now mapping.now trunk }
{
    // for the prover: it tells what every lab keeps
    let _kept = lab.range();
    let first = lab.first_side(TrunkId(trunk as u16));
    mapping.cut_use(wiring, first) <= free.left.as_slice()[trunk]
}

/// The first trunk without room for the traffic that crosses it.
pub(crate) fn first_overfull(
    lab: &Lab,
    free: &Free,
    wiring: &Wiring,
    mapping: &Mapping,
) -> Option<usize>
    requires free { IsFreeOf lab.now free.now }
    requires sound { IsSound wiring.now }
    requires shaped { IsShaped lab.now wiring.now mapping.now }
    ensures first { result ≡ first_below (length lab.now.trunks) (keeps_f6 lab.now free.now wiring.now mapping.now) }
    ensures within { IfSome result (λ trunk. trunk < length lab.now.trunks) }
{
    for trunk in 0..lab.trunks().len() {
        if !keeps_f6(lab, free, wiring, mapping, trunk) {
            return Some(trunk);
        }
    }
    None
}
