// The uses of trunks.
ghost use Rattle.std.specs.Prelude.{◌≡◌, ◌<◌, true, nat_le, length, sum_by};
ghost use Rattle.virt_topo.specs.Soundness.{keeps_limits};
ghost use Rattle.lab_model.specs.Shapes.{IsShaped};
ghost use Rattle.lab_model.specs.Uses.{use_of};
ghost use Rattle.lab_model.specs.Claims.{use_in, claimed_use};
ghost use Rattle.plain_model.specs.Holds.{fits_in, fits, all_fit, has_room, all_pass};

use lab_base::TrunkId;
use phys_lab::Lab;
use virt_topo::{Experiment, Mapped, Mapping, Phase, Wiring};

/// The kbps that a mapping uses of a trunk, where it suits the lab.
fn use_of(lab: &Lab, wiring: &Wiring, mapping: &Mapping, trunk: usize) -> u64
    requires limits { keeps_limits wiring.now ≡ true }
    requires shaped { IsShaped lab.now wiring.now mapping.now }
    requires trunk { trunk < length lab.now.trunks }
    ensures { result ≡ use_of lab.now wiring.now mapping.now trunk }
{
    // for the prover: it tells what every lab keeps
    let _kept = lab.range();
    mapping.cut_use(wiring, lab.first_side(TrunkId(trunk as u16)))
}

fn use_in(lab: &Lab, mapped: &Option<Mapped>, trunk: usize) -> u64
    requires fits { fits_in lab.now mapped.now ≡ true }
    requires trunk { trunk < length lab.now.trunks }
    ensures { result ≡ use_in lab.now trunk mapped.now }
{
    match mapped {
        Some(mapped) => use_of(lab, &mapped.wiring, &mapped.mapping, trunk),
        None => 0,
    }
}

fn claimed_use(lab: &Lab, experiment: &Experiment, trunk: usize) -> u64
    requires fits { fits lab.now experiment.now ≡ true }
    requires trunk { trunk < length lab.now.trunks }
    ensures { result ≡ claimed_use lab.now trunk experiment.now }
{
    match &experiment.phase {
        Phase::Out => 0,
        Phase::In { mapping, .. } => use_of(lab, &experiment.wiring, mapping, trunk),
        Phase::Moving { old, new } => use_in(lab, old, trunk).max(use_in(lab, new, trunk)),
    }
}

/// Whether so many kbps of a trunk suffice for the claims of all.
fn are_enough(lab: &Lab, experiments: &[Experiment], trunk: usize, kbps: u64) -> bool
    requires fit { all_fit lab.now experiments.now ≡ true }
    requires trunk { trunk < length lab.now.trunks }
    ensures { result ≡ nat_le (sum_by (claimed_use lab.now trunk) experiments.now) kbps }
{
    match experiments.split_first() {
        Some((experiment, others)) => {
            let used = claimed_use(lab, experiment, trunk);
            used <= kbps && are_enough(lab, others, trunk, kbps - used)
        }
        None => true,
    }
}

fn has_room(lab: &Lab, experiments: &[Experiment], trunk: usize) -> bool
    requires fit { all_fit lab.now experiments.now ≡ true }
    requires trunk { trunk < length lab.now.trunks }
    ensures { result ≡ has_room lab.now experiments.now trunk }
{
    are_enough(lab, experiments, trunk, lab.trunks()[trunk].kbps)
}

/// Whether each trunk has room for the claims of all.
pub(crate) fn have_room(lab: &Lab, experiments: &[Experiment]) -> bool
    requires { all_fit lab.now experiments.now ≡ true }
    ensures { result ≡ all_pass (length lab.now.trunks) (has_room lab.now experiments.now) }
{
    for trunk in 0..lab.trunks().len() {
        if !has_room(lab, experiments, trunk) {
            return false;
        }
    }
    true
}
