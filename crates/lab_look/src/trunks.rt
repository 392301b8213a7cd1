// The trunks, with what is claimed of them.
ghost use Rattle.std.specs.Prelude.{◌≡◌, ◌<◌, length, sum_by, IfOk, map};
ghost use Rattle.phys_lab.specs.Sides.{trunk_at};
ghost use Rattle.lab_model.specs.Claims.{claimed_use};
ghost use Rattle.std.specs.List.{range_with_len};
ghost use Rattle.records_model.specs.Labs.{Sane};
ghost use Rattle.claims.specs.Experiments.{ClaimsOf};
ghost use Rattle.lab_look.specs.Seen.{trunk_of};

use claims::Claims;
use lab_base::{Items, Memory, TrunkId};
use lab_state::LabState;
use lab_view::Trunk;
use phys_lab::Lab;
use std::alloc::Global;

/// The trunk of that number.
fn trunk_at(lab: &Lab, number: usize) -> &phys_lab::Trunk
    requires { number < length lab.now.trunks }
    ensures { result.now ≡ trunk_at lab.now.trunks number }
{
    &lab.trunks()[number]
}

/// The kbps of a trunk that all experiments claim.
fn used_of(state: &LabState, lab: &Lab, claims: &Claims, number: usize) -> u64
    requires within { number < length lab.now.trunks }
    requires sane { Sane state.now.state }
    requires claims { ClaimsOf lab.now state.now.state.experiments claims.now }
    ensures { result ≡ sum_by (claimed_use lab.now number) state.now.state.experiments }
{
    // for the prover: it tells what every lab keeps
    let _kept = lab.range();
    let left = claims.left(TrunkId(number as u16));
    trunk_at(lab, number).kbps - left
}

/// A trunk as it is seen.
fn trunk_of(state: &LabState, lab: &Lab, claims: &Claims, number: usize) -> Trunk
    requires within { number < length lab.now.trunks }
    requires sane { Sane state.now.state }
    requires claims { ClaimsOf lab.now state.now.state.experiments claims.now }
    ensures { result ≡ trunk_of lab.now state.now.state.experiments number }
{
    let used = used_of(state, lab, claims, number);
    let trunk = trunk_at(lab, number);
    Trunk {
        link: trunk.link,
        first: trunk.first.0.0 as usize,
        second: trunk.second.0.0 as usize,
        kbps: trunk.kbps,
        used,
    }
}

/// The trunks of a lab.
pub(crate) fn trunks_of(
    alloc: Global,
    state: &LabState,
    lab: &Lab,
    claims: &Claims,
) -> Result<Items<Trunk>, Memory>
    requires sane { Sane state.now.state }
    requires claims { ClaimsOf lab.now state.now.state.experiments claims.now }
    ensures { IfOk result (λ trunks. trunks ≡ map (trunk_of lab.now state.now.state.experiments) (range_with_len 0 (length lab.now.trunks))) }
{
    let mut trunks = Items::new(alloc);
    for number in 0..lab.trunks().len() {
        trunks.push(trunk_of(state, lab, claims, number))?;
    }
    Ok(trunks)
}
