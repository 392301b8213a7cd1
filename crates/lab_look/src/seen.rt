// The view of a lab with its experiments.
ghost use Rattle.std.specs.Prelude.{◌≡◌, ◌≤◌, ◌<◌, ◌+◌, length, IfOk, map, Some};
ghost use Rattle.std.specs.List.{range_with_len};
ghost use Rattle.lab_model.specs.Beside.{ids_of};
ghost use Rattle.records_model.specs.Labs.{Sane};
ghost use Rattle.claims.specs.Experiments.{ClaimsOf};
ghost use Rattle.lab_seen.specs.Claimed.{ids_claimed, plugs_of};
ghost use Rattle.lab_look.specs.Seen.{machine_of, exp_of, owner_at, view_of};

use crate::seats::{owner_of, seat_of};
use crate::trunks::trunks_of;
use claims::{Claims, MAX_EXPERIMENTS};
use lab_base::{Items, Memory};
use lab_seen::{ids_claimed, nodes_claimed, plugs_by_node, stand_of};
use lab_state::LabState;
use lab_view::{Exp, MAX_IDS, Machine, View};
use phys_lab::{Lab, Node};
use std::alloc::Global;
use virt_topo::Experiment;

fn machine_of(
    alloc: Global,
    state: &LabState,
    lab: &Lab,
    node: &Node,
    plugs: Items<usize>,
) -> Result<Machine, Memory>
    requires few { length state.now.state.experiments ≤ MAX_EXPERIMENTS }
    requires plugs { plugs ≡ plugs_of lab.now node.now.name }
    ensures { IfOk result (λ machine. machine ≡ machine_of lab.now state.now.state.experiments node.now) }
{
    let name = node.name.bytes();
    let types = node.types.copy(alloc)?;
    let seat = seat_of(alloc, state, lab, name)?;
    Ok(Machine {
        name: node.name,
        types,
        plugs,
        seat,
    })
}

#[tactic(auto, using(crate::proofs::Plugs::plugs_len, crate::proofs::Plugs::plugs_here))]
fn machines_of(alloc: Global, state: &LabState, lab: &Lab) -> Result<Items<Machine>, Memory>
    requires { length state.now.state.experiments ≤ MAX_EXPERIMENTS }
    ensures { IfOk result (λ machines. machines ≡ map (machine_of lab.now state.now.state.experiments) lab.now.nodes) }
{
    let plugs = plugs_by_node(alloc, lab)?;
    let nodes = lab.nodes();
    let mut machines = Items::new(alloc);
    for n in 0..nodes.len() {
        let own = plugs.as_slice()[n].copy(alloc)?;
        machines.push(machine_of(alloc, state, lab, &nodes[n], own)?)?;
    }
    Ok(machines)
}

/// An experiment of a lab that records gave.
fn exp_of(lab: &Lab, own: &Experiment) -> Exp
    requires nodes { length lab.now.nodes ≤ u16.MAX }
    requires ids { ids_claimed own.now ≤ u16.MAX }
    ensures { result ≡ exp_of lab.now own.now }
{
    Exp {
        name: own.name,
        stand: stand_of(own),
        nodes: nodes_claimed(lab, own) as u16,
        ids: ids_claimed(own) as u16,
    }
}

/// The experiments in order of creation.
fn exps_of(alloc: Global, state: &LabState, lab: &Lab) -> Result<Items<Exp>, Memory>
    requires lab { state.now.state.lab ≡ Some lab.now }
    requires sane { Sane state.now.state }
    ensures { IfOk result (λ exps. exps ≡ map (exp_of lab.now) state.now.state.experiments) }
{
    // for the prover: it tells what every lab keeps
    let _kept = lab.range();
    let mut exps = Items::new(alloc);
    for number in 0..state.len() {
        match state.nth(number as u16) {
            Some(own) => exps.push(exp_of(lab, own))?,
            None => return Ok(exps),
        }
    }
    Ok(exps)
}

/// By VLAN id of the range the experiment that claims it.
fn owners_of(alloc: Global, state: &LabState, lab: &Lab) -> Result<Items<Option<usize>>, Memory>
    requires { length state.now.state.experiments ≤ MAX_EXPERIMENTS }
    ensures owners { IfOk result (λ owners. owners ≡ map (owner_at lab.now state.now.state.experiments) (range_with_len 0 (ids_of lab.now))) }
    ensures few { IfOk result (λ owners. length owners ≤ MAX_IDS) }
{
    let (low, high) = lab.range();
    let mut owners = Items::new(alloc);
    for number in 0..high - low + 1 {
        owners.push(owner_of(state, low + number))?;
    }
    Ok(owners)
}

/// The view of a lab with its experiments and their claims.
pub fn view_of(alloc: Global, state: &LabState, lab: &Lab, claims: &Claims) -> Result<View, Memory>
    requires lab { state.now.state.lab ≡ Some lab.now }
    requires sane { Sane state.now.state }
    requires claims { ClaimsOf lab.now state.now.state.experiments claims.now }
    ensures view { IfOk result (λ view. view ≡ view_of lab.now state.now.state.experiments) }
    ensures few { IfOk result (λ view. length view.owners ≤ MAX_IDS) }
{
    let machines = machines_of(alloc, state, lab)?;
    let trunks = trunks_of(alloc, state, lab, claims)?;
    let experiments = exps_of(alloc, state, lab)?;
    let owners = owners_of(alloc, state, lab)?;
    Ok(View {
        switches: Items::from_vec(Vec::from_slice(alloc, lab.switches())?),
        machines,
        trunks,
        experiments,
        low: lab.range().0,
        owners,
    })
}
