// All rows that the experiments of a lab want.
ghost use Rattle.std.specs.Prelude.{◌≡◌, ◌<◌, ◌++◌, length, slice_get, Some, IfOk, OnOk};
ghost use Rattle.virt_topo.specs.declared.experiment.Experiment.{Experiment as AnyExperiment};
ghost use Rattle.records_model.specs.Labs.{Sane};
ghost use Rattle.lab_audit.specs.Lines.{AreAllWanted};
ghost use Rattle.lab_audit.specs.Wants.{wanted_by};

use crate::wanted::Wanted;
use crate::wants::push_wanted;
use lab_base::Memory;
use lab_state::LabState;
use phys_lab::Lab;
use std::alloc::Global;

/// Adds the rows that the experiment of that number wants.
fn push_nth(
    alloc: Global,
    wanted: &mut Vec<Wanted>,
    lab: &Lab,
    state: &LabState,
    number: usize,
) -> Result<(), Memory>
    requires sane { Sane state.now.state }
    requires lab { state.now.state.lab ≡ Some lab.now }
    requires number { number < length state.now.state.experiments }
    ensures { OnOk result ((e : AnyExperiment) → slice_get state.now.state.experiments number ≡ Some e
        → wanted.new.items ≡ wanted.old.items ++ wanted_by lab.now e) }
{
    match state.nth(number as u16) {
        Some(experiment) => push_wanted(alloc, wanted, lab, experiment),
        None => Ok(()),
    }
}

/// All rows that the experiments want.
pub(crate) fn wanted_of(alloc: Global, state: &LabState, lab: &Lab) -> Result<Vec<Wanted>, Memory>
    requires sane { Sane state.now.state }
    requires lab { state.now.state.lab ≡ Some lab.now }
    ensures { IfOk result (λ wanted. AreAllWanted lab.now state.now.state.experiments wanted.items) }
{
    let mut wanted = Vec::new(alloc);
    for number in 0..state.len() {
        push_nth(alloc, &mut wanted, lab, state, number)?;
    }
    Ok(wanted)
}
