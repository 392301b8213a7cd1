// The lab, its open swaps and an experiment, by which a command is judged.
use lab_state::LabState;
use phys_lab::Lab;
use swap_mgr::Manager;
use virt_topo::Experiment;

/// The lab and its open swaps, as a command finds them.
#[derive(Clone, Copy)]
pub struct Present<'a> {
    pub state: &'a LabState,
    pub swaps: &'a Manager,
}

/// An experiment of the lab, of which something is judged.
#[derive(Clone, Copy)]
pub struct Case<'a> {
    pub state: &'a LabState,
    pub lab: &'a Lab,
    pub experiment: &'a Experiment,
}
