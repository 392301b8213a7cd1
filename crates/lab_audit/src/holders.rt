// Experiments that claim a node.
ghost use Rattle.std.specs.Prelude.{◌≡◌, ◌<◌, length, option_copied};
ghost use Rattle.lab_model.specs.Wants.{node_name};
ghost use Rattle.records_model.specs.Labs.{Sane, lab_in};
ghost use Rattle.lab_audit.specs.Nodes.{claimer};

use claims::owners;
use lab_base::NodeId;
use lab_state::LabState;
use virt_topo::Experiment;

/// The experiment that claims the node, if one does. The claims know each node's owner, so no experiment is asked.
pub(crate) fn claimer(state: &LabState, node: NodeId) -> Option<&Experiment>
    requires sane { Sane state.now.state }
    requires node { node.0 < length (lab_in state.now.state.lab).nodes }
    ensures { option_copied result ≡ claimer (lab_in state.now.state.lab) state.now.state.experiments (node_name (lab_in state.now.state.lab) node) }
{
    // for the prover: a node's owner alone claims it
    owners();
    let claims = state.claims()?;
    let exp = claims.owner_of(node)?;
    state.experiment(exp)
}
