use crate::claimed_lab::ClaimedLab;
use claims::Claim;
use lab_base::Name;
use std::marker::Model;
use virt_topo::Experiment;

/// The change that a record makes, with the values of its texts.
#[derive(Drop)]
pub(crate) enum Change {
    /// Sets the lab, of which nothing is claimed.
    Set(ClaimedLab),
    /// Adds a new experiment, which is out.
    Add(Experiment),
    /// Removes the experiment of that name.
    Remove(Name),
    /// Begins the move of that experiment, with its claim.
    Begin {
        experiment: Experiment,
        claim: Claim,
    },
    /// Ends the move of that experiment, as done or as undone.
    End {
        exp: Name,
        commit: bool,
    },
}

/// A record that can follow, judged and ready to be entered. Contracts see its change.
#[derive(Drop)]
pub struct Prepared {
    pub(crate) change: Change,
}

impl Model for Prepared {
    ghost use Rattle.lab_state.specs.declared.prepared.Change.{Change};

    ghost Value = { Change };

    ghost view = { λ prepared. prepared.change };
}
