// Entering the changes of records into the lab.
ghost use Rattle.std.specs.Prelude.{◌≡◌, ◌≤◌, ◌<◌, length, Some, None, IfSome};
ghost use Rattle.virt_topo.specs.declared.experiment.Experiment.{Experiment as AnyExperiment};
ghost use Rattle.virt_topo.specs.declared.experiment.Phase.TheVariants as phases;
ghost use Rattle.records_model.specs.Labs.{find, moved, Sane};
ghost use Rattle.claims.specs.Held.{others};
ghost use Rattle.claims.specs.Adding.{MayAdd};
ghost use Rattle.claims.specs.Answered.{none_of};
ghost use Rattle.lab_state.specs.declared.prepared.Change.TheVariants as changes;
ghost use Rattle.lab_state.specs.Claimed.{noted, settled};
ghost use Rattle.lab_state.specs.Kept.{ArePrintable};
ghost use Rattle.lab_state.specs.Changes.{after, Begins, CanEnd, ending};

use crate::claimed_lab::ClaimedLab;
use crate::state::LabState;
use claims::{Claim, MAX_EXPERIMENTS};
use lab_base::Name;
use virt_topo::Experiment;

/// Sets the claim of an experiment, where there is a lab.
fn note(claimed_lab: &mut Option<ClaimedLab>, exp: Name, claim: Claim)
    requires may { IfSome claimed_lab.old (λ p. MayAdd p.claims exp claim) }
    requires few { IfSome claimed_lab.old (λ p. length (others exp p.claims.entries) < MAX_EXPERIMENTS) }
    ensures { claimed_lab.new ≡ noted exp claim claimed_lab.old }
{
    if let Some(claimed_lab) = claimed_lab {
        claimed_lab.claims.note(exp, claim);
    } else {
        drop(claim);
    }
}

/// Keeps one side of the claim of an experiment whose move has ended, or drops the claim where the experiment is out.
fn settle(claimed_lab: &mut Option<ClaimedLab>, exp: Name, commit: bool, stands: bool)
    ensures { claimed_lab.new ≡ settled stands exp commit claimed_lab.old }
{
    if let Some(claimed_lab) = claimed_lab {
        if stands {
            claimed_lab.claims.narrow(exp, commit);
        } else {
            claimed_lab.claims.drop_claim(exp);
        }
    }
}

impl LabState {
    pub(crate) fn set(&mut self, claimed_lab: ClaimedLab)
        requires first { self.old.state.lab ≡ None }
        requires claims { claimed_lab.claims ≡ none_of claimed_lab.lab }
        requires sane { Sane (after self.old.state (changes.Set claimed_lab)) }
        ensures { self.new.state ≡ after self.old.state (changes.Set claimed_lab) }
    {
        self.claimed_lab = Some(claimed_lab);
    }

    pub(crate) fn add(&mut self, experiment: Experiment)
        requires new { find experiment.name self.old.state.experiments ≡ None }
        requires out { experiment.phase ≡ phases.Out }
        requires printable { ArePrintable experiment }
        requires sane { Sane (after self.old.state (changes.Add experiment)) }
        requires room { 1 ≤ self.old.room }
        ensures { self.new.state ≡ after self.old.state (changes.Add experiment) }
    {
        self.experiments.add(experiment);
    }

    pub(crate) fn remove(&mut self, exp: Name)
        requires out { (e : AnyExperiment) × (find exp self.old.state.experiments ≡ Some e) × (e.phase ≡ phases.Out) }
        requires sane { Sane (after self.old.state (changes.Remove exp)) }
        ensures { self.new.state ≡ after self.old.state (changes.Remove exp) }
    {
        self.experiments.remove(exp);
    }

    pub(crate) fn begin(&mut self, experiment: Experiment, claim: Claim)
        requires begins { Begins self.old.state experiment claim }
        requires sane { Sane (after self.old.state (changes.Begin experiment claim)) }
        ensures { self.new.state ≡ after self.old.state (changes.Begin experiment claim) }
    {
        note(&mut self.claimed_lab, experiment.name, claim);
        self.experiments.put(experiment);
    }

    /// Ends the move of an experiment as done, or as undone where `commit` is false. It takes no memory.
    pub fn end_move(&mut self, exp: Name, commit: bool)
        requires { CanEnd self.old.state exp commit }
        ensures { moved self.old.state (ending exp commit) ≡ Some self.new.state }
    {
        let stands = self.experiments.end_move(exp, commit);
        settle(&mut self.claimed_lab, exp, commit, stands);
    }
}
