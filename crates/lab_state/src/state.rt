ghost use Rattle.std.specs.Prelude.{◌≡◌, length, slice_get, option_copied, is_some, ◌≤◌, true, IfOk, IfSome, OnOk};
ghost use Rattle.lab_base.specs.Lists.{Has};
ghost use Rattle.journal_rec.specs.Payloads.{IsRecord};
ghost use Rattle.virt_topo.specs.declared.experiment.Experiment.{Experiment as AnyExperiment};
ghost use Rattle.records_model.specs.Labs.{at_first, find, lab_in, Sane, Follows, CannotFollow};
ghost use Rattle.claims.specs.Experiments.{ClaimsOf};
ghost use Rattle.top_text.specs.Printable.{is_printable};
ghost use Rattle.lab_state.specs.Texts.{the_texts};
ghost use Rattle.lab_state.specs.Answers.{OnBad};
ghost use Rattle.lab_state.specs.Changes.{after, needs, CanEnter};

use crate::PrepareFault;
use crate::claimed_lab::ClaimedLab;
use crate::experiments::Experiments;
use crate::prepared::{Change, Prepared};
use claims::Claims;
use journal_rec::Record;
use lab_base::{Memory, Name};
use phys_lab::Lab;
use std::alloc::Global;
use std::marker::Model;
use virt_topo::Experiment;

/// A lab with its experiments, as records give it. Contracts see both, and the number of further experiments for which there is room.
#[derive(Drop)]
pub struct LabState {
    pub(crate) alloc: Global,
    pub(crate) claimed_lab: Option<ClaimedLab>,
    pub(crate) experiments: Experiments,
}

impl Model for LabState {
    ghost use Rattle.lab_state.specs.Seen.{Seen};
    ghost use Rattle.lab_state.specs.Kept.{state_of, IsKept};

    ghost Value = { Seen };

    ghost view = { λ s. record { state = state_of s.claimed_lab s.experiments.list; room = s.experiments.room } };

    ghost invariant = { λ s. IsKept s.claimed_lab s.experiments.list };
}

impl LabState {
    /// The state before the first record: no lab, and no experiment.
    pub fn new(alloc: Global) -> LabState
        ensures { result.state ≡ at_first }
    {
        LabState {
            alloc,
            claimed_lab: None,
            experiments: Experiments::new(alloc),
        }
    }

    /// The lab, if there is one. The clauses `sane` and `printable` hold of every lab that records give.
    pub fn lab(&self) -> Option<&Lab>
        ensures lab { option_copied result ≡ self.now.state.lab }
        ensures sane { Sane self.now.state }
        ensures printable { (e : AnyExperiment) → Has self.now.state.experiments e → is_printable e.wiring ≡ true }
    {
        // for the prover: it tells what the experiments keep
        let _kept = &self.experiments;
        match &self.claimed_lab {
            Some(claimed_lab) => Some(&claimed_lab.lab),
            None => None,
        }
    }

    /// The claims of the experiments, if there is a lab.
    pub fn claims(&self) -> Option<&Claims>
        ensures some { is_some result ≡ is_some self.now.state.lab }
        ensures claims { IfSome result (λ claims. ClaimsOf (lab_in self.now.state.lab) self.now.state.experiments claims.now) }
    {
        match &self.claimed_lab {
            Some(claimed_lab) => Some(&claimed_lab.claims),
            None => None,
        }
    }

    /// The number of experiments.
    pub fn len(&self) -> usize
        ensures { result ≡ length self.now.state.experiments }
    {
        self.experiments.len()
    }

    /// The experiment of a name.
    pub fn experiment(&self, name: Name) -> Option<&Experiment>
        ensures { option_copied result ≡ find name self.now.state.experiments }
    {
        self.experiments.named(name)
    }

    /// The experiment with that many before it, in order of creation.
    pub fn nth(&self, n: u16) -> Option<&Experiment>
        ensures { option_copied result ≡ slice_get self.now.state.experiments n }
    {
        self.experiments.nth(n as usize)
    }

    /// Judges a record, and makes room for its change. `Bad` comes exactly where it can't follow. On an error the state is as it was.
    ///
    /// The record stays the caller's, who encodes it next. Its names are names, as the journal reads and writes them.
    pub fn prepare(&mut self, entry: &Record) -> Result<Prepared, PrepareFault>
        requires { IsRecord entry.now }
        ensures ok { IfOk result (λ prepared. Follows the_texts self.old.state entry.now (after self.old.state prepared)) }
        ensures enters { IfOk result (λ prepared. CanEnter self.new prepared) }
        ensures bad { OnBad result (CannotFollow the_texts self.old.state entry.now) }
        ensures unchanged { self.new.state ≡ self.old.state }
    {
        let change = self.judge(entry)?;
        match self.make_room(&change) {
            Ok(()) => Ok(Prepared { change }),
            Err(memory) => {
                drop(change);
                Err(PrepareFault::from(memory))
            }
        }
    }

    /// Makes room for the experiment that a change adds.
    fn make_room(&mut self, change: &Change) -> Result<(), Memory>
        ensures state { self.new.state ≡ self.old.state }
        ensures room { OnOk result (needs change.now ≤ self.new.room) }
    {
        if let Change::Add(_) = change {
            self.experiments.reserve_one()?;
        }
        Ok(())
    }

    /// Enters a prepared record. It takes no memory.
    pub fn enter(&mut self, prepared: Prepared)
        requires { CanEnter self.old prepared }
        ensures { self.new.state ≡ after self.old.state prepared }
    {
        let Prepared { change } = prepared;
        match change {
            Change::Set(claimed_lab) => self.set(claimed_lab),
            Change::Add(experiment) => self.add(experiment),
            Change::Remove(exp) => self.remove(exp),
            Change::Begin { experiment, claim } => self.begin(experiment, claim),
            Change::End { exp, commit } => self.end_move(exp, commit),
        }
    }
}
