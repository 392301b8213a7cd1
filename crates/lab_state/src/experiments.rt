// The experiments of a lab.
ghost use Rattle.std.specs.Prelude.{◌≡◌, ◌≤◌, ◌<◌, ◌++◌, ◌∷◌, [], length, slice_get, option_copied, is_some, Some, None, OnOk};
ghost use Rattle.virt_topo.specs.declared.experiment.Experiment.{Experiment as AnyExperiment};
ghost use Rattle.records_model.specs.Labs.{find, others, replace};
ghost use Rattle.lab_state.specs.Ends.{ended, kept_of};

use crate::ending::end;
use indexmap::IndexMap;
use lab_base::{Memory, Name};
use std::alloc::Global;
use std::marker::Model;
use virt_topo::Experiment;

/// Experiments in order of creation. Contracts see them as a list, and the number of further ones for which there is room.
#[derive(Drop)]
pub(crate) struct Experiments {
    table: IndexMap<Name, Experiment>,
}

impl Model for Experiments {
    ghost use Rattle.indexmap.specs.IndexMap.{spare};
    ghost use Rattle.lab_state.specs.Seen.{Listed};
    ghost use Rattle.lab_state.specs.Experiments.{experiments_of, AtNames};

    ghost Value = { Listed };

    ghost view = { λ experiments. record { list = experiments_of experiments.table.entries; room = spare experiments.table } };

    ghost invariant = { λ experiments. AtNames experiments.table.entries };
}

impl Experiments {
    pub(crate) fn new(alloc: Global) -> Self
        ensures { result.list ≡ [] }
    {
        Experiments {
            table: IndexMap::new(alloc),
        }
    }

    pub(crate) fn len(&self) -> usize
        ensures { result ≡ length self.now.list }
    {
        self.table.len()
    }

    /// The experiment of a name.
    pub(crate) fn named(&self, exp: Name) -> Option<&Experiment>
        ensures { option_copied result ≡ find exp self.now.list }
    {
        self.table.get(&exp)
    }

    /// The experiment with that many before it.
    pub(crate) fn nth(&self, n: usize) -> Option<&Experiment>
        ensures { option_copied result ≡ slice_get self.now.list n }
    {
        let (_, experiment) = self.table.get_index(n)?;
        Some(experiment)
    }

    /// Makes room for one more.
    pub(crate) fn reserve_one(&mut self) -> Result<(), Memory>
        ensures list { self.new.list ≡ self.old.list }
        ensures room { OnOk result (1 ≤ self.new.room) }
    {
        self.table.reserve(1)?;
        Ok(())
    }

    /// Adds an experiment.
    pub(crate) fn add(&mut self, experiment: Experiment)
        requires new { find experiment.name self.old.list ≡ None }
        requires room { 1 ≤ self.old.room }
        ensures { self.new.list ≡ self.old.list ++ experiment ∷ [] }
    {
        drop(self.table.insert(experiment.name, experiment));
    }

    /// Removes the experiment of a name, if there is one.
    pub(crate) fn remove(&mut self, exp: Name)
        ensures { self.new.list ≡ others exp self.old.list }
    {
        drop(self.table.shift_remove(&exp));
    }

    /// Puts an experiment in the place of the one with its name.
    pub(crate) fn put(&mut self, experiment: Experiment)
        requires { (before : AnyExperiment) × (find experiment.name self.old.list ≡ Some before) }
        ensures { self.new.list ≡ replace experiment.name experiment self.old.list }
    {
        drop(self.table.insert(experiment.name, experiment));
    }

    /// Ends the move of an experiment. Answers whether it stands in the lab then.
    pub(crate) fn end_move(&mut self, exp: Name, commit: bool) -> bool
        requires { (before : AnyExperiment) × (find exp self.old.list ≡ Some before) }
        ensures list { (e : AnyExperiment) → find exp self.old.list ≡ Some e → self.new.list ≡ replace exp (ended commit e) self.old.list }
        ensures stands { (e : AnyExperiment) → find exp self.old.list ≡ Some e → result ≡ is_some (kept_of commit e.phase) }
    {
        let Some(at) = self.table.get_index_of(&exp) else {
            return false;
        };
        match self.table.get_index_mut(at) {
            Some(experiment) => end(experiment, commit),
            None => false,
        }
    }
}
