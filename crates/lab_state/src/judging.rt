// Judging records.
ghost use Rattle.std.specs.Prelude.{◌<◌, length};
ghost use Rattle.journal_rec.specs.declared.record.Record.TheVariants as records;
ghost use Rattle.journal_rec.specs.declared.record.Way.TheVariants as ways;
ghost use Rattle.journal_rec.specs.Payloads.{IsRecord};
ghost use Rattle.records_model.specs.Labs.{Sane, change_in, create_in};
ghost use Rattle.lab_state.specs.Changes.{ending_record};
ghost use Rattle.lab_state.specs.Judged.{IsJudged};

use crate::PrepareFault;
use crate::claimed_lab::ClaimedLab;
use crate::ending::{is_in, is_out, may_end};
use crate::prepared::Change;
use crate::state::LabState;
use crate::texts::{lab_of, mapping_of, wiring_in};
use claims::MAX_EXPERIMENTS;
use journal_rec::{Record, Way};
use lab_base::{Name, TEXT_LIMIT, Tags};
use virt_topo::{Experiment, Mapped, Phase};

impl LabState {
    /// Judges the record of a lab, which comes first, and once.
    fn judge_lab(&self, text: &[u8]) -> Result<Change, PrepareFault>
        requires { length text.now < TEXT_LIMIT }
        ensures { IsJudged self.now.state (records.Lab text.now) result }
    {
        if self.claimed_lab.is_some() {
            return Err(PrepareFault::Bad);
        }
        let lab = lab_of(self.alloc, text)?;
        let claimed_lab = ClaimedLab::new(self.alloc, lab)?;
        Ok(Change::Set(claimed_lab))
    }

    /// Judges the record of a new experiment. It needs a lab, a new name, at most 255 experiments there, and the record's format has to be that of
    /// its wiring.
    fn judge_create(&self, exp: Name, text: &[u8], second: bool) -> Result<Change, PrepareFault>
        requires { length text.now < TEXT_LIMIT }
        ensures { IsJudged self.now.state (create_in second exp text.now) result }
    {
        if self.claimed_lab.is_none() {
            return Err(PrepareFault::Bad);
        }
        if self.experiments.len() >= MAX_EXPERIMENTS {
            return Err(PrepareFault::Bad);
        }
        if self.experiments.named(exp).is_some() {
            return Err(PrepareFault::Bad);
        }
        let wiring = wiring_in(self.alloc, text, second)?;
        Ok(Change::Add(Experiment {
            name: exp,
            wiring,
            phase: Phase::Out,
        }))
    }

    /// Judges the record of an experiment that is deleted: it has to be out.
    fn judge_delete(&self, exp: Name) -> Result<Change, PrepareFault>
        ensures { IsJudged self.now.state (records.Delete exp) result }
    {
        match self.experiments.named(exp) {
            Some(experiment) => {
                if is_out(&experiment.phase) {
                    Ok(Change::Remove(exp))
                } else {
                    Err(PrepareFault::Bad)
                }
            }
            None => Err(PrepareFault::Bad),
        }
    }

    /// Judges the begin of a swap-in: the experiment has to be out.
    fn judge_in(&self, exp: Name, map: &[u8], tags: &Tags) -> Result<Change, PrepareFault>
        requires { length map.now < TEXT_LIMIT }
        ensures { IsJudged self.now.state (records.Begin exp (ways.In map.now tags.now)) result }
    {
        let Some(claimed_lab) = &self.claimed_lab else {
            return Err(PrepareFault::Bad);
        };
        let Some(experiment) = self.experiments.named(exp) else {
            return Err(PrepareFault::Bad);
        };
        if !is_out(&experiment.phase) {
            return Err(PrepareFault::Bad);
        }
        let tags = tags.copy(self.alloc)?;
        let mapping = mapping_of(self.alloc, &claimed_lab.lab, &experiment.wiring, map)?;
        let wiring = experiment.wiring.copy(self.alloc)?;
        let new = Mapped {
            wiring,
            mapping,
            tags,
        };
        claimed_lab.take(self.alloc, experiment, new)
    }

    /// Judges the begin of a swap-out: the experiment has to be in.
    fn judge_out(&self, exp: Name) -> Result<Change, PrepareFault>
        ensures { IsJudged self.now.state (records.Begin exp ways.Out) result }
    {
        let Some(claimed_lab) = &self.claimed_lab else {
            return Err(PrepareFault::Bad);
        };
        let Some(experiment) = self.experiments.named(exp) else {
            return Err(PrepareFault::Bad);
        };
        if !is_in(&experiment.phase) {
            return Err(PrepareFault::Bad);
        }
        let change = claimed_lab.begin(self.alloc, experiment, None)?;
        Ok(change)
    }

    /// Judges the begin of a change: the experiment has to be in, and the record's format that of its new wiring.
    fn judge_change(
        &self,
        exp: Name,
        top: &[u8],
        map: &[u8],
        tags: &Tags,
        second: bool,
    ) -> Result<Change, PrepareFault>
        requires top { length top.now < TEXT_LIMIT }
        requires map { length map.now < TEXT_LIMIT }
        ensures { IsJudged self.now.state (records.Begin exp (change_in second top.now map.now tags.now)) result }
    {
        let Some(claimed_lab) = &self.claimed_lab else {
            return Err(PrepareFault::Bad);
        };
        let Some(experiment) = self.experiments.named(exp) else {
            return Err(PrepareFault::Bad);
        };
        if !is_in(&experiment.phase) {
            return Err(PrepareFault::Bad);
        }
        let tags = tags.copy(self.alloc)?;
        let wiring = wiring_in(self.alloc, top, second)?;
        let mapping = mapping_of(self.alloc, &claimed_lab.lab, &wiring, map)?;
        let new = Mapped {
            wiring,
            mapping,
            tags,
        };
        claimed_lab.take(self.alloc, experiment, new)
    }

    fn judge_begin(&self, exp: Name, way: &Way) -> Result<Change, PrepareFault>
        requires { IsRecord (records.Begin exp way.now) }
        ensures { IsJudged self.now.state (records.Begin exp way.now) result }
    {
        match way {
            Way::In { map, tags } => self.judge_in(exp, map.bytes(), tags),
            Way::Out => self.judge_out(exp),
            Way::Change { top, map, tags } => {
                self.judge_change(exp, top.bytes(), map.bytes(), tags, false)
            }
            Way::Change2 { top, map, tags } => {
                self.judge_change(exp, top.bytes(), map.bytes(), tags, true)
            }
        }
    }

    /// Judges the end of a move: it has to have begun, and where it is undone to be no swap-out.
    fn judge_end(&self, exp: Name, commit: bool) -> Result<Change, PrepareFault>
        ensures { IsJudged self.now.state (ending_record exp commit) result }
    {
        match self.experiments.named(exp) {
            Some(experiment) => {
                if may_end(&experiment.phase, commit) {
                    Ok(Change::End { exp, commit })
                } else {
                    Err(PrepareFault::Bad)
                }
            }
            None => Err(PrepareFault::Bad),
        }
    }

    /// The change that a record makes; `Bad` exactly where it can't follow. The clause `sane` holds of every lab.
    pub(crate) fn judge(&self, entry: &Record) -> Result<Change, PrepareFault>
        requires { IsRecord entry.now }
        ensures judged { IsJudged self.now.state entry.now result }
        ensures sane { Sane self.now.state }
    {
        // for the prover: it tells what the experiments keep
        let _kept = &self.experiments;
        match entry {
            Record::Lab { ptop } => self.judge_lab(ptop.bytes()),
            Record::Create { exp, top } => self.judge_create(*exp, top.bytes(), false),
            Record::Create2 { exp, top } => self.judge_create(*exp, top.bytes(), true),
            Record::Delete { exp } => self.judge_delete(*exp),
            Record::Begin { exp, way } => self.judge_begin(*exp, way),
            Record::Commit { exp } => self.judge_end(*exp, true),
            Record::Abort { exp } => self.judge_end(*exp, false),
        }
    }
}
