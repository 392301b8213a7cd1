// The lab of a list of records.
ghost use Rattle.std.specs.Prelude.{IfOk};
ghost use Rattle.lab_base.specs.Lists.{Has};
ghost use Rattle.journal_rec.specs.Payloads.{IsRecord};
ghost use Rattle.journal_rec.specs.declared.record.Found.{Found as AnyFound};
ghost use Rattle.records_model.specs.Labs.{LabOf};
ghost use Rattle.lab_state.specs.Texts.{the_texts};
ghost use Rattle.lab_state.specs.Replays.{records_of, IsFollowed, IsStopped};

use crate::state::LabState;
use crate::{PrepareFault, ReplayFault};
use journal_rec::{Found, Record};
use std::alloc::Global;

impl LabState {
    /// Enters a record that can follow; `Bad` with its number where it can't.
    fn follow(&mut self, index: usize, entry: &Record) -> Result<(), ReplayFault>
        requires { IsRecord entry.now }
        ensures { IsFollowed self.old.state entry.now index result self.new.state }
    {
        match self.prepare(entry) {
            Ok(prepared) => {
                self.enter(prepared);
                Ok(())
            }
            Err(PrepareFault::Bad) => Err(ReplayFault::Bad { index }),
            Err(PrepareFault::Memory) => Err(ReplayFault::Memory),
        }
    }

    /// The lab of a list of records. `Bad` comes exactly where one can't follow, with the number of the first such record, from 0.
    ///
    /// The names of the records are names, as the journal reads and writes them.
    pub fn replay(alloc: Global, records: &[Found]) -> Result<LabState, ReplayFault>
        requires { (found : AnyFound) → Has records.now found → IsRecord found.entry }
        ensures ok { IfOk result (λ lab. LabOf the_texts (records_of records.now) lab.state) }
        ensures bad { IsStopped (records_of records.now) result }
    {
        let mut lab = LabState::new(alloc);
        for (index, found) in records.iter().enumerate() {
            lab.follow(index, &found.entry)?;
        }
        Ok(lab)
    }
}
