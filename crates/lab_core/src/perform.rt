// A task is done: over the plant, where the journal has room for it.
ghost use Rattle.std.specs.Prelude.{◌≡◌, ◌≤◌, ◌+◌, nat_le, ℕ, Err, IfOk, IfSome, List, Ok, OnOk, Option, Some, length};
ghost use Rattle.journal_rec.specs.Payloads.{IsBody, IsRecord};
ghost use Rattle.journal_rec.specs.declared.record.Record.{Record as AnyRecord};
ghost use Rattle.journal_disk.specs.Standing.{length_of, limit_of};
ghost use Rattle.records_model.specs.Labs.{Follows, Sane};
ghost use Rattle.swap_txn.specs.Steps.{Stands, Writes};
ghost use Rattle.lab_state.specs.Changes.{after, CanEnter};
ghost use Rattle.lab_state.specs.Texts.{the_texts};
ghost use Rattle.lab_core.specs.Controller.{CanWork, WorksWith};
ghost use Rattle.lab_tasks.specs.Tasks.{Append, BeginOnly, Finish, Recover, Swap, Turn, CanAppend, CanDo, CanSwap, MayFollow, task_of};
ghost use Rattle.lab_judge.specs.Judge.{Is};
ghost use Rattle.lab_core.specs.Obey.{Obeyed};
ghost use Rattle.lab_core.specs.Perform.{append_answer, recover_answer, IsReady, or_any, swapped_by};
ghost use Rattle.lab_core.specs.Sessions.{OpenSwap};
ghost use Rattle.lab_core.specs.Swapping.{IsBegunBy, IsSwapReply, TellsTask};

use crate::swapping::{open_swap, prepare_swap, reply_of_progress, reply_of_unopened};
use crate::{Controller, CoreFault};
use journal_disk::{AppendFault, Journal};
use journal_rec::{Encoded, LAST_RECORDS, MAX_JOURNAL, Record, encode};
use lab_base::{Memory, Name};
use lab_judge::Space;
use lab_state::{LabState, PrepareFault, Prepared};
use lab_tasks::{NewSwap, Task};
use plant::Plant;
use recovery::{SettleFault, Settled, settle};
use script_text::Reply;

/// The length of the journal, and its limit.
pub(crate) fn space_of(journal: &Journal) -> Space
    ensures { result ≡ record { length = length_of journal.now; limit = limit_of journal.now } }
{
    Space {
        length: journal.length(),
        limit: journal.limit(),
    }
}

/// Whether a record of a size leaves room for the last records of moves.
fn has_space(journal: &Journal, size: u64) -> bool
    ensures space { result ≡ nat_le (length_of journal.now + size + LAST_RECORDS) (limit_of journal.now) }
    ensures most { limit_of journal.now ≤ MAX_JOURNAL }
{
    // for the prover: it tells how long a journal may be
    let _limit = journal.limit();
    space_of(journal).has(size)
}

/// Prepares a record that can follow. Its clause `sane` is what every lab keeps.
pub(crate) fn prepare(lab: &mut LabState, entry: &Record) -> Result<Prepared, Memory>
    requires record { IsRecord entry.now }
    requires follows { MayFollow lab.old.state entry.now }
    ensures ok { IfOk result (λ prepared. Follows the_texts lab.old.state entry.now (after lab.old.state prepared)) }
    ensures enters { IfOk result (λ prepared. CanEnter lab.new prepared) }
    ensures sane { Sane lab.old.state }
    ensures unchanged { lab.new.state ≡ lab.old.state }
{
    // for the prover: it tells what every lab keeps
    let _kept = lab.lab();
    match lab.prepare(entry) {
        Ok(prepared) => Ok(prepared),
        Err(PrepareFault::Memory) => Err(Memory),
        // The record can follow.
        Err(PrepareFault::Bad) => unreachable!(),
    }
}

/// Appends a record for which there is room.
fn write<P: Plant>(
    encoded: &Encoded,
    journal: &mut Journal,
    plant: &mut P,
) -> Result<(), AppendFault>
    requires stands { Stands (P.seen plant.old).told journal.old }
    requires fits { length_of journal.old + length encoded.now ≤ limit_of journal.old }
    ensures { (r : AnyRecord) → IsBody encoded.now r → Writes r (P.seen plant.old) (P.seen plant.new) journal.old journal.new result }
{
    journal.append(encoded, plant)
}

/// Enters a record that was prepared, where it is durable.
fn enter_written(lab: &mut LabState, prepared: Prepared, written: &Result<(), AppendFault>)
    requires { CanEnter lab.old prepared }
    ensures { OnOk written.now (lab.new.state ≡ after lab.old.state prepared) }
{
    if written.is_ok() {
        lab.enter(prepared);
    } else {
        drop(prepared);
    }
}

/// The reply after an append for which there was room.
fn reply_of_append(reply: Reply, written: Result<(), AppendFault>) -> Result<Reply, CoreFault>
    requires { (length size : ℕ) → written ≡ Err (AppendFault.Full length size) → ⊥ }
    ensures { result ≡ append_answer reply written }
{
    match written {
        Ok(()) => Ok(reply),
        Err(AppendFault::Stopped) => Err(CoreFault::Stopped),
        Err(AppendFault::Plant) => Ok(Reply::Down),
        // There is room for it.
        Err(AppendFault::Full { .. }) => unreachable!(),
    }
}

/// The reply after the settling of all experiments that move.
fn reply_of_settling(settled: Result<Settled, SettleFault>) -> Result<Reply, CoreFault>
    ensures { result ≡ recover_answer settled }
{
    match settled {
        Ok(Settled { done, stuck }) => Ok(Reply::Recovered { done, stuck }),
        Err(SettleFault::Plant) => Ok(Reply::Down),
        Err(SettleFault::Stopped) => Err(CoreFault::Stopped),
        Err(SettleFault::Memory) => Err(CoreFault::Memory),
    }
}

impl Controller {
    /// Appends a record, where there is space for it, and tells that it is made.
    fn append<P: Plant>(
        &mut self,
        entry: &Record,
        reply: Reply,
        plant: &mut P,
    ) -> Result<Reply, CoreFault>
        requires can { CanAppend self.old.lab entry.now reply }
        requires works { CanWork (P.seen plant.old) self.old }
        ensures { (opens : List OpenSwap) (devices : ℕ) (exp : Option (List ℕ)) → devices ≤ (P.seen plant.old).faults.devices
            → WorksWith (P.seen plant.old) self.old opens
            → Obeyed devices (P.seen plant.old) (P.seen plant.new) (Is (Ok (Append entry.now reply))) self.old self.new opens exp result }
    {
        let encoded = encode(self.alloc, entry)?;
        if !has_space(&self.journal, encoded.size()) {
            return Ok(Reply::FullJournal {
                length: self.journal.length(),
            });
        }
        let prepared = prepare(&mut self.lab, entry)?;
        let written = write(&encoded, &mut self.journal, plant);
        enter_written(&mut self.lab, prepared, &written);
        reply_of_append(reply, written)
    }

    /// Begins a swap by its record, where there is space for it. It is open then, where nothing else is told.
    fn begin<P: Plant>(&mut self, swap: NewSwap, plant: &mut P) -> Result<Option<Reply>, CoreFault>
        // its record can follow, and no other swap is in its way
        requires can { CanSwap self.old.lab swap }
        requires ready { IsReady self.old.swaps (Swap swap.exp swap.way) }
        requires works { CanWork (P.seen plant.old) self.old }
        // it is begun, or what is told is all that its command does
        ensures begun { (opens : List OpenSwap) (devices : ℕ) → devices ≤ (P.seen plant.old).faults.devices → WorksWith (P.seen plant.old) self.old opens
            → IsBegunBy devices (P.seen plant.old) (P.seen plant.new) self.old self.new opens swap.exp swap.way result }
        ensures told { IfOk result (λ told. IfSome told (IsSwapReply swap.exp)) }
    {
        let exp = swap.exp;
        let Ok(ready) = prepare_swap(self.alloc, &mut self.lab, swap) else {
            return Err(CoreFault::Memory);
        };
        if !has_space(&self.journal, ready.planned.size()) {
            drop(ready);
            return Ok(Some(Reply::FullJournal {
                length: self.journal.length(),
            }));
        }
        match open_swap(
            &mut self.lab,
            &mut self.journal,
            &mut self.swaps,
            ready,
            plant,
        ) {
            Ok(()) => Ok(None),
            Err(fault) => reply_of_unopened(exp, fault),
        }
    }

    /// Begins a swap. Later commands turn it.
    fn begin_only<P: Plant>(&mut self, swap: NewSwap, plant: &mut P) -> Result<Reply, CoreFault>
        requires can { CanSwap self.old.lab swap }
        requires ready { IsReady self.old.swaps (BeginOnly swap.exp swap.way) }
        requires works { CanWork (P.seen plant.old) self.old }
        ensures { (opens : List OpenSwap) (devices : ℕ) → devices ≤ (P.seen plant.old).faults.devices → WorksWith (P.seen plant.old) self.old opens
            → Obeyed devices (P.seen plant.old) (P.seen plant.new) (Is (Ok (BeginOnly swap.exp swap.way))) self.old self.new opens (Some swap.exp) result }
    {
        let exp = swap.exp;
        match self.begin(swap, plant)? {
            None => Ok(Reply::More { exp }),
            Some(reply) => Ok(reply),
        }
    }

    /// Makes one turn of the experiment's open swap.
    fn turn<P: Plant>(&mut self, exp: Name, plant: &mut P) -> Result<Reply, CoreFault>
        requires ready { IsReady self.old.swaps (Turn exp) }
        requires works { CanWork (P.seen plant.old) self.old }
        ensures { (opens : List OpenSwap) (devices : ℕ) → devices ≤ (P.seen plant.old).faults.devices → WorksWith (P.seen plant.old) self.old opens
            → Obeyed devices (P.seen plant.old) (P.seen plant.new) (Is (Ok (Turn exp))) self.old self.new opens (Some exp) result }
    {
        let progress = self.turn_swap(exp, plant);
        reply_of_progress(exp, progress)
    }

    /// Turns the experiment's open swap to its end.
    fn finish<P: Plant>(&mut self, exp: Name, plant: &mut P) -> Result<Reply, CoreFault>
        requires ready { IsReady self.old.swaps (Finish exp) }
        requires works { CanWork (P.seen plant.old) self.old }
        ensures { (opens : List OpenSwap) (devices : ℕ) → devices ≤ (P.seen plant.old).faults.devices → WorksWith (P.seen plant.old) self.old opens
            → Obeyed devices (P.seen plant.old) (P.seen plant.new) (Is (Ok (Finish exp))) self.old self.new opens (Some exp) result }
    {
        let progress = self.finish_swap(exp, plant);
        reply_of_progress(exp, progress)
    }

    /// Begins a swap, and where that is open turns it to its end.
    fn swap<P: Plant>(&mut self, swap: NewSwap, plant: &mut P) -> Result<Reply, CoreFault>
        // its record can follow, and no other swap is in its way
        requires can { CanSwap self.old.lab swap }
        requires ready { IsReady self.old.swaps (Swap swap.exp swap.way) }
        requires works { CanWork (P.seen plant.old) self.old }
        // the whole swap is done, and where it ended is told
        ensures obeyed { (opens : List OpenSwap) (devices : ℕ) → devices ≤ (P.seen plant.old).faults.devices → WorksWith (P.seen plant.old) self.old opens
            → Obeyed devices (P.seen plant.old) (P.seen plant.new) (Is (Ok (Swap swap.exp swap.way))) self.old self.new opens (Some swap.exp) result }
        ensures told { IfOk result (IsSwapReply swap.exp) }
    {
        let exp = swap.exp;
        match self.begin(swap, plant)? {
            None => {
                let progress = self.finish_swap(exp, plant);
                reply_of_progress(exp, progress)
            }
            Some(reply) => Ok(reply),
        }
    }

    /// Settles all experiments that move and have no open swap, and tells how many were settled and how many are stuck.
    fn recover<P: Plant>(&mut self, plant: &mut P) -> Result<Reply, CoreFault>
        requires works { CanWork (P.seen plant.old) self.old }
        ensures { (opens : List OpenSwap) (devices : ℕ) (exp : Option (List ℕ)) → devices ≤ (P.seen plant.old).faults.devices
            → WorksWith (P.seen plant.old) self.old opens
            → Obeyed devices (P.seen plant.old) (P.seen plant.new) (Is (Ok Recover)) self.old self.new opens exp result }
    {
        let busy = self.swaps.names(self.alloc)?;
        let settled = settle(self.alloc, &mut self.lab, &busy, &mut self.journal, plant);
        reply_of_settling(settled)
    }

    /// Does a task. `full journal` is told here alone, where there is no space for the task's first record.
    pub(crate) fn perform<P: Plant>(
        &mut self,
        task: Task,
        plant: &mut P,
    ) -> Result<Reply, CoreFault>
        // the task can be done, and the open swaps allow it
        requires can { CanDo self.old.lab task }
        requires ready { IsReady self.old.swaps (task_of task) }
        requires works { CanWork (P.seen plant.old) self.old }
        // it is done, and its end is told
        ensures obeyed { (opens : List OpenSwap) (devices : ℕ) (exp : Option (List ℕ)) → devices ≤ (P.seen plant.old).faults.devices
            → WorksWith (P.seen plant.old) self.old opens
            → Obeyed devices (P.seen plant.old) (P.seen plant.new) (Is (Ok (task_of task))) self.old self.new opens
            (or_any (swapped_by (task_of task)) exp) result }
        ensures told { IfOk result (TellsTask (task_of task)) }
    {
        match task {
            Task::Tell(reply) => Ok(reply),
            Task::Append { entry, reply } => self.append(&entry, reply, plant),
            Task::Swap(swap) => self.swap(swap, plant),
            Task::BeginOnly(swap) => self.begin_only(swap, plant),
            Task::Turn { exp } => self.turn(exp, plant),
            Task::Finish { exp } => self.finish(exp, plant),
            Task::Recover => self.recover(plant),
        }
    }
}
