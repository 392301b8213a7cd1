use crate::at::At;
use crate::last::{begin_and_commit, way_back};
use crate::sending::Sending;
use crate::work::Work;
use crate::write::write;
use crate::{Live, Turned};
use journal_disk::{AppendFault, Journal};
use journal_rec::{Encoded, Way};
use lab_base::{Memory, Name, What};
use plant::Plant;
use std::alloc::Global;
use std::marker::Model;
use swap_plan::Ops;

/// A swap before its Begin.
#[derive(Drop)]
pub struct Planned {
    /// The record Begin.
    begin: Encoded,
    work: Work,
}

impl Model for Planned {
    ghost use Rattle.std.specs.Prelude.{◌≡◌, true};
    ghost use Rattle.journal_rec.specs.Payloads.{IsBody};
    ghost use Rattle.journal_rec.specs.declared.record.Record.{Record};
    ghost use Rattle.lab_model.specs.Courses.{whole};
    ghost use Rattle.swap_txn.specs.States.{Plans};

    ghost Value = { Plans };

    ghost view = { λ s. record { begin = s.begin; forth = s.work } };

    ghost invariant = { λ s. (s.work.left ≡ whole s.work.plan) × (s.work.commit ≡ true) × ((r : Record) × IsBody s.begin r) };
}

impl Planned {
    ghost use Rattle.std.specs.Prelude.{◌≡◌, ◌↔◌, ◌≤◌, ◌+◌, length, IfOk, IsTrue};
    ghost use Rattle.journal_rec.specs.Payloads.{IsShort, IsBody};
    ghost use Rattle.journal_rec.specs.declared.record.Record.{Record as Entry};
    ghost use Rattle.journal_rec.specs.declared.record.Record.TheVariants as records;
    ghost use Rattle.journal_disk.specs.Standing.{length_of, limit_of};
    ghost use Rattle.swap_txn.specs.Facts.{StartsBy};
    ghost use Rattle.swap_txn.specs.States.{unsent};
    ghost use Rattle.swap_txn.specs.Steps.{Stands};
    ghost use Rattle.swap_txn.specs.Turns.{Begins, IsStopped, IfStanding};

    /// Plans a swap, and encodes its records.
    pub fn new(alloc: Global, exp: Name, ops: Ops, way: Way) -> Result<Planned, Memory>
        requires { IsShort (records.Begin exp way) }
        ensures begin { IfOk result (λ p. IsBody p.begin (records.Begin exp way)) }
        ensures forth { IfOk result (λ p. p.forth ≡ unsent exp way ops.commands ops.undo) }
    {
        let Ops { commands, undo, .. } = ops;
        let back = match way_back(alloc, exp, &way, undo) {
            Ok(back) => back,
            Err(memory) => {
                drop(way);
                drop(commands);
                return Err(memory);
            }
        };
        let (begin, last) = match begin_and_commit(alloc, exp, way) {
            Ok(records) => records,
            Err(memory) => {
                drop(back);
                drop(commands);
                return Err(memory);
            }
        };
        Ok(Planned {
            begin,
            work: Work {
                exp,
                sending: Sending::new(commands),
                last,
                commit: true,
                inside: back.is_some(),
                why: None,
                back,
            },
        })
    }

    /// The experiment.
    pub fn exp(&self) -> Name
        ensures exp { result ≡ (self.now.forth).exp }
        ensures begin { (r : Entry) × IsBody self.now.begin r }
    {
        self.work.exp
    }

    /// The size of the record Begin.
    pub fn size(&self) -> u64
        ensures { result ≡ length self.now.begin }
    {
        self.begin.size()
    }

    /// Appends Begin.
    pub fn turn<P: Plant>(self, journal: &mut Journal, plant: &mut P) -> Turned<Self>
        requires stands { Stands (P.seen plant.old).told journal.old }
        requires fits { length_of journal.old + length self.begin ≤ limit_of journal.old }
        ensures begins { (r : Entry) → IsBody self.begin r → Begins self (P.seen plant.old) (P.seen plant.new) journal.old journal.new result r }
        ensures stopped { IsStopped result ↔ IsTrue (P.seen plant.new).stopped }
        ensures stands { IfStanding result (Stands (P.seen plant.new).told journal.new) }
        ensures facts { StartsBy (P.seen plant.new).told result }
        ensures limit { limit_of journal.new ≡ limit_of journal.old }
    {
        match write(&self.begin, journal, plant) {
            Ok(()) => {
                let Planned { begin: _, work } = self;
                Turned::Next(Live::Begun(At::of(work)))
            }
            Err(AppendFault::Plant) => Turned::Stuck(self, What::Journal),
            Err(AppendFault::Stopped) => Turned::Stopped,
            Err(AppendFault::Full { .. }) => unreachable!(),
        }
    }
}
