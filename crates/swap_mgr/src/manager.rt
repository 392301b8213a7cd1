// The open swaps.
ghost use Rattle.std.specs.Prelude.{◌≡◌, ◌≢◌, ◌<◌, ◌≤◌, ◌+◌, ◌↔◌, ℕ, List, [], length};
ghost use Rattle.std.specs.Prelude.{true, None, Some, Err, IfOk, IfSome, IfNone, OnOk, OnErr, OnSome, IsTrue};
ghost use Rattle.lab_base.specs.Counts.{Rose};
ghost use Rattle.lab_base.specs.Lists.{Has};
ghost use Rattle.lab_base.specs.declared.what.What.{What as AnyWhat};
ghost use Rattle.lab_base.specs.declared.what.What.TheVariants as whats;
ghost use Rattle.journal_rec.specs.Payloads.{IsBody};
ghost use Rattle.journal_rec.specs.declared.record.Record.{Record};
ghost use Rattle.journal_disk.specs.Standing.{length_of, limit_of};
ghost use Rattle.records_model.specs.Labs.{LabState, Texts, Move, lab_in};
ghost use Rattle.slab.specs.Slab.{get};
ghost use Rattle.swap_txn.specs.declared.live.Live.{Live as State};
ghost use Rattle.swap_txn.specs.declared.live.Live.TheVariants as stages;
ghost use Rattle.swap_txn.specs.declared.turned.Turned.{Turned as TurnedAs};
ghost use Rattle.swap_txn.specs.Facts.{exp_of};
ghost use Rattle.swap_txn.specs.States.{Plans};
ghost use Rattle.swap_txn.specs.Steps.{Stands};
ghost use Rattle.swap_txn.specs.Turns.{Begins};
ghost use Rattle.swap_turns.specs.Swaps.{Swap, Moves};
ghost use Rattle.swap_turns.specs.Beginning.{BeginsOf, MayBegin, IsPlanOf};
ghost use Rattle.swap_turns.specs.OneTurn.{open_in};
ghost use Rattle.swap_turns.specs.Running.{OpenSwap, Working};
ghost use Rattle.swap_turns.specs.Telling.{IsStop};
ghost use Rattle.swap_mgr.specs.Managing.{Holds, IsManaging, GoesOnBy, HasTurned, HasTurnedToEnd};
ghost use Rattle.swap_mgr.specs.Managing.{IsAnsweredBy, IfNothingSent, IfSent, IsStopOpening, IsAfterOpening, IsToldBy};
ghost use Rattle.swap_mgr.specs.Open.{AreNames, AreWithin, HasOpen, IsWith, IsWithout, PutBy, states};

use crate::{NotOpen, NotOpened};
use journal_disk::Journal;
use lab_base::{Memory, Name};
use plant::Plant;
use slab::Slab;
use std::alloc::Global;
use std::marker::Model;
use swap_turns::{Progress, TurnedSwap, finish, one_turn};
use swap_txn::{Live, Planned, Turned};

/// The most open swaps.
pub const MAX_OPEN: u16 = 16;

/// Up to 16 open swaps.
#[derive(Drop)]
pub struct Manager {
    swaps: Slab<Live>,
}

impl Model for Manager {
    ghost use Rattle.std.specs.Prelude.{List};
    ghost use Rattle.swap_txn.specs.declared.live.Live.{Live as State};
    ghost use Rattle.swap_mgr.specs.Open.{IsSound, states};

    ghost Value = { List State };

    ghost view = { λ a. states a.swaps.slots };

    ghost invariant = { λ a. IsSound a.swaps };
}

fn key_of(swaps: &Slab<Live>, exp: Name) -> Option<usize>
    requires { AreWithin swaps.now }
    ensures found { IfSome result (λ key. (x : State) × (get swaps.now key ≡ Some x) × (exp_of x ≡ exp)) }
    ensures none { IfNone result ((key : ℕ) (x : State) → get swaps.now key ≡ Some x → exp_of x ≢ exp) }
{
    for key in 0..swaps.capacity() {
        if let Some(live) = swaps.get(key) {
            if live.exp() == exp {
                return Some(key);
            }
        }
    }
    None
}

/// The names of the swaps in a slab.
fn names_in(alloc: Global, swaps: &Slab<Live>) -> Result<Vec<Name>, Memory>
    requires { AreWithin swaps.now }
    ensures { IfOk result (λ names. AreNames (states swaps.now.slots) names.items) }
{
    let mut names = Vec::with_capacity(alloc, swaps.len())?;
    for key in 0..swaps.capacity() {
        if let Some(live) = swaps.get(key) {
            names.push(live.exp())?;
        }
    }
    Ok(names)
}

impl Manager {
    /// No open swap, and room for 16.
    pub fn new(alloc: Global) -> Result<Manager, Memory>
        ensures { IfOk result (λ m. m ≡ []) }
    {
        Ok(Manager {
            swaps: Slab::with_capacity(alloc, usize::from(MAX_OPEN))?,
        })
    }

    /// Whether the experiment has an open swap.
    pub fn is_open(&self, exp: Name) -> bool
        ensures { (result ≡ true) ↔ HasOpen self.now exp }
    {
        key_of(&self.swaps, exp).is_some()
    }

    /// The number of open swaps.
    pub fn count(&self) -> u16
        ensures count { result ≡ length self.now }
        ensures few { result ≤ MAX_OPEN }
    {
        self.swaps.len() as u16
    }

    /// The names of the experiments with an open swap, in no order.
    pub fn names(&self, alloc: Global) -> Result<Vec<Name>, Memory>
        ensures { IfOk result (λ names. AreNames self.now names.items) }
    {
        names_in(alloc, &self.swaps)
    }

    /// Takes a swap out.
    fn take(&mut self, exp: Name) -> Option<Live>
        ensures taken { IfSome result (λ x. IsWithout self.old x self.new) }
        ensures named { IfSome result (λ x. exp_of x ≡ exp) }
        ensures room { OnSome result (length self.new < MAX_OPEN) }
        ensures none { IfNone result (HasOpen self.old exp → ⊥) }
        ensures same { IfNone result (self.new ≡ self.old) }
    {
        let key = key_of(&self.swaps, exp)?;
        Some(self.swaps.remove(key))
    }

    /// Puts a swap of another name in.
    fn put(&mut self, live: Live)
        requires room { length self.old < MAX_OPEN }
        requires apart { (y : State) → Has self.old y → exp_of y ≢ exp_of live }
        ensures { IsWith self.old live self.new }
    {
        self.swaps.insert_reserved(live);
    }

    /// Puts a swap back that is open still.
    fn put_back(&mut self, left: TurnedSwap)
        requires room { length self.old < MAX_OPEN }
        requires apart { IfSome (open_in left) (λ x. (y : State) → Has self.old y → exp_of y ≢ exp_of x) }
        ensures { PutBy self.old (open_in left) self.new }
    {
        match left {
            TurnedSwap::Open(live, _trouble) => self.put(live),
            TurnedSwap::Over(_) | TurnedSwap::Stuck(_) | TurnedSwap::Stopped => {}
        }
    }

    /// Appends the plan's Begin, and holds the swap after it. It takes no memory: the room for 16 swaps is the manager's own.
    pub fn open<P: Plant>(
        &mut self,
        planned: Planned,
        journal: &mut Journal,
        plant: &mut P,
    ) -> Result<(), NotOpened>
        requires stands { Stands (P.seen plant.old).told journal.old }
        requires fits { length_of journal.old + length planned.begin ≤ limit_of journal.old }
        ensures answered { IsAnsweredBy self.old planned.forth.exp result }
        ensures begun { (t : Texts) (s u : LabState) (opens : List (OpenSwap × State)) (p : Swap) (begin : Record) (move : Move)
            → Working t (P.seen plant.old).told journal.old s opens → Holds self.old opens
            → IsBody planned.begin begin → MayBegin t s u begin move journal.old → BeginsOf p.name move → Moves p u
            → IsPlanOf p (lab_in u.lab) planned.forth → IsAfterOpening t opens p s u begin move
            (P.seen plant.old) (P.seen plant.new) journal.old journal.new self.new result }
        ensures refused { OnErr result (self.new ≡ self.old) }
        ensures nothing { IfNothingSent result ((plant.new ≡ plant.old) × (journal.new ≡ journal.old)) }
        ensures stopped { IfSent result (IsStopOpening result ↔ IsTrue (P.seen plant.new).stopped) }
        ensures stuck { (what : AnyWhat) → result ≡ Err (NotOpened.Stuck what)
            → (what ≡ whats.Journal) × Rose (P.seen plant.old).faults.disk (P.seen plant.new).faults.disk }
        ensures begins { IfSent result ((r : Record) → IsBody planned.begin r → (turned : TurnedAs Plans)
            × Begins planned (P.seen plant.old) (P.seen plant.new) journal.old journal.new turned r × IsToldBy turned result) }
        ensures held { OnOk result (IsWith self.old (stages.Begun planned.forth) self.new) }
        ensures limit { limit_of journal.new ≡ limit_of journal.old }
    {
        let exp = planned.exp();
        if self.is_open(exp) {
            return Err(NotOpened::Busy(exp));
        }
        if self.count() >= MAX_OPEN {
            return Err(NotOpened::TooManyOpen(MAX_OPEN));
        }
        match planned.turn(journal, plant) {
            Turned::Next(live) => {
                self.put(live);
                Ok(())
            }
            Turned::Stuck(_planned, what) => Err(NotOpened::Stuck(what)),
            Turned::Stopped => Err(NotOpened::Stopped),
            Turned::Same(_) | Turned::Trouble(_, _) => unreachable!(),
        }
    }

    /// Makes one turn of a swap. The controller is at work in some lab in which exactly the manager's swaps are open: what is answered is said of that lab.
    pub fn turn<P: Plant>(
        &mut self,
        exp: Name,
        journal: &mut Journal,
        plant: &mut P,
    ) -> Result<Progress, NotOpen>
        requires managed { IsManaging (P.seen plant.old).told journal.old self.old }
        ensures open { OnOk result (HasOpen self.old exp) }
        ensures not_open { OnErr result (HasOpen self.old exp → ⊥) }
        ensures same { OnErr result (self.new ≡ self.old) }
        ensures nothing { OnErr result ((plant.new ≡ plant.old) × (journal.new ≡ journal.old)) }
        ensures turned { IfOk result (λ progress. (t : Texts) (s : LabState) (opens : List (OpenSwap × State))
            → Working t (P.seen plant.old).told journal.old s opens → Holds self.old opens
            → HasTurned t s opens exp (P.seen plant.old) (P.seen plant.new) journal.old journal.new progress self.new) }
        ensures goes_on { IfOk result (λ progress. GoesOnBy progress (IsManaging (P.seen plant.new).told journal.new self.new)) }
        ensures stopped { IfOk result (λ progress. IsStop progress ↔ IsTrue (P.seen plant.new).stopped) }
        ensures limit { limit_of journal.new ≡ limit_of journal.old }
    {
        let Some(live) = self.take(exp) else {
            return Err(NotOpen);
        };
        let left = one_turn(live, journal, plant);
        let progress = left.progress();
        self.put_back(left);
        Ok(progress)
    }

    /// Turns a swap to its end, of a controller as for a turn.
    pub fn finish<P: Plant>(
        &mut self,
        exp: Name,
        journal: &mut Journal,
        plant: &mut P,
    ) -> Result<Progress, NotOpen>
        requires managed { IsManaging (P.seen plant.old).told journal.old self.old }
        ensures open { OnOk result (HasOpen self.old exp) }
        ensures not_open { OnErr result (HasOpen self.old exp → ⊥) }
        ensures same { OnErr result (self.new ≡ self.old) }
        ensures nothing { OnErr result ((plant.new ≡ plant.old) × (journal.new ≡ journal.old)) }
        ensures finished { IfOk result (λ progress. (t : Texts) (s : LabState) (opens : List (OpenSwap × State))
            → Working t (P.seen plant.old).told journal.old s opens → Holds self.old opens
            → HasTurnedToEnd t s opens exp (P.seen plant.old) (P.seen plant.new) journal.old journal.new progress self.new) }
        ensures goes_on { IfOk result (λ progress. GoesOnBy progress (IsManaging (P.seen plant.new).told journal.new self.new)) }
        ensures stopped { IfOk result (λ progress. IsStop progress ↔ IsTrue (P.seen plant.new).stopped) }
        ensures limit { limit_of journal.new ≡ limit_of journal.old }
    {
        let Some(live) = self.take(exp) else {
            return Err(NotOpen);
        };
        Ok(finish(live, journal, plant))
    }
}
