// The annealing walk.
ghost use Rattle.std.specs.Prelude.{◌≡◌, ◌<◌, ◌+◌, ◌*◌, ◌/◌, ◌%◌, nat_lt, if◌then◌else◌, length, IfOk, OnOk};
ghost use Rattle.node_maps.specs.Least.{IsFirstLeast};
ghost use Rattle.virt_topo.specs.Soundness.{IsSound};
ghost use Rattle.lab_model.specs.Shapes.{IsFreeOf};
ghost use Rattle.map_state.specs.Tables.{IsSearch};
ghost use Rattle.map_anneal.specs.Sought.{sought, choices, price, IsNodeMap};
ghost use Rattle.map_anneal.specs.Searches.{sought_of, priced_by, IsPriced};
ghost use Rattle.map_anneal.specs.Walk.{drawn, one_try, round, cooled, walk as walk_of, Walker};

use crate::prepared::Prepared;
use crate::priced::Priced;
use crate::tried::Tried;
use cost_rule::StepRule;
use lab_base::Memory;
use map_state::Search;
use phys_lab::{Free, Lab};
use rand_core::SeedableRng;
use rand_core::utils::NextWord;
use rand_pcg::Pcg32;
use std::alloc::Global;
use virt_topo::{Mapping, Wiring};

/// The words of one try.
#[derive(Clone, Copy)]
struct Words {
    first: u32,
    second: u32,
    third: u32,
}

#[tactic(auto, unfolding(crate::specs::Walk::drawn))]
fn draw(generator: &mut Pcg32) -> Words
    ensures first { result.first ≡ (drawn generator.old).first }
    ensures second { result.second ≡ (drawn generator.old).second }
    ensures third { result.third ≡ (drawn generator.old).third }
    ensures after { generator.new ≡ (drawn generator.old).after }
{
    let first = generator.next_word();
    let second = generator.next_word();
    let third = generator.next_word();
    Words {
        first,
        second,
        third,
    }
}

/// Maps that cost less than this are added after one of cost `last`, by the heat and the third word.
fn bound(last: u64, third: u32, heat: u64) -> u128
    ensures { result ≡ last + (third % 1024) * heat / 1024 + 1 }
{
    u128::from(last) + u128::from(third % 1024) * u128::from(heat) / 1024 + 1
}

/// A heat after a round.
fn cooler(heat: u64) -> u64
    ensures { result ≡ heat * 9 / 10 }
{
    (u128::from(heat) * 9 / 10) as u64
}

/// Takes the next map in the place of the best one where it is cheaper.
fn keep_cheaper(alloc: Global, best: &mut Priced, next: &Tried) -> Result<(), Memory>
    ensures { OnOk result (best.new ≡ (if nat_lt next.now.cost best.old.cost then priced_by next.now else best.old)) }
{
    if next.cost < best.cost {
        next.copy_onto(alloc, best)?;
    }
    Ok(())
}

/// The map that a walk gives. Where it isn't the start, the rule's step from there tells its cost.
fn priced_by_steps(
    search: &Search,
    rule: &StepRule,
    start: &Mapping,
    from: u64,
    best: Priced,
) -> Priced
    requires search { IsSearch search.now }
    requires start { IsNodeMap (sought_of search.now rule.now.number) start.now }
    requires from { from ≡ price (sought_of search.now rule.now.number) start.now }
    requires best { IsPriced (sought_of search.now rule.now.number) best }
    ensures { result ≡ best }
{
    if best.cost >= from {
        return best;
    }
    let mapper = search.mapper;
    let cost = rule.ask_step(mapper.lab, mapper.wiring, start, &best.mapping, from);
    Priced {
        mapping: best.mapping,
        cost,
    }
}

/// A walk: its last map, its cheapest map so far, and the generator of the words to come.
#[derive(Drop)]
struct Walk {
    last: Tried,
    best: Priced,
    generator: Pcg32,
}

impl Walk {
    ghost use Rattle.map_anneal.specs.Walks.{IsWalk, Keeps};

    /// One try.
    fn step(
        &mut self,
        alloc: Global,
        search: &Search,
        rule: &StepRule,
        heat: u64,
    ) -> Result<(), Memory>
        requires search { IsSearch search.now }
        requires walk { IsWalk search.now rule.now.number self.old }
        requires some { 0 < length (choices (sought_of search.now rule.now.number)) }
        ensures walk { OnOk result (IsWalk search.now rule.now.number self.new) }
        ensures step { OnOk result ((x : Walker) → Keeps (sought_of search.now rule.now.number) self.old x
            → Keeps (sought_of search.now rule.now.number) self.new (one_try (sought_of search.now rule.now.number) heat x)) }
    {
        let words = draw(&mut self.generator);
        let below = bound(self.last.cost, words.third, heat);
        let (first, second) = (words.first, words.second);
        if !self
            .last
            .try_random_move(alloc, search, rule, first, second, below)?
        {
            return Ok(());
        }
        keep_cheaper(alloc, &mut self.best, &self.last)?;
        Ok(())
    }

    /// The tries at one heat.
    fn round(
        &mut self,
        alloc: Global,
        search: &Search,
        rule: &StepRule,
        heat: u64,
    ) -> Result<(), Memory>
        requires search { IsSearch search.now }
        requires walk { IsWalk search.now rule.now.number self.old }
        ensures walk { OnOk result (IsWalk search.now rule.now.number self.new) }
        ensures round { OnOk result ((x : Walker) → Keeps (sought_of search.now rule.now.number) self.old x
            → Keeps (sought_of search.now rule.now.number) self.new (round (sought_of search.now rule.now.number) heat x)) }
    {
        let tries = 8 * search.candidates.len();
        for _number in 0..tries {
            self.step(alloc, search, rule, heat)?;
        }
        Ok(())
    }

    /// The rounds, while the heat is above 0.
    fn cool(
        &mut self,
        alloc: Global,
        search: &Search,
        rule: &StepRule,
        from: u64,
    ) -> Result<(), Memory>
        requires search { IsSearch search.now }
        requires walk { IsWalk search.now rule.now.number self.old }
        ensures walk { OnOk result (IsWalk search.now rule.now.number self.new) }
        ensures cooled { OnOk result ((x : Walker) → Keeps (sought_of search.now rule.now.number) self.old x
            → Keeps (sought_of search.now rule.now.number) self.new (cooled (sought_of search.now rule.now.number) from from x)) }
    {
        let mut heat = from;
        while heat > 0 {
            self.round(alloc, search, rule, heat)?;
            heat = cooler(heat);
        }
        Ok(())
    }
}

/// The cheapest map of the walk of a start and a seed, the earliest among equals, by what is prepared.
#[tactic(auto, unfolding(crate::specs::Walk::walk))]
pub fn anneal_by(
    alloc: Global,
    search: &Search,
    start: &Mapping,
    rule: &StepRule,
    seed: u64,
) -> Result<Mapping, Memory>
    requires search { IsSearch search.now }
    requires start { IsNodeMap (sought_of search.now rule.now.number) start.now }
    ensures node_map { IfOk result (λ m. IsNodeMap (sought_of search.now rule.now.number) m) }
    ensures least { IfOk result (λ m. IsFirstLeast (price (sought_of search.now rule.now.number))
        (walk_of (sought_of search.now rule.now.number) start.now seed) m) }
{
    let last = Tried::of(alloc, search, rule, start)?;
    let cost = last.cost;
    let mut walk = Walk {
        best: last.priced(alloc)?,
        last,
        generator: Pcg32::seed_from_u64(seed),
    };
    let cooled = walk.cool(alloc, search, rule, cost);
    let Walk { best, last, .. } = walk;
    drop(last);
    cooled?;
    let lowest = priced_by_steps(search, rule, start, cost, best);
    Ok(lowest.mapping)
}

/// The cheapest map of the walk of a start and a seed, the earliest among equals.
pub fn anneal(
    alloc: Global,
    lab: &Lab,
    free: &Free,
    wiring: &Wiring,
    start: &Mapping,
    rule: &StepRule,
    seed: u64,
) -> Result<Mapping, Memory>
    requires free { IsFreeOf lab.now free.now }
    requires sound { IsSound wiring.now }
    requires start { IsNodeMap (sought lab.now free.now wiring.now rule.now.number) start.now }
    ensures node_map { IfOk result (λ m. IsNodeMap (sought lab.now free.now wiring.now rule.now.number) m) }
    ensures least { IfOk result (λ m. IsFirstLeast (price (sought lab.now free.now wiring.now rule.now.number))
        (walk_of (sought lab.now free.now wiring.now rule.now.number) start.now seed) m) }
{
    let prepared = Prepared::of(alloc, lab, free, wiring)?;
    let search = prepared.search(lab, free, wiring);
    let best = anneal_by(alloc, &search, start, rule, seed)?;
    Ok(best)
}
