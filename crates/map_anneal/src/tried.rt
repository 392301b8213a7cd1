ghost use Rattle.std.specs.Prelude.{◌≡◌, IfOk, OnOk};
ghost use Rattle.map_state.specs.Tables.{IsSearch};
ghost use Rattle.map_anneal.specs.Sought.{IsNodeMap};
ghost use Rattle.map_anneal.specs.Searches.{sought_of, priced_by, IsPriced, IsTried};

use crate::priced::{Priced, copy_onto};
use crate::resting::rest;
use cost_rule::StepRule;
use lab_base::Memory;
use map_state::{MapState, Search};
use std::alloc::Global;
use virt_topo::Mapping;

/// The node map at hand, with what is kept of it, and its cost.
#[derive(Drop)]
pub struct Tried {
    pub state: MapState,
    pub cost: u64,
    /// Whether the last refused move makes no cheaper map, whatever is left of the trunks. A descent passes over such moves.
    pub(crate) ruled_out: bool,
    /// Whether the cost rule is known to ignore the uses of trunks.
    pub(crate) ignores_uses: bool,
}

impl Tried {
    /// A feasible node map to begin with, with its cost. Its sums rest where no search needs them.
    pub fn of(
        alloc: Global,
        search: &Search,
        rule: &StepRule,
        start: &Mapping,
    ) -> Result<Tried, Memory>
        requires search { IsSearch search.now }
        requires start { IsNodeMap (sought_of search.now rule.now.number) start.now }
        ensures tried { IfOk result (λ x. IsTried search.now rule.now.number x) }
        ensures start { IfOk result (λ x. x.state.mapping ≡ start.now) }
    {
        let mapper = search.mapper;
        let mut state = MapState::of(alloc, search, start)?;
        let cost = rule.ask(mapper.lab, mapper.wiring, start);
        let ignores_uses = rest(search, rule, &mut state);
        Ok(Tried {
            state,
            cost,
            ruled_out: false,
            ignores_uses,
        })
    }

    /// The mapping with its cost.
    pub fn priced(&self, alloc: Global) -> Result<Priced, Memory>
        ensures { IfOk result (λ priced. priced ≡ priced_by self.now) }
    {
        Ok(Priced {
            mapping: self.state.mapping.copy(alloc)?,
            cost: self.cost,
        })
    }

    /// Copies the mapping with its cost into the memory of another one, in its place.
    pub fn copy_onto(&self, alloc: Global, onto: &mut Priced) -> Result<(), Memory>
        ensures { OnOk result (onto.new ≡ priced_by self.now) }
    {
        let mapping = &self.state.mapping;
        copy_onto(alloc, mapping.places.as_slice(), &mut onto.mapping.places)?;
        copy_onto(alloc, mapping.plugs.as_slice(), &mut onto.mapping.plugs)?;
        onto.cost = self.cost;
        Ok(())
    }

    /// The mapping, taken after another one: the rule's step from that one answers its cost.
    pub fn taken(
        &self,
        alloc: Global,
        search: &Search,
        rule: &StepRule,
        last: &Priced,
    ) -> Result<Priced, Memory>
        requires search { IsSearch search.now }
        requires tried { IsTried search.now rule.now.number self.now }
        requires last { IsPriced (sought_of search.now rule.now.number) last.now }
        ensures { IfOk result (λ priced. priced ≡ priced_by self.now) }
    {
        let mapper = search.mapper;
        let mapping = self.state.mapping.copy(alloc)?;
        let cost = rule.ask_step(
            mapper.lab,
            mapper.wiring,
            &last.mapping,
            &mapping,
            last.cost,
        );
        Ok(Priced { mapping, cost })
    }
}
