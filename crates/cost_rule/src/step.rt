ghost use Rattle.std.specs.Prelude.{◌≡◌};
ghost use Rattle.virt_topo.specs.Soundness.{IsSound};
ghost use Rattle.lab_model.specs.Shapes.{IsShaped};
ghost use Rattle.cost_rule.specs.Cost.{cost as cost_in};
ghost use Rattle.cost_rule.specs.Parts.{cost_of_parts, AreParts};

use crate::parts::Parts;
use crate::rule::{Rule, RuleNumber};
use phys_lab::Lab;
use virt_topo::{Mapping, Wiring};

/// A closure that answers the cost of a second mapping, given that of a first one.
pub type StepFn = Box<dyn Fn(&Lab, &Wiring, &Mapping, &Mapping, u64) -> u64>;

/// A closure that answers a cost from its parts.
pub type PartsFn = Box<dyn Fn(Parts) -> u64>;

/// A rule with three ways to a cost: from a mapping alone, from another mapping and its cost, and from the parts. Contracts see its number, which no
/// call gives.
#[derive(Drop)]
pub struct StepRule {
    number: RuleNumber,
    rule: Rule,
    step: StepFn,
    by_parts: PartsFn,
    ghost same: { rule.number ≡ number },
    ghost step_callable: { (lab : _) (wiring : _) (from : _) (to : _) (cost : _) → IsSound wiring.now → IsShaped lab.now wiring.now from.now
        → IsShaped lab.now wiring.now to.now → cost ≡ cost_in number lab.now wiring.now from.now → StepFn.pre step lab wiring from to cost },
    ghost step_answers: { (lab : _) (wiring : _) (from : _) (to : _) (cost : _) (r : _) → IsSound wiring.now → IsShaped lab.now wiring.now from.now
        → IsShaped lab.now wiring.now to.now → cost ≡ cost_in number lab.now wiring.now from.now → StepFn.post step lab wiring from to cost r
        → r ≡ cost_in number lab.now wiring.now to.now },
    ghost parts_callable: { (parts : _) → AreParts parts → PartsFn.pre by_parts parts },
    ghost parts_answer: { (parts : _) (r : _) → AreParts parts → PartsFn.post by_parts parts r → r ≡ cost_of_parts number parts },
}

impl StepRule {
    /// The rule of that number, with a closure for the cost of a second mapping, and one for a cost from its parts.
    pub fn new(rule: Rule, step: StepFn, by_parts: PartsFn) -> StepRule
        requires step_callable { (lab : _) (wiring : _) (from : _) (to : _) (cost : _) → IsSound wiring.now → IsShaped lab.now wiring.now from.now
            → IsShaped lab.now wiring.now to.now → cost ≡ cost_in rule.number lab.now wiring.now from.now → StepFn.pre step lab wiring from to cost }
        requires step_answers { (lab : _) (wiring : _) (from : _) (to : _) (cost : _) (r : _) → IsSound wiring.now → IsShaped lab.now wiring.now from.now
            → IsShaped lab.now wiring.now to.now → cost ≡ cost_in rule.number lab.now wiring.now from.now → StepFn.post step lab wiring from to cost r
            → r ≡ cost_in rule.number lab.now wiring.now to.now }
        requires parts_callable { (parts : _) → AreParts parts → PartsFn.pre by_parts parts }
        requires parts_answer { (parts : _) (r : _) → AreParts parts → PartsFn.post by_parts parts r → r ≡ cost_of_parts rule.number parts }
        ensures { result.number ≡ rule.number }
    {
        StepRule {
            number: rule.number,
            rule,
            step,
            by_parts,
        }
    }

    /// The cost of a mapping.
    pub fn ask(&self, lab: &Lab, wiring: &Wiring, mapping: &Mapping) -> u64
        requires sound { IsSound wiring.now }
        requires shaped { IsShaped lab.now wiring.now mapping.now }
        ensures { result ≡ cost_in self.now.number lab.now wiring.now mapping.now }
    {
        self.rule.ask(lab, wiring, mapping)
    }

    /// The cost of a mapping, given another mapping and its cost.
    pub fn ask_step(
        &self,
        lab: &Lab,
        wiring: &Wiring,
        from: &Mapping,
        to: &Mapping,
        cost: u64,
    ) -> u64
        requires sound { IsSound wiring.now }
        requires from { IsShaped lab.now wiring.now from.now }
        requires to { IsShaped lab.now wiring.now to.now }
        requires cost { cost ≡ cost_in self.now.number lab.now wiring.now from.now }
        ensures { result ≡ cost_in self.now.number lab.now wiring.now to.now }
    {
        (self.step)(lab, wiring, from, to, cost)
    }

    /// The cost of a mapping with these parts.
    pub fn ask_parts(&self, parts: Parts) -> u64
        requires { AreParts parts }
        ensures { result ≡ cost_of_parts self.now.number parts }
    {
        (self.by_parts)(parts)
    }
}
