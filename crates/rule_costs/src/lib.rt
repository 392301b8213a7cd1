//! The costs of mappings by the number of a rule.
//!
//! It stands apart, since a searcher learns costs from the rule alone: no crate of a searcher lists it.
#![tactic(auto)]

ghost use Rattle.std.specs.Prelude.{◌≡◌};
ghost use Rattle.virt_topo.specs.Soundness.{IsSound};
ghost use Rattle.lab_model.specs.Shapes.{IsShaped};
ghost use Rattle.cost_rule.specs.Cost.{cost};
ghost use Rattle.cost_rule.specs.Parts.{cost_of_parts, AreParts};

mod moved;
mod nodes;
mod soft;
mod step;
mod uses;

use cost_rule::{Parts, RuleNumber, parts_of};
use phys_lab::Lab;
pub use step::step_cost;
use virt_topo::{Mapping, Wiring};

/// The cost of a mapping with these parts, by the number of a rule.
#[tactic(auto, unfolding(cost_rule::specs::Parts::cost_of_parts))]
pub fn parts_cost(number: RuleNumber, parts: Parts) -> u64
    requires { AreParts parts }
    ensures { result ≡ cost_of_parts number parts }
{
    match number {
        RuleNumber::Trunk => parts.uses + parts.soft,
        RuleNumber::Pack => 1_000_000 * parts.nodes + parts.soft,
    }
}

/// The cost of a mapping by the number of a rule.
pub fn cost_of(number: RuleNumber, lab: &Lab, wiring: &Wiring, mapping: &Mapping) -> u64
    requires sound { IsSound wiring.now }
    requires shaped { IsShaped lab.now wiring.now mapping.now }
    ensures { result ≡ cost number lab.now wiring.now mapping.now }
{
    // for the prover: it tells what every lab keeps
    let _kept = lab.range();
    parts_cost(number, parts_of(lab, wiring, mapping))
}
