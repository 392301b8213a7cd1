// The cost of a second mapping, from the parts that moved.
ghost use Rattle.std.specs.Prelude.{◌≡◌, ◌≤◌, ◌*◌};
ghost use Rattle.virt_topo.specs.Soundness.{IsSound};
ghost use Rattle.lab_model.specs.Shapes.{IsShaped};
ghost use Rattle.cost_rule.specs.Cost.{cost as cost_in};
ghost use Rattle.rule_costs.specs.Moved.{IsDifference};

use crate::moved::Moved;
use crate::nodes::moved_nodes;
use crate::soft::moved_soft;
use crate::uses::moved_uses;
use cost_rule::RuleNumber;
use phys_lab::Lab;
use virt_topo::{Mapping, Wiring};

/// A bound on the cost of a mapping.
const MAX_COST: u64 = 1_000_000_000_000_000;

/// The cost of the parts that moved, by the number of a rule.
fn moved_cost(number: RuleNumber, lab: &Lab, wiring: &Wiring, from: &Mapping, to: &Mapping) -> Moved
    requires sound { IsSound wiring.now }
    requires from { IsShaped lab.now wiring.now from.now }
    requires to { IsShaped lab.now wiring.now to.now }
    ensures difference { IsDifference (cost_in number lab.now wiring.now from.now) (cost_in number lab.now wiring.now to.now) result }
    ensures before { result.before ≤ MAX_COST }
    ensures after { result.after ≤ MAX_COST }
{
    // for the prover: it tells what every lab keeps
    let _kept = lab.range();
    let soft = moved_soft(lab, wiring, from, to);
    match number {
        RuleNumber::Trunk => {
            let uses = moved_uses(lab, wiring, from, to);
            Moved {
                before: uses.before + soft.before,
                after: uses.after + soft.after,
            }
        }
        RuleNumber::Pack => {
            let nodes = moved_nodes(from, to);
            Moved {
                before: 1_000_000 * nodes.before + soft.before,
                after: 1_000_000 * nodes.after + soft.after,
            }
        }
    }
}

/// The cost of a mapping by the number of a rule, given that of another one.
/// It counts the segments with another plug, and the virtual nodes at another place with their nodes and classes, and nothing else.
pub fn step_cost(
    number: RuleNumber,
    lab: &Lab,
    wiring: &Wiring,
    from: &Mapping,
    to: &Mapping,
    cost: u64,
) -> u64
    requires sound { IsSound wiring.now }
    requires from { IsShaped lab.now wiring.now from.now }
    requires to { IsShaped lab.now wiring.now to.now }
    requires cost { cost ≡ cost_in number lab.now wiring.now from.now }
    ensures { result ≡ cost_in number lab.now wiring.now to.now }
{
    // for the prover: it tells what every lab keeps
    let _kept = lab.range();
    let moved = moved_cost(number, lab, wiring, from, to);
    cost + moved.after - moved.before
}
