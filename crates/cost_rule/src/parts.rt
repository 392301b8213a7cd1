// The parts of a mapping's cost.
ghost use Rattle.std.specs.Prelude.{◌≡◌, ◌<◌, ◌≤◌};
ghost use Rattle.phys_lab.specs.Labs.{Lab as LabSeen};
ghost use Rattle.virt_topo.specs.declared.wiring.Wiring.{Wiring as WiringSeen};
ghost use Rattle.virt_topo.specs.declared.mapping.Mapping.{Mapping as MappingSeen};
ghost use Rattle.virt_topo.specs.Soundness.{IsSound};
ghost use Rattle.lab_model.specs.Shapes.{IsShaped};
ghost use Rattle.cost_rule.specs.declared.rule.RuleNumber.{RuleNumber as NumberSeen};
ghost use Rattle.cost_rule.specs.Cost.{cost};
ghost use Rattle.cost_rule.specs.declared.parts.Parts.{Parts as PartsSeen};
ghost use Rattle.cost_rule.specs.Parts.{parts_of, cost_of_parts, without_uses, AreParts, HangsOnNoUses};

use crate::costs::{nodes_in_use, trunk_uses};
use crate::soft::soft;
use phys_lab::Lab;
use virt_topo::{Mapping, Wiring};

/// The parts of a mapping's cost.
#[derive(Clone, Copy)]
pub struct Parts {
    /// The uses of all trunks, in kbps.
    pub uses: u64,
    /// The number of nodes in use.
    pub nodes: u64,
    /// The weights of desires, features and classes that the mapping leaves unmet.
    pub soft: u64,
}

/// The parts of a mapping's cost, counted anew.
pub fn parts_of(lab: &Lab, wiring: &Wiring, mapping: &Mapping) -> Parts
    requires sound { IsSound wiring.now }
    requires shaped { IsShaped lab.now wiring.now mapping.now }
    ensures { result ≡ parts_of lab.now wiring.now mapping.now }
{
    Parts {
        uses: trunk_uses(lab, wiring, mapping),
        nodes: nodes_in_use(mapping) as u64,
        soft: soft(lab, wiring, mapping),
    }
}

/// The cost of a mapping is that of its parts.
pub fn law_of_parts()
    ensures { (number : NumberSeen) (lab : LabSeen) (w : WiringSeen) (m : MappingSeen) → cost number lab w m ≡ cost_of_parts number (parts_of lab w m) }
{}

/// Without the uses of trunks the parts of a mapping are those of a mapping too, and cost at most as much.
pub fn law_of_no_uses()
    ensures parts { (p : PartsSeen) → AreParts p → AreParts (without_uses p) }
    ensures below { (number : NumberSeen) (p : PartsSeen) → cost_of_parts number (without_uses p) ≤ cost_of_parts number p }
{}

/// A rule that answers for some parts with uses what it answers for them without hangs on no uses.
pub fn law_of_resting()
    ensures { (number : NumberSeen) (p : PartsSeen) → 0 < p.uses → cost_of_parts number p ≡ cost_of_parts number (without_uses p) → HangsOnNoUses number }
{}
