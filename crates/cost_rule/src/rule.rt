ghost use Rattle.std.specs.Prelude.{◌≡◌};
ghost use Rattle.virt_topo.specs.Soundness.{IsSound};
ghost use Rattle.lab_model.specs.Shapes.{IsShaped};
ghost use Rattle.cost_rule.specs.Cost.{cost};

use phys_lab::Lab;
use virt_topo::{Mapping, Wiring};

/// The number of a cost rule.
#[derive(Clone, Copy, PartialEq, Eq, Drop)]
pub enum RuleNumber {
    /// The load of the trunks, in kbps.
    Trunk,
    /// 1,000,000 for each node in use.
    Pack,
}

/// A closure that answers the cost of a mapping.
pub type CostFn = Box<dyn Fn(&Lab, &Wiring, &Mapping) -> u64>;

/// A rule: it answers a mapping's cost by its number, which contracts see and no call gives.
///
/// It keeps a boxed closure, and isn't generic over it: no field may cite what a bound on closures has.
#[derive(Drop)]
pub struct Rule {
    pub(crate) number: RuleNumber,
    f: CostFn,
    ghost callable: { (lab : _) (wiring : _) (mapping : _) → IsSound wiring.now → IsShaped lab.now wiring.now mapping.now → CostFn.pre f lab wiring mapping },
    ghost answers: { (lab : _) (wiring : _) (mapping : _) (r : _) → IsSound wiring.now → IsShaped lab.now wiring.now mapping.now
        → CostFn.post f lab wiring mapping r → r ≡ cost number lab.now wiring.now mapping.now },
}

impl Rule {
    /// The rule of a closure that answers costs by that number.
    pub fn new(number: RuleNumber, f: CostFn) -> Rule
        requires callable { (lab : _) (wiring : _) (mapping : _) → IsSound wiring.now → IsShaped lab.now wiring.now mapping.now
            → CostFn.pre f lab wiring mapping }
        requires answers { (lab : _) (wiring : _) (mapping : _) (r : _) → IsSound wiring.now → IsShaped lab.now wiring.now mapping.now
            → CostFn.post f lab wiring mapping r → r ≡ cost number lab.now wiring.now mapping.now }
        ensures { result.number ≡ number }
    {
        Rule { number, f }
    }

    /// The cost of a mapping.
    pub fn ask(&self, lab: &Lab, wiring: &Wiring, mapping: &Mapping) -> u64
        requires sound { IsSound wiring.now }
        requires shaped { IsShaped lab.now wiring.now mapping.now }
        ensures { result ≡ cost self.now.number lab.now wiring.now mapping.now }
    {
        (self.f)(lab, wiring, mapping)
    }
}
