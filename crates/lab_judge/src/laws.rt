// Laws of the judgements that search.
ghost use Rattle.std.specs.Prelude.{◌≡◌, ◌⊎◌, ℕ, List};
ghost use Rattle.phys_lab.specs.Labs.{Lab};
ghost use Rattle.virt_topo.specs.declared.experiment.Experiment.{Experiment};
ghost use Rattle.virt_topo.specs.declared.wiring.Wiring.{Wiring};
ghost use Rattle.cost_rule.specs.declared.rule.RuleNumber.{RuleNumber};
ghost use Rattle.assign_core.specs.declared.whole.Solved.{Solved};
ghost use Rattle.lab_judge.specs.Searches.{AreLocal, IsFound};

/// A search has one answer, unless there are more than 65,536 choices and FirstFit is feasible. Then each answer is locally best, and costs at
/// most every map of the walk of the seed.
pub fn searches()
    ensures { (rule : RuleNumber) (lab : Lab) (es : List Experiment) (e : Experiment) (w : Wiring) (seed : ℕ) (a b : Solved)
        → IsFound rule lab es e w seed a → IsFound rule lab es e w seed b
        → (a ≡ b) ⊎ AreLocal a b }
{}
