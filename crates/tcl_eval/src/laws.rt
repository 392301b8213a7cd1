// Laws of the definitions.
ghost use Rattle.std.specs.Prelude.{ℕ, List, Result};
ghost use Rattle.lab_base.specs.declared.fault.Kind.{Kind};
ghost use Rattle.tcl_eval.specs.declared.hosts.Called.{Called};
ghost use Rattle.tcl_eval.specs.Once.{EvalsOnce, RunsOnce};

/// However a host answers, a text has one meaning: on a line each job has one end alone, and so has each whole text.
pub fn meaning_is_one<O>()
    ensures evals { (calls : ℕ → O → List (List ℕ) → Result Called Kind × O) (hears : O → List ℕ → List ℕ → Result (Unit {0}) Kind × O) (line : ℕ)
        → EvalsOnce (calls line) hears }
    ensures runs { (calls : ℕ → O → List (List ℕ) → Result Called Kind × O) (hears : O → List ℕ → List ℕ → Result (Unit {0}) Kind × O) → RunsOnce calls hears }
{}
