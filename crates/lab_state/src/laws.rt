// Laws of the definitions.
ghost use Rattle.std.specs.Prelude.{◌≡◌, ℕ, Bool, true, List, Some};
ghost use Rattle.phys_lab.specs.Labs.{Lab};
ghost use Rattle.virt_topo.specs.declared.experiment.Experiment.{Experiment};
ghost use Rattle.records_model.specs.Labs.{LabState, AreCanonical, Follows, find, replace, moved};
ghost use Rattle.lab_state.specs.Changes.{CanEnd, ending, ending_record, with_experiments};
ghost use Rattle.lab_state.specs.Ends.{ended, may_end};
ghost use Rattle.lab_state.specs.Texts.{the_texts};

/// Each canonical text is of one lab, of one wiring, or of one mapping for a lab and a wiring.
pub fn texts_are_canonical()
    ensures { AreCanonical the_texts }
{}

/// A move that may end does, and the records of ends say it.
pub fn endings()
    ensures can { (s : LabState) (lab : Lab) (e : Experiment) (exp : List ℕ) (commit : Bool) → s.lab ≡ Some lab → find exp s.experiments ≡ Some e
        → may_end commit e.phase ≡ true → CanEnd s exp commit }
    ensures gives { (s : LabState) (lab : Lab) (e : Experiment) (exp : List ℕ) (commit : Bool) → s.lab ≡ Some lab → find exp s.experiments ≡ Some e
        → may_end commit e.phase ≡ true → moved s (ending exp commit) ≡ Some (with_experiments s (replace exp (ended commit e) s.experiments)) }
    ensures follows { (s u : LabState) (exp : List ℕ) (commit : Bool) → moved s (ending exp commit) ≡ Some u
        → Follows the_texts s (ending_record exp commit) u }
    ensures says { (s u : LabState) (exp : List ℕ) (commit : Bool) → Follows the_texts s (ending_record exp commit) u → moved s (ending exp commit) ≡ Some u }
{}
