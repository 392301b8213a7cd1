// Records of the experiments of one lab, after another lab's text.
ghost use Rattle.std.specs.Prelude.{List};
ghost use Rattle.phys_lab.specs.Labs.{Lab};
ghost use Rattle.phys_lab.specs.Kept.{IsLab};
ghost use Rattle.plant.specs.Worlds.{World};
ghost use Rattle.virt_topo.specs.declared.experiment.Experiment.{Experiment};
ghost use Rattle.lab_model.specs.Cabled.{Cabled};
ghost use Rattle.lab_model.specs.Holding.{Holding};
ghost use Rattle.lab_model.specs.Parts.{Parts};
ghost use Rattle.records_model.specs.Labs.{LabState, LabOf};
ghost use Rattle.lab_state.specs.Texts.{the_texts};
ghost use Rattle.lab_grow.specs.Carried.{HaveTexts, AreAtRest, AreSame, IsGrown, grown_records};
ghost use Rattle.lab_grow.specs.Named.{AreStaying};

/// Where the records that are written can follow each other they stand for the new lab, with the same experiments in it. The wirings have
/// texts, as those of each lab of records do.
pub fn grown_labs_are_the_same()
    ensures { (es : List Experiment) (old new : Lab) (end : LabState) → HaveTexts the_texts es → IsLab new → AreAtRest es
        → LabOf the_texts (grown_records the_texts old new es) end → IsGrown the_texts old new es end }
{}

/// Where each experiment has the rows that it had, devices that are cabled by the old lab are so by the new one; and where they are kept as
/// the controller keeps them for the old lab, they are kept so for the new one, with what that says of frames.
pub fn devices_stay()
    ensures cabled { (old new : Lab) (es fs : List Experiment) (world : World) → IsLab old → IsLab new → Holding old es → HaveTexts the_texts es
        → AreSame the_texts old new es fs → AreStaying old new es fs → Cabled old es world → Cabled new fs world }
    ensures parts { (old new : Lab) (es fs : List Experiment) (world : World) → IsLab old → IsLab new → Holding old es → Holding new fs
        → HaveTexts the_texts es → AreSame the_texts old new es fs → AreStaying old new es fs → Parts old es world → Parts new fs world }
{}
