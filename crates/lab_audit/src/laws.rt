ghost use Rattle.std.specs.Prelude.{◌≡◌, List, []};
ghost use Rattle.phys_lab.specs.Labs.{Lab};
ghost use Rattle.plant.specs.Worlds.{World};
ghost use Rattle.virt_topo.specs.declared.experiment.Experiment.{Experiment};
ghost use Rattle.lab_model.specs.Cabled.{Cabled};
ghost use Rattle.script_text.specs.declared.reply.AuditLine.{AuditLine};
ghost use Rattle.lab_audit.specs.Diff.{IsDiff, IsKnown};

/// Where rows and nodes are as the claimed mappings want them, nothing differs, and no state that is compared is open.
pub fn cabled_labs_differ_in_nothing()
    ensures nothing { (lab : Lab) (es : List Experiment) (w : World) (report : List AuditLine) → Cabled lab es w → IsDiff lab es w report → report ≡ [] }
    ensures known { (lab : Lab) (es : List Experiment) (w : World) → Cabled lab es w → IsKnown lab es w }
{}
