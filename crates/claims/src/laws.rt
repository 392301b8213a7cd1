// Laws of the definitions.
ghost use Rattle.std.specs.Prelude.{◌≡◌, ◌≢◌, ◌<◌, ◌==◌, ◌&&◌, ◌++◌, ◌∷◌, [], ℕ, List, filter, length, map, Option, Some, None, true, false};
ghost use Rattle.lab_base.specs.Lists.{Has, AllDiffer, listed};
ghost use Rattle.lab_base.specs.declared.ids.VlanId.{VlanId};
ghost use Rattle.phys_lab.specs.Labs.{Lab};
ghost use Rattle.phys_lab.specs.Kept.{IsLab};
ghost use Rattle.phys_lab.specs.declared.free.Free.{Free as AnyFree};
ghost use Rattle.virt_topo.specs.declared.experiment.Experiment.{Experiment};
ghost use Rattle.virt_topo.specs.declared.experiment.Phase.TheVariants.{Out, In, Moving};
ghost use Rattle.virt_topo.specs.declared.mapping.Mapped.{Mapped};
ghost use Rattle.virt_topo.specs.declared.wiring.Wiring.{Wiring};
ghost use Rattle.virt_topo.specs.Soundness.{IsSound};
ghost use Rattle.lab_model.specs.Beside.{IsLeft, violation_beside, are_free_tags};
ghost use Rattle.lab_model.specs.Claims.{New, claimed};
ghost use Rattle.lab_model.specs.Holding.{Holding};
ghost use Rattle.lab_model.specs.Shapes.{IsShaped};
ghost use Rattle.claims.specs.Adding.{MayAdd, with_claim, without, narrowed};
ghost use Rattle.claims.specs.Answered.{are_free_ids, none_of};
ghost use Rattle.claims.specs.Held.{Held, IsLeftTo, claim_nodes, is_in, others, owner_of};
ghost use Rattle.claims.specs.Holds.{claim_of};
ghost use Rattle.claims.specs.Experiments.{ClaimsOf};

/// The claims of all experiments leave to one of them exactly the rest that the other experiments leave to it.
pub fn left_by_others()
    ensures left { (lab : Lab) (a b : List Experiment) (own : Experiment) (held : Held) (free : AnyFree) → IsLab lab → Holding lab (a ++ own ∷ b)
        → AllDiffer (map (λ e. e.name) (a ++ own ∷ b)) → ClaimsOf lab (a ++ own ∷ b) held → IsLeftTo held own.name free
        → IsLeft lab (a ++ b) own free }
{}

/// A lab without experiments has no claim.
pub fn none()
    ensures { (lab : Lab) → ClaimsOf lab [] (none_of lab) }
{}

/// A new experiment is out, and changes no claim.
pub fn made()
    ensures { (lab : Lab) (es : List Experiment) (e : Experiment) (held : Held) → ClaimsOf lab es held → e.phase ≡ Out
        → ((d : Experiment) → Has es d → d.name ≢ e.name) → ClaimsOf lab (es ++ e ∷ []) held }
{}

/// An experiment that is out and is deleted changes no claim.
pub fn gone()
    ensures { (lab : Lab) (a b : List Experiment) (e : Experiment) (held : Held) → AllDiffer (map (λ e. e.name) (a ++ e ∷ b))
        → ClaimsOf lab (a ++ e ∷ b) held → e.phase ≡ Out → ClaimsOf lab (a ++ b) held }
{}

/// The new claim of an experiment takes the place of the one that it may have had.
pub fn put()
    ensures { (lab : Lab) (a b : List Experiment) (e f : Experiment) (held : Held) → AllDiffer (map (λ e. e.name) (a ++ e ∷ b))
        → ClaimsOf lab (a ++ e ∷ b) held → f.name ≡ e.name → f.phase ≢ Out
        → ClaimsOf lab (a ++ f ∷ b) (with_claim e.name (claim_of lab f) held) }
{}

/// An experiment that is out has no claim any more.
pub fn dropped()
    ensures { (lab : Lab) (a b : List Experiment) (e f : Experiment) (held : Held) → AllDiffer (map (λ e. e.name) (a ++ e ∷ b))
        → ClaimsOf lab (a ++ e ∷ b) held → f.name ≡ e.name → f.phase ≡ Out
        → ClaimsOf lab (a ++ f ∷ b) (without e.name held) }
{}

/// At the end of a move the experiment stands with its new mapping, or again with its old one.
pub fn narrowed()
    ensures new { (lab : Lab) (a b : List Experiment) (e f : Experiment) (old : Option Mapped) (m : Mapped) (held : Held)
        → AllDiffer (map (λ e. e.name) (a ++ e ∷ b)) → ClaimsOf lab (a ++ e ∷ b) held → e.phase ≡ Moving old (Some m)
        → f.name ≡ e.name → f.wiring ≡ m.wiring → f.phase ≡ In m.mapping m.tags
        → ClaimsOf lab (a ++ f ∷ b) (narrowed e.name true held) }
    ensures old { (lab : Lab) (a b : List Experiment) (e f : Experiment) (m : Mapped) (new : Option Mapped) (held : Held)
        → AllDiffer (map (λ e. e.name) (a ++ e ∷ b)) → ClaimsOf lab (a ++ e ∷ b) held → e.phase ≡ Moving (Some m) new
        → f.name ≡ e.name → f.wiring ≡ m.wiring → f.phase ≡ In m.mapping m.tags
        → ClaimsOf lab (a ++ f ∷ b) (narrowed e.name false held) }
{}

/// The others have fewer claims than there are experiments.
pub fn few()
    ensures { (lab : Lab) (a b : List Experiment) (e : Experiment) (held : Held) → AllDiffer (map (λ e. e.name) (a ++ e ∷ b))
        → ClaimsOf lab (a ++ e ∷ b) held → length (others e.name held.entries) < length (a ++ e ∷ b) }
{}

/// The experiments that claim a node are its owner alone, or none where it has none.
pub fn owners()
    ensures { (lab : Lab) (es : List Experiment) (held : Held) (n : ℕ) → Holding lab es → AllDiffer (map (λ e. e.name) es) → ClaimsOf lab es held
        → map (λ e. e.name) (filter (λ e. is_in n (claim_nodes (claim_of lab e))) es) ≡ listed (owner_of claim_nodes held.entries n) }
{}

/// VLAN ids are free to an experiment exactly where, one for each segment, they are free beside the other claims.
pub fn free_tags()
    ensures { (lab : Lab) (es : List Experiment) (held : Held) (w : Wiring) (tags : List VlanId) → AllDiffer (map (λ e. e.name) es)
        → ClaimsOf lab es held → are_free_tags lab es w tags ≡ ((length tags == length w.segments) && are_free_ids held tags) }
{}

/// A move begins from the claim of its experiment, if it has one. It leads to nothing, or to a mapping without a violation beside the others, whose
/// VLAN ids are free. The claim of the experiment that moves may then be added.
pub fn may_add()
    ensures taken { (lab : Lab) (a b : List Experiment) (e f : Experiment) (m : Mapped) (held : Held) → Holding lab (a ++ e ∷ b)
        → AllDiffer (map (λ e. e.name) (a ++ e ∷ b)) → ClaimsOf lab (a ++ e ∷ b) held → f.phase ≡ Moving (claimed e New) (Some m)
        → violation_beside lab (a ++ b) e m.wiring m.mapping ≡ None → IsSound m.wiring → IsShaped lab m.wiring m.mapping
        → are_free_tags lab (a ++ e ∷ b) m.wiring m.tags ≡ true → MayAdd held e.name (claim_of lab f) }
    ensures left { (lab : Lab) (a b : List Experiment) (e f : Experiment) (held : Held) → Holding lab (a ++ e ∷ b)
        → AllDiffer (map (λ e. e.name) (a ++ e ∷ b)) → ClaimsOf lab (a ++ e ∷ b) held → f.phase ≡ Moving (claimed e New) None
        → MayAdd held e.name (claim_of lab f) }
{}
