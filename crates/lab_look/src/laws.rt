// A machine is told, and drawn, as held by an experiment exactly where that experiment claims it. A lost header gate is told.
ghost use Rattle.std.specs.Prelude.{◌≡◌, ◌↔◌, ◌≤◌, ◌<◌, ◌++◌, ◌∷◌, [], ℕ, true, false, List, IsTrue, Some, None, length, take, drop, slice_get};
ghost use Rattle.std.specs.List.{list_all};
ghost use Rattle.lab_base.specs.Lists.{Has};
ghost use Rattle.phys_lab.specs.Labs.{Lab as AnyLab};
ghost use Rattle.virt_topo.specs.declared.experiment.Experiment.{Experiment as AnyExperiment};
ghost use Rattle.lab_model.specs.Claims.{Claims as AnyClaims};
ghost use Rattle.records_model.specs.Labs.{LabState as AnyState, LabOf, Sane};
ghost use Rattle.journal_rec.specs.declared.record.Record.{Record as AnyRecord};
ghost use Rattle.journal_rec.specs.Packing.{block, blocks};
ghost use Rattle.journal_model.specs.Journals.{head};
ghost use Rattle.journal_disk.specs.Heads.{seen};
ghost use Rattle.lab_state.specs.Packing.{packed_of};
ghost use Rattle.lab_state.specs.Texts.{the_texts};
ghost use Rattle.lab_sides.specs.Heads.{shut_head};
ghost use Rattle.lab_look.specs.declared.beside.Beside.TheVariants.{Begun, Lost};
ghost use Rattle.lab_look.specs.declared.beside.Beside.{Beside};
ghost use Rattle.lab_look.specs.Beside.{is_next, is_ahead, is_end, packed_bytes, IsBeside};
ghost use Rattle.lab_look.specs.Seats.{seat_of};
ghost use Rattle.lab_view.specs.Views.{is_seat_of};

/// The seat of a machine is of an experiment exactly where that experiment claims it.
#[tactic(auto, using(crate::proofs::Colours::seat_is_claim))]
pub fn colours_are_claims()
    ensures { (s : AnyState) (lab : AnyLab) (n : ℕ) (e : AnyExperiment) (name : List ℕ) → Sane s → s.lab ≡ Some lab → slice_get s.experiments n ≡ Some e
        → (IsTrue (is_seat_of n (seat_of lab s.experiments name)) ↔ AnyClaims lab e name) }
{}

/// A machine has no seat exactly where no experiment claims it.
#[tactic(auto, using(crate::proofs::Colours::free_is_unclaimed))]
pub fn free_is_unclaimed()
    ensures { (lab : AnyLab) (es : List AnyExperiment) (name : List ℕ)
        → ((seat_of lab es name ≡ None) ↔ ((e : AnyExperiment) → Has es e → AnyClaims lab e name → ⊥)) }
{}

/// A header of a later epoch behind a closed gate is told as one that was lost where the side is longer than what a move of the live
/// side's lab writes, as that lab is, and as it was before the ends of moves that are last; also where it has a record after those that
/// the lab packs, and the last record of the live side ends no move. Where it has a beginning of what a move of such a lab writes, it is
/// told as a move that was cut off.
pub fn lost_gates_are_told()
    ensures longer { (live other : List ℕ) (rs : List AnyRecord) (beside : Beside) → IsBeside live other rs beside → is_ahead live other ≡ true
        → ((front ends : List AnyRecord) (s : AnyState) → rs ≡ front ++ ends → list_all is_end ends ≡ true → LabOf the_texts front s
        → length (packed_bytes s) < length (drop 17 other)) → beside ≡ Lost }
    ensures lost { (live other : List ℕ) (front : List AnyRecord) (last r : AnyRecord) (s : AnyState) (rest : List ℕ) (beside : Beside)
        → IsBeside live other (front ++ last ∷ []) beside → is_end last ≡ false → LabOf the_texts (front ++ last ∷ []) s → is_ahead live other ≡ true
        → drop 17 other ≡ blocks (packed_of the_texts s) ++ (block r ++ rest) → beside ≡ Lost }
    ensures begun { (live other : List ℕ) (front ends : List AnyRecord) (s : AnyState) (n : ℕ) (beside : Beside)
        → IsBeside live other (front ++ ends) beside → list_all is_end ends ≡ true → LabOf the_texts front s → is_ahead live other ≡ true
        → is_next (seen (head live)) (shut_head other) ≡ true → 17 ≤ length other → drop 17 other ≡ take n (packed_bytes s) → beside ≡ Begun }
{}
