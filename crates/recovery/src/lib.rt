//! Settling of experiments that move.
#![tactic(auto)]

mod all;
mod fault;
mod one;

ghost use Rattle.std.specs.Prelude.{◌≡◌, true, false, ℕ, List, []};
ghost use Rattle.lab_base.specs.Lists.{Has};
ghost use Rattle.lab_model.specs.Sound.{is_moving};
ghost use Rattle.virt_topo.specs.declared.experiment.Experiment.{Experiment};
ghost use Rattle.plant.specs.Seen.{Seen};
ghost use Rattle.journal_disk.specs.declared.journal.Journal.{Journal};
ghost use Rattle.records_model.specs.Labs.{LabState, Sane, Texts};
ghost use Rattle.recovery.specs.declared.all.Settled.{Settled as Counted};
ghost use Rattle.recovery.specs.Due.{is_busy};
ghost use Rattle.recovery.specs.Settle.{SettledAll};

pub use all::{Settled, settle};
pub use fault::SettleFault;
pub use one::{One, end_move, settle_one};

/// Where none is stuck, no experiment but a busy one moves afterwards.
pub fn all_rest()
    ensures { (t : Texts) (s : LabState) (busy : List (List ℕ)) (before now : Seen) (i j : Journal) (after : LabState) (settled : Counted)
        → Sane s → SettledAll t s busy before now i j after settled → settled.stuck ≡ 0 → (e : Experiment) → Has after.experiments e → is_moving e ≡ true
        → is_busy busy e.name ≡ true }
{}

/// Where none is busy and none is stuck, no experiment moves afterwards.
pub fn none_moves()
    ensures { (t : Texts) (s : LabState) (before now : Seen) (i j : Journal) (after : LabState) (settled : Counted) → Sane s
        → SettledAll t s [] before now i j after settled → settled.stuck ≡ 0 → (e : Experiment) → Has after.experiments e → is_moving e ≡ false }
{}
