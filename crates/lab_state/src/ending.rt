// The end of a move.
ghost use Rattle.std.specs.Prelude.{◌≡◌, is_some};
ghost use Rattle.lab_state.specs.Ends.{kept_of, ended, may_end, is_in};
ghost use Rattle.records_model.specs.Labs.{is_out};

use std::mem;
use virt_topo::{Experiment, Mapped, Phase};

/// The mapping that a moving experiment keeps: the new one where its move is done, the old one where it is undone.
fn kept_of(phase: Phase, commit: bool) -> Option<Mapped>
    ensures { result ≡ kept_of commit phase }
{
    match phase {
        Phase::Moving { old, new } => {
            if commit {
                drop(old);
                new
            } else {
                drop(new);
                old
            }
        }
        Phase::In { .. } => None,
        Phase::Out => None,
    }
}

/// Ends the move of an experiment: it stands with the mapping that it keeps, or is out. Answers whether it stands.
pub(crate) fn end(experiment: &mut Experiment, commit: bool) -> bool
    ensures ended { experiment.new ≡ ended commit experiment.old }
    ensures stands { result ≡ is_some (kept_of commit experiment.old.phase) }
{
    let phase = mem::replace(&mut experiment.phase, Phase::Out);
    match kept_of(phase, commit) {
        Some(kept) => {
            let Mapped {
                wiring,
                mapping,
                tags,
            } = kept;
            drop(mem::replace(&mut experiment.wiring, wiring));
            drop(mem::replace(&mut experiment.phase, Phase::In { mapping, tags }));
            true
        }
        None => false,
    }
}

/// Whether a move can end so. It has begun; and where it is undone, it was no swap-out.
pub(crate) fn may_end(phase: &Phase, commit: bool) -> bool
    ensures { result ≡ may_end commit phase.now }
{
    match phase {
        Phase::Moving { old, new } => new.is_some() || (commit && old.is_some()),
        Phase::In { .. } => false,
        Phase::Out => false,
    }
}

/// Whether an experiment is out.
pub(crate) fn is_out(phase: &Phase) -> bool
    ensures { result ≡ is_out phase.now }
{
    matches!(phase, Phase::Out)
}

/// Whether an experiment stands in the lab.
pub(crate) fn is_in(phase: &Phase) -> bool
    ensures { result ≡ is_in phase.now }
{
    matches!(phase, Phase::In { .. })
}
