ghost use Rattle.std.specs.Prelude.{◌≡◌, ◌==◌, ◌&&◌, List, length, Option, Some, is_none, IfOk};
ghost use Rattle.virt_topo.specs.declared.experiment.Experiment.{Experiment as AnyExperiment};
ghost use Rattle.virt_topo.specs.Soundness.{IsSound};
ghost use Rattle.virt_topo.specs.declared.experiment.Phase.TheVariants as phases;
ghost use Rattle.virt_topo.specs.declared.mapping.Mapped.{Mapped as AnyMapped};
ghost use Rattle.lab_model.specs.Feasible.{violation};
ghost use Rattle.lab_model.specs.Shapes.{IsShaped, IsFreeOf};
ghost use Rattle.records_model.specs.Labs.{can_take, find};
ghost use Rattle.claims.specs.Answered.{are_free_ids, none_of};
ghost use Rattle.claims.specs.Holds.{claim_of, hold_in};
ghost use Rattle.lab_state.specs.Kept.{IsKept};
ghost use Rattle.lab_state.specs.Moves.{standing_in, moving};
ghost use Rattle.lab_state.specs.Judged.{IsTaken};
ghost use Rattle.lab_state.specs.declared.prepared.Change.TheVariants as changes;

use crate::PrepareFault;
use crate::prepared::Change;
use claims::{Claim, Claims, Hold};
use feas::{CheckFault, check};
use lab_base::{Memory, Name};
use phys_lab::{Free, Lab};
use std::alloc::Global;
use virt_topo::{Experiment, Mapped, Phase, Wiring};

/// A lab with the claims of its experiments.
#[derive(Drop)]
pub(crate) struct ClaimedLab {
    pub lab: Lab,
    pub claims: Claims,
}

/// The mapping of an experiment that stands in the lab, with its wiring and VLAN ids; None where it doesn't stand.
fn standing_of(alloc: Global, experiment: &Experiment) -> Result<Option<Mapped>, Memory>
    ensures { IfOk result (λ standing. standing ≡ standing_in experiment.now.wiring experiment.now.phase) }
{
    match &experiment.phase {
        Phase::In { mapping, tags } => {
            let tags = tags.copy(alloc)?;
            let mapping = mapping.copy(alloc)?;
            let wiring = experiment.wiring.copy(alloc)?;
            Ok(Some(Mapped {
                wiring,
                mapping,
                tags,
            }))
        }
        Phase::Out => Ok(None),
        Phase::Moving { .. } => Ok(None),
    }
}

/// The beginning of a move: the experiment's wiring, the mapping with which it stands, and its claim while it moves.
#[derive(Drop)]
struct Begun {
    wiring: Wiring,
    old: Option<Mapped>,
    claim: Claim,
}

impl Begun {
    /// The change by which the experiment of that name begins to move to a new mapping, or out.
    fn change(self, name: Name, new: Option<Mapped>) -> Change
        ensures { result ≡ changes.Begin (record { name = name; wiring = self.wiring; phase = phases.Moving self.old new }) self.claim }
    {
        let Begun { wiring, old, claim } = self;
        let phase = Phase::Moving { old, new };
        let experiment = Experiment {
            name,
            wiring,
            phase,
        };
        Change::Begin { experiment, claim }
    }
}

impl ClaimedLab {
    /// A lab with no claim.
    pub(crate) fn new(alloc: Global, lab: Lab) -> Result<ClaimedLab, Memory>
        ensures lab { IfOk result (λ claimed_lab. claimed_lab.lab ≡ lab) }
        ensures claims { IfOk result (λ claimed_lab. claimed_lab.claims ≡ none_of lab) }
    {
        let claims = Claims::empty(alloc, &lab)?;
        Ok(ClaimedLab { lab, claims })
    }

    /// Whether a mapping keeps the eight rules on the rest that others leave.
    fn is_feasible(&self, alloc: Global, free: &Free, new: &Mapped) -> Result<bool, Memory>
        requires free { IsFreeOf self.now.lab free.now }
        requires sound { IsSound new.now.wiring }
        requires shaped { IsShaped self.now.lab new.now.wiring new.now.mapping }
        ensures { IfOk result (λ kept. kept ≡ is_none (violation self.now.lab free.now new.now.wiring new.now.mapping)) }
    {
        match check(alloc, &self.lab, free, &new.wiring, &new.mapping) {
            Ok(()) => Ok(true),
            Err(CheckFault::Violation { .. }) => Ok(false),
            Err(CheckFault::Memory) => Err(Memory),
        }
    }

    /// Whether each segment has a VLAN id, and these are free.
    fn has_ids(&self, new: &Mapped) -> bool
        ensures { result ≡ ((length new.now.tags == length new.now.wiring.segments) && are_free_ids self.now.claims new.now.tags) }
    {
        new.tags.len() == new.wiring.segments.len() && self.claims.are_free(&new.tags)
    }

    /// Whether an experiment can take a mapping: it is feasible on the rest that the others leave, and its VLAN ids are free.
    fn can_take(&self, alloc: Global, exp: Name, new: &Mapped) -> Result<bool, Memory>
        requires kept { (es : List AnyExperiment) × (e : AnyExperiment) × IsKept (Some self.now) es × (find exp es ≡ Some e) }
        requires sound { IsSound new.now.wiring }
        requires shaped { IsShaped self.now.lab new.now.wiring new.now.mapping }
        ensures { IfOk result (λ can. (es : List AnyExperiment) (e : AnyExperiment) → IsKept (Some self.now) es → find exp es ≡ Some e
            → can ≡ can_take self.now.lab es e new.now) }
    {
        let free = self.claims.free_without(alloc, exp)?;
        let feasible = self.is_feasible(alloc, &free, new)?;
        if feasible {
            Ok(self.has_ids(new))
        } else {
            Ok(false)
        }
    }

    fn hold_of(&self, alloc: Global, mapped: &Option<Mapped>) -> Result<Option<Hold>, Memory>
        requires { (m : AnyMapped) → mapped.now ≡ Some m → IsSound m.wiring × IsShaped self.now.lab m.wiring m.mapping }
        ensures { IfOk result (λ hold. hold ≡ hold_in self.now.lab mapped.now) }
    {
        match mapped {
            Some(mapped) => {
                let hold = Hold::of(alloc, &self.lab, mapped)?;
                Ok(Some(hold))
            }
            None => Ok(None),
        }
    }

    /// The claim of an experiment that moves from one of two mappings to the other.
    fn claim_of(
        &self,
        alloc: Global,
        old: &Option<Mapped>,
        new: &Option<Mapped>,
    ) -> Result<Claim, Memory>
        requires old { (m : AnyMapped) → old.now ≡ Some m → IsSound m.wiring × IsShaped self.now.lab m.wiring m.mapping }
        requires new { (m : AnyMapped) → new.now ≡ Some m → IsSound m.wiring × IsShaped self.now.lab m.wiring m.mapping }
        ensures { IfOk result (λ claim. claim ≡ record { old = hold_in self.now.lab old.now; new = hold_in self.now.lab new.now }) }
    {
        let old = self.hold_of(alloc, old)?;
        let new = self.hold_of(alloc, new)?;
        Ok(Claim { old, new })
    }

    /// The beginning of an experiment's move to a new mapping, or out.
    fn begun(
        &self,
        alloc: Global,
        experiment: &Experiment,
        new: &Option<Mapped>,
    ) -> Result<Begun, Memory>
        requires old { (m : AnyMapped) → standing_in experiment.now.wiring experiment.now.phase ≡ Some m
            → IsSound m.wiring × IsShaped self.now.lab m.wiring m.mapping }
        requires new { (m : AnyMapped) → new.now ≡ Some m → IsSound m.wiring × IsShaped self.now.lab m.wiring m.mapping }
        ensures wiring { IfOk result (λ begun. begun.wiring ≡ experiment.now.wiring) }
        ensures old { IfOk result (λ begun. begun.old ≡ standing_in experiment.now.wiring experiment.now.phase) }
        ensures claim { IfOk result (λ begun. begun.claim
            ≡ record { old = hold_in self.now.lab (standing_in experiment.now.wiring experiment.now.phase); new = hold_in self.now.lab new.now }) }
    {
        let wiring = experiment.wiring.copy(alloc)?;
        let old = standing_of(alloc, experiment)?;
        match self.claim_of(alloc, &old, new) {
            Ok(claim) => Ok(Begun { wiring, old, claim }),
            Err(memory) => {
                drop(old);
                drop(wiring);
                Err(memory)
            }
        }
    }

    /// The change by which an experiment begins to move from the mapping with which it stands to a new one, or out.
    pub(crate) fn begin(
        &self,
        alloc: Global,
        experiment: &Experiment,
        new: Option<Mapped>,
    ) -> Result<Change, Memory>
        requires old { (m : AnyMapped) → standing_in experiment.now.wiring experiment.now.phase ≡ Some m
            → IsSound m.wiring × IsShaped self.now.lab m.wiring m.mapping }
        requires new { (m : AnyMapped) → new ≡ Some m → IsSound m.wiring × IsShaped self.now.lab m.wiring m.mapping }
        ensures { IfOk result (λ change. let f = moving experiment.now new in change ≡ changes.Begin f (claim_of self.now.lab f)) }
    {
        match self.begun(alloc, experiment, &new) {
            Ok(begun) => Ok(begun.change(experiment.name, new)),
            Err(memory) => {
                drop(new);
                Err(memory)
            }
        }
    }

    /// The change by which an experiment begins to take a mapping; `Bad` where it can't take it.
    pub(crate) fn take(
        &self,
        alloc: Global,
        experiment: &Experiment,
        new: Mapped,
    ) -> Result<Change, PrepareFault>
        requires kept { (es : List AnyExperiment) × IsKept (Some self.now) es × (find experiment.now.name es ≡ Some experiment.now) }
        requires sound { IsSound new.wiring }
        requires shaped { IsShaped self.now.lab new.wiring new.mapping }
        ensures { (es : List AnyExperiment) → IsKept (Some self.now) es → find experiment.now.name es ≡ Some experiment.now
            → IsTaken self.now.lab es experiment.now new result }
    {
        let can = match self.can_take(alloc, experiment.name, &new) {
            Ok(can) => can,
            Err(memory) => {
                drop(new);
                return Err(PrepareFault::from(memory));
            }
        };
        if can {
            let change = self.begin(alloc, experiment, Some(new))?;
            Ok(change)
        } else {
            drop(new);
            Err(PrepareFault::Bad)
        }
    }
}
