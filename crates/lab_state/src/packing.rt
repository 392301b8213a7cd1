// The records of a lab in one piece.
ghost use Rattle.std.specs.Prelude.{◌≡◌, ◌∷◌, [], List, Some, None, IfOk, OnOk};
ghost use Rattle.lab_base.specs.Lists.{Has};
ghost use Rattle.std.specs.List.{flat_map};
ghost use Rattle.virt_topo.specs.Wirings.{mapped};
ghost use Rattle.journal_rec.specs.Packing.{ArePacked};
ghost use Rattle.journal_rec.specs.Payloads.{IsShort};
ghost use Rattle.journal_rec.specs.declared.record.Record.{Record as AnyRecord};
ghost use Rattle.lab_model.specs.Claims.{Which, claimed};
ghost use Rattle.lab_model.specs.Holding.{Suits};
ghost use Rattle.records_model.specs.Labs.{LabOf, change_in, create_in};
ghost use Rattle.virt_topo.specs.Soundness.{IsSound};
ghost use Rattle.virt_topo.specs.declared.experiment.Experiment.{Experiment as AnyExperiment};
ghost use Rattle.virt_topo.specs.declared.experiment.Phase.TheVariants as phases;
ghost use Rattle.virt_topo.specs.declared.mapping.Mapped.{Mapped as AnyMapped};
ghost use Rattle.lab_state.specs.Packing.{creation, entry, turn, stand, packed_phase, packed_one, packed_of, PacksMore};
ghost use Rattle.lab_state.specs.Texts.{the_texts};

use crate::experiments::Experiments;
use crate::state::LabState;
use journal_rec::{Packed, Record, Way, encode};
use lab_base::{Memory, Name, Tags, Text};
use phys_lab::Lab;
use ptop_text::print_ptop;
use solution_text::print_solution;
use std::alloc::Global;
use top_text::print_top;
use virt_topo::{Experiment, Mapped, Mapping, Phase, Wiring, has_multiplexed};

fn push(alloc: Global, packed: &mut Packed, entry: Record) -> Result<(), Memory>
    requires { IsShort entry }
    ensures { OnOk result (PacksMore packed.old packed.new (entry ∷ [])) }
{
    let encoded = match encode(alloc, &entry) {
        Ok(encoded) => encoded,
        Err(memory) => {
            drop(entry);
            return Err(memory);
        }
    };
    drop(entry);
    packed.add(&encoded)
}

/// Adds the lab, as the first record.
fn push_lab(alloc: Global, packed: &mut Packed, lab: &Lab) -> Result<(), Memory>
    ensures { OnOk result (PacksMore packed.old packed.new (AnyRecord.Lab (the_texts.ptop lab.now) ∷ [])) }
{
    let ptop = print_ptop(alloc, lab)?;
    push(alloc, packed, Record::Lab { ptop })
}

/// The record that creates an experiment, of the second format or of the first.
fn creation(exp: Name, top: Text, second: bool) -> Record
    ensures { result ≡ create_in second exp top }
{
    if second {
        Record::Create2 { exp, top }
    } else {
        Record::Create { exp, top }
    }
}

/// The way to another mapping, of the second format or of the first.
fn change(top: Text, map: Text, tags: Tags, second: bool) -> Way
    ensures { result ≡ change_in second top map tags }
{
    if second {
        Way::Change2 { top, map, tags }
    } else {
        Way::Change { top, map, tags }
    }
}

/// Adds the record of a new experiment with that wiring.
fn push_creation(
    alloc: Global,
    packed: &mut Packed,
    exp: Name,
    wiring: &Wiring,
) -> Result<(), Memory>
    requires { IsSound wiring.now }
    ensures { OnOk result (PacksMore packed.old packed.new (creation the_texts exp wiring.now ∷ [])) }
{
    let _named = exp.bytes();
    let top = print_top(alloc, wiring)?;
    let entry = creation(exp, top, has_multiplexed(wiring));
    push(alloc, packed, entry)
}

/// Adds the begin of its way into the lab.
fn push_entry(
    alloc: Global,
    packed: &mut Packed,
    lab: &Lab,
    exp: Name,
    wiring: &Wiring,
    mapping: &Mapping,
    tags: &Tags,
) -> Result<(), Memory>
    requires { Suits lab.now (mapped wiring.now mapping.now tags.now) }
    ensures { OnOk result (PacksMore packed.old packed.new (entry the_texts lab.now exp (mapped wiring.now mapping.now tags.now) ∷ [])) }
{
    let _named = exp.bytes();
    let map = print_solution(alloc, lab, wiring, mapping)?;
    let tags = tags.copy(alloc)?;
    let way = Way::In { map, tags };
    push(alloc, packed, Record::Begin { exp, way })
}

/// Adds the begin of its way to another mapping.
fn push_turn(
    alloc: Global,
    packed: &mut Packed,
    lab: &Lab,
    exp: Name,
    new: &Mapped,
) -> Result<(), Memory>
    requires { Suits lab.now new.now }
    ensures { OnOk result (PacksMore packed.old packed.new (turn the_texts lab.now exp new.now ∷ [])) }
{
    let _named = exp.bytes();
    let top = print_top(alloc, &new.wiring)?;
    let map = print_solution(alloc, lab, &new.wiring, &new.mapping)?;
    let tags = new.tags.copy(alloc)?;
    let way = change(top, map, tags, has_multiplexed(&new.wiring));
    push(alloc, packed, Record::Begin { exp, way })
}

/// Adds the begin of its way out.
fn push_exit(alloc: Global, packed: &mut Packed, exp: Name) -> Result<(), Memory>
    ensures { OnOk result (PacksMore packed.old packed.new (AnyRecord.Begin exp Way.Out ∷ [])) }
{
    let _named = exp.bytes();
    let way = Way::Out;
    push(alloc, packed, Record::Begin { exp, way })
}

/// Adds the end of its move.
fn push_commit(alloc: Global, packed: &mut Packed, exp: Name) -> Result<(), Memory>
    ensures { OnOk result (PacksMore packed.old packed.new (AnyRecord.Commit exp ∷ [])) }
{
    let _named = exp.bytes();
    push(alloc, packed, Record::Commit { exp })
}

/// Adds the records of an experiment that stands with a mapping.
fn push_stand(
    alloc: Global,
    packed: &mut Packed,
    lab: &Lab,
    exp: Name,
    wiring: &Wiring,
    mapping: &Mapping,
    tags: &Tags,
) -> Result<(), Memory>
    requires { Suits lab.now (mapped wiring.now mapping.now tags.now) }
    ensures { OnOk result (PacksMore packed.old packed.new (stand the_texts lab.now exp (mapped wiring.now mapping.now tags.now))) }
{
    push_creation(alloc, packed, exp, wiring)?;
    push_entry(alloc, packed, lab, exp, wiring, mapping, tags)?;
    push_commit(alloc, packed, exp)
}

/// Adds the records of an experiment on its way into the lab.
fn push_entering(
    alloc: Global,
    packed: &mut Packed,
    lab: &Lab,
    exp: Name,
    new: &Mapped,
) -> Result<(), Memory>
    requires { Suits lab.now new.now }
    ensures { OnOk result (PacksMore packed.old packed.new (creation the_texts exp new.now.wiring ∷ entry the_texts lab.now exp new.now ∷ [])) }
{
    push_creation(alloc, packed, exp, &new.wiring)?;
    push_entry(
        alloc,
        packed,
        lab,
        exp,
        &new.wiring,
        &new.mapping,
        &new.tags,
    )
}

/// Adds the records of an experiment on its way out of the lab, or to another mapping.
fn push_leaving(
    alloc: Global,
    packed: &mut Packed,
    lab: &Lab,
    exp: Name,
    old: &Mapped,
    new: &Option<Mapped>,
) -> Result<(), Memory>
    requires old { Suits lab.now old.now }
    requires new { (m : AnyMapped) → new.now ≡ Some m → Suits lab.now m }
    ensures { OnOk result (PacksMore packed.old packed.new (packed_phase the_texts lab.now exp old.now.wiring (phases.Moving (Some old.now) new.now))) }
{
    push_stand(
        alloc,
        packed,
        lab,
        exp,
        &old.wiring,
        &old.mapping,
        &old.tags,
    )?;
    match new {
        Some(new) => push_turn(alloc, packed, lab, exp, new),
        None => push_exit(alloc, packed, exp),
    }
}

/// Adds the records of a moving experiment that was out before its move.
fn push_coming(
    alloc: Global,
    packed: &mut Packed,
    lab: &Lab,
    exp: Name,
    wiring: &Wiring,
    new: &Option<Mapped>,
) -> Result<(), Memory>
    requires sound { IsSound wiring.now }
    requires new { (m : AnyMapped) → new.now ≡ Some m → Suits lab.now m }
    ensures { OnOk result (PacksMore packed.old packed.new (packed_phase the_texts lab.now exp wiring.now (phases.Moving None new.now))) }
{
    match new {
        Some(new) => push_entering(alloc, packed, lab, exp, new),
        None => push_creation(alloc, packed, exp, wiring),
    }
}

/// Adds the records of an experiment that moves.
fn push_moving(
    alloc: Global,
    packed: &mut Packed,
    lab: &Lab,
    exp: Name,
    wiring: &Wiring,
    old: &Option<Mapped>,
    new: &Option<Mapped>,
) -> Result<(), Memory>
    requires sound { IsSound wiring.now }
    requires old { (m : AnyMapped) → old.now ≡ Some m → Suits lab.now m }
    requires new { (m : AnyMapped) → new.now ≡ Some m → Suits lab.now m }
    ensures { OnOk result (PacksMore packed.old packed.new (packed_phase the_texts lab.now exp wiring.now (phases.Moving old.now new.now))) }
{
    match old {
        Some(old) => push_leaving(alloc, packed, lab, exp, old, new),
        None => push_coming(alloc, packed, lab, exp, wiring, new),
    }
}

/// Adds an experiment, with the moves that bring it to its phase.
fn push_one(
    alloc: Global,
    packed: &mut Packed,
    lab: &Lab,
    experiment: &Experiment,
) -> Result<(), Memory>
    requires sound { IsSound experiment.now.wiring }
    requires fits { (which : Which) (m : AnyMapped) → claimed experiment.now which ≡ Some m → Suits lab.now m }
    ensures { OnOk result (PacksMore packed.old packed.new (packed_one the_texts lab.now experiment.now)) }
{
    let exp = experiment.name;
    let wiring = &experiment.wiring;
    match &experiment.phase {
        Phase::Out => push_creation(alloc, packed, exp, wiring),
        Phase::In { mapping, tags } => push_stand(alloc, packed, lab, exp, wiring, mapping, tags),
        Phase::Moving { old, new } => push_moving(alloc, packed, lab, exp, wiring, old, new),
    }
}

/// Adds the experiments in order of creation.
fn push_all(
    alloc: Global,
    packed: &mut Packed,
    lab: &Lab,
    experiments: &Experiments,
) -> Result<(), Memory>
    requires sound { (e : AnyExperiment) → Has experiments.now.list e → IsSound e.wiring }
    requires fits { (e : AnyExperiment) (which : Which) (m : AnyMapped) → Has experiments.now.list e → claimed e which ≡ Some m → Suits lab.now m }
    ensures { OnOk result (PacksMore packed.old packed.new (flat_map (packed_one the_texts lab.now) experiments.now.list)) }
{
    for n in 0..experiments.len() {
        let Some(experiment) = experiments.nth(n) else {
            // There are so many.
            unreachable!()
        };
        push_one(alloc, packed, lab, experiment)?;
    }
    Ok(())
}

impl LabState {
    /// The records of this lab in one piece, without its past. The lab comes first, then its experiments in order of creation, each with the moves
    /// that bring it to its phase.
    /// A journal of these records stands for this lab.
    pub fn pack(&self) -> Result<Packed, Memory>
        ensures packed { IfOk result (λ packed. ArePacked packed (packed_of the_texts self.now.state)) }
        ensures stands { IfOk result (λ packed. (rs : List AnyRecord) → LabOf the_texts rs self.now.state
            → LabOf the_texts (packed_of the_texts self.now.state) self.now.state) }
    {
        let mut packed = Packed::new(self.alloc)?;
        let experiments = &self.experiments;
        match &self.claimed_lab {
            Some(claimed_lab) => {
                push_lab(self.alloc, &mut packed, &claimed_lab.lab)?;
                push_all(self.alloc, &mut packed, &claimed_lab.lab, experiments)?;
                Ok(packed)
            }
            None => Ok(packed),
        }
    }
}
