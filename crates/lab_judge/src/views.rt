// Experiments as replies show them.
ghost use Rattle.std.specs.Prelude.{◌≡◌, List, map, IfOk};
ghost use Rattle.lab_base.specs.Lists.{Has};
ghost use Rattle.lab_base.specs.declared.ids.VlanId.{VlanId as AnyVlanId};
ghost use Rattle.phys_lab.specs.Kept.{IsLab};
ghost use Rattle.phys_lab.specs.Labs.{Lab as AnyLab};
ghost use Rattle.virt_topo.specs.declared.experiment.Experiment.{Experiment as AnyExperiment};
ghost use Rattle.virt_topo.specs.declared.experiment.Phase.TheVariants.{In};
ghost use Rattle.virt_topo.specs.declared.mapping.Mapping.{Mapping as AnyMapping};
ghost use Rattle.lab_model.specs.Holding.{Holding};
ghost use Rattle.lab_model.specs.Shapes.{IsShaped};
ghost use Rattle.records_model.specs.Labs.{lab_in, Sane};
ghost use Rattle.claims.specs.Experiments.{ClaimsOf};
ghost use Rattle.solution_text.specs.CanonicalSolution.{canonical_solution};
ghost use Rattle.lab_judge.specs.Judge.{phase_word, tag_lines, placed_at, shown_reply, status_line};

use claims::Claims;
use lab_base::{Items, Memory, VlanId};
use lab_state::LabState;
use phys_lab::Lab;
use script_text::{PhaseWord, Placed, Reply, StatusLine, TagLine};
use solution_text::print_solution;
use std::alloc::Global;
use top_text::print_top;
use virt_topo::{Experiment, Mapping, Phase, Segment, Wiring};

fn phase_word(phase: &Phase) -> PhaseWord
    ensures { result ≡ phase_word phase.now }
{
    match phase {
        Phase::Out => PhaseWord::Out,
        Phase::In { .. } => PhaseWord::In,
        Phase::Moving { .. } => PhaseWord::Moving,
    }
}

/// The segments, each with its VLAN id.
fn tag_lines(alloc: Global, segments: &[Segment], tags: &[VlanId]) -> Result<Items<TagLine>, Memory>
    ensures { IfOk result (λ lines. lines ≡ tag_lines segments.now tags.now) }
{
    let mut lines = Items::new(alloc);
    for number in 0..segments.len() {
        if let Some(tag) = tags.get(number) {
            lines.push(TagLine {
                segment: segments[number].name,
                vlan: *tag,
            })?;
        }
    }
    Ok(lines)
}

fn placed(
    alloc: Global,
    lab: &Lab,
    wiring: &Wiring,
    mapping: &Mapping,
    tags: &[VlanId],
) -> Result<Placed, Memory>
    requires { IsShaped lab.now wiring.now mapping.now }
    ensures { IfOk result (λ placed. placed
        ≡ record { solution = canonical_solution lab.now wiring.now mapping.now; tags = tag_lines wiring.now.segments tags.now }) }
{
    Ok(Placed {
        solution: print_solution(alloc, lab, wiring, mapping)?,
        tags: tag_lines(alloc, wiring.segments.as_slice(), tags)?,
    })
}

/// Where an experiment stands, if it is in.
fn placed_at(
    alloc: Global,
    lab: &Lab,
    wiring: &Wiring,
    phase: &Phase,
) -> Result<Option<Placed>, Memory>
    requires { (mapping : AnyMapping) (tags : List AnyVlanId) → phase.now ≡ In mapping tags → IsShaped lab.now wiring.now mapping }
    ensures { IfOk result (λ found. found ≡ placed_at lab.now wiring.now phase.now) }
{
    match phase {
        Phase::In { mapping, tags } => Ok(Some(placed(
            alloc,
            lab,
            wiring,
            mapping,
            tags.as_slice(),
        )?)),
        Phase::Out | Phase::Moving { .. } => Ok(None),
    }
}

/// The reply that shows an experiment.
pub(crate) fn shown(alloc: Global, lab: &Lab, experiment: &Experiment) -> Result<Reply, Memory>
    requires { (mapping : AnyMapping) (tags : List AnyVlanId) → experiment.now.phase ≡ In mapping tags → IsShaped lab.now experiment.now.wiring mapping }
    ensures { IfOk result (λ reply. reply ≡ shown_reply lab.now experiment.now) }
{
    Ok(Reply::Shown {
        exp: experiment.name,
        phase: phase_word(&experiment.phase),
        top: print_top(alloc, &experiment.wiring)?,
        placed: placed_at(alloc, lab, &experiment.wiring, &experiment.phase)?,
    })
}

/// A line for an experiment, with the numbers of nodes and of VLAN ids that it claims.
fn status_line(claims: &Claims, experiment: &Experiment) -> StatusLine
    ensures { (lab : AnyLab) (es : List AnyExperiment) → IsLab lab → ClaimsOf lab es claims.now → Holding lab es → Has es experiment.now
        → result ≡ status_line lab experiment.now }
{
    let counted = claims.counted_of(experiment.name);
    StatusLine {
        exp: experiment.name,
        phase: phase_word(&experiment.phase),
        nodes: counted.0,
        vlans: counted.1,
    }
}

/// A line for each experiment, in order of creation.
pub(crate) fn status_lines(
    alloc: Global,
    lab: &LabState,
    claims: &Claims,
) -> Result<Items<StatusLine>, Memory>
    requires claims { ClaimsOf (lab_in lab.now.state.lab) lab.now.state.experiments claims.now }
    requires sane { Sane lab.now.state }
    ensures { IfOk result (λ lines. lines ≡ map (status_line (lab_in lab.now.state.lab)) lab.now.state.experiments) }
{
    let mut lines = Items::new(alloc);
    for number in 0..lab.len() {
        if let Some(experiment) = lab.nth(number as u16) {
            lines.push(status_line(claims, experiment))?;
        }
    }
    Ok(lines)
}
