// The rows that experiments want over both labs.
ghost use Rattle.std.specs.Prelude.{◌≡◌, ◌↔◌, ◌&&◌, true, false, Some, IfOk, MatchOption};
ghost use Rattle.virt_topo.specs.declared.mapping.Mapped.{Mapped as AnyMapped};
ghost use Rattle.lab_model.specs.Claims.{New, claimed};
ghost use Rattle.lab_model.specs.Holding.{Suits};
ghost use Rattle.lab_state.specs.Texts.{the_texts};
ghost use Rattle.lab_grow.specs.Carried.{IsSame, IsAtRest, AreAtRest, IsGrown};
ghost use Rattle.lab_grow.specs.Named.{StaysIn, AreStaying, rows_in};
ghost use Rattle.lab_grow.specs.Reasons.{IsMoving, IsOther};
ghost use Rattle.lab_grow.specs.Rows.{is_row, is_among, are_among};

use lab_base::{Memory, Name, VlanId};
use lab_state::LabState;
use phys_lab::Lab;
use std::alloc::Global;
use swap_plan::{Port, rows_of};
use virt_topo::{Experiment, Phase};

fn is_row(row: &Port, other: &Port) -> bool
    ensures { result ≡ is_row row.now other.now }
{
    row.switch == other.switch && row.port == other.port && row.vlan.0 == other.vlan.0
}

fn is_among(rows: &[Port], row: &Port) -> bool
    ensures { result ≡ is_among rows.now row.now }
{
    rows.iter().any(|own| is_row(row, own))
}

fn are_among(rows: &[Port], others: &[Port]) -> bool
    ensures { result ≡ are_among rows.now others.now }
{
    rows.iter().all(|row| is_among(others, row))
}

/// Whether two lists have the same rows.
fn are_same(rows: &[Port], others: &[Port]) -> bool
    ensures { result ≡ (are_among rows.now others.now && are_among others.now rows.now) }
{
    are_among(rows, others) && are_among(others, rows)
}

/// The rows that an experiment wants that doesn't move: none where it is out.
fn rows_in(alloc: Global, lab: &Lab, own: &Experiment) -> Result<Vec<Port>, Memory>
    requires { (m : AnyMapped) → claimed own.now New ≡ Some m → Suits lab.now m }
    ensures { IfOk result (λ rows. rows.items ≡ rows_in lab.now own.now.wiring own.now.phase) }
{
    match &own.phase {
        Phase::In { mapping, tags } => {
            rows_of(alloc, lab, &own.wiring, mapping, tags.as_slice())
        }
        Phase::Out => Ok(Vec::new(alloc)),
        Phase::Moving { .. } => Ok(Vec::new(alloc)),
    }
}

/// Whether an experiment wants the rows over the new lab that it wants over the old one.
fn stays(
    alloc: Global,
    old: &Lab,
    new: &Lab,
    own: &Experiment,
    other: &Experiment,
) -> Result<bool, Memory>
    requires old { (m : AnyMapped) → claimed own.now New ≡ Some m → Suits old.now m }
    requires new { (m : AnyMapped) → claimed other.now New ≡ Some m → Suits new.now m }
    requires same { IsSame the_texts old.now new.now own.now other.now }
    ensures { IfOk result (λ stays. (stays ≡ true) ↔ StaysIn old.now new.now own.now.wiring other.now.wiring own.now.phase other.now.phase) }
{
    let rows = rows_in(alloc, old, own)?;
    let others = rows_in(alloc, new, other)?;
    Ok(are_same(&rows, &others))
}

/// The VLAN id of the first row that isn't among others.
fn first_row(rows: &[Port], others: &[Port]) -> Option<VlanId> {
    for row in rows {
        if !is_among(others, row) {
            return Some(row.vlan);
        }
    }
    None
}

/// The link of an experiment that stands whose segment has that VLAN id.
fn link_of(own: &Experiment, vlan: VlanId) -> Option<Name> {
    let Phase::In { tags, .. } = &own.phase else {
        return None;
    };
    for (tag, segment) in tags.as_slice().iter().zip(own.wiring.segments.as_slice()) {
        if tag.0 == vlan.0 {
            return Some(segment.owner);
        }
    }
    None
}

/// The link that wants other rows over the new lab.
fn other_link(
    alloc: Global,
    old: &Lab,
    new: &Lab,
    own: &Experiment,
    other: &Experiment,
) -> Result<Option<Name>, Memory>
    requires old { (m : AnyMapped) → claimed own.now New ≡ Some m → Suits old.now m }
    requires new { (m : AnyMapped) → claimed other.now New ≡ Some m → Suits new.now m }
{
    let rows = rows_in(alloc, old, own)?;
    let others = rows_in(alloc, new, other)?;
    match first_row(&rows, &others) {
        Some(vlan) => Ok(link_of(own, vlan)),
        None => match first_row(&others, &rows) {
            Some(vlan) => Ok(link_of(own, vlan)),
            None => Ok(None),
        },
    }
}

/// The first experiment that wants other rows over the new lab than over the old one, with the link.
pub(crate) fn first_other(
    alloc: Global,
    old: &Lab,
    new: &Lab,
    state: &LabState,
    grown: &LabState,
) -> Result<Option<(Name, Option<Name>)>, Memory>
    requires lab { state.now.state.lab ≡ Some old.now }
    requires grown { IsGrown the_texts old.now new.now state.now.state.experiments grown.now.state }
    ensures { IfOk result (λ found. MatchOption found
        (AreStaying old.now new.now state.now.state.experiments grown.now.state.experiments)
        (λ told. IsOther old.now new.now state.now.state.experiments grown.now.state.experiments told.0)) }
{
    // for the prover: it tells what every lab keeps
    let _kept = state.lab();
    for number in 0..state.len() {
        let Some(own) = state.nth(number as u16) else {
            unreachable!()
        };
        let Some(other) = grown.nth(number as u16) else {
            unreachable!()
        };
        if !stays(alloc, old, new, own, other)? {
            let link = other_link(alloc, old, new, own, other)?;
            return Ok(Some((own.name, link)));
        }
    }
    Ok(None)
}

/// Whether an experiment moves.
fn moves(own: &Experiment) -> bool
    ensures { (result ≡ false) ↔ IsAtRest (own.now).phase }
{
    match &own.phase {
        Phase::Moving { .. } => true,
        Phase::Out => false,
        Phase::In { .. } => false,
    }
}

/// The first experiment that moves.
pub(crate) fn first_moving(state: &LabState) -> Option<Name>
    ensures { MatchOption result (AreAtRest state.now.state.experiments) (IsMoving state.now.state.experiments) }
{
    // for the prover: it tells what every lab keeps
    let _kept = state.lab();
    for number in 0..state.len() {
        let Some(own) = state.nth(number as u16) else {
            unreachable!()
        };
        if moves(own) {
            return Some(own.name);
        }
    }
    None
}
