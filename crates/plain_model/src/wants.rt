// The rows that mappings want.
ghost use Rattle.std.specs.Prelude.{◌≡◌, ◌<◌, ◌++◌, true, length, map, All, IfOk, OnOk};
ghost use Rattle.virt_topo.specs.Ends.{end_nodes};
ghost use Rattle.virt_topo.specs.Cables.{cables};
ghost use Rattle.virt_topo.specs.Wirings.{mapped};
ghost use Rattle.lab_model.specs.Wants.{cable_rows, owned_rows, rows_of};
ghost use Rattle.lab_model.specs.Claims.{Old, New};
ghost use Rattle.lab_model.specs.Courses.{rows_from};
ghost use Rattle.plain_model.specs.OwnerView.{half_of};
ghost use Rattle.plain_model.specs.Holds.{fits_in, fits, all_fit, suits};
ghost use Rattle.plain_model.specs.Isolation.{wanted_by, wanted_in};
ghost use Rattle.plain_model.specs.WantedRows.{cable, of_link, owned_as};

use crate::{Owned, Owner, Wanted};
use lab_base::{IfaceId, Memory, Name, VlanId};
use phys_lab::Lab;
use std::alloc::Global;
use swap_plan::{Port, push_segment};
use virt_topo::{Experiment, Mapped, Mapping, Phase, Segment, Wiring};

fn of_link(row: &Port, link: Name) -> Owned
    ensures { result ≡ of_link link row.now }
{
    let row = Port {
        switch: row.switch,
        port: row.port,
        vlan: row.vlan,
    };
    Owned { row, link }
}

/// Adds the rows of a link or LAN.
fn push_rows(listed: &mut Vec<Owned>, link: Name, rows: &[Port]) -> Result<(), Memory>
    ensures { OnOk result (listed.new.items ≡ listed.old.items ++ map (of_link link) rows.now) }
{
    match rows.split_first() {
        Some((row, others)) => {
            listed.push(of_link(row, link))?;
            push_rows(listed, link, others)
        }
        None => Ok(()),
    }
}

/// Adds the rows of a segment with these plugs.
fn push_cable(
    alloc: Global,
    listed: &mut Vec<Owned>,
    lab: &Lab,
    vlan: VlanId,
    segment: &Segment,
    plugs: &[IfaceId],
) -> Result<(), Memory>
    requires { All (λ i. i.0 < length lab.now.ifaces) plugs.now }
    ensures { OnOk result (listed.new.items
        ≡ listed.old.items ++ map (of_link segment.now.owner) (cable_rows lab.now vlan.0 (cable segment.now plugs.now))) }
{
    let mut rows = Vec::new(alloc);
    push_segment(&mut rows, lab, vlan, plugs)?;
    push_rows(listed, segment.owner, &rows)
}

/// Adds the rows of segments with these plugs and VLAN ids.
fn push_cables(
    alloc: Global,
    listed: &mut Vec<Owned>,
    lab: &Lab,
    segments: &[Segment],
    plugs: &[IfaceId],
    tags: &[VlanId],
) -> Result<(), Memory>
    requires plugged { length plugs.now ≡ length (end_nodes segments.now) }
    requires within { All (λ i. i.0 < length lab.now.ifaces) plugs.now }
    ensures { OnOk result (listed.new.items ≡ listed.old.items ++ owned_rows lab.now (cables segments.now plugs.now) tags.now) }
{
    match (segments.split_first(), tags.split_first()) {
        (Some((segment, others)), Some((tag, rest))) => {
            let (own, later) = plugs.split_at(segment.ends.len());
            push_cable(alloc, listed, lab, *tag, segment, own)?;
            push_cables(alloc, listed, lab, others, later, rest)
        }
        _ => Ok(()),
    }
}

/// The rows of a mapping, each with the link or LAN that owns it.
pub(crate) fn owned_rows(
    alloc: Global,
    lab: &Lab,
    wiring: &Wiring,
    mapping: &Mapping,
    tags: &[VlanId],
) -> Result<Vec<Owned>, Memory>
    requires { suits lab.now (mapped wiring.now mapping.now tags.now) ≡ true }
    ensures { IfOk result (λ rows. rows.items ≡ rows_of lab.now (mapped wiring.now mapping.now tags.now)) }
{
    let mut rows = Vec::new(alloc);
    push_cables(
        alloc,
        &mut rows,
        lab,
        wiring.segments.as_slice(),
        mapping.plugs.as_slice(),
        tags,
    )?;
    Ok(rows)
}

fn owned_as(owned: &Owned, exp: Name, new: bool) -> Wanted
    ensures { result ≡ owned_as exp (half_of new) owned.now }
{
    let Owned { row, .. } = of_link(&owned.row, owned.link);
    Wanted {
        row,
        owner: Owner {
            exp,
            new,
            link: owned.link,
        },
    }
}

/// Adds the rows of an experiment's old or new mapping.
fn push_owned(listed: &mut Vec<Wanted>, exp: Name, new: bool, rows: &[Owned]) -> Result<(), Memory>
    ensures { OnOk result (listed.new.items ≡ listed.old.items ++ map (owned_as exp (half_of new)) rows.now) }
{
    match rows.split_first() {
        Some((row, others)) => {
            listed.push(owned_as(row, exp, new))?;
            push_owned(listed, exp, new, others)
        }
        None => Ok(()),
    }
}

/// Adds the rows of an experiment's old or new mapping, if there is one.
fn push_mapped(
    alloc: Global,
    listed: &mut Vec<Wanted>,
    lab: &Lab,
    exp: Name,
    new: bool,
    mapped: &Option<Mapped>,
) -> Result<(), Memory>
    requires { fits_in lab.now mapped.now ≡ true }
    ensures { OnOk result (listed.new.items ≡ listed.old.items ++ map (owned_as exp (half_of new)) (rows_from lab.now mapped.now)) }
{
    match mapped {
        Some(m) => {
            let rows = owned_rows(alloc, lab, &m.wiring, &m.mapping, m.tags.as_slice())?;
            push_owned(listed, exp, new, &rows)
        }
        None => Ok(()),
    }
}

/// Adds the rows of an experiment's old and new mapping.
fn push_wanted(
    alloc: Global,
    listed: &mut Vec<Wanted>,
    lab: &Lab,
    experiment: &Experiment,
) -> Result<(), Memory>
    requires { fits lab.now experiment.now ≡ true }
    ensures { OnOk result (listed.new.items ≡ listed.old.items ++ (wanted_by lab.now experiment.now Old ++ wanted_by lab.now experiment.now New)) }
{
    let exp = experiment.name;
    match &experiment.phase {
        Phase::Out => Ok(()),
        Phase::In { mapping, tags } => {
            let rows = owned_rows(alloc, lab, &experiment.wiring, mapping, tags.as_slice())?;
            push_owned(listed, exp, true, &rows)
        }
        Phase::Moving { old, new } => {
            push_mapped(alloc, listed, lab, exp, false, old)?;
            push_mapped(alloc, listed, lab, exp, true, new)
        }
    }
}

fn push_all(
    alloc: Global,
    listed: &mut Vec<Wanted>,
    lab: &Lab,
    experiments: &[Experiment],
) -> Result<(), Memory>
    requires { all_fit lab.now experiments.now ≡ true }
    ensures { OnOk result (listed.new.items ≡ listed.old.items ++ wanted_in lab.now experiments.now) }
{
    match experiments.split_first() {
        Some((experiment, others)) => {
            push_wanted(alloc, listed, lab, experiment)?;
            push_all(alloc, listed, lab, others)
        }
        None => Ok(()),
    }
}

/// The rows that experiments want, with their owners, where each claimed mapping suits the lab.
pub fn wanted_rows(
    alloc: Global,
    lab: &Lab,
    experiments: &[Experiment],
) -> Result<Vec<Wanted>, Memory>
    requires { all_fit lab.now experiments.now ≡ true }
    ensures { IfOk result (λ listed. listed.items ≡ wanted_in lab.now experiments.now) }
{
    let mut listed = Vec::new(alloc);
    push_all(alloc, &mut listed, lab, experiments)?;
    Ok(listed)
}
