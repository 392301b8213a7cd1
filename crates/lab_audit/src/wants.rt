// All rows that experiments want.
ghost use Rattle.std.specs.Prelude.{◌≡◌, ◌++◌, map, OnOk, Some, IfSome, true};
ghost use Rattle.virt_topo.specs.declared.mapping.Mapped.{Mapped as AnyMapped};
ghost use Rattle.lab_model.specs.Claims.{Which, claimed};
ghost use Rattle.lab_model.specs.Holding.{Suits};
ghost use Rattle.lab_audit.specs.Wants.{rows_as, rows_if, wanted_by};

use crate::wanted::Wanted;
use lab_base::{Memory, Tags};
use phys_lab::Lab;
use std::alloc::Global;
use swap_plan::{Port, rows_of};
use virt_topo::{Experiment, Mapped, Mapping, Phase, Wiring};

fn push_rows(wanted: &mut Vec<Wanted>, rows: &[Port], stands: bool) -> Result<(), Memory>
    ensures { OnOk result (wanted.new.items ≡ wanted.old.items ++ map (λ row. record { row = row; stands = stands }) rows.now) }
{
    for row in rows {
        wanted.push(Wanted {
            row: Port {
                switch: row.switch,
                port: row.port,
                vlan: row.vlan,
            },
            stands,
        })?;
    }
    Ok(())
}

fn push_if(
    alloc: Global,
    wanted: &mut Vec<Wanted>,
    lab: &Lab,
    mapped: &Option<Mapped>,
) -> Result<(), Memory>
    requires { IfSome mapped.now (Suits lab.now) }
    ensures { OnOk result (wanted.new.items ≡ wanted.old.items ++ rows_if lab.now mapped.now) }
{
    let Some(mapped) = mapped else {
        return Ok(());
    };
    let rows = rows_of(
        alloc,
        lab,
        &mapped.wiring,
        &mapped.mapping,
        mapped.tags.as_slice(),
    )?;
    push_rows(wanted, &rows, false)
}

fn push_standing(
    alloc: Global,
    wanted: &mut Vec<Wanted>,
    lab: &Lab,
    wiring: &Wiring,
    mapping: &Mapping,
    tags: &Tags,
) -> Result<(), Memory>
    requires { Suits lab.now (record { wiring = wiring.now; mapping = mapping.now; tags = tags.now }) }
    ensures { OnOk result (wanted.new.items
        ≡ wanted.old.items ++ rows_as lab.now true (record { wiring = wiring.now; mapping = mapping.now; tags = tags.now })) }
{
    let rows = rows_of(alloc, lab, wiring, mapping, tags.as_slice())?;
    push_rows(wanted, &rows, true)
}

/// Adds the rows that an experiment wants: one that moves those of both its mappings.
pub(crate) fn push_wanted(
    alloc: Global,
    wanted: &mut Vec<Wanted>,
    lab: &Lab,
    experiment: &Experiment,
) -> Result<(), Memory>
    requires { (which : Which) (m : AnyMapped) → claimed experiment.now which ≡ Some m → Suits lab.now m }
    ensures { OnOk result (wanted.new.items ≡ wanted.old.items ++ wanted_by lab.now experiment.now) }
{
    match &experiment.phase {
        Phase::Out => Ok(()),
        Phase::In { mapping, tags } => {
            push_standing(alloc, wanted, lab, &experiment.wiring, mapping, tags)
        }
        Phase::Moving { old, new } => {
            push_if(alloc, wanted, lab, old)?;
            push_if(alloc, wanted, lab, new)
        }
    }
}
