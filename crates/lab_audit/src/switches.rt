// The rows in which a switch differs.
ghost use Rattle.std.specs.Prelude.{◌≡◌, ◌↔◌, ◌++◌, ℕ, List, map, filter_map, IfOk, OnOk};
ghost use Rattle.std.specs.List.{list_any};
ghost use Rattle.std.specs.Str.{bytes_eq};
ghost use Rattle.lab_base.specs.Lists.{Has, listed};
ghost use Rattle.phys_lab.specs.Labs.{Lab as AnyLab};
ghost use Rattle.virt_topo.specs.declared.experiment.Experiment.{Experiment as AnyExperiment};
ghost use Rattle.plant.specs.Worlds.{World};
ghost use Rattle.plant.specs.Readings.{IsEntry, entry_of};
ghost use Rattle.lab_audit.specs.Diff.{AreLinesOf};
ghost use Rattle.lab_audit.specs.Lines.{AreAllWanted, is_found, is_wanted_at, lacking_line, strange_line};

use crate::lines::in_order;
use crate::wanted::Wanted;
use lab_base::{Memory, Name, VlanId};
use script_text::AuditLine;
use std::alloc::Global;
use swap_plan::Port;

fn is_found(row: &Port, found: &[(u16, VlanId)]) -> bool
    ensures { result ≡ is_found row.now found.now }
{
    found
        .iter()
        .any(|entry| entry.0 == row.port && entry.1.0 == row.vlan.0)
}

fn is_on(row: &Port, switch: &Name) -> bool
    ensures { result ≡ bytes_eq (row.now).switch switch.now }
{
    row.switch == *switch
}

fn is_wanted_at(wanted: &Wanted, switch: &Name, entry: &(u16, VlanId)) -> bool
    ensures { result ≡ is_wanted_at switch.now entry.now wanted.now }
{
    is_on(&wanted.row, switch) && wanted.row.port == entry.0 && wanted.row.vlan.0 == entry.1.0
}

fn is_wanted(wanted: &[Wanted], switch: &Name, entry: &(u16, VlanId)) -> bool
    ensures { result ≡ list_any (is_wanted_at switch.now entry.now) wanted.now }
{
    wanted.iter().any(|row| is_wanted_at(row, switch, entry))
}

/// The line of a row that is wanted on the switch and doesn't stand.
fn lacking_line(switch: &Name, found: &[(u16, VlanId)], wanted: &Wanted) -> Option<AuditLine>
    ensures { result ≡ lacking_line switch.now found.now wanted.now }
{
    if wanted.stands && is_on(&wanted.row, switch) && !is_found(&wanted.row, found) {
        Some(AuditLine::Lacks {
            switch: *switch,
            port: wanted.row.port,
            vlan: wanted.row.vlan,
        })
    } else {
        None
    }
}

/// The line of a row that stands on the switch and isn't wanted.
fn strange_line(switch: &Name, wanted: &[Wanted], entry: &(u16, VlanId)) -> Option<AuditLine>
    ensures { result ≡ strange_line switch.now wanted.now entry.now }
{
    if is_wanted(wanted, switch, entry) {
        None
    } else {
        Some(AuditLine::Strange {
            switch: *switch,
            port: entry.0,
            vlan: entry.1,
        })
    }
}

fn push_some(lines: &mut Vec<AuditLine>, line: Option<AuditLine>) -> Result<(), Memory>
    ensures { OnOk result (lines.new.items ≡ lines.old.items ++ listed line) }
{
    if let Some(line) = line {
        lines.push(line)?;
    }
    Ok(())
}

fn push_lacking(
    lines: &mut Vec<AuditLine>,
    switch: &Name,
    found: &[(u16, VlanId)],
    wanted: &[Wanted],
) -> Result<(), Memory>
    ensures { OnOk result (lines.new.items ≡ lines.old.items ++ filter_map (lacking_line switch.now found.now) wanted.now) }
{
    for row in wanted {
        push_some(lines, lacking_line(switch, found, row))?;
    }
    Ok(())
}

fn push_strange(
    lines: &mut Vec<AuditLine>,
    switch: &Name,
    found: &[(u16, VlanId)],
    wanted: &[Wanted],
) -> Result<(), Memory>
    ensures { OnOk result (lines.new.items ≡ lines.old.items ++ filter_map (strange_line switch.now wanted.now) found.now) }
{
    for entry in found {
        push_some(lines, strange_line(switch, wanted, entry))?;
    }
    Ok(())
}

/// In what the rows that stand on a switch differ from those that are wanted there.
pub(crate) fn compare_switch(
    alloc: Global,
    switch: Name,
    found: &[(u16, VlanId)],
    wanted: &[Wanted],
) -> Result<Vec<AuditLine>, Memory>
    ensures { IfOk result (λ lines. (lab : AnyLab) (es : List AnyExperiment) (w : World) → AreAllWanted lab es wanted.now
        → ((e : ℕ × ℕ) → Has (map entry_of found.now) e ↔ IsEntry w switch e) → AreLinesOf lab es w switch lines.items) }
{
    let mut lines = Vec::new(alloc);
    push_lacking(&mut lines, &switch, found, wanted)?;
    push_strange(&mut lines, &switch, found, wanted)?;
    let ordered = in_order(alloc, &lines)?;
    Ok(ordered)
}
