// Judging a change of an experiment that is in.
ghost use Rattle.std.specs.Prelude.{◌≡◌, ◌+◌, ◌<◌, ◌≤◌, ◌^◌, IfOk, OnOk, Some, length, true};
ghost use Rattle.lab_base.specs.Lists.{Has};
ghost use Rattle.lab_base.specs.declared.fault.TextFault.{TextFault as AnyTextFault};
ghost use Rattle.lab_base.specs.declared.fault.TextRefused.TheVariants as refusals;
ghost use Rattle.lab_base.specs.declared.ids.VlanId.{VlanId as AnyVlanId};
ghost use Rattle.virt_topo.specs.Wirings.{mapped};
ghost use Rattle.lab_model.specs.Courses.{commands, undo};
ghost use Rattle.lab_model.specs.Shapes.{IsShaped};
ghost use Rattle.script_text.specs.declared.reply.Reply.TheVariants as replies;
ghost use Rattle.swap_plan.specs.Plans.{IsFit};
ghost use Rattle.solution_text.specs.CanonicalSolution.{canonical_solution};
ghost use Rattle.top_text.specs.Canonical.{canonical_top};
ghost use Rattle.top_text.specs.Printable.{is_printable};
ghost use Rattle.virt_topo.specs.Soundness.{IsSound};
ghost use Rattle.lab_tasks.specs.OpenNames.{has_open};
ghost use Rattle.lab_tasks.specs.Mappings.{after_lines, judged_change, judged_modify_with, task_over};
ghost use Rattle.lab_tasks.specs.JudgeSwap.{IsInIn, IsTaskOf, Keeps, change_of, way_over};
ghost use Rattle.lab_tasks.specs.Tasks.{CanDo, Gives, IsRefusedBy, task_of};

use crate::case::{Case, Present};
use crate::needs::{bad_text, need_idle_in};
use crate::swap::{need_feasible, take_tags};
use crate::task::{NewSwap, Refusal, Task};
use crate::ways::way_over;
use lab_base::{MAX_PAYLOAD_TEXT, Memory, Name, TEXT_LIMIT, Tags, Text, TextFault, TextRefused};
use phys_lab::Lab;
use script_text::Reply;
use solution_text::{print_solution, read_solution};
use std::alloc::Global;
use swap_plan::{Ops, plan_change};
use top_text::{print_top, read_top};
use virt_topo::{Mapped, Mapping, Wiring, has_multiplexed};

/// The second block of that experiment has no meaning. Its lines are counted after those of the first.
fn bad_after(exp: Name, lines: u16, refused: TextRefused) -> Refusal
    requires { (fault : AnyTextFault) → refused ≡ refusals.Text fault → lines + fault.line < 2 ^ 32 }
    ensures { IsRefusedBy (λ fault. replies.Bad exp (after_lines lines fault)) refused result }
{
    match refused {
        TextRefused::Text(TextFault { line, kind }) => Refusal::Refused(Reply::Bad {
            exp,
            fault: TextFault {
                line: lines as u32 + line,
                kind,
            },
        }),
        TextRefused::Memory => Refusal::Memory,
    }
}

/// An equal mapping with its wiring and VLAN ids.
fn mapped_copy(
    alloc: Global,
    wiring: &Wiring,
    mapping: &Mapping,
    tags: &Tags,
) -> Result<Mapped, Memory>
    ensures { IfOk result (λ copy. copy ≡ mapped wiring.now mapping.now tags.now) }
{
    let wiring = wiring.copy(alloc)?;
    let mapping = mapping.copy(alloc)?;
    let tags = tags.copy(alloc)?;
    Ok(Mapped {
        wiring,
        mapping,
        tags,
    })
}

/// The commands of a change, and the texts of what it leads to.
#[derive(Drop)]
struct Over {
    ops: Ops,
    top: Text,
    map: Text,
}

/// Plans the commands of a change and prints what it leads to.
fn over_to(alloc: Global, lab: &Lab, old: &Mapped, new: &Mapped) -> Result<Over, Memory>
    // both sides can be planned
    requires old_fit { IsFit lab.now old.now }
    requires new_fit { IsFit lab.now new.now }
    // the commands, and those of the undo
    ensures commands { IfOk result (λ over. over.ops.commands ≡ commands lab.now (Some old.now) (Some new.now)) }
    ensures undo { IfOk result (λ over. over.ops.undo ≡ undo lab.now (Some old.now) (Some new.now)) }
    // the texts, which a record can hold
    ensures top { IfOk result (λ over. over.top ≡ canonical_top new.now.wiring) }
    ensures map { IfOk result (λ over. over.map ≡ canonical_solution lab.now new.now.wiring new.now.mapping) }
    ensures short_top { IfOk result (λ over. length over.top ≤ MAX_PAYLOAD_TEXT) }
    ensures short_map { IfOk result (λ over. length over.map ≤ MAX_PAYLOAD_TEXT) }
    ensures printable { OnOk result (is_printable new.now.wiring ≡ true) }
{
    let top = print_top(alloc, &new.wiring)?;
    let map = print_solution(alloc, lab, &new.wiring, &new.mapping)?;
    let ops = plan_change(alloc, lab, old, new)?;
    Ok(Over { ops, top, map })
}

/// Plans the change of an experiment from where it is in.
fn plan_swap_over(
    alloc: Global,
    lab: &Lab,
    exp: Name,
    old: &Mapped,
    new: Mapped,
) -> Result<Task, Memory>
    requires old_fit { IsFit lab.now old.now }
    requires new_fit { IsFit lab.now new }
    requires ids { (tag : AnyVlanId) → Has new.tags tag → tag.0 < 2 ^ 16 }
    ensures task { IfOk result (IsTaskOf lab.now (change_of exp old.now new) (way_over lab.now new)) }
    ensures printable { OnOk result (is_printable new.wiring ≡ true) }
{
    let over = over_to(alloc, lab, old, &new);
    let second = has_multiplexed(&new.wiring);
    let Mapped {
        wiring,
        mapping,
        tags,
    } = new;
    drop(wiring);
    drop(mapping);
    let Over { ops, top, map } = over?;
    Ok(Task::Swap(NewSwap {
        exp,
        way: way_over(exp, top, map, tags, second),
        ops,
    }))
}

/// Changes an experiment that is in there to a mapping of another wiring that keeps all rules.
pub fn change_to(
    alloc: Global,
    case: &Case,
    occupied: (&Mapping, &Tags),
    wiring: Wiring,
    mapping: Mapping,
) -> Result<Task, Memory>
    requires inside { IsInIn case.now.state.now.state case.now.lab.now case.now.experiment.now occupied.0.now occupied.1.now }
    requires sound { IsSound wiring }
    requires keeps { Keeps case.now.state.now.state case.now.lab.now case.now.experiment.now wiring mapping }
    ensures task { IfOk result (λ task. task_of task ≡ task_over case.now.state.now.state case.now.lab.now case.now.experiment.now wiring mapping) }
    ensures can { IfOk result (CanDo case.now.state.now.state) }
{
    let tags = take_tags(alloc, case, &wiring)?;
    let old = mapped_copy(alloc, &case.experiment.wiring, occupied.0, occupied.1)?;
    let new = Mapped {
        wiring,
        mapping,
        tags,
    };
    let planned = plan_swap_over(alloc, case.lab, case.experiment.name, &old, new);
    drop(old);
    planned
}

/// Judges a mapping of another wiring for an experiment that is in there.
pub(crate) fn judge_change(
    alloc: Global,
    case: &Case,
    occupied: (&Mapping, &Tags),
    wiring: Wiring,
    mapping: Mapping,
) -> Result<Task, Refusal>
    requires inside { IsInIn case.now.state.now.state case.now.lab.now case.now.experiment.now occupied.0.now occupied.1.now }
    requires sound { IsSound wiring }
    requires shaped { IsShaped case.now.lab.now wiring mapping }
    ensures judged { Gives (judged_change case.now.state.now.state case.now.lab.now case.now.experiment.now wiring mapping) result }
    ensures can { IfOk result (CanDo case.now.state.now.state) }
{
    if let Err(refusal) = need_feasible(alloc, case, &wiring, &mapping) {
        drop(wiring);
        drop(mapping);
        return Err(refusal);
    }
    let task = change_to(alloc, case, occupied, wiring, mapping)?;
    Ok(task)
}

/// Judges a change by a given wiring and solution; `lines` is the number of lines of the wiring's block.
pub fn judge_modify_with(
    alloc: Global,
    present: &Present,
    exp: Name,
    lines: u16,
    top: &[u8],
    map: &[u8],
) -> Result<Task, Refusal>
    requires top { length top.now < TEXT_LIMIT }
    requires map { length map.now < 2 ^ 31 }
    ensures judged { Gives (judged_modify_with present.now.state.now.state (has_open present.now.swaps.now exp) exp lines top.now map.now) result }
    ensures can { IfOk result (CanDo present.now.state.now.state) }
{
    let (lab, experiment, mapping, tags) = need_idle_in(present, exp)?;
    let case = Case {
        state: present.state,
        lab,
        experiment,
    };
    let wiring = match read_top(alloc, top) {
        Ok(wiring) => wiring,
        Err(refused) => return Err(bad_text(exp, refused)),
    };
    match read_solution(alloc, map, lab, &wiring) {
        Ok(given) => judge_change(alloc, &case, (mapping, tags), wiring, given),
        Err(refused) => Err(bad_after(exp, lines, refused)),
    }
}
