// Judging a command.
ghost use Rattle.std.specs.Prelude.{◌≡◌, ◌<◌, ◌≤◌, None, IfOk, false, length, true};
ghost use Rattle.lab_base.specs.declared.fault.TextRefused.TheVariants as refusals;
ghost use Rattle.script_text.specs.Drills.{drill_of};
ghost use Rattle.script_text.specs.declared.reply.Reply.TheVariants as replies;
ghost use Rattle.top_text.specs.Canonical.{canonical_top};
ghost use Rattle.top_text.specs.Printable.{is_printable};
ghost use Rattle.virt_topo.specs.Soundness.{IsSound};
ghost use Rattle.script_text.specs.Blocks.{HasBlocks};
ghost use Rattle.lab_tasks.specs.Tasks.{CanDo, Gives, IsJudged, IsRefusedBy};
ghost use Rattle.lab_tasks.specs.Needs.{need_lab_and_name};
ghost use Rattle.lab_judge.specs.Judge.{is_unjudged, Judged, JudgedCreate, judged_create_top, judged_delete, judged_finish, judged_ptop, judged_recover, judged_show, judged_status, judged_swapout, judged_turn, judged_wiring};
ghost use Rattle.lab_tasks.specs.OpenNames.{has_open, has_open_for};

use crate::records::{create_record, delete_record, lab_record, way_out};
use crate::replies::{created_reply, lab_reply};
use crate::search::{judge_modify, judge_solve, judge_swapin};
use crate::views::{shown, status_lines};
use cost_rule::StepRule;
use lab_base::{MAX_PAYLOAD_TEXT, Name, TEXT_LIMIT, Text, TextRefused};
use lab_state::LabState;
use lab_tasks::{
    NewSwap, Present, Refusal, Task, bad_text, in_slot, judge_modify_with, judge_swapin_with,
    need_found, need_idle_in, need_idle_out, need_lab, need_lab_and_name, need_none, need_open,
    need_room,
};
use ns_text::{Printed, read_and_print};
use ptop_text::{print_ptop, read_ptop};
use script_text::{Command, Reply};
use std::alloc::Global;
use swap_plan::plan_out;
use top_text::{print_top, read_top};
use virt_topo::{Wiring, has_multiplexed};

fn bad_ptop(refused: TextRefused) -> Refusal
    ensures { IsRefusedBy replies.BadPtop refused result }
{
    match refused {
        TextRefused::Text(fault) => Refusal::Refused(Reply::BadPtop { fault }),
        TextRefused::Memory => Refusal::Memory,
    }
}

fn judge_ptop(alloc: Global, state: &LabState, text: &[u8]) -> Result<Task, Refusal>
    requires { length text.now < TEXT_LIMIT }
    ensures judged { Gives (judged_ptop state.now.state text.now) result }
    ensures can { IfOk result (CanDo state.now.state) }
{
    need_none(state)?;
    match read_ptop(alloc, text) {
        Ok(lab) => {
            let reply = lab_reply(&lab);
            let ptop = print_ptop(alloc, &lab)?;
            Ok(Task::Append {
                entry: lab_record(ptop),
                reply,
            })
        }
        Err(refused) => Err(bad_ptop(refused)),
    }
}

/// Judges a new experiment of a new name by the canonical text of its wiring.
fn judge_wiring(state: &LabState, exp: Name, wiring: &Wiring, top: Text) -> Result<Task, Refusal>
    // the name is new in a lab
    requires occupied { need_lab_and_name state.now.state exp ≡ Ok tt }
    // the text is that of the wiring, and a record can hold it
    requires sound { IsSound wiring.now }
    requires text { top ≡ canonical_top wiring.now }
    requires size { length top ≤ MAX_PAYLOAD_TEXT }
    requires printable { is_printable wiring.now ≡ true }
    // it is judged so, and can be done
    ensures judged { Gives (judged_wiring state.now.state exp wiring.now) result }
    ensures can { IfOk result (CanDo state.now.state) }
{
    need_room(state)?;
    let reply = created_reply(exp, wiring);
    Ok(Task::Append {
        entry: create_record(exp, top, has_multiplexed(wiring)),
        reply,
    })
}

fn judge_create_top(
    alloc: Global,
    state: &LabState,
    exp: Name,
    text: &[u8],
) -> Result<Task, Refusal>
    requires { length text.now < TEXT_LIMIT }
    ensures judged { Gives (judged_create_top state.now.state exp text.now) result }
    ensures can { IfOk result (CanDo state.now.state) }
{
    need_lab_and_name(state, exp)?;
    match read_top(alloc, text) {
        Ok(wiring) => {
            let top = print_top(alloc, &wiring)?;
            judge_wiring(state, exp, &wiring, top)
        }
        Err(refused) => Err(bad_text(exp, refused)),
    }
}

/// Judges an experiment by the network of an NS text.
fn judge_create(alloc: Global, state: &LabState, exp: Name, text: &[u8]) -> Result<Task, Refusal>
    requires { length text.now < TEXT_LIMIT }
    ensures judged { IsJudged (JudgedCreate state.now.state exp text.now) result }
    ensures can { IfOk result (CanDo state.now.state) }
{
    need_lab_and_name(state, exp)?;
    match read_and_print(alloc, text) {
        Ok(Printed { wiring, top }) => judge_wiring(state, exp, &wiring, top),
        Err(refused) => Err(bad_text(exp, refused)),
    }
}

fn judge_show(alloc: Global, state: &LabState, exp: Name) -> Result<Task, Refusal>
    ensures judged { Gives (judged_show state.now.state exp) result }
    ensures can { IfOk result (CanDo state.now.state) }
{
    let lab = need_lab(state)?;
    let experiment = need_found(state, exp)?;
    Ok(Task::Tell(shown(alloc, lab, experiment)?))
}

fn judge_delete(present: &Present, exp: Name) -> Result<Task, Refusal>
    ensures judged { Gives (judged_delete present.now.state.now.state (has_open present.now.swaps.now exp) exp) result }
    ensures can { IfOk result (CanDo present.now.state.now.state) }
{
    let _idle = need_idle_out(present, exp)?;
    Ok(Task::Append {
        entry: delete_record(exp),
        reply: Reply::Deleted { exp },
    })
}

fn judge_swapout(alloc: Global, present: &Present, exp: Name) -> Result<Task, Refusal>
    ensures judged { Gives (judged_swapout present.now.state.now.state (has_open present.now.swaps.now exp) exp) result }
    ensures can { IfOk result (CanDo present.now.state.now.state) }
{
    let (lab, experiment, mapping, tags) = need_idle_in(present, exp)?;
    let ops = plan_out(alloc, lab, &experiment.wiring, mapping, tags)?;
    Ok(Task::Swap(NewSwap {
        exp,
        way: way_out(exp),
        ops,
    }))
}

fn judge_turn(present: &Present, exp: Name) -> Result<Task, Refusal>
    ensures judged { Gives (judged_turn present.now.state.now.state (has_open present.now.swaps.now exp) exp) result }
    ensures can { IfOk result (CanDo present.now.state.now.state) }
{
    let _lab = need_lab(present.state)?;
    let _experiment = need_found(present.state, exp)?;
    need_open(present.swaps, exp)?;
    Ok(Task::Turn { exp })
}

fn judge_finish(present: &Present, exp: Name) -> Result<Task, Refusal>
    ensures judged { Gives (judged_finish present.now.state.now.state (has_open present.now.swaps.now exp) exp) result }
    ensures can { IfOk result (CanDo present.now.state.now.state) }
{
    let _lab = need_lab(present.state)?;
    let _experiment = need_found(present.state, exp)?;
    need_open(present.swaps, exp)?;
    Ok(Task::Finish { exp })
}

fn judge_status(alloc: Global, state: &LabState) -> Result<Task, Refusal>
    ensures judged { Gives (judged_status state.now.state) result }
    ensures can { IfOk result (CanDo state.now.state) }
{
    let _lab = need_lab(state)?;
    // There is a lab.
    let Some(claims) = state.claims() else {
        unreachable!()
    };
    let experiments = status_lines(alloc, state, claims)?;
    let (nodes, vlans) = claims.counted();
    Ok(Task::Tell(Reply::Listed {
        experiments,
        nodes,
        vlans,
    }))
}

fn judge_recover(state: &LabState) -> Result<Task, Refusal>
    ensures judged { Gives (judged_recover state.now.state) result }
    ensures can { IfOk result (CanDo state.now.state) }
{
    let _lab = need_lab(state)?;
    Ok(Task::Recover)
}

/// The task of a command whose blocks have the lines that its words say, or why it has none. A drill has none, and
/// neither has what isn't done by one judgement. The rule is that by which searches count costs.
pub fn judge(
    alloc: Global,
    present: &Present,
    command: &Command,
    rule: &StepRule,
) -> Result<Task, Refusal>
    requires blocks { HasBlocks command.now }
    requires no_drill { drill_of command.now ≡ None }
    requires alone { is_unjudged command.now ≡ false }
    ensures judged { IsJudged (Judged rule.now.number present.now.state.now.state (has_open_for present.now.swaps.now command.now)
        (length present.now.swaps.now) command.now) result }
    ensures can { IfOk result (CanDo present.now.state.now.state) }
{
    let state = present.state;
    match command {
        Command::Ptop { ptop, .. } => judge_ptop(alloc, state, ptop.bytes()),
        Command::Create { exp, ns, .. } => judge_create(alloc, state, *exp, ns.bytes()),
        Command::CreateTop { exp, top, .. } => judge_create_top(alloc, state, *exp, top.bytes()),
        Command::Show { exp } => judge_show(alloc, state, *exp),
        Command::Solve { exp, seed } => judge_solve(alloc, present, *exp, rule, *seed),
        Command::Swapin {
            only_begin,
            exp,
            seed,
        } => {
            let judged = judge_swapin(alloc, present, *exp, rule, *seed);
            in_slot(present.swaps, *only_begin, judged)
        }
        Command::Modify {
            only_begin,
            exp,
            seed,
            ns,
            ..
        } => {
            let judged = judge_modify(alloc, present, *exp, ns.bytes(), rule, *seed);
            in_slot(present.swaps, *only_begin, judged)
        }
        Command::SwapinWith {
            only_begin,
            exp,
            map,
            ..
        } => {
            let judged = judge_swapin_with(alloc, present, *exp, map.bytes());
            in_slot(present.swaps, *only_begin, judged)
        }
        Command::ModifyWith {
            only_begin,
            exp,
            top_lines,
            top,
            map,
            ..
        } => {
            let (top, map) = (top.bytes(), map.bytes());
            let judged = judge_modify_with(alloc, present, *exp, *top_lines, top, map);
            in_slot(present.swaps, *only_begin, judged)
        }
        Command::Swapout { only_begin, exp } => {
            in_slot(
                present.swaps,
                *only_begin,
                judge_swapout(alloc, present, *exp),
            )
        }
        Command::Turn { exp } => judge_turn(present, *exp),
        Command::Finish { exp } => judge_finish(present, *exp),
        Command::Fail { .. } | Command::FailDisk { .. } | Command::Stop { .. } => unreachable!(),
        Command::Play { .. } | Command::Batch { .. } | Command::Audit => unreachable!(),
        Command::Delete { exp } => judge_delete(present, *exp),
        Command::Recover => judge_recover(state),
        Command::Status => judge_status(alloc, state),
    }
}
