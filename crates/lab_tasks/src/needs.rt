// The needs of commands: each check gives a value, or the reply that refuses the command.
ghost use Rattle.std.specs.Prelude.{◌≡◌, ◌<◌, Ok, IfOk, OnOk, Result, length, true, false, None, Some};
ghost use Rattle.lab_base.specs.Lists.{Has};
ghost use Rattle.virt_topo.specs.declared.experiment.Experiment.{Experiment as AnyExperiment};
ghost use Rattle.virt_topo.specs.declared.experiment.Phase.TheVariants as phases;
ghost use Rattle.records_model.specs.Labs.{LabState as AnyLabState, Sane, find};
ghost use Rattle.script_text.specs.declared.reply.Reply.{Reply as AnyReply};
ghost use Rattle.script_text.specs.declared.reply.Reply.TheVariants as replies;
ghost use Rattle.top_text.specs.Printable.{is_printable};
ghost use Rattle.lab_tasks.specs.OpenNames.{has_open};
ghost use Rattle.lab_tasks.specs.Needs.{need_found, need_idle, need_idle_in, need_idle_out, need_in, need_lab, need_new, need_none, need_open, need_out, need_lab_and_name, need_room, need_slot};
ghost use Rattle.lab_tasks.specs.JudgeSwap.{IsInIn, IsOutIn};
ghost use Rattle.lab_tasks.specs.Mappings.{in_slot};
ghost use Rattle.lab_tasks.specs.Tasks.{Task as AnyTask, CanDo, Gives, IsRefusedBy, Refuses};

use crate::case::Present;
use crate::task::{Refusal, Task};
use claims::MAX_EXPERIMENTS;
use lab_base::{Name, Tags, TextRefused};
use lab_state::LabState;
use phys_lab::Lab;
use script_text::Reply;
use swap_mgr::{MAX_OPEN, Manager};
use virt_topo::{Experiment, Mapping, Phase};

/// A block of that experiment has no meaning.
pub fn bad_text(exp: Name, refused: TextRefused) -> Refusal
    ensures { IsRefusedBy (replies.Bad exp) refused result }
{
    match refused {
        TextRefused::Text(fault) => Refusal::Refused(Reply::Bad { exp, fault }),
        TextRefused::Memory => Refusal::Memory,
    }
}

/// The lab.
pub fn need_lab(state: &LabState) -> Result<&Lab, Refusal>
    ensures lab { IfOk result (λ lab. state.now.state.lab ≡ Some lab.now) }
    ensures refuses { Refuses (need_lab state.now.state.lab) result }
    ensures sane { Sane state.now.state }
    ensures printable { (e : AnyExperiment) → Has state.now.state.experiments e → is_printable e.wiring ≡ true }
{
    match state.lab() {
        Some(lab) => Ok(lab),
        None => Err(Refusal::Refused(Reply::NoLab)),
    }
}

/// No lab yet.
pub fn need_none(state: &LabState) -> Result<(), Refusal>
    ensures none { OnOk result (state.now.state.lab ≡ None) }
    ensures refuses { Refuses (need_none state.now.state.lab) result }
{
    match state.lab() {
        None => Ok(()),
        Some(_) => Err(Refusal::Refused(Reply::LabIsSet)),
    }
}

/// The experiment of that name.
pub fn need_found(state: &LabState, exp: Name) -> Result<&Experiment, Refusal>
    ensures found { IfOk result (λ e. find exp state.now.state.experiments ≡ Some e.now) }
    ensures refuses { Refuses (need_found exp (find exp state.now.state.experiments)) result }
{
    match state.experiment(exp) {
        Some(experiment) => Ok(experiment),
        None => Err(Refusal::Refused(Reply::Unknown { exp })),
    }
}

/// No experiment of that name.
fn need_new(state: &LabState, exp: Name) -> Result<(), Refusal>
    ensures new { OnOk result (find exp state.now.state.experiments ≡ None) }
    ensures refuses { Refuses (need_new exp (find exp state.now.state.experiments)) result }
{
    match state.experiment(exp) {
        None => Ok(()),
        Some(_) => Err(Refusal::Refused(Reply::Exists { exp })),
    }
}

/// A lab, and a name that is new in it.
pub fn need_lab_and_name(state: &LabState, exp: Name) -> Result<(), Refusal>
    ensures occupied { OnOk result (need_lab_and_name state.now.state exp ≡ Ok tt) }
    ensures refuses { Refuses (need_lab_and_name state.now.state exp) result }
{
    let _lab = need_lab(state)?;
    need_new(state, exp)
}

/// Room for one more experiment.
pub fn need_room(state: &LabState) -> Result<(), Refusal>
    ensures room { OnOk result (length state.now.state.experiments < MAX_EXPERIMENTS) }
    ensures refuses { Refuses (need_room state.now.state.experiments) result }
{
    if MAX_EXPERIMENTS <= state.len() {
        return Err(Refusal::Refused(Reply::FullExperiments));
    }
    Ok(())
}

/// No open swap of the experiment.
fn need_idle(swaps: &Manager, exp: Name) -> Result<(), Refusal>
    ensures idle { OnOk result (has_open swaps.now exp ≡ false) }
    ensures refuses { Refuses (need_idle exp (has_open swaps.now exp)) result }
{
    if swaps.is_open(exp) {
        return Err(Refusal::Refused(Reply::Busy { exp }));
    }
    Ok(())
}

/// An open swap of the experiment.
pub fn need_open(swaps: &Manager, exp: Name) -> Result<(), Refusal>
    ensures open { OnOk result (has_open swaps.now exp ≡ true) }
    ensures refuses { Refuses (need_open exp (has_open swaps.now exp)) result }
{
    if swaps.is_open(exp) {
        return Ok(());
    }
    Err(Refusal::Refused(Reply::NotOpen { exp }))
}

/// Room for one more open swap.
fn need_slot(swaps: &Manager) -> Result<(), Refusal>
    ensures slot { OnOk result (length swaps.now < MAX_OPEN) }
    ensures refuses { Refuses (need_slot (length swaps.now)) result }
{
    if MAX_OPEN <= swaps.count() {
        return Err(Refusal::Refused(Reply::FullSwaps));
    }
    Ok(())
}

/// A swap that nothing refuses needs room among the open swaps, and is only begun where its command says so.
pub fn in_slot(
    swaps: &Manager,
    only_begin: bool,
    judged: Result<Task, Refusal>,
) -> Result<Task, Refusal>
    ensures judged { (judgement : Result AnyTask AnyReply) → Gives judgement judged → Gives (in_slot (length swaps.now) only_begin judgement) result }
    ensures can { (s : AnyLabState) → IfOk judged (CanDo s) → IfOk result (CanDo s) }
{
    let task = judged?;
    match need_slot(swaps) {
        Ok(()) => Ok(task.begun_as(only_begin)),
        Err(refusal) => {
            drop(task);
            Err(refusal)
        }
    }
}

/// An experiment that is out.
fn need_out(exp: Name, phase: &Phase) -> Result<(), Refusal>
    ensures out { OnOk result (phase.now ≡ phases.Out) }
    ensures refuses { Refuses (need_out exp phase.now) result }
{
    match phase {
        Phase::Out => Ok(()),
        Phase::In { .. } => Err(Refusal::Refused(Reply::IsIn { exp })),
        Phase::Moving { .. } => Err(Refusal::Refused(Reply::IsMoving { exp })),
    }
}

/// Where an experiment is that is in.
fn need_in(exp: Name, phase: &Phase) -> Result<(&Mapping, &Tags), Refusal>
    ensures inside { IfOk result (λ occupied. phase.now ≡ phases.In occupied.0.now occupied.1.now) }
    ensures refuses { Refuses (need_in exp phase.now) result }
{
    match phase {
        Phase::In { mapping, tags } => Ok((mapping, tags)),
        Phase::Out => Err(Refusal::Refused(Reply::IsOut { exp })),
        Phase::Moving { .. } => Err(Refusal::Refused(Reply::IsMoving { exp })),
    }
}

/// An experiment that is out and has no open swap.
pub fn need_idle_out<'a>(
    present: &Present<'a>,
    exp: Name,
) -> Result<(&'a Lab, &'a Experiment), Refusal>
    ensures occupied { IfOk result (λ p. need_idle_out present.now.state.now.state (has_open present.now.swaps.now exp) exp ≡ Ok (p.0.now, p.1.now)) }
    ensures found { IfOk result (λ p. find exp present.now.state.now.state.experiments ≡ Some p.1.now) }
    ensures out { IfOk result (λ p. IsOutIn present.now.state.now.state p.0.now p.1.now) }
    ensures refuses { Refuses (need_idle_out present.now.state.now.state (has_open present.now.swaps.now exp) exp) result }
{
    let lab = need_lab(present.state)?;
    let experiment = need_found(present.state, exp)?;
    need_idle(present.swaps, exp)?;
    need_out(exp, &experiment.phase)?;
    Ok((lab, experiment))
}

/// An experiment that is in and has no open swap, and where it is.
pub fn need_idle_in<'a>(
    present: &Present<'a>,
    exp: Name,
) -> Result<(&'a Lab, &'a Experiment, &'a Mapping, &'a Tags), Refusal>
    ensures occupied { IfOk result (λ p. need_idle_in present.now.state.now.state (has_open present.now.swaps.now exp) exp ≡ Ok (p.0.now, p.1.now)) }
    ensures found { IfOk result (λ p. find exp present.now.state.now.state.experiments ≡ Some p.1.now) }
    ensures inside { IfOk result (λ p. IsInIn present.now.state.now.state p.0.now p.1.now p.2.now p.3.now) }
    ensures refuses { Refuses (need_idle_in present.now.state.now.state (has_open present.now.swaps.now exp) exp) result }
{
    let lab = need_lab(present.state)?;
    let experiment = need_found(present.state, exp)?;
    need_idle(present.swaps, exp)?;
    let (mapping, tags) = need_in(exp, &experiment.phase)?;
    Ok((lab, experiment, mapping, tags))
}
