//! Replies by a controller whose journal has a limit of its own.
ghost use Rattle.std.specs.Prelude.{◌≡◌, ◌≤◌, ◌^◌, None, IfOk, OnOk};
ghost use Rattle.virt_topo.specs.Soundness.{IsSound};
ghost use Rattle.lab_model.specs.Shapes.{IsShaped};
ghost use Rattle.cost_rule.specs.Cost.{cost};
ghost use Rattle.cost_rule.specs.Parts.{AreParts, cost_of_parts};
ghost use Rattle.lab_core.specs.Controller.{CanWork};
ghost use Rattle.script_text.specs.Blocks.{HasBlocks};
ghost use Rattle.script_text.specs.Drills.{drill_of};
ghost use Rattle.std.specs.Option.{ForSome};
ghost use Rattle.lab_folder.specs.Left.{IsLeft};

use crate::runs::blank;
use cost_rule::{CostFn, Parts, PartsFn, Rule, RuleNumber, StepFn, StepRule};
use folder::{Folder, NamedFolder};
use lab_base::{Kind, Memory};
use lab_core::Controller;
use lab_io::{LineReader, MemSource};
use mem_folder::MemFolder;
use phys_lab::Lab;
use plant::Tables;
use plant_file::FolderLab;
use row_files::{letters_in, script_of};
use row_words::RowFault;
use rule_costs::{cost_of, parts_cost, step_cost};
use script_text::{Command, Next, Reply, read_command, reply_text};
use std::alloc::Global;
use virt_topo::{Mapping, Wiring};

/// The most bytes of a journal.
const MOST: u64 = 4_294_967_296;

/// The next command of a script without drills.
fn next_of(
    alloc: Global,
    lines: &mut LineReader,
    script: &mut MemSource,
) -> Result<Command, RowFault>
    ensures blocks { IfOk result HasBlocks }
    ensures no_drill { IfOk result (λ command. drill_of command ≡ None) }
{
    let Ok(Next::Command(command)) = read_command(alloc, lines, script) else {
        return Err(RowFault::Word(Kind::Command));
    };
    match command.drill() {
        Some(_) => Err(RowFault::Word(Kind::Command)),
        None => Ok(command),
    }
}

/// The reply to a command, where the controller is of use after it.
fn obeyed<P: Tables>(
    controller: &mut Controller,
    command: &Command,
    rule: &StepRule,
    plant: &mut P,
) -> Result<Reply, RowFault>
    requires blocks { HasBlocks command.now }
    requires no_drill { drill_of command.now ≡ None }
    requires works { CanWork (P.seen plant.old) controller.old }
    ensures works { OnOk result (CanWork (P.seen plant.new) controller.new) }
{
    match controller.obey(command, rule, plant) {
        Ok(reply) => {
            if reply.closes() {
                Err(RowFault::Plant)
            } else {
                Ok(reply)
            }
        }
        Err(_) => Err(RowFault::Plant),
    }
}

/// The reply to the next command of a script.
fn reply_to_next<P: Tables>(
    alloc: Global,
    lines: &mut LineReader,
    script: &mut MemSource,
    controller: &mut Controller,
    rule: &StepRule,
    plant: &mut P,
) -> Result<Reply, RowFault>
    requires works { CanWork (P.seen plant.old) controller.old }
    ensures works { OnOk result (CanWork (P.seen plant.new) controller.new) }
{
    let command = next_of(alloc, lines, script)?;
    obeyed(controller, &command, rule, plant)
}

/// The reply to the third command of a script.
fn third_reply<P: Tables>(
    alloc: Global,
    script: &[u8],
    controller: &mut Controller,
    rule: &StepRule,
    plant: &mut P,
) -> Result<Reply, RowFault>
    requires works { CanWork (P.seen plant.old) controller.old }
{
    let mut lines = LineReader::new(alloc)?;
    let mut source = MemSource::new(alloc, script, &[])?;
    let _first = reply_to_next(alloc, &mut lines, &mut source, controller, rule, plant)?;
    let _second = reply_to_next(alloc, &mut lines, &mut source, controller, rule, plant)?;
    reply_to_next(alloc, &mut lines, &mut source, controller, rule, plant)
}

/// A plant over a folder.
fn plant_over<F: Folder + Drop>(alloc: Global, folder: F) -> FolderLab<F>
    requires { ForSome (F.told folder) IsLeft }
{
    FolderLab::over(alloc, folder)
}

/// A plant over a blank folder.
fn blank_plant(alloc: Global) -> Result<FolderLab<NamedFolder<MemFolder>>, Memory> {
    match blank(alloc) {
        Ok(folder) => Ok(plant_over(alloc, NamedFolder::over(alloc, folder))),
        Err(memory) => Err(memory),
    }
}

/// The reply to the third command of a script, by a controller with that limit over such a plant.
fn reply_under(alloc: Global, rule: &StepRule, limit: u64, script: &[u8]) -> Result<Reply, RowFault>
    requires least { 18 ≤ limit }
    requires most { limit ≤ 2 ^ 32 }
{
    let mut plant = blank_plant(alloc)?;
    let Ok(mut controller) = Controller::open(alloc, limit, &mut plant) else {
        return Err(RowFault::Plant);
    };
    third_reply(alloc, script, &mut controller, rule, &mut plant)
}

/// The reply under that limit, by the rule that serves where none is chosen.
fn reply_within(alloc: Global, limit: u64, script: &[u8]) -> Result<Reply, RowFault>
    requires least { 18 ≤ limit }
    requires most { limit ≤ 2 ^ 32 }
{
    let number = RuleNumber::Trunk;
    let by_number = move |lab: &Lab, wiring: &Wiring, mapping: &Mapping| -> u64
        requires { IsSound wiring.now × IsShaped lab.now wiring.now mapping.now }
        ensures { result ≡ cost number lab.now wiring.now mapping.now }
    { cost_of(number, lab, wiring, mapping) };
    let by_step = move |lab: &Lab, wiring: &Wiring, from: &Mapping, to: &Mapping, told: u64| -> u64
        requires { IsSound wiring.now × IsShaped lab.now wiring.now from.now × IsShaped lab.now wiring.now to.now
            × (told ≡ cost number lab.now wiring.now from.now) }
        ensures { result ≡ cost number lab.now wiring.now to.now }
    { step_cost(number, lab, wiring, from, to, told) };
    let by_parts = move |parts: Parts| -> u64
        requires { AreParts parts }
        ensures { result ≡ cost_of_parts number parts }
    { parts_cost(number, parts) };
    let Ok(whole) = Box::new(alloc, by_number) else {
        return Err(RowFault::Memory);
    };
    let Ok(step) = Box::new(alloc, by_step) else {
        return Err(RowFault::Memory);
    };
    let Ok(parted) = Box::new(alloc, by_parts) else {
        return Err(RowFault::Memory);
    };
    let whole: CostFn = whole;
    let step: StepFn = step;
    let parted: PartsFn = parted;
    let rule = StepRule::new(Rule::new(number, whole), step, parted);
    reply_under(alloc, &rule, limit, script)
}

/// The reply to the third command of a script, where the journal has at most so many bytes.
pub fn limit(rt: &HostRuntime, bytes: u64, file: &str) -> Result<String, RowFault> {
    if bytes < 18 || MOST < bytes {
        return Err(RowFault::Word(Kind::Range));
    }
    let script = script_of(rt, file)?;
    let reply = reply_within(rt.alloc(), bytes, script.as_bytes())?;
    let text = reply_text(rt.alloc(), &reply);
    drop(reply);
    letters_in(rt.alloc(), text?.bytes())
}
