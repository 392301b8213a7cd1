ghost use Rattle.std.specs.Prelude.{◌≡◌, ◌↔◌, ◌<◌, ◌≤◌, ◌+◌, ◌*◌, ℕ, List, [], count_by, take, length, if◌then◌else◌, false, None, IfOk, IfSome, IsErrOf, IsTrue, slice_get, Err, Some};
ghost use Rattle.lab_base.specs.Counts.{Rose};
ghost use Rattle.plant.specs.Disks.{disk};
ghost use Rattle.plant.specs.declared.step.Side.{Side as AnySide};
ghost use Rattle.plant.specs.declared.step.Side.TheVariants.{A, B};
ghost use Rattle.journal_rec.specs.declared.record.Found.{Found as AnyFound};
ghost use Rattle.journal_rec.specs.declared.record.Record.{Record as AnyRecord};
ghost use Rattle.journal_disk.specs.Standing.{limit_of, Holds};
ghost use Rattle.lab_model.specs.Sound.{is_moving};
ghost use Rattle.script_text.specs.Drills.{drill_of};
ghost use Rattle.script_text.specs.Blocks.{HasBlocks};
ghost use Rattle.lab_core.specs.Controller.{CanWork, Works, WorksWith};
ghost use Rattle.lab_core.specs.Moments.{IsNoJournal};
ghost use Rattle.lab_core.specs.Obey.{ObeysCommand};
ghost use Rattle.lab_core.specs.Opening.{AfterOpening, IsOfJournal, OpenTold, ReadTold};
ghost use Rattle.lab_core.specs.Sessions.{OpenSwap};
ghost use Rattle.swap_txn.specs.Steps.{live_of};
ghost use Rattle.swap_turns.specs.Causes.{IsLater};

use crate::CoreFault;
use crate::compaction::compact;
use cost_rule::StepRule;
use journal_disk::{HEADER, Journal, OpenFault};
use journal_rec::{Found, LAST_RECORD, MAX_JOURNAL};
use lab_judge::judge;
use lab_state::{LabState, ReplayFault};
use lab_tasks::{Present, Refusal, Span};
use plant::{Plant, Tables};
use recovery::{SettleFault, settle};
use script_text::{Command, Reply};
use std::alloc::Global;
use std::marker::Model;
use swap_mgr::Manager;
use virt_topo::{Experiment, Phase};

/// A lab over its journal, with the open swaps. Contracts see the lab with its experiments, the journal, and the states of the
/// open swaps.
#[derive(Drop)]
pub struct Controller {
    pub(crate) alloc: Global,
    pub(crate) lab: LabState,
    pub(crate) journal: Journal,
    pub(crate) swaps: Manager,
}

impl Model for Controller {
    ghost use Rattle.lab_core.specs.Controller.{Control, control};

    ghost Value = { Control };

    ghost view = { λ controller. control controller.lab.state controller.journal controller.swaps };
}

fn is_moving(experiment: &Experiment) -> bool
    ensures { result ≡ is_moving experiment.now }
{
    matches!(experiment.phase, Phase::Moving { .. })
}

/// Whether the experiment of that number moves.
fn moves(lab: &LabState, number: usize) -> bool
    requires { number < length lab.now.state.experiments }
    ensures { count_by is_moving (take (number + 1) lab.now.state.experiments)
        ≡ count_by is_moving (take number lab.now.state.experiments) + (if result then 1 else 0) }
{
    let _kept = lab.lab();
    match lab.nth(number as u16) {
        Some(experiment) => is_moving(experiment),
        None => false,
    }
}

/// How many experiments move.
fn moving(lab: &LabState) -> u64
    ensures { result ≡ count_by is_moving lab.now.state.experiments }
{
    let mut count = 0;
    for number in 0..lab.len() {
        if moves(lab, number) {
            count += 1;
        }
    }
    count
}

/// The position of the record of that number.
fn place_of(found: &[Found], index: usize) -> u64
    requires { index < length found.now }
    ensures { (record_there : AnyFound) × (slice_get found.now index ≡ Some record_there) × (result ≡ record_there.at) }
{
    found[index].at
}

/// The controller of a journal that holds these records.
fn of_journal(
    alloc: Global,
    limit: u64,
    journal: Journal,
    found: &[Found],
) -> Result<Controller, OpenFault>
    requires most { limit ≤ MAX_JOURNAL }
    requires holds { (rs : List AnyRecord) × Holds rs journal found.now }
    ensures is { (rs : List AnyRecord) → Holds rs journal found.now → IsOfJournal limit journal rs result }
    ensures alone { IfOk result (λ controller. controller.swaps ≡ []) }
{
    let lab = match LabState::replay(alloc, found) {
        Ok(lab) => lab,
        Err(ReplayFault::Bad { index }) => {
            return Err(OpenFault::Bad {
                side: journal.side(),
                at: place_of(found, index),
            });
        }
        Err(ReplayFault::Memory) => return Err(OpenFault::Memory),
    };
    let needed = journal.length().saturating_add(LAST_RECORD * moving(&lab));
    if limit < needed {
        return Err(OpenFault::Bad {
            side: journal.side(),
            at: journal.length() - 1,
        });
    }
    let Ok(swaps) = Manager::new(alloc) else {
        return Err(OpenFault::Memory);
    };
    Ok(Controller {
        alloc,
        lab,
        journal,
        swaps,
    })
}

/// Reads the journal, whose sides may have any length up to the limit, and finds the lab that its records stand for.
fn read<P: Plant>(alloc: Global, limit: u64, plant: &mut P) -> Result<Controller, OpenFault>
    requires least { HEADER ≤ limit }
    requires most { limit ≤ MAX_JOURNAL }
    // both sides were read, and the controller works over them
    ensures steps { ReadTold (P.seen plant.old).told (P.seen plant.new).told limit result }
    ensures works { IfOk result (λ controller. Works (P.seen plant.new).told controller) }
    ensures alone { IfOk result (λ controller. controller.swaps ≡ []) }
    ensures limit { IfOk result (λ controller. limit_of controller.journal ≡ limit) }
    // each fault has its cause
    ensures plant { IsErrOf result OpenFault.Plant → Rose (P.seen plant.old).faults.disk (P.seen plant.new).faults.disk }
    ensures later { (P.seen plant.old).faults.disk ≤ (P.seen plant.new).faults.disk }
    ensures devices { (P.seen plant.new).faults.devices ≡ (P.seen plant.old).faults.devices }
    ensures stopped { IsErrOf result OpenFault.Stopped ↔ IsTrue (P.seen plant.new).stopped }
{
    let (journal, found) = Journal::open(alloc, plant, limit)?;
    of_journal(alloc, limit, journal, &found)
}

/// Settles all experiments that move, in order of creation.
fn settle_all<P: Plant>(mut controller: Controller, plant: &mut P) -> Result<Controller, OpenFault>
    requires works { Works (P.seen plant.old).told controller }
    requires runs { (P.seen plant.old).stopped ≡ false }
    // each that moves was settled, or the call broke off
    ensures after { AfterOpening controller (P.seen plant.old) (P.seen plant.new) result }
    // the controller works, with its open swaps and on the side of its journal
    ensures works { IfOk result (λ settled. Works (P.seen plant.new).told settled) }
    ensures alone { IfOk result (λ settled. settled.swaps ≡ controller.swaps) }
    ensures limit { IfOk result (λ settled. limit_of settled.journal ≡ limit_of controller.journal) }
    ensures live { IfOk result (λ settled. live_of settled.journal ≡ live_of controller.journal) }
    // each fault has its cause
    ensures plant { IsErrOf result OpenFault.Plant → Rose (P.seen plant.old).faults.disk (P.seen plant.new).faults.disk }
    ensures later { IsLater (P.seen plant.old) (P.seen plant.new) }
    ensures stopped { IsErrOf result OpenFault.Stopped ↔ IsTrue (P.seen plant.new).stopped }
{
    match settle(
        controller.alloc,
        &mut controller.lab,
        &[],
        &mut controller.journal,
        plant,
    ) {
        Ok(_) => Ok(controller),
        Err(SettleFault::Plant) => Err(OpenFault::Plant),
        Err(SettleFault::Stopped) => Err(OpenFault::Stopped),
        Err(SettleFault::Memory) => Err(OpenFault::Memory),
    }
}

impl Controller {
    /// Opens the journal, whose sides may have any length up to the limit, and finds the lab of its records. Then it settles all experiments that
    /// move in that lab. One that gets stuck still moves, and the others go on.
    /// At last the journal moves onto its other side without the lab's past, where it is longer than a mebibyte, at most half of that is needed, and
    /// it has a next epoch.
    ///
    /// `Bad` has the side and the position of the first record that can't be read or can't follow. Where there is no room for the last records of the
    /// experiments that move, it has the last gate. Then nothing was settled. No swap is open yet.
    pub fn open<P: Plant>(alloc: Global, limit: u64, plant: &mut P) -> Result<Controller, OpenFault>
        requires least { HEADER ≤ limit }
        requires most { limit ≤ MAX_JOURNAL }
        // what was read, settled and moved, or where the journal is bad
        ensures steps { OpenTold (P.seen plant.old).told (P.seen plant.new).told limit result }
        ensures bad { (side : AnySide) (at : ℕ) → result ≡ Err (OpenFault.Bad side at)
            → IfSome (P.seen plant.new).told (λ t. IsNoJournal (disk A t.trace).reads (disk B t.trace).reads limit side at) }
        // the controller works, with no open swap
        ensures works { IfOk result (λ controller. WorksWith (P.seen plant.new) controller []) }
        ensures limit { IfOk result (λ controller. limit_of controller.journal ≡ limit) }
        // each fault has its cause
        ensures plant { IsErrOf result OpenFault.Plant → Rose (P.seen plant.old).faults.disk (P.seen plant.new).faults.disk }
        ensures later { IsLater (P.seen plant.old) (P.seen plant.new) }
        ensures stopped { IsErrOf result OpenFault.Stopped ↔ IsTrue (P.seen plant.new).stopped }
    {
        let controller = read(alloc, limit, plant)?;
        let controller = settle_all(controller, plant)?;
        compact(controller, plant)
    }

    /// Obeys a command whose blocks have the lines that its words say, and tells the reply. A drill is none of its commands:
    /// those are planned on the plant. Searches count costs by the rule. After a reply that closes, and after `Stopped`, the
    /// controller is of no use any more. Failures of devices are counted from the moment or from any before it, such as a mark
    /// that an opening lies after.
    /// `Stopped` is told exactly where the plant is stopped then, if it ran before the call: a command that sends nothing doesn't meet
    /// an earlier stop.
    ///
    /// A command that is neither a list of commands nor an audit is judged, and its task done.
    pub fn obey<P: Tables>(
        &mut self,
        command: &Command,
        rule: &StepRule,
        plant: &mut P,
    ) -> Result<Reply, CoreFault>
        requires blocks { HasBlocks command.now }
        requires no_drill { drill_of command.now ≡ None }
        requires works { CanWork (P.seen plant.old) self.old }
        ensures obeys { (opens : List OpenSwap) (devices : ℕ) → devices ≤ (P.seen plant.old).faults.devices → WorksWith (P.seen plant.old) self.old opens
            → ObeysCommand rule.now.number command.now devices (P.seen plant.old) (P.seen plant.new) self.old self.new opens result }
    {
        match command {
            Command::Play {
                exp,
                from,
                to,
                ns,
                ..
            } => {
                let span = Span {
                    from: *from,
                    to: *to,
                };
                self.play(*exp, span, ns.bytes(), plant)
            }
            Command::Batch { moment, text, .. } => self.serve(*moment, text.bytes(), rule, plant),
            Command::Audit => self.audit(plant),
            _ => {
                let present = Present {
                    state: &self.lab,
                    swaps: &self.swaps,
                };
                match judge(self.alloc, &present, command, rule) {
                    Ok(task) => self.perform(task, plant),
                    Err(Refusal::Refused(reply)) => Ok(reply),
                    Err(Refusal::Memory) => Err(CoreFault::Memory),
                }
            }
        }
    }
}
