ghost use Rattle.std.specs.Prelude.{◌≡◌, ◌↔◌, ◌≤◌, ℕ, List, None, IsErrOf, IsTrue, true, false, Err, OnOk, OnErr};
ghost use Rattle.lab_base.specs.Counts.{Rose};
ghost use Rattle.plant.specs.declared.moment.Faults.{Faults as AnyFaults};
ghost use Rattle.plant.specs.declared.step.Side.{Side as AnySide};
ghost use Rattle.script_text.specs.Blocks.{HasBlocks};
ghost use Rattle.script_text.specs.Drills.{drill_of};
ghost use Rattle.lab_core.specs.Sessions.{OpenSwap, Session, terms_of};
ghost use Rattle.lab_top.specs.Answering.{Answered, Ends, HasSession, IsMarkAt, IsOpen, Makes, MayGoOn, MayOpen, Plans, Starts, Unopened, reply_if};
ghost use Rattle.lab_top.specs.Pieces.{Later, closes_if};

use crate::reply_takers::ReplyTaker;
use cost_rule::StepRule;
use journal_rec::MAX_JOURNAL;
use lab_core::{Controller, CoreFault, OpenFault};
use plant::{Drill, DrillFault, Plant, Side, Tables};
use script_text::{Command, Reply};
use std::alloc::Global;

/// Why a command has no reply, or not a whole one.
#[derive(Clone, Copy, PartialEq, Eq)]
pub(crate) enum CommandFault {
    /// Memory was wanting.
    Memory,
    /// The reply could not be written.
    WriteFault,
    /// The sides are no journal.
    JournalBad { side: Side, at: u64 },
}

/// Starts a stopped plant again, and tells that it stopped.
fn start_again<P: Plant>(plant: &mut P) -> Result<Reply, CommandFault>
    requires { IsTrue (P.seen plant.old).stopped }
    ensures starts { Starts (P.seen plant.old).told (P.seen plant.new).told result }
    ensures runs { OnOk result ((P.seen plant.new).stopped ≡ false) }
    ensures halts { OnErr result ((P.seen plant.new).stopped ≡ true) }
    ensures faults { (P.seen plant.new).faults ≡ (P.seen plant.old).faults }
{
    match plant.restart() {
        Ok(()) => Ok(Reply::Stopped),
        Err(_) => Err(CommandFault::Memory),
    }
}

/// The reply where the controller could not be opened.
fn unopened<P: Plant>(fault: OpenFault, plant: &mut P) -> Result<Reply, CommandFault>
    requires { fault ≡ OpenFault.Stopped ↔ IsTrue (P.seen plant.old).stopped }
    ensures unopened { Unopened fault (P.seen plant.old).told (P.seen plant.new).told result }
    ensures runs { OnOk result ((P.seen plant.new).stopped ≡ false) }
    ensures bad { (side : AnySide) (at : ℕ) → result ≡ Err (CommandFault.JournalBad side at) → (P.seen plant.new).stopped ≡ false }
    ensures halts { fault ≡ OpenFault.Stopped → OnErr result ((P.seen plant.new).stopped ≡ true) }
    ensures faults { (P.seen plant.new).faults ≡ (P.seen plant.old).faults }
{
    match fault {
        OpenFault::Plant => Ok(Reply::Down),
        OpenFault::Stopped => start_again(plant),
        OpenFault::Bad { side, at } => Err(CommandFault::JournalBad { side, at }),
        OpenFault::Memory => Err(CommandFault::Memory),
    }
}

/// Obeys a command by an open controller, which stays open but for a reply that closes it.
fn obey_open<P: Tables>(
    mut opened: Controller,
    controller: &mut Option<Controller>,
    command: &Command,
    rule: &StepRule,
    plant: &mut P,
) -> Result<Reply, CommandFault>
    requires blocks { HasBlocks command.now }
    requires no_drill { drill_of command.now ≡ None }
    requires taken { controller.old ≡ None }
    requires open { MayOpen (P.seen plant.old) opened }
    requires runs { (P.seen plant.old).stopped ≡ false }
    ensures makes { (mark : AnyFaults) (swaps : List OpenSwap) → IsMarkAt mark (P.seen plant.old) → IsOpen (P.seen plant.old) opened swaps
        → Makes (terms_of P.takes_drills rule.now.number) mark command.now (P.seen plant.old) opened swaps
        (record { plant = P.seen plant.new; controller = controller.new }) (reply_if result) }
    ensures memory { OnErr result (result ≡ Err CommandFault.Memory) }
    ensures runs { OnOk result ((P.seen plant.new).stopped ≡ false) }
    ensures disk { closes_if (reply_if result) ≡ true → Rose (P.seen plant.old).faults.disk (P.seen plant.new).faults.disk }
    ensures later { Later (P.seen plant.old).faults (P.seen plant.new).faults }
{
    match opened.obey(command, rule, plant) {
        Ok(reply) => {
            if reply.closes() {
                drop(opened);
            } else {
                drop(controller.replace(opened));
            }
            Ok(reply)
        }
        Err(CoreFault::Stopped) => {
            drop(opened);
            start_again(plant)
        }
        Err(CoreFault::Memory) => {
            drop(opened);
            Err(CommandFault::Memory)
        }
    }
}

/// Obeys a command that is no drill, after it has opened the controller where it is closed.
fn obey<P: Tables>(
    alloc: Global,
    controller: &mut Option<Controller>,
    command: &Command,
    rule: &StepRule,
    plant: &mut P,
) -> Result<Reply, CommandFault>
    requires blocks { HasBlocks command.now }
    requires no_drill { drill_of command.now ≡ None }
    requires goes_on { MayGoOn (record { plant = P.seen plant.old; controller = controller.old }) }
    ensures { (from : Session) → HasSession (record { plant = P.seen plant.old; controller = controller.old }) from
        → Ends (terms_of P.takes_drills rule.now.number) command.now
        (record { plant = P.seen plant.old; controller = controller.old })
        (record { plant = P.seen plant.new; controller = controller.new }) from result }
{
    match controller.take() {
        Some(opened) => obey_open(opened, controller, command, rule, plant),
        None => match Controller::open(alloc, MAX_JOURNAL, plant) {
            Ok(opened) => obey_open(opened, controller, command, rule, plant),
            Err(fault) => unopened(fault, plant),
        },
    }
}

/// Plans a failure on the plant itself.
fn plan<P: Plant>(drill: Drill, plant: &mut P) -> Result<Reply, CommandFault>
    ensures plans { Plans P.takes_drills drill (P.seen plant.old).told (P.seen plant.new).told result }
    ensures faults { (P.seen plant.new).faults ≡ (P.seen plant.old).faults }
    ensures stopped { (P.seen plant.new).stopped ≡ (P.seen plant.old).stopped }
{
    match plant.drill(drill) {
        Ok(()) => Ok(Reply::Planned),
        Err(DrillFault::CannotPlan) => Ok(Reply::NoDrill),
        Err(DrillFault::Memory) => Err(CommandFault::Memory),
    }
}

/// The reply to a command. A drill leaves the controller as it is, open or closed.
fn reply_to<P: Tables>(
    alloc: Global,
    controller: &mut Option<Controller>,
    command: &Command,
    rule: &StepRule,
    plant: &mut P,
) -> Result<Reply, CommandFault>
    requires blocks { HasBlocks command.now }
    requires goes_on { MayGoOn (record { plant = P.seen plant.old; controller = controller.old }) }
    ensures { (from : Session) → HasSession (record { plant = P.seen plant.old; controller = controller.old }) from
        → Ends (terms_of P.takes_drills rule.now.number) command.now
        (record { plant = P.seen plant.old; controller = controller.old })
        (record { plant = P.seen plant.new; controller = controller.new }) from result }
{
    match command.drill() {
        Some(drill) => plan(drill, plant),
        None => obey(alloc, controller, command, rule, plant),
    }
}

/// Marks the moment, obeys a command or plans the failure of a drill, and tells the reply.
pub(crate) fn answer_command<T: ReplyTaker, P: Tables>(
    alloc: Global,
    controller: &mut Option<Controller>,
    command: Command,
    rule: &StepRule,
    taker: &mut T,
    plant: &mut P,
) -> Result<(), CommandFault>
    requires blocks { HasBlocks command }
    requires goes_on { MayGoOn (record { plant = P.seen plant.old; controller = controller.old }) }
    ensures answered { (from : Session) → HasSession (record { plant = P.seen plant.old; controller = controller.old }) from
        → Answered (terms_of P.takes_drills rule.now.number) command
        (record { plant = P.seen plant.old; controller = controller.old })
        (record { plant = P.seen plant.new; controller = controller.new }) from
        (T.written taker.old) (T.written taker.new) (λ reply. T.takes taker.old reply taker.new) result }
    ensures write { IsErrOf result CommandFault.WriteFault → Rose (T.faults taker.old) (T.faults taker.new) }
    ensures later { T.faults taker.old ≤ T.faults taker.new }
{
    let Ok(()) = plant.mark() else {
        return Err(CommandFault::Memory);
    };
    match reply_to(alloc, controller, &command, rule, plant) {
        Ok(reply) => taker.take_reply(alloc, &reply),
        Err(fault) => Err(fault),
    }
}
