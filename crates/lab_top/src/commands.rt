ghost use Rattle.std.specs.Prelude.{◌≡◌, ◌≢◌, ◌≤◌, List, Some};
ghost use Rattle.lab_base.specs.Counts.{Rose};
ghost use Rattle.lab_core.specs.Sessions.{terms_of};
ghost use Rattle.lab_top.specs.Pieces.{Begun};
ghost use Rattle.lab_top.specs.Ran.{Ran};
ghost use Rattle.lab_top.specs.Readers.{IsNew};
ghost use Rattle.lab_top.specs.ReplyTakers.{Took, replies_of};
ghost use Rattle.lab_words.specs.Words.{Usual};

use crate::command::{CommandFault, answer_command};
use crate::reply_takers::ReplyTaker;
use crate::status::Status;
use cost_rule::StepRule;
use lab_core::Controller;
use lab_io::{LineReader, Source};
use plant::Tables;
use script_text::{Next, ScriptFault, read_command};
use std::alloc::Global;

/// A run of a script: its lines, and the controller where it is open. It outlives the loop over its commands, so that no way out of that ends it.
#[derive(Drop)]
struct Run {
    lines: LineReader,
    controller: Option<Controller>,
}

/// Obeys the commands of a script one after another, and tells the reply to each before it reads the next.
fn obey_commands<S: Source, T: ReplyTaker, P: Tables>(
    alloc: Global,
    run: &mut Run,
    rule: &StepRule,
    source: &mut S,
    taker: &mut T,
    plant: &mut P,
) -> Status
    requires lines { IsNew run.old.lines }
    requires closed { run.old.controller ≡ None }
    ensures ran { (made : List Begun) × Ran (terms_of P.takes_drills rule.now.number) (Some Usual)
        (record { left = S.left source.old; plant = P.seen plant.old; written = T.written taker.old })
        (record { left = S.left source.new; plant = P.seen plant.new; written = T.written taker.new }) result made
        × (result ≡ Status.Done → Took T.takes taker.old (replies_of made) taker.new) }
    ensures read { result ≡ Status.ReadFault → Rose (S.faults source.old) (S.faults source.new) }
    ensures calm { result ≢ Status.ReadFault → S.faults source.new ≡ S.faults source.old }
    ensures read_later { S.faults source.old ≤ S.faults source.new }
    ensures write { result ≡ Status.WriteFault → Rose (T.faults taker.old) (T.faults taker.new) }
    ensures write_later { T.faults taker.old ≤ T.faults taker.new }
{
    'commands: loop {
        match read_command(alloc, &mut run.lines, source) {
            Ok(Next::Command(command)) => {
                match answer_command(alloc, &mut run.controller, command, rule, taker, plant) {
                    Ok(()) => {}
                    Err(CommandFault::Memory) => return Status::Memory,
                    Err(CommandFault::WriteFault) => return Status::WriteFault,
                    Err(CommandFault::JournalBad { side, at }) => {
                        return Status::JournalBad { side, at };
                    }
                }
            }
            Ok(Next::End) => return Status::Done,
            Err(ScriptFault::Bad { line }) => return Status::BadScript { line },
            Err(ScriptFault::ReadFault) => return Status::ReadFault,
            Err(ScriptFault::Memory) => return Status::Memory,
        }
    }
}

/// Obeys a script from its first line to its end.
pub(crate) fn obey_script<S: Source, T: ReplyTaker, P: Tables>(
    alloc: Global,
    rule: &StepRule,
    source: &mut S,
    taker: &mut T,
    plant: &mut P,
) -> Status
    ensures ran { (made : List Begun) × Ran (terms_of P.takes_drills rule.now.number) (Some Usual)
        (record { left = S.left source.old; plant = P.seen plant.old; written = T.written taker.old })
        (record { left = S.left source.new; plant = P.seen plant.new; written = T.written taker.new }) result made
        × (result ≡ Status.Done → Took T.takes taker.old (replies_of made) taker.new) }
    ensures read { result ≡ Status.ReadFault → Rose (S.faults source.old) (S.faults source.new) }
    ensures calm { result ≢ Status.ReadFault → S.faults source.new ≡ S.faults source.old }
    ensures read_later { S.faults source.old ≤ S.faults source.new }
    ensures write { result ≡ Status.WriteFault → Rose (T.faults taker.old) (T.faults taker.new) }
    ensures write_later { T.faults taker.old ≤ T.faults taker.new }
{
    let Ok(lines) = LineReader::new(alloc) else {
        return Status::Memory;
    };
    let mut run = Run {
        lines,
        controller: None,
    };
    let status = obey_commands(alloc, &mut run, rule, source, taker, plant);
    drop(run);
    status
}
