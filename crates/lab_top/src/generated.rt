// A generated run.
ghost use Rattle.std.specs.Prelude.{◌≡◌, ◌≤◌, ℕ, List, Option, Some};
ghost use Rattle.lab_base.specs.Counts.{Rose};
ghost use Rattle.script_text.specs.declared.reply.Reply.{Reply as AnyReply};
ghost use Rattle.lab_core.specs.Sessions.{terms_of};
ghost use Rattle.lab_gen.specs.Summary.{IsTally, summary};
ghost use Rattle.lab_top.specs.Pieces.{Begun};
ghost use Rattle.lab_top.specs.Ran.{Finishes, Numbered, Ran, WroteSummary};

use crate::commands::obey_script;
use crate::reply_takers::Counter;
use crate::status::Status;
use cost_rule::StepRule;
use lab_gen::{Tally, TextSource, generate};
use lab_io::{Sink, write_all};
use plant::Tables;
use std::alloc::Global;

/// Writes the summary of the replies that were counted.
fn write_summary<K: Sink>(alloc: Global, seed: u64, tally: &Tally, sink: &mut K) -> Status
    ensures wrote { (replies : List AnyReply) → IsTally tally.now replies
        → WroteSummary (K.written sink.old) (K.written sink.new) (summary seed replies) result }
    ensures finishes { Finishes result }
    ensures write { result ≡ Status.WriteFault → Rose (K.faults sink.old) (K.faults sink.new) }
    ensures write_later { K.faults sink.old ≤ K.faults sink.new }
{
    let Ok(text) = tally.summary(alloc, seed) else {
        return Status::Memory;
    };
    match write_all(sink, text.bytes()) {
        Ok(()) => Status::Done,
        Err(_) => Status::WriteFault,
    }
}

/// Obeys the script of a seed, and writes the summary of the replies at its end.
pub(crate) fn run_generated<K: Sink, P: Tables>(
    alloc: Global,
    seed: u64,
    rule: &StepRule,
    sink: &mut K,
    plant: &mut P,
) -> Status
    ensures ran { (left : Option (List ℕ)) → (made : List Begun) × Ran (terms_of P.takes_drills rule.now.number) (Some (Numbered (Some seed)))
        (record { left = left; plant = P.seen plant.old; written = K.written sink.old })
        (record { left = left; plant = P.seen plant.new; written = K.written sink.new }) result made }
    ensures write { result ≡ Status.WriteFault → Rose (K.faults sink.old) (K.faults sink.new) }
    ensures write_later { K.faults sink.old ≤ K.faults sink.new }
{
    let Ok(text) = generate(alloc, seed) else {
        return Status::Memory;
    };
    let mut source = TextSource::new(text);
    let mut counter = Counter {
        tally: Tally::new(),
    };
    match obey_script(alloc, rule, &mut source, &mut counter, plant) {
        Status::Done => write_summary(alloc, seed, &counter.tally, sink),
        status => status,
    }
}
