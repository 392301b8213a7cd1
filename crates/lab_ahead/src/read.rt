ghost use Rattle.std.specs.Prelude.{◌≡◌, ◌<◌, IfOk, length};
ghost use Rattle.lab_base.specs.Texts.{views};
ghost use Rattle.line_text.specs.Reading.{and_then};
ghost use Rattle.line_text.specs.Refusals.{Reads, Takes};
ghost use Rattle.lab_ahead.specs.Batches.{KeepsLimits, added, batch_of_text, promise_line, run_line, start, with_promise, with_run};

use crate::batch::{Batch, Promise, Run};
use crate::lines::{promise_in, run_in};
use lab_base::{Items, Kind, TEXT_LIMIT, TextRefused};
use line_text::{AddLine, LineFault, read_lines};
use std::alloc::Global;

/// The most promises of a batch.
pub const MAX_PROMISES: usize = 64;

/// The most runs of a batch.
const MAX_RUNS: usize = 256;

fn add_promise(batch: &mut Batch, promise: Promise) -> Result<(), LineFault>
    ensures { Takes result batch.new (with_promise batch.old promise) }
{
    if batch.promises.len() >= MAX_PROMISES {
        return Err(LineFault::Kind(Kind::Limit));
    }
    batch.promises.push(promise)?;
    Ok(())
}

fn add_run(batch: &mut Batch, run: Run) -> Result<(), LineFault>
    ensures { Takes result batch.new (with_run batch.old run) }
{
    if batch.runs.len() >= MAX_RUNS {
        return Err(LineFault::Kind(Kind::Limit));
    }
    batch.runs.push(run)?;
    Ok(())
}

fn add_promise_line(batch: &mut Batch, fields: &[&[u8]]) -> Result<(), LineFault>
    ensures { Takes result batch.new (and_then (promise_line (views fields.now)) (with_promise batch.old)) }
{
    let promise = promise_in(fields)?;
    add_promise(batch, promise)
}

fn add_run_line(batch: &mut Batch, fields: &[&[u8]]) -> Result<(), LineFault>
    ensures { Takes result batch.new (and_then (run_line (views fields.now)) (with_run batch.old)) }
{
    let run = run_in(fields)?;
    add_run(batch, run)
}

impl AddLine for Batch {
    ghost use Rattle.lab_ahead.specs.declared.batch.Batch.{Batch};

    ghost Contents = { Batch };

    ghost contents = { λ batch. batch };

    ghost added = { λ _. added };

    fn add(&mut self, _alloc: Global, fields: &[&[u8]]) -> Result<(), LineFault> {
        match fields {
            [] => Err(LineFault::Kind(Kind::Word)),
            [keyword, rest @ ..] => {
                if *keyword == b"promise".as_slice() {
                    add_promise_line(self, rest)
                } else if *keyword == b"run".as_slice() {
                    add_run_line(self, rest)
                } else {
                    Err(LineFault::Kind(Kind::Word))
                }
            }
        }
    }
}

fn start(alloc: Global) -> Batch
    ensures { result ≡ start }
{
    Batch {
        promises: Items::new(alloc),
        runs: Items::new(alloc),
    }
}

/// Reads the lines of a batch: `promise TYPE COUNT FROM TO` and `run EXPERIMENT SEED LENGTH`.
/// COUNT is 1 to 1,024, moments are 0 to 10^12, FROM is below TO, LENGTH is 1 to 10^12. At most 64 lines are promises, and at most 256 runs.
/// The faults of a line are tried in the order `word`, `fields`, `name`, `number`, `range`, `limit`. The first line with a fault counts.
pub fn read_batch(alloc: Global, text: &[u8]) -> Result<Batch, TextRefused>
    requires { length text.now < TEXT_LIMIT }
    ensures batch { Reads result (batch_of_text text.now) }
    ensures limits { IfOk result KeepsLimits }
{
    let mut batch = start(alloc);
    read_lines(alloc, text, &mut batch)?;
    Ok(batch)
}
