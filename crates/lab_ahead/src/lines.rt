// The lines of a batch, by their fields after the keyword.
ghost use Rattle.std.specs.Prelude.{◌≡◌};
ghost use Rattle.lab_base.specs.Texts.{views};
ghost use Rattle.lab_ahead.specs.Batches.{PromiseRead, in_order, promise_line, run_line, run_of};

use crate::batch::{Promise, Run};
use lab_base::{Kind, Name, both, name_in, number_in};
use line_text::{field_at, short_in};

/// The last moment.
const LAST: u64 = 1_000_000_000_000;

/// A type, a number of nodes, the first moment and the one after the last.
type PromiseRead = Result<(Name, (u16, (u64, u64))), Kind>;

fn in_order(read: PromiseRead) -> Result<Promise, Kind>
    ensures { result ≡ in_order read }
{
    match read {
        Ok((kind, (count, (from, to)))) => {
            if from < to {
                Ok(Promise {
                    kind,
                    count,
                    from,
                    to,
                })
            } else {
                Err(Kind::Range)
            }
        }
        Err(kind) => Err(kind),
    }
}

/// Reads the fields of a `promise` line, after its keyword.
pub(crate) fn promise_in(fields: &[&[u8]]) -> Result<Promise, Kind>
    ensures { result ≡ promise_line (views fields.now) }
{
    if fields.len() != 4 {
        return Err(Kind::Fields);
    }
    let from = number_in(field_at(fields, 2), 0, LAST);
    let to = number_in(field_at(fields, 3), 0, LAST);
    let count = short_in(field_at(fields, 1), 1, 1_024);
    in_order(both(name_in(field_at(fields, 0)), both(count, both(from, to))))
}

fn run_of(read: Result<(Name, (u64, u64)), Kind>) -> Result<Run, Kind>
    ensures { result ≡ run_of read }
{
    match read {
        Ok((exp, (seed, length))) => Ok(Run { exp, seed, length }),
        Err(kind) => Err(kind),
    }
}

/// Reads the fields of a `run` line, after its keyword.
pub(crate) fn run_in(fields: &[&[u8]]) -> Result<Run, Kind>
    ensures { result ≡ run_line (views fields.now) }
{
    if fields.len() != 3 {
        return Err(Kind::Fields);
    }
    let seed = number_in(field_at(fields, 1), 0, u64::MAX);
    let length = number_in(field_at(fields, 2), 1, LAST);
    run_of(both(name_in(field_at(fields, 0)), both(seed, length)))
}
