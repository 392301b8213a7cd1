//! The rates that an event gives to a pipe.

ghost use Rattle.std.specs.Prelude.{◌≡◌};
ghost use Rattle.ns_events.specs.Changes as changes;
ghost use Rattle.ns_events.specs.Renewed.{renewed_pipe};

use crate::What;
use lab_base::Rates;
use net_plan::{lan_pipe, link_pipe};
use virt_topo::Pipe;

/// A loss that nothing passes, in millionths.
const EVERYTHING: u32 = 1_000_000;

/// These rates with everything lost.
fn lost(rates: Rates) -> Rates
    ensures { result ≡ changes.lost rates }
{
    Rates {
        kbps: rates.kbps,
        micros: rates.micros,
        ppm: EVERYTHING,
    }
}

/// The pipe of a shaped link, which has one, or of a shaped LAN, which has one for each of its members.
fn shaped_pipe(count: usize, rates: Rates, node: u16) -> Pipe
    ensures { result ≡ changes.shaped_pipe count rates node }
{
    if count == 1 {
        link_pipe(rates, node)
    } else {
        lan_pipe(rates, node)
    }
}

/// A pipe with other rates.
fn with_rates(pipe: &Pipe, there: Rates, back: Rates) -> Pipe
    ensures { result ≡ record pipe.now { there = there; back = back } }
{
    Pipe {
        node: pipe.node,
        from: pipe.from,
        to: pipe.to,
        there,
        back,
    }
}

/// A pipe of a link or LAN after an event. In the text's wiring it is `text`, one of `count`.
pub(crate) fn renewed_pipe(what: What, count: usize, pipe: &Pipe, text: &Pipe) -> Pipe
    ensures { result ≡ renewed_pipe what count pipe.now text.now }
{
    match what {
        What::Down => with_rates(pipe, lost(pipe.there), lost(pipe.back)),
        What::Up => with_rates(pipe, text.there, text.back),
        What::Rates(rates) => {
            let shaped = shaped_pipe(count, rates, pipe.node);
            with_rates(pipe, shaped.there, shaped.back)
        }
    }
}
