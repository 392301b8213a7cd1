//! The reading of NS texts.

ghost use Rattle.std.specs.Prelude.{◌≡◌, ◌≤◌, IfOk, length};
ghost use Rattle.lab_base.specs.declared.fault.TextRefused.TheVariants as refusals;
ghost use Rattle.tcl_eval.specs.Runs.{fault_on};
ghost use Rattle.ns_build.specs.Kept.{AllKeepLimits};
ghost use Rattle.ns_build.specs.Meaning.{HasMeaning};

use crate::events::MAX_EVENTS;
use crate::host::NsHost;
use lab_base::{Items, Kind, TextFault, TextRefused};
use ns_events::Event;
use std::alloc::Global;
use tcl_eval::Ran;
use tcl_run::Interp;
use tcl_words::line_of;
use virt_topo::Topo;

/// The most bytes of a text.
const MAX_TEXT: usize = 65_536;

/// The network and the events that an NS text asks for.
#[derive(Drop)]
pub struct Asked {
    pub topo: Topo,
    /// The scheduled events of links and LANs, at most 1,024, in text order.
    pub events: Items<Event>,
    /// The line of `$ns run`.
    pub line: u32,
}

/// The refusal of a text for a fault on a line.
fn refused(line: u32, kind: Kind) -> TextRefused
    ensures { result ≡ refusals.Text (fault_on line kind) }
{
    TextRefused::Text(TextFault { line, kind })
}

/// Reads an NS text: the network that its commands make up to `$ns run`, and the events that they schedule.
///
/// The error is the first fault of the text, with its line. It is `long` above 65,536 bytes. Then come faults of the words of the whole text. Then
/// come faults of the evaluation, with the line of the command at the top level. It is `not-run` with the last line where no `$ns run` is reached.
pub fn read_ns(alloc: Global, text: &[u8]) -> Result<Asked, TextRefused>
    ensures meaning { HasMeaning text.now result }
    ensures few { IfOk result (λ asked. length asked.events ≤ MAX_EVENTS) }
    ensures limits { IfOk result (λ asked. AllKeepLimits asked.events) }
{
    if text.len() > MAX_TEXT {
        return Err(refused(line_of(&text[..MAX_TEXT + 1], MAX_TEXT), Kind::Long));
    }
    let mut interp = Interp::new(alloc, NsHost::new(alloc))?;
    match interp.run(text)? {
        Ran::Stopped { line } => {
            let host = interp.into_host();
            let events = host.events()?;
            Ok(Asked {
                topo: host.into_topo(),
                events,
                line,
            })
        }
        Ran::Ended { line } => Err(refused(line, Kind::NotRun)),
    }
}
