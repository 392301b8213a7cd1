ghost use Rattle.std.specs.Prelude.{◌≡◌, ◌≤◌, true, length, Ok, IfOk};
ghost use Rattle.lab_base.specs.declared.fault.TextRefused.TheVariants as refusals;
ghost use Rattle.virt_topo.specs.Soundness.{IsSound};
ghost use Rattle.top_text.specs.Adding.{wiring_of_text};
ghost use Rattle.top_text.specs.Canonical.{canonical_top};
ghost use Rattle.top_text.specs.Printable.{is_printable};
ghost use Rattle.ns_build.specs.Kept.{AllKeepLimits};
ghost use Rattle.ns_text.specs.Wirings.{Becomes, BecomesScript, HasScript, HasWiring, wiring_alone};

use lab_base::{Items, Kind, MAX_PAYLOAD_TEXT, Text, TextFault, TextRefused};
use net_plan::{PlanFault, expand};
use ns_build::{Asked, MAX_EVENTS, read_ns};
use ns_events::Event;
use std::alloc::Global;
use top_text::print_top;
use virt_topo::Wiring;

/// The wiring of an NS text, and the canonical top text of that wiring.
#[derive(Drop)]
pub struct Printed {
    pub wiring: Wiring,
    pub top: Text,
}

/// A fault of the expansion, at the line of `$ns run`.
fn refused(line: u32, kind: Kind) -> TextRefused
    ensures { result ≡ refusals.Text (record { line = line; kind = kind }) }
{
    TextRefused::Text(TextFault { line, kind })
}

/// The wiring of an asked network.
fn wiring_of(alloc: Global, asked: &Asked) -> Result<Wiring, TextRefused>
    ensures becomes { Becomes asked.now result }
    ensures sound { IfOk result (λ wiring. IsSound wiring) }
{
    match expand(alloc, &asked.topo) {
        Ok(wiring) => Ok(wiring),
        Err(PlanFault::Limit) => Err(refused(asked.line, Kind::Limit)),
        Err(PlanFault::Empty) => Err(refused(asked.line, Kind::Empty)),
        Err(PlanFault::Address) => Err(refused(asked.line, Kind::Address)),
        Err(PlanFault::Subnet) => Err(refused(asked.line, Kind::Subnet)),
        Err(PlanFault::Memory) => Err(TextRefused::Memory),
    }
}

/// Reads an NS text: the wiring of the network that its commands make up to `$ns run`. The events that they schedule are read, and not kept.
///
/// The error is the first fault of the text, with its line, or that of the expansion, with the line of `$ns run`.
/// Faults of the expansion are a limit, no node, an address given twice or in two subnets, and an end without a subnet or host number.
pub fn read_network(alloc: Global, text: &[u8]) -> Result<Wiring, TextRefused>
    ensures wiring { HasWiring text.now result }
    ensures sound { IfOk result (λ wiring. IsSound wiring) }
{
    match read_ns(alloc, text) {
        Ok(asked) => wiring_of(alloc, &asked),
        Err(refused) => Err(refused),
    }
}

/// The wiring of an NS text, and the link events that it schedules.
#[derive(Drop)]
pub struct Script {
    pub wiring: Wiring,
    /// At most 1,024, in text order.
    pub events: Items<Event>,
}

/// The wiring of an asked network, with its events.
fn script_of(alloc: Global, asked: Asked) -> Result<Script, TextRefused>
    ensures becomes { BecomesScript asked result }
    ensures sound { IfOk result (λ script. IsSound script.wiring) }
{
    match wiring_of(alloc, &asked) {
        Ok(wiring) => {
            let Asked { events, .. } = asked;
            Ok(Script { wiring, events })
        }
        Err(refused) => Err(refused),
    }
}

/// Reads an NS text as `read_network` does, with the events that it schedules.
pub fn read_script(alloc: Global, text: &[u8]) -> Result<Script, TextRefused>
    ensures script { HasScript text.now result }
    ensures sound { IfOk result (λ script. IsSound script.wiring) }
    ensures few { IfOk result (λ script. length script.events ≤ MAX_EVENTS) }
    ensures limits { IfOk result (λ script. AllKeepLimits script.events) }
{
    match read_ns(alloc, text) {
        Ok(asked) => script_of(alloc, asked),
        Err(refused) => Err(refused),
    }
}

/// Reads an NS text as `read_network` does, and prints its wiring: what is printed is read back as the wiring.
pub fn read_and_print(alloc: Global, text: &[u8]) -> Result<Printed, TextRefused>
    ensures wiring { HasWiring text.now (wiring_alone result) }
    ensures sound { IfOk result (λ printed. IsSound printed.wiring) }
    ensures text { IfOk result (λ printed. printed.top ≡ canonical_top printed.wiring) }
    ensures again { IfOk result (λ printed. wiring_of_text printed.top ≡ Ok printed.wiring) }
    ensures size { IfOk result (λ printed. length printed.top ≤ MAX_PAYLOAD_TEXT) }
    ensures printable { IfOk result (λ printed. is_printable printed.wiring ≡ true) }
{
    let wiring = read_network(alloc, text)?;
    let top = print_top(alloc, &wiring)?;
    Ok(Printed { wiring, top })
}
