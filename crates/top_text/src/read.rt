ghost use Rattle.std.specs.Prelude.{◌≡◌, ◌<◌, IfOk, Ok, length};
ghost use Rattle.line_text.specs.Refusals.{Reads};
ghost use Rattle.virt_topo.specs.Soundness.{IsSound};
ghost use Rattle.top_text.specs.Adding.{finished, wiring_of_text};
ghost use Rattle.top_text.specs.Tables.{IsReading};

use crate::so_far::SoFar;
use lab_base::{Kind, TEXT_LIMIT, TextFault, TextRefused};
use line_text::read_lines;
use std::alloc::Global;
use virt_topo::Wiring;

fn empty_at(line: u32) -> TextRefused
    ensures { result ≡ TextRefused.Text (record { line = line; kind = Kind.Empty }) }
{
    TextRefused::Text(TextFault {
        line,
        kind: Kind::Empty,
    })
}

/// The wiring as read, if it has a virtual node. `line` is the number after the text's last line.
fn finish(so_far: SoFar, line: u32) -> Result<Wiring, TextRefused>
    requires { IsReading so_far }
    ensures reads { Reads result (finished line (Ok so_far.wiring)) }
    ensures sound { IfOk result IsSound }
{
    if so_far.wiring.nodes.is_empty() {
        drop(so_far);
        return Err(empty_at(line));
    }
    Ok(so_far.into_wiring())
}

/// Reads the wiring of a top text; a refusal has the kind and the line of the first fault.
pub fn read_top(alloc: Global, text: &[u8]) -> Result<Wiring, TextRefused>
    requires { length text.now < TEXT_LIMIT }
    ensures reads { Reads result (wiring_of_text text.now) }
    ensures sound { IfOk result IsSound }
{
    let mut so_far = SoFar::new(alloc);
    match read_lines(alloc, text, &mut so_far) {
        Ok(line) => finish(so_far, line),
        Err(refused) => {
            drop(so_far);
            Err(refused)
        }
    }
}
