ghost use Rattle.std.specs.Prelude.{◌≡◌, ◌<◌, IfOk, length};
ghost use Rattle.line_text.specs.Refusals.{Reads};
ghost use Rattle.ptop_text.specs.Adding.{start, lab_of_text};

use crate::so_far::LabSoFar;
use lab_base::{Memory, TEXT_LIMIT, TextRefused};
use line_text::read_lines;
use phys_lab::{Lab, LabBuilder};
use std::alloc::Global;

/// The bytes of a short line of a link. There is room from the start for what a text of such lines tells.
const SHORT_LINE: usize = 32;

/// A lab without parts, with room for some.
fn start(alloc: Global, parts: usize) -> Result<LabSoFar, Memory>
    ensures { IfOk result (λ so_far. so_far ≡ start) }
{
    match LabBuilder::new(alloc, 2, 4_094) {
        Ok(mut lab) => {
            lab.reserve(parts)?;
            Ok(LabSoFar {
                lab,
                has_range: false,
            })
        }
        Err(_) => Err(Memory),
    }
}

/// Reads the lab of a ptop text; a refusal has the kind and the line of the first fault.
pub fn read_ptop(alloc: Global, text: &[u8]) -> Result<Lab, TextRefused>
    requires { length text.now < TEXT_LIMIT }
    ensures { Reads result (lab_of_text text.now) }
{
    let mut so_far = start(alloc, text.len() / SHORT_LINE)?;
    match read_lines(alloc, text, &mut so_far) {
        Ok(_) => Ok(so_far.lab.finish()?),
        Err(refused) => {
            drop(so_far);
            Err(refused)
        }
    }
}
