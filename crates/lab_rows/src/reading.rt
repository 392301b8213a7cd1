//! Labs, wirings and mappings of texts.
ghost use Rattle.std.specs.Prelude.{IfOk};
ghost use Rattle.virt_topo.specs.Soundness.{IsSound};
ghost use Rattle.lab_model.specs.Shapes.{IsShaped};

use crate::texts::Texts;
use phys_lab::Lab;
use ptop_text::read_ptop;
use row_words::RowFault;
use solution_text::read_solution;
use std::alloc::Global;
use top_text::read_top;
use virt_topo::{Mapping, Wiring};

/// How long a text of these rows may be.
pub const MAX_TEXT: usize = 100_000;

/// The lab of the text of a name.
pub fn lab_of(alloc: Global, texts: &Texts, name: &[u8]) -> Result<Lab, RowFault> {
    let ptop = texts.of(name)?;
    if ptop.len() > MAX_TEXT {
        return Err(RowFault::Memory);
    }
    Ok(read_ptop(alloc, ptop)?)
}

/// The wiring of the text of a name.
pub fn wiring_of(alloc: Global, texts: &Texts, name: &[u8]) -> Result<Wiring, RowFault>
    ensures { IfOk result (λ wiring. IsSound wiring) }
{
    let top = texts.of(name)?;
    if top.len() > MAX_TEXT {
        return Err(RowFault::Memory);
    }
    Ok(read_top(alloc, top)?)
}

/// The mapping of the text of a name.
pub fn mapping_of(
    alloc: Global,
    texts: &Texts,
    name: &[u8],
    lab: &Lab,
    wiring: &Wiring,
) -> Result<Mapping, RowFault>
    ensures { IfOk result (λ mapping. IsShaped lab.now wiring.now mapping) }
{
    let solution = texts.of(name)?;
    if solution.len() > MAX_TEXT {
        return Err(RowFault::Memory);
    }
    Ok(read_solution(alloc, solution, lab, wiring)?)
}
