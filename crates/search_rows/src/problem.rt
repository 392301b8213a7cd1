//! Labs and wirings of texts.
ghost use Rattle.std.specs.Prelude.{◌≡◌, ◌<◌, length, IfOk};
ghost use Rattle.lab_model.specs.Shapes.{IsFreeOf};
ghost use Rattle.virt_topo.specs.Soundness.{IsSound};

use lab_base::{Items, Kind, Memory, TEXT_LIMIT};
use phys_lab::{Free, Lab};
use ptop_text::read_ptop;
use row_words::RowFault;
use std::alloc::Global;
use top_text::read_top;
use virt_topo::Wiring;

/// A wiring, and a lab of which nothing is claimed.
#[derive(Clone, Copy)]
pub struct Problem<'a> {
    pub lab: &'a Lab,
    pub free: &'a Free,
    pub wiring: &'a Wiring,
}

/// By trunk its kbps.
fn kbps_of(alloc: Global, lab: &Lab) -> Result<Vec<u64>, Memory>
    ensures { IfOk result (λ kbps. length kbps.items ≡ length lab.now.trunks) }
{
    let mut kbps = Vec::new(alloc);
    for trunk in lab.trunks() {
        kbps.push(trunk.kbps)?;
    }
    Ok(kbps)
}

/// The free rest of a lab of which nothing is claimed.
pub fn all_of(alloc: Global, lab: &Lab) -> Result<Free, Memory>
    ensures { IfOk result (IsFreeOf lab.now) }
{
    let (first, last) = lab.range();
    Ok(Free {
        nodes: Items::from_vec(vec![in alloc; true; lab.nodes().len()]?),
        left: Items::from_vec(kbps_of(alloc, lab)?),
        vlans: last - first + 1,
    })
}

/// Tells that a text can be read.
pub fn tell_short(text: &[u8]) -> Result<(), Kind>
    ensures { IfOk result (λ _. length text.now < TEXT_LIMIT) }
{
    if text.len() >= TEXT_LIMIT {
        return Err(Kind::Long);
    }
    Ok(())
}

/// The lab of a text.
pub fn lab_of(alloc: Global, ptop: &[u8]) -> Result<Lab, RowFault> {
    tell_short(ptop)?;
    Ok(read_ptop(alloc, ptop)?)
}

/// The wiring of a text.
pub fn wiring_of(alloc: Global, top: &[u8]) -> Result<Wiring, RowFault>
    ensures { IfOk result IsSound }
{
    tell_short(top)?;
    Ok(read_top(alloc, top)?)
}
