//! How much a plant in memory takes from a start to the stop.
use crate::run::blank;
use lab_base::Name;
use plant::{DeviceOp, Plant, Side};
use plant_mem::MemLab;
use row_words::RowFault;
use std::alloc::Global;

/// The bytes of a write.
const PIECE: usize = 65_536;

/// More calls than a plant takes.
const CALLS: u32 = 1_000_000;

/// How many commands are answered before the plant stops.
fn steps_taken(plant: &mut MemLab, node: Name) -> u32 {
    for taken in 0..CALLS {
        if plant.command(DeviceOp::Poll { node }).is_err() {
            return taken;
        }
    }
    CALLS
}

/// How many writes are done before the plant stops.
fn writes_taken(plant: &mut MemLab, bytes: &[u8]) -> u32 {
    for taken in 0..CALLS {
        if plant.write(Side::A, 0, bytes).is_err() {
            return taken;
        }
    }
    CALLS
}

/// How many commands a plant takes from its first start, and how many writes of the piece. Then the same after a restart each.
pub fn room(alloc: Global, last: &mut Option<MemLab>) -> Result<String, RowFault> {
    let node = Name::read(b"n")?;
    let piece = vec![in alloc; 7u8; PIECE]?;
    let steps = steps_taken(blank(alloc, last)?, node);
    let plant = blank(alloc, last)?;
    let writes = writes_taken(plant, &piece);
    plant.restart()?;
    let steps_after = steps_taken(plant, node);
    plant.restart()?;
    let writes_after = writes_taken(plant, &piece);
    let out = format!(in alloc;
        "{steps} steps, {writes} writes\n{steps_after} steps, {writes_after} writes\n"
    )?;
    Ok(out)
}
