//! The sides of the disk.
use plant::{Plant, Side};
use plant_mem::MemLab;
use row_words::RowFault;
use std::alloc::{AllocError, Global};
use std::fmt::Write;

/// Writes bytes at the beginning of a side, if there are any.
pub fn fill(plant: &mut MemLab, side: Side, bytes: &[u8]) -> Result<(), RowFault> {
    if !bytes.is_empty() {
        plant.write(side, 0, bytes)?;
    }
    Ok(())
}

/// The bytes that a side reads as.
fn read_side(alloc: Global, plant: &mut MemLab, side: Side) -> Result<Vec<u8>, RowFault> {
    let size = plant.length(side)?;
    let mut bytes = vec![in alloc; 0u8; size as usize]?;
    plant.read(side, 0, &mut bytes)?;
    Ok(bytes)
}

/// Adds bytes: letters as they are, a line's end as one, and any other by two digits.
fn add_bytes(out: &mut String, bytes: &[u8]) -> Result<(), AllocError> {
    for byte in bytes {
        match byte {
            b' '..=b'~' | b'\n' => out.push(char::from(*byte))?,
            _ => write!(out, "<{byte:02x}>")?,
        }
    }
    out.push('\n')
}

/// The lengths of both sides, and their bytes where these are few.
pub fn sides(alloc: Global, plant: &mut MemLab) -> Result<String, RowFault> {
    let mut out = String::new(alloc);
    for (name, side) in [("A", Side::A), ("B", Side::B)] {
        let bytes = read_side(alloc, plant, side)?;
        writeln!(out, "{name} {}", bytes.len())?;
        if !bytes.is_empty() && bytes.len() < 200 {
            add_bytes(&mut out, &bytes)?;
        }
    }
    Ok(out)
}

/// Whether side A has these bytes, and side B none.
pub fn like(alloc: Global, plant: &mut MemLab, bytes: &[u8]) -> Result<String, RowFault> {
    let a = read_side(alloc, plant, Side::A)?;
    let b = read_side(alloc, plant, Side::B)?;
    let word = if a.as_slice() == bytes && b.is_empty() {
        "alike\n"
    } else {
        "not alike\n"
    };
    Ok(word.to_string(alloc)?)
}
