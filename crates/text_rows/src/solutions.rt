//! Texts of mappings.
ghost use Rattle.std.specs.Prelude.{◌<◌, IfOk};
ghost use Rattle.lab_model.specs.Shapes.{IsShaped};

use crate::{ptops, tops};
use lab_base::{Memory, Text, TextRefused};
use phys_lab::Lab;
use row_words::RowFault;
use solution_text::{print_end, print_solution, read_solution};
use std::alloc::Global;
use virt_topo::{Mapping, Wiring};

/// A switch, and two machines on it.
const LAB: &[u8] =
    b"vlans 100 101\nnode s1 switch\nnode pc1 pc\nnode pc2 pc\nlink l1 pc1:eth0 s1:1 100000\nlink l2 pc2:eth0 s1:2 100000\n";

/// The pair.
const TOP: &[u8] = b"node a pc linux\nnode b pc linux\nlink ab ab 100000 a b\n";

fn read(alloc: Global, lab: &Lab, wiring: &Wiring, text: &[u8]) -> Result<Mapping, TextRefused>
    ensures { IfOk result (IsShaped lab.now wiring.now) }
{
    if text.len() < 4_294_967_295 {
        read_solution(alloc, text, lab, wiring)
    } else {
        Err(TextRefused::Memory)
    }
}

/// The canonical text of the mapping that a text is read as.
fn printed_of(alloc: Global, lab: &Lab, wiring: &Wiring, text: &[u8]) -> Result<Text, TextRefused> {
    match read(alloc, lab, wiring, text) {
        Ok(mapping) => {
            let printed = print_solution(alloc, lab, wiring, &mapping);
            drop(mapping);
            Ok(printed?)
        }
        Err(refused) => Err(refused),
    }
}

/// The canonical text of a mapping of the pair into a lab.
fn printed_in(alloc: Global, lab: &Lab, text: &[u8]) -> Result<Text, TextRefused> {
    match tops::read(alloc, TOP) {
        Ok(wiring) => {
            let printed = printed_of(alloc, lab, &wiring, text);
            drop(wiring);
            printed
        }
        Err(refused) => Err(refused),
    }
}

/// The canonical text of a mapping of the pair.
pub fn told(alloc: Global, text: &[u8]) -> Result<Text, RowFault> {
    match ptops::read(alloc, LAB) {
        Ok(lab) => {
            let printed = printed_in(alloc, &lab, text);
            drop(lab);
            Ok(printed?)
        }
        Err(refused) => Err(RowFault::from(refused)),
    }
}

/// The names of the first four ends of a wiring, a line each.
fn names_of_ends(alloc: Global, wiring: &Wiring) -> Result<Text, Memory> {
    let mut out = Text::new(alloc);
    for end in 0..4 {
        out.push_bytes(print_end(alloc, wiring, end)?.bytes())?;
        out.push(b'\n')?;
    }
    Ok(out)
}

/// The names of the first four ends of the wiring of a text.
pub fn told_ends(alloc: Global, text: &[u8]) -> Result<Text, RowFault> {
    match tops::read(alloc, text) {
        Ok(wiring) => {
            let names = names_of_ends(alloc, &wiring);
            drop(wiring);
            Ok(names?)
        }
        Err(refused) => Err(RowFault::from(refused)),
    }
}
