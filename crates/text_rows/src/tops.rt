//! Texts of wirings.
ghost use Rattle.std.specs.Prelude.{◌<◌, IfOk};
ghost use Rattle.virt_topo.specs.Soundness.{IsSound};

use lab_base::{Text, TextRefused};
use row_words::RowFault;
use std::alloc::Global;
use top_text::{print_top, read_top};
use virt_topo::Wiring;

/// The wiring of a text.
pub fn read(alloc: Global, text: &[u8]) -> Result<Wiring, TextRefused>
    ensures { IfOk result IsSound }
{
    if text.len() < 4_294_967_295 {
        read_top(alloc, text)
    } else {
        Err(TextRefused::Memory)
    }
}

/// The canonical text of the wiring of a text.
pub fn told(alloc: Global, text: &[u8]) -> Result<Text, RowFault> {
    match read(alloc, text) {
        Ok(wiring) => {
            let top = print_top(alloc, &wiring);
            drop(wiring);
            Ok(top?)
        }
        Err(refused) => Err(RowFault::from(refused)),
    }
}
