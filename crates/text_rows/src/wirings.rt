//! Wirings of NS texts.
use lab_base::{Text, TextRefused};
use ns_text::read_and_print;
use row_words::RowFault;
use std::alloc::Global;
use top_text::{print_top, read_top};

/// How long a text of these rows may be.
const MAX_TEXT: usize = 100_000;

/// Three nodes.
const HEAD: &[u8] =
    b"set ns [new Simulator]\nset a [$ns node]\nset b [$ns node]\nset c [$ns node]\n";

/// The text of a wiring, as it is read and printed.
fn printed(alloc: Global, text: &[u8]) -> Result<Text, TextRefused> {
    if text.len() > MAX_TEXT {
        return Err(TextRefused::Memory);
    }
    match read_and_print(alloc, text) {
        Ok(printed) => Ok(printed.top),
        Err(refused) => Err(refused),
    }
}

/// The text of the wiring that a top text is read as.
fn again(alloc: Global, top: &[u8]) -> Result<Text, TextRefused> {
    if top.len() > MAX_TEXT {
        return Err(TextRefused::Memory);
    }
    match read_top(alloc, top) {
        Ok(wiring) => {
            let printed = print_top(alloc, &wiring);
            drop(wiring);
            Ok(printed?)
        }
        Err(refused) => Err(refused),
    }
}

/// The canonical text of the wiring of a text, where it is that of the wiring that it is read back as.
pub fn told(alloc: Global, text: &[u8]) -> Result<Text, RowFault> {
    let top = printed(alloc, text)?;
    let again = again(alloc, top.bytes())?;
    if again == top {
        Ok(top)
    } else {
        Ok(Text::from_slice(alloc, b"otherwise")?)
    }
}

/// The wiring of three nodes with links or LANs between them.
pub fn told_over_three(alloc: Global, joins: &[u8]) -> Result<Text, RowFault> {
    let mut text = Text::from_slice(alloc, HEAD)?;
    text.push_bytes(joins)?;
    text.push_bytes(b"\n$ns run\n")?;
    told(alloc, text.bytes())
}
