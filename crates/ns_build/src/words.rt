//! Words of objects, and lists.

ghost use Rattle.std.specs.Prelude.{◌≡◌, ◌<◌, ◌++◌, ◌-◌, IfOk, IfSome, decimal};
ghost use Rattle.std.specs.List.{slice_split};
ghost use Rattle.lab_base.specs.Texts.{views};
ghost use Rattle.lab_base.specs.Numbers.{number_of};
ghost use Rattle.lab_base.specs.Names.{same_name};
ghost use Rattle.ns_build.specs.Words.{index_below, index_in, is_parting, elements_of};

use lab_base::{Memory, Text, read_number};
use std::alloc::{AllocError, Global};

/// The simulator's word. Words of objects begin with a colon: so they are no names, and can be elements of lists.
pub(crate) const SIMULATOR: &[u8] = b":ns";

/// The mark of the words of nodes. The index of the node follows it.
pub(crate) const NODE: &[u8] = b":n";

/// The mark of the words of links and LANs. The index of the link or LAN follows it.
pub(crate) const LINK: &[u8] = b":l";

/// The word of the object at an index.
pub(crate) fn word_of(alloc: Global, mark: &[u8], index: usize) -> Result<Text, Memory>
    ensures { IfOk result (λ word. word ≡ mark.now ++ decimal index) }
{
    let mut word = Text::from_slice(alloc, mark)?;
    word.push_number(index as u64)?;
    Ok(word)
}

/// Whether these digits are the printed number.
fn is_printed(number: u16, digits: &[u8]) -> bool
    ensures { result ≡ same_name digits.now (decimal number) }
{
    let mut buffer = itoa::Buffer::new();
    digits == buffer.format(number).as_bytes()
}

/// The index of these digits, if they are the printed form of a number below `count`.
fn index_below(count: usize, digits: &[u8]) -> Option<u16>
    ensures index { result ≡ index_below count digits.now (number_of (u16.MAX - 1) digits.now) }
    ensures fits { IfSome result (λ index. index < u16.MAX) }
{
    match read_number(digits, 65_534) {
        Ok(number) => {
            let index = number as u16;
            if usize::from(index) < count && is_printed(index, digits) {
                Some(index)
            } else {
                None
            }
        }
        Err(_) => None,
    }
}

/// The index after a mark in a word, if it is below `count`.
pub(crate) fn index_in(mark: &[u8], count: usize, word: &[u8]) -> Option<u16>
    ensures index { result ≡ index_in mark.now count word.now }
    ensures fits { IfSome result (λ index. index < u16.MAX) }
{
    if word.starts_with(mark) {
        index_below(count, &word[mark.len()..])
    } else {
        None
    }
}

fn is_parting(byte: u8) -> bool
    ensures { result ≡ is_parting byte }
{
    byte == b' ' || byte == b'\t' || byte == b'\n'
}

fn split_at_partings(alloc: Global, list: &[u8]) -> Result<Vec<&[u8]>, AllocError>
    ensures { IfOk result (λ parts. views parts.items ≡ slice_split is_parting list.now) }
{
    list.split(|byte| is_parting(*byte)).collect(alloc)
}

/// The elements of a list, which blanks and line feeds separate.
pub(crate) fn elements_in(alloc: Global, list: &[u8]) -> Result<Vec<&[u8]>, Memory>
    ensures { IfOk result (λ elements. views elements.items ≡ elements_of list.now) }
{
    let mut elements = split_at_partings(alloc, list)?;
    elements.retain(|element| !element.is_empty());
    Ok(elements)
}
