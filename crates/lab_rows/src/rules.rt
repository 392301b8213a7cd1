//! The eight rules of mappings.
ghost use Rattle.lab_model.specs.Shapes.{IsFreeOf};

use crate::reading::{lab_of, mapping_of, wiring_of};
use crate::texts::Texts;
use feas::{CheckFault, check};
use lab_base::{Items, Kind, Memory, Text};
use line_text::field_at;
use phys_lab::{Free, Lab};
use row_words::{RowFault, number_at};
use std::alloc::Global;
use virt_topo::{Broken, Subject};

/// The rest of a lab where others have its first nodes, and all but so many thousand kbps of each trunk.
fn free_of(alloc: Global, lab: &Lab, taken: u16, left: u16) -> Result<Free, Memory> {
    let mut nodes = Items::new(alloc);
    for node in 0..lab.nodes().len() {
        nodes.push(usize::from(taken) <= node)?;
    }
    let mut trunks = Items::new(alloc);
    for _trunk in lab.trunks() {
        trunks.push(u64::from(left) * 1_000)?;
    }
    Ok(Free {
        nodes,
        left: trunks,
        vlans: 4,
    })
}

fn rule_word(rule: Broken) -> &'static [u8] {
    match rule {
        Broken::F1 => b"F1",
        Broken::F5 => b"F5",
        Broken::F6 => b"F6",
        _ => b"another",
    }
}

/// Adds the kind of a subject and its number.
fn push_subject(out: &mut Text, subject: Subject) -> Result<(), Memory> {
    let (word, number): (&[u8], u16) = match subject {
        Subject::Virt(virt) => (b" virt ", virt),
        Subject::End(end) => (b" end ", end),
        Subject::Trunk(trunk) => (b" trunk ", trunk.0),
        _ => (b" another ", 0),
    };
    out.push_bytes(word)?;
    out.push_number(u64::from(number))
}

fn push_checked(out: &mut Text, checked: Result<(), CheckFault>) -> Result<(), Memory> {
    match checked {
        Ok(()) => out.push_bytes(b"kept"),
        Err(CheckFault::Violation { rule, subject }) => {
            out.push_bytes(rule_word(rule))?;
            push_subject(out, subject)
        }
        Err(CheckFault::Memory) => Err(Memory),
    }
}

/// Adds the rule that a mapping breaks first. The second word is the text of its wiring, the third its own.
fn push_rule(
    out: &mut Text,
    alloc: Global,
    texts: &Texts,
    words: &[&[u8]],
    lab: &Lab,
    free: &Free,
) -> Result<(), RowFault>
    requires { IsFreeOf lab.now free.now }
{
    let wiring = wiring_of(alloc, texts, field_at(words, 1))?;
    let mapping = match mapping_of(alloc, texts, field_at(words, 2), lab, &wiring) {
        Ok(mapping) => mapping,
        Err(wrong) => {
            drop(wiring);
            return Err(wrong);
        }
    };
    let told = push_checked(out, check(alloc, lab, free, &wiring, &mapping));
    drop(mapping);
    drop(wiring);
    Ok(told?)
}

/// Adds the rule that a mapping breaks first beside others. The fourth and the fifth word say what these have and leave.
fn push_rule_beside(
    out: &mut Text,
    alloc: Global,
    texts: &Texts,
    words: &[&[u8]],
    lab: &Lab,
) -> Result<(), RowFault> {
    let (taken, left) = (number_at(words, 3)?, number_at(words, 4)?);
    let free = free_of(alloc, lab, taken, left)?;
    if free.nodes.len() != lab.nodes().len() || free.left.len() != lab.trunks().len() {
        drop(free);
        return Err(RowFault::Word(Kind::Many));
    }
    let told = push_rule(out, alloc, texts, words, lab, &free);
    drop(free);
    told
}

/// The rule that a mapping breaks first, with its subject, or `kept`.
/// The words are the texts of the lab, the wiring and the mapping. Two numbers follow: the first nodes that others have, and the thousand kbps that
/// they leave of each trunk.
pub fn add_output(
    out: &mut Text,
    alloc: Global,
    texts: &Texts,
    words: &[&[u8]],
) -> Result<(), RowFault> {
    let lab = lab_of(alloc, texts, field_at(words, 0))?;
    let told = push_rule_beside(out, alloc, texts, words, &lab);
    drop(lab);
    told
}
