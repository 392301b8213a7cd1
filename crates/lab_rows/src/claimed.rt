//! Claims of experiments.
ghost use Rattle.std.specs.Prelude.{◌≡◌, ◌<◌, ◌∷◌, [], length, IfOk};
ghost use Rattle.claims.specs.Held.{claim_nodes, claim_tags, others};
ghost use Rattle.claims.specs.Adding.{HasUses, MayAdd};

use crate::reading::lab_of;
use crate::texts::Texts;
use claims::{Claim, Claims, Hold, TakeFault};
use lab_base::{IfaceId, Items, Memory, Name, NodeId, Tags, Text, VlanId, name_in};
use line_text::field_at;
use phys_lab::Lab;
use row_words::{RowFault, number, push_answer, push_number};
use std::alloc::Global;

/// The claim of a mapping that has one segment between both nodes, with VLAN id 100.
fn both_nodes(alloc: Global) -> Result<Claim, Memory>
    ensures nodes { IfOk result (λ claim. claim_nodes claim ≡ 0 ∷ 1 ∷ []) }
    ensures tags { IfOk result (λ claim. claim_tags claim ≡ 100 ∷ []) }
    ensures uses { IfOk result (HasUses 0) }
{
    let mut nodes = Items::new(alloc);
    nodes.push(NodeId(0))?;
    nodes.push(NodeId(1))?;
    let mut plugs = Items::new(alloc);
    plugs.push(IfaceId(0))?;
    plugs.push(IfaceId(1))?;
    let mut tags = Items::new(alloc);
    tags.push(VlanId(100))?;
    let hold = Hold {
        nodes,
        plugs,
        uses: Items::new(alloc),
        tags,
    };
    Ok(Claim {
        old: None,
        new: Some(hold),
    })
}

/// Adds a claim, or notes it.
fn put(claims: &mut Claims, exp: Name, claim: Claim, notes: bool) -> Result<(), Memory>
    requires may { MayAdd claims.old exp claim }
    requires few { length (others exp claims.old.entries) < 256 }
{
    if notes {
        claims.note(exp, claim);
        return Ok(());
    }
    claims.add(exp, claim)
}

/// No claim on a lab of two nodes and of the VLAN ids 100 and 101 but that one, which is added or noted.
fn with_one(alloc: Global, lab: &Lab, exp: Name, notes: bool) -> Result<Claims, Memory> {
    let claim = both_nodes(alloc)?;
    let mut claims = match Claims::empty(alloc, lab) {
        Ok(claims) => claims,
        Err(memory) => {
            drop(claim);
            return Err(memory);
        }
    };
    let range = lab.range();
    if range.0 != 100 || range.1 != 101 || lab.nodes().len() != 2 || !lab.trunks().is_empty() {
        drop(claim);
        return Ok(claims);
    }
    match put(&mut claims, exp, claim, notes) {
        Ok(()) => Ok(claims),
        Err(memory) => {
            drop(claims);
            Err(memory)
        }
    }
}

/// Adds how many nodes and VLAN ids there are.
fn push_counts(out: &mut Text, counts: (u16, u16)) -> Result<(), Memory> {
    push_number(out, u64::from(counts.0))?;
    push_number(out, u64::from(counts.1))?;
    out.push(b'\n')
}

/// Adds so many VLAN ids that are free, or how many there are.
fn push_taken(out: &mut Text, alloc: Global, claims: &Claims, count: u16) -> Result<(), Memory> {
    match claims.take_vlans(alloc, count) {
        Ok(tags) => {
            for tag in tags.as_slice() {
                push_number(out, u64::from(tag.0))?;
            }
        }
        Err(TakeFault::TooFew(free)) => {
            out.push_bytes(b"only")?;
            push_number(out, u64::from(free))?;
        }
        Err(TakeFault::Memory) => return Err(Memory),
    }
    out.push(b'\n')
}

/// Adds the counts beside the claim of an experiment, those of the claim itself, and those without it. Between them it adds one free VLAN id, and
/// two.
fn push_all(out: &mut Text, alloc: Global, claims: &mut Claims, exp: Name) -> Result<(), Memory> {
    push_counts(out, claims.counted())?;
    push_counts(out, claims.counted_of(exp))?;
    push_taken(out, alloc, claims, 1)?;
    push_taken(out, alloc, claims, 2)?;
    claims.drop_claim(exp);
    push_counts(out, claims.counted())
}

/// Adds the counts of a free lab, and those with a claim.
fn push_claims(out: &mut Text, alloc: Global, lab: &Lab, exp: Name) -> Result<(), Memory> {
    let none = Claims::empty(alloc, lab)?;
    let counted = none.counted();
    drop(none);
    push_counts(out, counted)?;
    let mut claims = with_one(alloc, lab, exp, false)?;
    let told = push_all(out, alloc, &mut claims, exp);
    drop(claims);
    told
}

/// The counts of a free lab, and those with a claim.
pub fn add_output(
    out: &mut Text,
    alloc: Global,
    texts: &Texts,
    words: &[&[u8]],
) -> Result<(), RowFault> {
    let exp = name_in(b"e")?;
    let lab = lab_of(alloc, texts, field_at(words, 0))?;
    let told = push_claims(out, alloc, &lab, exp);
    drop(lab);
    Ok(told?)
}

/// The VLAN ids of words after the first one.
fn tags_of(alloc: Global, words: &[&[u8]]) -> Result<Tags, RowFault> {
    let mut tags = Items::new(alloc);
    for word in words.iter().skip(1) {
        tags.push(VlanId(number(word)?))?;
    }
    Ok(tags)
}

fn push_free(out: &mut Text, claims: &Claims, tags: &Tags) -> Result<(), Memory> {
    push_counts(out, claims.counted())?;
    push_answer(out, claims.are_free(tags))
}

/// The nodes, kbps and VLAN ids left beside a noted claim, and whether VLAN ids are free.
pub fn tell_free(
    out: &mut Text,
    alloc: Global,
    texts: &Texts,
    words: &[&[u8]],
) -> Result<(), RowFault> {
    let exp = name_in(b"e")?;
    let tags = tags_of(alloc, words)?;
    let lab = lab_of(alloc, texts, field_at(words, 0))?;
    let claims = with_one(alloc, &lab, exp, true);
    drop(lab);
    let claims = claims?;
    let told = push_free(out, &claims, &tags);
    drop(claims);
    Ok(told?)
}
