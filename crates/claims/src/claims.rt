ghost use Rattle.std.specs.Prelude.{◌≡◌, ◌<◌, ◌≤◌, ◌++◌, ◌∷◌, [], List, ℕ, length, position, map, vec_len, vec_capacity, IfOk, IfSome};
ghost use Rattle.std.specs.Str.{bytes_eq};
ghost use Rattle.claims.specs.Adding.{MayAdd};
ghost use Rattle.claims.specs.Held.{others, claim_named};
ghost use Rattle.claims.specs.Kept.{Keeps, MayStand, held_in};

use crate::claim::{Claim, Entry};
use crate::tables::{Tables, forget, no_tables, note};
use lab_base::{Memory, Name};
use phys_lab::{Lab, Trunk};
use std::alloc::Global;
use std::marker::Model;

/// The most experiments of a lab. There is room for as many claims from the start.
pub const MAX_EXPERIMENTS: usize = 256;

/// The claims of all experiments on a lab, at most one for each. The fields are private, so that the tables stay those of the claims.
#[derive(Drop)]
pub struct Claims {
    pub(crate) range: (u16, u16),
    /// By trunk, its kbps.
    pub(crate) kbps: Vec<u64>,
    /// The claims, in no order that matters.
    pub(crate) entries: Vec<Entry>,
    pub(crate) tables: Tables,
}

impl Model for Claims {
    ghost use Rattle.claims.specs.Held.{Held};
    ghost use Rattle.claims.specs.Kept.{view_of, IsKept};

    ghost Value = { Held };

    ghost view = { view_of };

    ghost invariant = { IsKept };
}

/// The place of an experiment's claim; None where it has none.
pub(crate) fn place_of(entries: &[Entry], exp: Name) -> Option<usize>
    ensures { result ≡ position (λ e. bytes_eq e.exp exp) entries.now }
{
    entries.iter().position(|entry| entry.exp == exp)
}

/// Removes the claim of an experiment, if it has one.
fn take_off(
    range: (u16, u16),
    entries: &mut Vec<Entry>,
    tables: &mut Tables,
    exp: Name,
) -> Option<Claim>
    requires { (kbps : List ℕ) × Keeps range kbps entries.old.items tables.old }
    ensures entries { entries.new.items ≡ others exp entries.old.items }
    ensures claim { result ≡ claim_named exp entries.old.items }
    ensures kept { (kbps : List ℕ) → Keeps range kbps entries.old.items tables.old → Keeps range kbps entries.new.items tables.new }
    ensures nodes { length tables.new.nodes.items ≡ length tables.old.nodes.items }
    ensures capacity { vec_capacity entries.new ≡ vec_capacity entries.old }
    ensures len { vec_len entries.new ≤ vec_len entries.old }
    ensures room { IfSome result (λ c. vec_len entries.new < vec_capacity entries.new) }
{
    match place_of(entries, exp) {
        Some(at) => {
            let entry = entries.remove(at);
            forget(tables, range.0, &entry.claim);
            Some(entry.claim)
        }
        None => None,
    }
}

/// Adds the claim of an experiment that has none.
fn put_on(range: (u16, u16), entries: &mut Vec<Entry>, tables: &mut Tables, exp: Name, claim: Claim)
    requires room { vec_len entries.old < vec_capacity entries.old }
    requires kept { (kbps : List ℕ) × Keeps range kbps entries.old.items tables.old × MayStand (held_in range kbps entries.old.items tables.old) exp claim }
    ensures entries { entries.new.items ≡ entries.old.items ++ record { exp = exp; claim = claim } ∷ [] }
    ensures kept { (kbps : List ℕ) → Keeps range kbps entries.old.items tables.old → MayStand (held_in range kbps entries.old.items tables.old) exp claim
        → Keeps range kbps entries.new.items tables.new }
    ensures nodes { length tables.new.nodes.items ≡ length tables.old.nodes.items }
    ensures capacity { vec_capacity entries.new ≡ vec_capacity entries.old }
{
    note(tables, range.0, exp, &claim);
    entries.push_reserved(Entry { exp, claim });
}

/// Sets the claim of an experiment, in the place of the one that it may have.
fn put_in_place(
    range: (u16, u16),
    entries: &mut Vec<Entry>,
    tables: &mut Tables,
    exp: Name,
    claim: Claim,
)
    requires room { length (others exp entries.old.items) < vec_capacity entries.old }
    requires kept { (kbps : List ℕ) × Keeps range kbps entries.old.items tables.old × MayAdd (held_in range kbps entries.old.items tables.old) exp claim }
    ensures entries { entries.new.items ≡ others exp entries.old.items ++ record { exp = exp; claim = claim } ∷ [] }
    ensures kept { (kbps : List ℕ) → Keeps range kbps entries.old.items tables.old → MayAdd (held_in range kbps entries.old.items tables.old) exp claim
        → Keeps range kbps entries.new.items tables.new }
    ensures nodes { length tables.new.nodes.items ≡ length tables.old.nodes.items }
    ensures capacity { vec_capacity entries.new ≡ vec_capacity entries.old }
{
    drop(take_off(range, entries, tables, exp));
    put_on(range, entries, tables, exp, claim);
}

/// By trunk, its kbps.
fn kbps_of(alloc: Global, trunks: &[Trunk]) -> Result<Vec<u64>, Memory>
    ensures { IfOk result (λ kbps. kbps.items ≡ map (λ t. t.kbps) trunks.now) }
{
    let mut kbps = Vec::new(alloc);
    for trunk in trunks {
        kbps.push(trunk.kbps)?;
    }
    Ok(kbps)
}

impl Claims {
    ghost use Rattle.std.specs.Prelude.{◌≡◌, ◌<◌, length, IfOk, OnOk, OnErr};
    ghost use Rattle.claims.specs.Held.{others};
    ghost use Rattle.claims.specs.Adding.{MayAdd, with_claim, without, narrowed};
    ghost use Rattle.claims.specs.Answered.{none_of};

    /// The claims on a lab without experiments: none.
    pub fn empty(alloc: Global, lab: &Lab) -> Result<Claims, Memory>
        ensures { IfOk result (λ claims. claims ≡ none_of lab.now) }
    {
        let range = lab.range();
        let ids = (range.1 - range.0) as usize + 1;
        Ok(Claims {
            range,
            kbps: kbps_of(alloc, lab.trunks())?,
            tables: no_tables(alloc, lab.nodes().len(), lab.trunks().len(), ids)?,
            entries: Vec::with_capacity(alloc, MAX_EXPERIMENTS)?,
        })
    }

    /// Sets the claim of an experiment, in the place of the one that it may have. On `Memory` nothing changes.
    pub fn add(&mut self, exp: Name, claim: Claim) -> Result<(), Memory>
        requires { MayAdd self.old exp claim }
        ensures ok { OnOk result (self.new ≡ with_claim exp claim self.old) }
        ensures err { OnErr result (self.new ≡ self.old) }
    {
        self.entries.try_reserve(1)?;
        put_in_place(self.range, &mut self.entries, &mut self.tables, exp, claim);
        Ok(())
    }

    /// Sets the claim of an experiment, as `add` does, where at most 255 others have one. It takes no memory.
    pub fn note(&mut self, exp: Name, claim: Claim)
        requires may { MayAdd self.old exp claim }
        requires few { length (others exp self.old.entries) < MAX_EXPERIMENTS }
        ensures { self.new ≡ with_claim exp claim self.old }
    {
        put_in_place(self.range, &mut self.entries, &mut self.tables, exp, claim);
    }

    /// Narrows the claim of an experiment that moves to one of its sides, as of one that stands in the lab.
    pub fn narrow(&mut self, exp: Name, keep_new: bool)
        ensures { self.new ≡ narrowed exp keep_new self.old }
    {
        if let Some(claim) = take_off(self.range, &mut self.entries, &mut self.tables, exp) {
            put_on(
                self.range,
                &mut self.entries,
                &mut self.tables,
                exp,
                claim.side(keep_new),
            );
        }
    }

    /// Removes the claim of an experiment, if it has one.
    pub fn drop_claim(&mut self, exp: Name)
        ensures { self.new ≡ without exp self.old }
    {
        drop(take_off(self.range, &mut self.entries, &mut self.tables, exp));
    }
}
