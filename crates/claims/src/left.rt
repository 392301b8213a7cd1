// The rest of a lab that claims leave.
ghost use Rattle.std.specs.Prelude.{◌≡◌, ◌+◌, ◌-◌, ◌<◌, ◌≤◌, ◌^◌, ℕ, map, take, length, slice_index_or, count_by, is_none, IfOk, IfSome};
ghost use Rattle.lab_base.specs.Lists.{Has};
ghost use Rattle.claims.specs.declared.claim.Entry.{Entry as AnyEntry};
ghost use Rattle.claims.specs.Held.{claim_use, use_by, others};
ghost use Rattle.claims.specs.Adding.{HasUses};
ghost use Rattle.claims.specs.Counts.{is_owned_by, is_free_to, free_from};

use crate::claim::{Claim, Entry};
use crate::claims::{Claims, place_of};
use crate::fault::TakeFault;
use lab_base::{Items, Memory, Name, NodeId, Tags, TrunkId, VlanId};
use phys_lab::Free;
use std::alloc::Global;

fn is_owned_by(owner: &Option<Name>, exp: Name) -> bool
    ensures { result ≡ is_owned_by exp owner.now }
{
    match owner {
        Some(name) => *name == exp,
        None => false,
    }
}

fn is_free_to(owner: &Option<Name>, exp: Name) -> bool
    ensures { result ≡ is_free_to exp owner.now }
{
    match owner {
        Some(name) => *name == exp,
        None => true,
    }
}

fn free_in(owners: &[Option<Name>]) -> usize
    ensures { result ≡ count_by is_none owners.now }
{
    owners.iter().filter(|owner| owner.is_none()).count()
}

fn owned_in(owners: &[Option<Name>], exp: Name) -> usize
    ensures { result ≡ count_by (is_owned_by exp) owners.now }
{
    owners
        .iter()
        .filter(|owner| is_owned_by(owner, exp))
        .count()
}

fn free_nodes(alloc: Global, owners: &[Option<Name>], exp: Name) -> Result<Items<bool>, Memory>
    ensures { IfOk result (λ free. free ≡ map (is_free_to exp) owners.now) }
{
    let mut free = Items::new(alloc);
    for owner in owners {
        free.push(is_free_to(owner, exp))?;
    }
    Ok(free)
}

/// By trunk, the kbps that are not used.
fn left_alone(alloc: Global, kbps: &[u64], used: &[u64]) -> Result<Items<u64>, Memory>
    requires lens { length used.now ≡ length kbps.now }
    requires fits { (t : ℕ) → t < length kbps.now → slice_index_or used.now t 0 ≤ slice_index_or kbps.now t 0 }
    ensures len { IfOk result (λ left. length left ≡ length kbps.now) }
    ensures left { IfOk result (λ left. (t : ℕ) → t < length kbps.now → slice_index_or left t 0 + slice_index_or used.now t 0 ≡ slice_index_or kbps.now t 0) }
{
    let mut left = Items::new(alloc);
    for trunk in 0..kbps.len() {
        left.push(kbps[trunk] - used[trunk])?;
    }
    Ok(left)
}

/// By trunk, the kbps that no claim but this one uses.
fn left_beside(
    alloc: Global,
    kbps: &[u64],
    used: &[u64],
    claim: &Claim,
) -> Result<Items<u64>, Memory>
    requires lens { length used.now ≡ length kbps.now }
    requires old { IfSome claim.now.old (λ h. length h.uses ≡ length kbps.now) }
    requires new { IfSome claim.now.new (λ h. length h.uses ≡ length kbps.now) }
    requires fits { (t : ℕ) → t < length kbps.now → slice_index_or used.now t 0 ≤ slice_index_or kbps.now t 0 }
    requires among { (t : ℕ) → t < length kbps.now → claim_use t claim.now ≤ slice_index_or used.now t 0 }
    ensures len { IfOk result (λ left. length left ≡ length kbps.now) }
    ensures left { IfOk result (λ left. (t : ℕ) → t < length kbps.now
        → slice_index_or left t 0 + slice_index_or used.now t 0 ≡ slice_index_or kbps.now t 0 + claim_use t claim.now) }
{
    let mut left = Items::new(alloc);
    for trunk in 0..kbps.len() {
        left.push(kbps[trunk] - (used[trunk] - claim.use_of(trunk)))?;
    }
    Ok(left)
}

/// By trunk, the kbps that other experiments don't claim.
fn left_to(
    alloc: Global,
    kbps: &[u64],
    used: &[u64],
    entries: &[Entry],
    exp: Name,
) -> Result<Items<u64>, Memory>
    requires lens { length used.now ≡ length kbps.now }
    requires uses { (e : AnyEntry) → Has entries.now e → HasUses (length kbps.now) e.claim }
    requires fits { (t : ℕ) → t < length kbps.now → slice_index_or used.now t 0 ≤ slice_index_or kbps.now t 0 }
    requires used { (t : ℕ) → t < length kbps.now → slice_index_or used.now t 0 ≡ use_by t entries.now }
    ensures len { IfOk result (λ left. length left ≡ length kbps.now) }
    ensures left { IfOk result (λ left. (t : ℕ) → t < length kbps.now
        → slice_index_or left t 0 + use_by t (others exp entries.now) ≡ slice_index_or kbps.now t 0) }
{
    match place_of(entries, exp) {
        Some(at) => left_beside(alloc, kbps, used, &entries[at].claim),
        None => left_alone(alloc, kbps, used),
    }
}

fn first_free(
    alloc: Global,
    owners: &[Option<Name>],
    first: u16,
    count: usize,
) -> Result<Tags, Memory>
    requires { first + length owners.now ≤ 2 ^ 16 }
    ensures { IfOk result (λ tags. map (λ tag. tag.0) tags ≡ take count (free_from first owners.now)) }
{
    let mut tags = Items::new(alloc);
    for (at, owner) in owners.iter().enumerate() {
        if owner.is_none() && tags.len() < count {
            tags.push(VlanId(first + at as u16))?;
        }
    }
    Ok(tags)
}

/// The kbps left of the trunk of that number.
fn left_of(kbps: &[u64], used: &[u64], number: usize) -> u64
    requires number { number < length kbps.now }
    requires one_each { length used.now ≡ length kbps.now }
    requires within { slice_index_or used.now number 0 ≤ slice_index_or kbps.now number 0 }
    ensures { result + slice_index_or used.now number 0 ≡ slice_index_or kbps.now number 0 }
{
    kbps[number] - used[number]
}

impl Claims {
    ghost use Rattle.std.specs.Prelude.{◌≡◌, ◌+◌, ◌<◌, length, slice_index_or, IfOk};
    ghost use Rattle.claims.specs.Held.{free_nodes, free_ids, nodes_of, ids_of, claim_named, claim_nodes, owner_of, use_by, IsLeftTo};
    ghost use Rattle.claims.specs.Answered.{AreTaken};

    /// The number of nodes and the number of VLAN ids that no claim has.
    pub fn counted(&self) -> (u16, u16)
        ensures nodes { result.0 ≡ free_nodes self.now }
        ensures ids { result.1 ≡ length (free_ids self.now) }
    {
        let nodes = free_in(&self.tables.nodes);
        let ids = free_in(&self.tables.ids);
        (nodes as u16, ids as u16)
    }

    /// The number of nodes and the number of VLAN ids that an experiment claims.
    pub fn counted_of(&self, exp: Name) -> (u16, u16)
        ensures nodes { result.0 ≡ nodes_of self.now.nodes (claim_named exp self.now.entries) }
        ensures ids { result.1 ≡ ids_of self.now.range (claim_named exp self.now.entries) }
    {
        let nodes = owned_in(&self.tables.nodes, exp);
        let ids = owned_in(&self.tables.ids, exp);
        (nodes as u16, ids as u16)
    }

    /// The experiment that claims a node, if one does. It takes no memory.
    pub fn owner_of(&self, node: NodeId) -> Option<Name>
        requires { node.0 < self.now.nodes }
        ensures { result ≡ owner_of claim_nodes self.now.entries node.0 }
    {
        self.tables.nodes[node.0 as usize]
    }

    /// The kbps that all claims leave of a trunk. It takes no memory.
    pub fn left(&self, trunk: TrunkId) -> u64
        requires { trunk.0 < length self.now.kbps }
        ensures { result + use_by trunk.0 self.now.entries ≡ slice_index_or self.now.kbps trunk.0 0 }
    {
        left_of(&self.kbps, &self.tables.used, trunk.0 as usize)
    }

    /// The nodes, kbps and VLAN ids that the others leave to an experiment.
    pub fn free_without(&self, alloc: Global, exp: Name) -> Result<Free, Memory>
        ensures { IfOk result (IsLeftTo self.now exp) }
    {
        let vlans = free_in(&self.tables.ids) as u16;
        let nodes = free_nodes(alloc, &self.tables.nodes, exp)?;
        let left = left_to(alloc, &self.kbps, &self.tables.used, &self.entries, exp)?;
        Ok(Free { nodes, left, vlans })
    }

    /// The `n` least free VLAN ids. `TooFew` has the number of those that are free.
    pub fn take_vlans(&self, alloc: Global, n: u16) -> Result<Tags, TakeFault>
        ensures { AreTaken (free_ids self.now) n result }
    {
        let free = free_in(&self.tables.ids);
        if free < n as usize {
            return Err(TakeFault::TooFew(free as u16));
        }
        Ok(first_free(alloc, &self.tables.ids, self.range.0, n as usize)?)
    }
}
