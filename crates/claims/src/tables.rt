ghost use Rattle.std.specs.Prelude.{◌≡◌, ◌<◌, ◌≤◌, ◌+◌, ◌-◌, ◌^◌, ℕ, All, length, slice_index_or, vec_len, replicate, IfOk, IfSome, None, Some};
ghost use Rattle.claims.specs.Held.{claim_use, claim_nodes, nodes_in};
ghost use Rattle.claims.specs.Marks.{marked, node_places, id_places, places_in, claim_places, FitsTables};

use crate::claim::Claim;
use crate::hold::Hold;
use lab_base::{Memory, Name, NodeId, VlanId};
use std::alloc::Global;

/// The claims of all experiments together, by node, by trunk and by VLAN id.
#[derive(Drop)]
pub(crate) struct Tables {
    /// By node, the experiment that claims it.
    pub nodes: Vec<Option<Name>>,
    /// By trunk, the kbps that are used.
    pub used: Vec<u64>,
    /// By VLAN id of the range, from its first on, the experiment that claims it.
    pub ids: Vec<Option<Name>>,
}

fn own_nodes(owners: &mut Vec<Option<Name>>, nodes: &[NodeId], owner: &Option<Name>)
    requires { All (λ n. n.0 < vec_len owners.old) nodes.now }
    ensures marked { owners.new.items ≡ marked owner.now owners.old.items (node_places nodes.now) }
    ensures len { vec_len owners.new ≡ vec_len owners.old }
{
    for node in nodes {
        owners[node.0 as usize] = *owner;
    }
}

fn own_ids(owners: &mut Vec<Option<Name>>, first: u16, tags: &[VlanId], owner: &Option<Name>)
    requires { All (λ tag. (first ≤ tag.0) × (tag.0 - first < vec_len owners.old)) tags.now }
    ensures marked { owners.new.items ≡ marked owner.now owners.old.items (id_places first tags.now) }
    ensures len { vec_len owners.new ≡ vec_len owners.old }
{
    for tag in tags {
        owners[(tag.0 - first) as usize] = *owner;
    }
}

/// Sets the owner of the nodes and VLAN ids of one side of a claim, or clears it.
fn own(tables: &mut Tables, first: u16, hold: &Option<Hold>, owner: &Option<Name>)
    requires nodes { IfSome hold.now (λ h. All (λ n. n.0 < vec_len tables.old.nodes) h.nodes) }
    requires ids { IfSome hold.now (λ h. All (λ tag. (first ≤ tag.0) × (tag.0 - first < vec_len tables.old.ids)) h.tags) }
    ensures nodes { tables.new.nodes.items ≡ marked owner.now tables.old.nodes.items (nodes_in hold.now) }
    ensures ids { tables.new.ids.items ≡ marked owner.now tables.old.ids.items (places_in first hold.now) }
    ensures nodes_len { vec_len tables.new.nodes ≡ vec_len tables.old.nodes }
    ensures ids_len { vec_len tables.new.ids ≡ vec_len tables.old.ids }
    ensures used { tables.new.used ≡ tables.old.used }
{
    if let Some(hold) = hold {
        own_nodes(&mut tables.nodes, hold.nodes.as_slice(), owner);
        own_ids(&mut tables.ids, first, hold.tags.as_slice(), owner);
    }
}

fn use_more(used: &mut Vec<u64>, claim: &Claim)
    requires old { IfSome claim.now.old (λ h. length h.uses ≡ vec_len used.old) }
    requires new { IfSome claim.now.new (λ h. length h.uses ≡ vec_len used.old) }
    requires fits { (t : ℕ) → t < vec_len used.old → slice_index_or used.old.items t 0 + claim_use t claim.now < 2 ^ 64 }
    ensures len { vec_len used.new ≡ vec_len used.old }
    ensures more { (t : ℕ) → t < vec_len used.old → slice_index_or used.new.items t 0 ≡ slice_index_or used.old.items t 0 + claim_use t claim.now }
{
    for trunk in 0..used.len() {
        used[trunk] += claim.use_of(trunk);
    }
}

fn use_less(used: &mut Vec<u64>, claim: &Claim)
    requires old { IfSome claim.now.old (λ h. length h.uses ≡ vec_len used.old) }
    requires new { IfSome claim.now.new (λ h. length h.uses ≡ vec_len used.old) }
    requires fits { (t : ℕ) → t < vec_len used.old → claim_use t claim.now ≤ slice_index_or used.old.items t 0 }
    ensures len { vec_len used.new ≡ vec_len used.old }
    ensures less { (t : ℕ) → t < vec_len used.old → slice_index_or used.new.items t 0 + claim_use t claim.now ≡ slice_index_or used.old.items t 0 }
{
    for trunk in 0..used.len() {
        used[trunk] -= claim.use_of(trunk);
    }
}

/// Adds the claim of an experiment to the tables.
pub(crate) fn note(tables: &mut Tables, first: u16, exp: Name, claim: &Claim)
    requires fits { FitsTables first tables.old claim.now }
    requires room { (t : ℕ) → t < length tables.old.used.items → slice_index_or tables.old.used.items t 0 + claim_use t claim.now < 2 ^ 64 }
    ensures nodes { tables.new.nodes.items ≡ marked (Some exp) tables.old.nodes.items (claim_nodes claim.now) }
    ensures ids { tables.new.ids.items ≡ marked (Some exp) tables.old.ids.items (claim_places first claim.now) }
    ensures used { (t : ℕ) → t < length tables.old.used.items
        → slice_index_or tables.new.used.items t 0 ≡ slice_index_or tables.old.used.items t 0 + claim_use t claim.now }
    ensures nodes_len { length tables.new.nodes.items ≡ length tables.old.nodes.items }
    ensures ids_len { length tables.new.ids.items ≡ length tables.old.ids.items }
    ensures used_len { length tables.new.used.items ≡ length tables.old.used.items }
{
    let owner = Some(exp);
    own(tables, first, &claim.old, &owner);
    own(tables, first, &claim.new, &owner);
    use_more(&mut tables.used, claim);
}

/// Removes the claim of an experiment from the tables.
pub(crate) fn forget(tables: &mut Tables, first: u16, claim: &Claim)
    requires fits { FitsTables first tables.old claim.now }
    requires room { (t : ℕ) → t < length tables.old.used.items → claim_use t claim.now ≤ slice_index_or tables.old.used.items t 0 }
    ensures nodes { tables.new.nodes.items ≡ marked None tables.old.nodes.items (claim_nodes claim.now) }
    ensures ids { tables.new.ids.items ≡ marked None tables.old.ids.items (claim_places first claim.now) }
    ensures used { (t : ℕ) → t < length tables.old.used.items
        → slice_index_or tables.new.used.items t 0 + claim_use t claim.now ≡ slice_index_or tables.old.used.items t 0 }
    ensures nodes_len { length tables.new.nodes.items ≡ length tables.old.nodes.items }
    ensures ids_len { length tables.new.ids.items ≡ length tables.old.ids.items }
    ensures used_len { length tables.new.used.items ≡ length tables.old.used.items }
{
    let owner = None;
    own(tables, first, &claim.old, &owner);
    own(tables, first, &claim.new, &owner);
    use_less(&mut tables.used, claim);
}

/// Tables of a lab in which nothing is claimed.
pub(crate) fn no_tables(
    alloc: Global,
    nodes: usize,
    trunks: usize,
    ids: usize,
) -> Result<Tables, Memory>
    ensures nodes { IfOk result (λ tables. tables.nodes.items ≡ replicate nodes None) }
    ensures used { IfOk result (λ tables. tables.used.items ≡ replicate trunks 0) }
    ensures ids { IfOk result (λ tables. tables.ids.items ≡ replicate ids None) }
{
    Ok(Tables {
        nodes: vec![in alloc; None; nodes]?,
        used: vec![in alloc; 0; trunks]?,
        ids: vec![in alloc; None; ids]?,
    })
}
