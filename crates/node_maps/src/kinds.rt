// Kinds of virtual nodes.
ghost use Rattle.std.specs.Prelude.{◌≡◌, ◌↔◌, ◌<◌, ◌+◌, ℕ, length, All, slice_index_or, IsTrue, IfOk, IfNone, IfSome, OnOk};
ghost use Rattle.virt_topo.specs.Wirings.{no_virt};
ghost use Rattle.node_maps.specs.Kinds.{AreKinds, AreOfOneKind};

use lab_base::{Memory, Name};
use std::alloc::Global;
use virt_topo::{Asks, VirtNode};

/// Whether two virtual nodes ask for one type, or for one class.
fn ask_alike(one: Asks, other: Asks) -> bool
    ensures { IsTrue result ↔ (one ≡ other) }
{
    match one {
        Asks::Plain(kind) => match other {
            Asks::Plain(asked) => kind == asked,
            Asks::Class(_) => false,
        },
        Asks::Class(class) => match other {
            Asks::Plain(_) => false,
            Asks::Class(asked) => class == asked,
        },
    }
}

/// Whether two virtual nodes have to be on one node, or both on any.
fn are_fixed_alike(one: Option<Name>, other: Option<Name>) -> bool
    ensures { IsTrue result ↔ (one ≡ other) }
{
    match one {
        Some(node) => match other {
            Some(set) => node == set,
            None => false,
        },
        None => other.is_none(),
    }
}

/// Whether two desires are of one feature, with one weight.
fn is_one_desire(one: (Name, u32), other: (Name, u32)) -> bool
    ensures { IsTrue result ↔ (one ≡ other) }
{
    one.0 == other.0 && one.1 == other.1
}

/// Whether two virtual nodes have the same desires, in one order.
fn desire_alike(one: &[(Name, u32)], other: &[(Name, u32)]) -> bool
    ensures { IsTrue result ↔ (one.now ≡ other.now) }
{
    if one.len() != other.len() {
        return false;
    }
    for number in 0..one.len() {
        if !is_one_desire(one[number], other[number]) {
            return false;
        }
    }
    true
}

/// Whether two virtual nodes are of one kind.
fn are_of_one_kind(one: &VirtNode, other: &VirtNode) -> bool
    ensures { IsTrue result ↔ AreOfOneKind one.now other.now }
{
    ask_alike(one.asks, other.asks)
        && are_fixed_alike(one.fixed, other.fixed)
        && desire_alike(one.desires.as_slice(), other.desires.as_slice())
}

/// The kind of a virtual node among those that these are of, if it is of one.
fn kind_of(nodes: &[VirtNode], ones: &[usize], virt: usize) -> Option<usize>
    requires ones { All (λ v. v < length nodes.now) ones.now }
    requires virt { virt < length nodes.now }
    ensures within { IfSome result (λ k. k < length ones.now) }
    ensures same { IfSome result (λ k. AreOfOneKind (slice_index_or nodes.now (slice_index_or ones.now k 0) no_virt) (slice_index_or nodes.now virt no_virt)) }
    ensures none { IfNone result ((k : ℕ) → k < length ones.now
        → AreOfOneKind (slice_index_or nodes.now (slice_index_or ones.now k 0) no_virt) (slice_index_or nodes.now virt no_virt) → ⊥) }
{
    for kind in 0..ones.len() {
        if are_of_one_kind(&nodes[ones[kind]], &nodes[virt]) {
            return Some(kind);
        }
    }
    None
}

/// Kinds of virtual nodes.
#[derive(Drop)]
pub struct Kinds {
    /// By kind the number of a virtual node of it.
    pub ones: Vec<usize>,
    /// By virtual node its kind.
    pub kinds: Vec<usize>,
}

impl Kinds {
    /// Notes the kind of the next virtual node.
    fn add(&mut self, nodes: &[VirtNode], virt: usize) -> Result<(), Memory>
        requires virt { virt < length nodes.now }
        requires kinds { AreKinds nodes.now virt self.old.ones.items self.old.kinds.items }
        ensures { OnOk result (AreKinds nodes.now (virt + 1) self.new.ones.items self.new.kinds.items) }
    {
        match kind_of(nodes, &self.ones, virt) {
            Some(kind) => self.kinds.push(kind)?,
            None => {
                self.kinds.push(self.ones.len())?;
                self.ones.push(virt)?;
            }
        }
        Ok(())
    }

    /// The kinds of virtual nodes.
    pub fn of(alloc: Global, nodes: &[VirtNode]) -> Result<Kinds, Memory>
        ensures { IfOk result (λ found. AreKinds nodes.now (length nodes.now) found.ones.items found.kinds.items) }
    {
        let mut found = Kinds {
            ones: Vec::new(alloc),
            kinds: Vec::new(alloc),
        };
        for virt in 0..nodes.len() {
            found.add(nodes, virt)?;
        }
        Ok(found)
    }
}
