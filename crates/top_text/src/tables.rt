// Tables of the names, the addresses and the ends of the wiring so far.
ghost use Rattle.std.specs.Prelude.{◌≡◌, ◌<◌, ◌++◌, ◌∷◌, ◌&&◌, ◌||◌, ℕ, [], false};
ghost use Rattle.std.specs.Prelude.{true, nat_eq, nat_lt, length, map, position, slice_index_or, slice_set, IfOk, IfSome, OnOk};
ghost use Rattle.std.specs.List.{list_any, list_all};
ghost use Rattle.lab_base.specs.Names.{same_name};
ghost use Rattle.indexmap.specs.IndexSet.{contains};
ghost use Rattle.virt_topo.specs.Repeats.{stands_again};
ghost use Rattle.virt_topo.specs.Owners.{at_ends};
ghost use Rattle.top_text.specs.Tables.{AreTables, listed, addresses_of, same_end};
ghost use Rattle.top_text.specs.Adding.{start};

use indexmap::IndexSet;
use lab_base::{Items, Memory, Name};
use std::alloc::Global;
use std::hash::Hash;
use virt_topo::{Pipe, VirtEnd};

/// A number that names nothing.
pub(crate) const NONE: u16 = 65_535;

/// The tables of the wiring so far.
#[derive(Drop)]
pub(crate) struct Tables {
    pub(crate) classes: IndexSet<Name>,
    pub(crate) nodes: IndexSet<Name>,
    pub(crate) segments: IndexSet<Name>,
    pub(crate) addresses: IndexSet<u32>,
    /// The ends of pipes: each is a virtual node, and the number of earlier ends that it has.
    pub(crate) piped: IndexSet<(u16, u16)>,
    /// By virtual node the number of the segment of each of its ends.
    pub(crate) on_node: Vec<Items<u16>>,
    /// By segment whether a pipe joins one of its ends.
    pub(crate) joined: Vec<bool>,
    /// How many ends there are.
    pub(crate) ends: usize,
}

/// Adds a new key.
pub(crate) fn put<T: Eq + Hash + Drop>(set: &mut IndexSet<T>, key: T) -> Result<(), Memory>
    requires { contains T.eq set.old key ≡ false }
    ensures { OnOk result (set.new.keys ≡ set.old.keys ++ key ∷ []) }
{
    set.insert(key)?;
    Ok(())
}

/// Adds an address; the answer is whether it was there.
fn repeats_address(addresses: &mut IndexSet<u32>, address: Option<u32>) -> Result<bool, Memory>
    ensures again { IfOk result (λ again. again ≡ list_any (λ a. list_any (nat_eq a) addresses.old.keys) (listed address)) }
    ensures keys { IfOk result (λ again. again ≡ false → addresses.new.keys ≡ addresses.old.keys ++ listed address) }
{
    match address {
        Some(address) => {
            let is_new = addresses.insert(address)?;
            Ok(!is_new)
        }
        None => Ok(false),
    }
}

/// Adds the addresses of ends; the answer is whether one was there, or stands twice.
pub(crate) fn repeats_addresses(
    addresses: &mut IndexSet<u32>,
    ends: &[VirtEnd],
) -> Result<bool, Memory>
    requires { stands_again nat_eq addresses.old.keys ≡ false }
    ensures again { IfOk result (λ again. again ≡ stands_again nat_eq (addresses.old.keys ++ addresses_of ends.now)) }
    ensures keys { IfOk result (λ again. again ≡ false → addresses.new.keys ≡ addresses.old.keys ++ addresses_of ends.now) }
{
    for end in ends {
        let again = repeats_address(addresses, end.address)?;
        if again {
            return Ok(true);
        }
    }
    Ok(false)
}

/// Adds a virtual node that has no end.
pub(crate) fn put_node(on_node: &mut Vec<Items<u16>>, alloc: Global) -> Result<(), Memory>
    ensures { OnOk result (on_node.new.items ≡ on_node.old.items ++ [] ∷ []) }
{
    on_node.push(Items::new(alloc))?;
    Ok(())
}

/// Adds the ends of a segment to those of their virtual nodes.
pub(crate) fn put_ends(
    on_node: &mut Vec<Items<u16>>,
    segment: u16,
    ends: &[VirtEnd],
) -> Result<(), Memory>
    requires { list_all (λ e. nat_lt e.node (length on_node.old.items)) ends.now ≡ true }
    ensures count { OnOk result (length on_node.new.items ≡ length on_node.old.items) }
    ensures numbers { OnOk result ((v : ℕ) → v < length on_node.old.items
        → slice_index_or on_node.new.items v []
        ≡ slice_index_or on_node.old.items v [] ++ at_ends v (map (λ e. e.node) ends.now) (map (λ e. segment) ends.now)) }
{
    for end in ends {
        on_node[end.node as usize].push(segment)?;
    }
    Ok(())
}

/// Adds a segment that no pipe joins.
pub(crate) fn put_segment(joined: &mut Vec<bool>) -> Result<(), Memory>
    ensures { OnOk result (joined.new.items ≡ joined.old.items ++ false ∷ []) }
{
    joined.push(false)?;
    Ok(())
}

/// Notes that a pipe joins ends of two segments, or of one.
pub(crate) fn join(joined: &mut Vec<bool>, first: u16, second: u16)
    requires first { first < length joined.old.items }
    requires second { second < length joined.old.items }
    ensures { joined.new.items ≡ slice_set (slice_set joined.old.items first true) second true }
{
    joined[first as usize] = true;
    joined[second as usize] = true;
}

impl Tables {
    pub(crate) fn new(alloc: Global) -> Self
        ensures { AreTables start result }
    {
        Tables {
            classes: IndexSet::new(alloc),
            nodes: IndexSet::new(alloc),
            segments: IndexSet::new(alloc),
            addresses: IndexSet::new(alloc),
            piped: IndexSet::new(alloc),
            on_node: Vec::new(alloc),
            joined: Vec::new(alloc),
            ends: 0,
        }
    }

    /// The number of the class of a name.
    pub(crate) fn class_named(&self, name: Name) -> Option<usize>
        ensures place { result ≡ position (same_name name) self.now.classes.keys }
        ensures within { IfSome result (λ n. n < length self.now.classes.keys) }
    {
        self.classes.get_index_of(&name)
    }

    /// The number of the virtual node of a name.
    pub(crate) fn node_named(&self, name: Name) -> Option<usize>
        ensures place { result ≡ position (same_name name) self.now.nodes.keys }
        ensures within { IfSome result (λ n. n < length self.now.nodes.keys) }
    {
        self.nodes.get_index_of(&name)
    }

    /// The number of the segment of a name.
    pub(crate) fn segment_named(&self, name: Name) -> Option<usize>
        ensures place { result ≡ position (same_name name) self.now.segments.keys }
        ensures within { IfSome result (λ n. n < length self.now.segments.keys) }
    {
        self.segments.get_index_of(&name)
    }

    /// Whether a virtual node has more than `k` ends.
    pub(crate) fn has_end(&self, node: u16, k: u16) -> bool
        ensures { result ≡ (nat_lt node (length self.now.on_node.items) && nat_lt k (length (slice_index_or self.now.on_node.items node []))) }
    {
        match self.on_node.get(node as usize) {
            Some(numbers) => (k as usize) < numbers.len(),
            None => false,
        }
    }

    /// The number of the segment of a virtual node's end that has `k` earlier ones; 65,535 where there is none.
    pub(crate) fn segment(&self, node: u16, k: u16) -> u16
        ensures { result ≡ slice_index_or (slice_index_or self.now.on_node.items node []) k NONE }
    {
        match self.on_node.get(node as usize) {
            Some(numbers) => match numbers.as_slice().get(k as usize) {
                Some(number) => *number,
                None => NONE,
            },
            None => NONE,
        }
    }

    /// Whether an end of this pipe is in an earlier pipe.
    pub(crate) fn is_piped(&self, pipe: &Pipe) -> bool
        ensures { result ≡ (list_any (same_end (pipe.now.node, pipe.now.from)) self.now.piped.keys
            || list_any (same_end (pipe.now.node, pipe.now.to)) self.now.piped.keys) }
    {
        self.piped.contains(&(pipe.node, pipe.from)) || self.piped.contains(&(pipe.node, pipe.to))
    }
}
