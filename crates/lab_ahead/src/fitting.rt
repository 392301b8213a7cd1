ghost use Rattle.std.specs.Prelude.{◌≡◌, ◌<◌, ◌≤◌, ◌↔◌, ℕ, List, length, All, IfOk};
ghost use Rattle.std.specs.Ordering.{nat_cmp};
ghost use Rattle.std.specs.List.Sorted.{IsStrictlySortedBy};
ghost use Rattle.std.specs.Cmp.Lexicographic.{slice_cmp};
ghost use Rattle.lab_base.specs.Lists.{Has, AllDiffer};
ghost use Rattle.lab_base.specs.declared.ids.NodeId.{NodeId};
ghost use Rattle.phys_lab.specs.Labs.{Lab as AnyLab};
ghost use Rattle.phys_lab.specs.Tables.{rows};
ghost use Rattle.lab_ahead.specs.declared.fitting.Need.{Need};
ghost use Rattle.lab_ahead.specs.Givings.{Fits, IsShort, IsYes, Shows, need_at};
ghost use Rattle.lab_ahead.specs.SearchTrees.{IsTable, Reached, given_of, table_of};

use crate::giving::{Giving, table_of};
use crate::read::MAX_PROMISES;
use crate::tree::Step;
use lab_base::{Items, Memory, Name, NodeId};
use phys_lab::Lab;
use std::alloc::Global;

/// A need: so many nodes of a type.
#[derive(Clone, Copy, PartialEq, Eq)]
pub struct Need {
    pub kind: Name,
    pub count: u16,
}

/// Whether needs fit. Yes has the nodes given, each with the number of its need. No has types of which more nodes are needed together than are left.
#[derive(Drop)]
pub enum Fit {
    Yes(Items<(NodeId, u16)>),
    No(Items<Name>),
}

/// The nodes given, each with the number of its need.
fn given_of(
    alloc: Global,
    left: &[NodeId],
    owners: &[Option<u16>],
) -> Result<Items<(NodeId, u16)>, Memory>
    requires { length owners.now ≡ length left.now }
    ensures { IfOk result (λ given. given ≡ given_of left.now owners.now) }
{
    let mut given = Items::new(alloc);
    for i in 0..left.len() {
        if let Some(need) = owners[i] {
            given.push((left[i], need))?;
        }
    }
    Ok(given)
}

/// The types of the needs that a tree reached.
fn kinds_reached(alloc: Global, needs: &[Need], steps: &[Step]) -> Result<Items<Name>, Memory>
    requires { All (λ step. step.need < length needs.now) steps.now }
    ensures rising { IfOk result (IsStrictlySortedBy (slice_cmp nat_cmp)) }
    ensures all { IfOk result (λ kinds. (n : ℕ) → Reached steps.now n → Has kinds (need_at needs.now n).kind) }
    ensures only { IfOk result (λ kinds. (kind : List ℕ) → Has kinds kind → (n : ℕ) × Reached steps.now n × ((need_at needs.now n).kind ≡ kind)) }
{
    let mut kinds = Vec::new(alloc);
    for step in steps {
        kinds.push(needs[step.need as usize].kind)?;
    }
    kinds.sort()?;
    kinds.dedup();
    Ok(Items::from_vec(kinds))
}

/// Whether nodes meet needs, by the table that tells by need which of them have its type.
pub(crate) fn fits_by(
    alloc: Global,
    table: Vec<Vec<bool>>,
    left: &[NodeId],
    needs: &[Need],
) -> Result<Fit, Memory>
    requires differ { AllDiffer left.now }
    requires few { length needs.now ≤ MAX_PROMISES }
    requires table { IsTable (length needs.now) (length left.now) (rows table.items) }
    ensures shows { (lab : AnyLab) → rows table.items ≡ table_of lab left.now needs.now → IfOk result (Shows lab left.now needs.now) }
    ensures exact { (lab : AnyLab) → rows table.items ≡ table_of lab left.now needs.now → IfOk result (λ fit. IsYes fit ↔ Fits lab left.now needs.now) }
{
    let mut giving = Giving::new(alloc, table, left.len())?;
    match giving.serve_all(alloc, needs)? {
        None => Ok(Fit::Yes(given_of(alloc, left, &giving.owners)?)),
        Some(tree) => Ok(Fit::No(kinds_reached(alloc, needs, &tree.steps)?)),
    }
}

/// Whether the nodes left meet the needs: each need gets as many nodes of its type as it counts, and no node is given twice.
/// Nodes are exchanged between needs along augmenting paths. `No` comes exactly where no giving exists.
pub fn fits(alloc: Global, lab: &Lab, left: &[NodeId], needs: &[Need]) -> Result<Fit, Memory>
    requires differ { AllDiffer left.now }
    requires of_lab { All (λ node. node.0 < length lab.now.nodes) left.now }
    requires few { length needs.now ≤ MAX_PROMISES }
    ensures shows { IfOk result (Shows lab.now left.now needs.now) }
    ensures exact { IfOk result (λ fit. IsYes fit ↔ Fits lab.now left.now needs.now) }
{
    let table = table_of(alloc, lab, left, needs)?;
    fits_by(alloc, table, left, needs)
}

/// Where more nodes of some types are needed together than are left, no giving exists.
pub fn short_types_never_fit()
    ensures { (lab : AnyLab) (left : List NodeId) (needs : List Need) (kinds : List (List ℕ)) → IsShort lab left needs kinds → ¬ Fits lab left needs }
{}
