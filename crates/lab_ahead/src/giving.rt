// Nodes given to needs, and exchanged between them.
ghost use Rattle.std.specs.Prelude.{◌≡◌, ◌<◌, ◌≤◌, ◌+◌, ◌==◌, ◌↔◌, ℕ, length, map, replicate, IfOk, OnOk, MatchOption, Some, None, true, All, IsTrue, if◌then◌else◌};
ghost use Rattle.std.specs.List.{list_any};
ghost use Rattle.lab_base.specs.Names.{same_name};
ghost use Rattle.phys_lab.specs.Tables.{rows};
ghost use Rattle.lab_ahead.specs.Givings.{has_type};
ghost use Rattle.lab_ahead.specs.SearchTrees.{AreMet, Extends, IsClosedAt, IsFree, IsPath, IsSearched, IsTaken, IsTree, IsStuck, IsWanting, IsWhole, KeepsNodes, held, owner_at, owners_in, serves, step_at, table_in, table_of};

use crate::fitting::Need;
use crate::read::MAX_PROMISES;
use crate::tree::{Path, Search, SearchTree, Step};
use lab_base::{Memory, Name, NodeId};
use phys_lab::Lab;
use std::alloc::Global;

/// Nodes given to needs: by need, which of the nodes have its type, and by node, the need that has it.
#[derive(Drop)]
pub(crate) struct Giving {
    pub(crate) rows: Vec<Vec<bool>>,
    pub(crate) owners: Vec<Option<u16>>,
}

fn is_among(types: &[(Name, u16)], kind: &Name) -> bool
    ensures { result ≡ list_any (λ t. same_name kind.now t.0) types.now }
{
    types.iter().any(|t| *kind == t.0)
}

pub(crate) fn has_type(lab: &Lab, kind: &Name, node: NodeId) -> bool
    requires { node.0 < length lab.now.nodes }
    ensures { result ≡ has_type lab.now kind.now node }
{
    is_among(lab.nodes()[node.0 as usize].types.as_slice(), kind)
}

fn row_of(alloc: Global, lab: &Lab, left: &[NodeId], kind: Name) -> Result<Vec<bool>, Memory>
    requires { All (λ node. node.0 < length lab.now.nodes) left.now }
    ensures { IfOk result (λ row. row.items ≡ map (has_type lab.now kind) left.now) }
{
    let mut row = Vec::new(alloc);
    for node in left {
        row.push(has_type(lab, &kind, *node))?;
    }
    Ok(row)
}

/// By need, which of the nodes have its type.
pub(crate) fn table_of(
    alloc: Global,
    lab: &Lab,
    left: &[NodeId],
    needs: &[Need],
) -> Result<Vec<Vec<bool>>, Memory>
    requires { All (λ node. node.0 < length lab.now.nodes) left.now }
    ensures { IfOk result (λ table. rows table.items ≡ table_of lab.now left.now needs.now) }
{
    let mut rows = Vec::new(alloc);
    for need in needs {
        rows.push(row_of(alloc, lab, left, need.kind)?)?;
    }
    Ok(rows)
}

impl Giving {
    /// The giving of so many nodes in which none is given.
    pub(crate) fn new(alloc: Global, table: Vec<Vec<bool>>, nodes: usize) -> Result<Giving, Memory>
        ensures rows { IfOk result (λ giving. table_in giving ≡ rows table.items) }
        ensures owners { IfOk result (λ giving. owners_in giving ≡ replicate nodes None) }
    {
        let owners = vec![in alloc; None; nodes]?;
        Ok(Giving {
            rows: table,
            owners,
        })
    }

    fn first_step(&self, alloc: Global, start: u16) -> Result<SearchTree, Memory>
        requires { start < length (table_in self.now) }
        ensures tree { IfOk result (IsTree (table_in self.now) (owners_in self.now)) }
        ensures start { IfOk result (λ tree. (step_at tree.steps.items 0).need ≡ start) }
    {
        let mut steps = Vec::new(alloc);
        steps.push(Step {
            need: start,
            position: 0,
            parent: 0,
        })?;
        let mut seen = vec![in alloc; false; self.rows.len()]?;
        seen[start as usize] = true;
        Ok(SearchTree { steps, seen })
    }

    /// Adds a step to a tree, unless its need is reached already.
    fn reach(&self, tree: &mut SearchTree, step: Step) -> Result<(), Memory>
        requires tree { IsTree (table_in self.now) (owners_in self.now) tree.old }
        requires back { step.parent < length tree.old.steps.items }
        requires owned { owner_at (owners_in self.now) step.position ≡ Some step.need }
        requires inside { step.need < length (table_in self.now) }
        requires served { serves (table_in self.now) (step_at tree.old.steps.items step.parent).need step.position ≡ true }
        ensures tree { OnOk result (IsTree (table_in self.now) (owners_in self.now) tree.new) }
        ensures extends { OnOk result (Extends tree.old.steps.items tree.new.steps.items) }
        ensures reached { OnOk result (IsTaken (owners_in self.now) tree.new.steps.items step.position) }
    {
        if tree.seen[step.need as usize] {
            return Ok(());
        }
        tree.steps.push(step)?;
        tree.seen[step.need as usize] = true;
        Ok(())
    }

    /// Reaches the needs of all nodes that the need of a step can take. Answers the number of one that is free, if there is one.
    fn look(&self, tree: &mut SearchTree, place: usize) -> Result<Option<usize>, Memory>
        requires whole { IsWhole self.now }
        requires tree { IsTree (table_in self.now) (owners_in self.now) tree.old }
        requires place { place < length tree.old.steps.items }
        ensures tree { OnOk result (IsTree (table_in self.now) (owners_in self.now) tree.new) }
        ensures extends { OnOk result (Extends tree.old.steps.items tree.new.steps.items) }
        ensures answer { IfOk result (λ free. MatchOption free
            (IsClosedAt (table_in self.now) (owners_in self.now) tree.new.steps.items place)
            (IsFree (table_in self.now) (owners_in self.now) tree.new.steps.items place)) }
    {
        let need = tree.steps[place].need;
        let row = self.rows[need as usize].as_slice();
        for i in 0..row.len() {
            if row[i] {
                match self.owners[i] {
                    Some(owner) => self.reach(
                        tree,
                        Step {
                            need: owner,
                            position: i,
                            parent: place,
                        },
                    )?,
                    None => return Ok(Some(i)),
                }
            }
        }
        Ok(None)
    }

    /// Searches a free node that can come to a need by exchanges along an augmenting path.
    fn search(&self, alloc: Global, start: u16) -> Result<Search, Memory>
        requires whole { IsWhole self.now }
        requires start { start < length (table_in self.now) }
        ensures { IfOk result (IsSearched (table_in self.now) (owners_in self.now) start) }
    {
        let mut tree = self.first_step(alloc, start)?;
        let mut place = 0;
        while place < tree.steps.len() {
            if let Some(position) = self.look(&mut tree, place)? {
                return Ok(Search::Free(Path {
                    tree,
                    place,
                    position,
                }));
            }
            place += 1;
        }
        Ok(Search::Stuck(tree))
    }

    /// Gives the free node to its step's need. Each node by which a need was reached goes to the need before it, up to the first one.
    fn exchange(&mut self, start: u16, path: &Path)
        requires whole { IsWhole self.old }
        requires path { IsPath (table_in self.old) (owners_in self.old) start path.now }
        ensures whole { IsWhole self.new }
        ensures nodes { KeepsNodes self.old self.new }
        ensures held { (n : ℕ) → held (owners_in self.new) n ≡ held (owners_in self.old) n + (if start == n then 1 else 0) }
    {
        let steps = path.tree.steps.as_slice();
        let mut position = path.position;
        let mut place = path.place;
        while place > 0 {
            let step = steps[place];
            self.owners[position] = Some(step.need);
            position = step.position;
            place = step.parent;
        }
        self.owners[position] = Some(start);
    }

    /// Whether a node is given to no need, and has the type of that one.
    fn can_give(&self, need: u16, place: usize) -> bool
        requires whole { IsWhole self.now }
        requires need { need < length (table_in self.now) }
        requires place { place < length (owners_in self.now) }
        ensures { IsTrue result ↔ ((serves (table_in self.now) need place ≡ true) × (owner_at (owners_in self.now) place ≡ None)) }
    {
        self.rows[need as usize][place] && self.owners[place].is_none()
    }

    /// Gives a node to a need, where it is given to none and has the need's type. Tells whether it is.
    fn give_one(&mut self, need: u16, place: usize) -> bool
        requires whole { IsWhole self.old }
        requires need { need < length (table_in self.old) }
        requires place { place < length (owners_in self.old) }
        ensures whole { IsWhole self.new }
        ensures nodes { KeepsNodes self.old self.new }
        ensures others { (n : ℕ) → (need ≡ n → ⊥) → held (owners_in self.new) n ≡ held (owners_in self.old) n }
        ensures own { held (owners_in self.new) need ≡ held (owners_in self.old) need + (if result then 1 else 0) }
    {
        if !self.can_give(need, place) {
            return false;
        }
        self.owners[place] = Some(need);
        true
    }

    /// Gives a need nodes that are given to none, at most so many, and tells how many it gave.
    fn give(&mut self, need: u16, count: u16) -> u16
        requires whole { IsWhole self.old }
        requires need { need < length (table_in self.old) }
        ensures whole { IsWhole self.new }
        ensures nodes { KeepsNodes self.old self.new }
        ensures others { (n : ℕ) → (need ≡ n → ⊥) → held (owners_in self.new) n ≡ held (owners_in self.old) n }
        ensures own { held (owners_in self.new) need ≡ held (owners_in self.old) need + result }
        ensures most { result ≤ count }
    {
        let mut given = 0;
        for place in 0..self.owners.len() {
            if given == count {
                return given;
            }
            given += u16::from(self.give_one(need, place));
        }
        given
    }

    /// Gives so many nodes to a need. Where that can't be, it answers the stuck tree.
    fn serve(&mut self, alloc: Global, need: u16, count: u16) -> Result<Option<SearchTree>, Memory>
        requires whole { IsWhole self.old }
        requires need { need < length (table_in self.old) }
        ensures whole { OnOk result (IsWhole self.new) }
        ensures nodes { OnOk result (KeepsNodes self.old self.new) }
        ensures others { OnOk result ((n : ℕ) → (need ≡ n → ⊥) → held (owners_in self.new) n ≡ held (owners_in self.old) n) }
        ensures answer { IfOk result (λ stuck. MatchOption stuck
            (held (owners_in self.new) need ≡ held (owners_in self.old) need + count)
            (λ tree. IsStuck (table_in self.new) (owners_in self.new) need tree
            × (held (owners_in self.new) need < held (owners_in self.old) need + count))) }
    {
        let given = self.give(need, count);
        for _given in given..count {
            match self.search(alloc, need)? {
                Search::Free(path) => self.exchange(need, &path),
                Search::Stuck(tree) => return Ok(Some(tree)),
            }
        }
        Ok(None)
    }

    /// Gives each need as many nodes as it counts. Where that can't be, it answers the stuck tree.
    pub(crate) fn serve_all(
        &mut self,
        alloc: Global,
        needs: &[Need],
    ) -> Result<Option<SearchTree>, Memory>
        requires whole { IsWhole self.old }
        requires needs { length (table_in self.old) ≡ length needs.now }
        requires few { length needs.now ≤ MAX_PROMISES }
        requires none { (n : ℕ) → held (owners_in self.old) n ≡ 0 }
        ensures whole { OnOk result (IsWhole self.new) }
        ensures nodes { OnOk result (KeepsNodes self.old self.new) }
        ensures answer { IfOk result (λ stuck. MatchOption stuck
            (AreMet needs.now (length needs.now) (owners_in self.new))
            (IsWanting needs.now (table_in self.new) (owners_in self.new))) }
    {
        for (n, need) in needs.iter().enumerate() {
            if let Some(tree) = self.serve(alloc, n as u16, need.count)? {
                return Ok(Some(tree));
            }
        }
        Ok(None)
    }
}
