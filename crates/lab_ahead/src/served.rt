// Which nodes of a lab have the types of promises.
ghost use Rattle.std.specs.Prelude.{◌≡◌, ◌<◌, ◌≤◌, length, map, All, IfOk};
ghost use Rattle.phys_lab.specs.Tables.{rows};
ghost use Rattle.lab_ahead.specs.Givings.{has_type};
ghost use Rattle.lab_ahead.specs.Moments.{needs_at};
ghost use Rattle.lab_ahead.specs.Served.{KnowsTypes, IsRow, promise_at};
ghost use Rattle.lab_ahead.specs.SearchTrees.{table_of};

use crate::batch::Promise;
use crate::giving::has_type;
use crate::times::holds_at;
use lab_base::{Memory, Name, NodeId};
use phys_lab::{Lab, MAX_LAB_NODES};
use std::alloc::Global;

/// By promise, and by node of a lab, whether the node has the promise's type.
#[derive(Drop)]
pub(crate) struct Served<'a> {
    pub(crate) lab: &'a Lab,
    pub(crate) promises: &'a [Promise],
    pub(crate) rows: Vec<Vec<bool>>,
}

fn row_of(alloc: Global, lab: &Lab, kind: Name) -> Result<Vec<bool>, Memory>
    requires { length lab.now.nodes ≤ MAX_LAB_NODES }
    ensures { IfOk result (λ row. IsRow lab.now kind row.items) }
{
    let mut row = Vec::new(alloc);
    for node in 0..lab.nodes().len() {
        row.push(has_type(lab, &kind, NodeId(node as u16)))?;
    }
    Ok(row)
}

impl<'a> Served<'a> {
    /// Asks each node for the type of each promise, once.
    pub(crate) fn new(
        alloc: Global,
        lab: &'a Lab,
        promises: &'a [Promise],
    ) -> Result<Served<'a>, Memory>
        ensures lab { IfOk result (λ served. served.lab.now ≡ lab.now) }
        ensures promises { IfOk result (λ served. served.promises.now ≡ promises.now) }
        ensures rows { IfOk result KnowsTypes }
    {
        // for the prover: it tells what every lab keeps
        let _kept = lab.range();
        let mut rows = Vec::new(alloc);
        for promise in promises {
            rows.push(row_of(alloc, lab, promise.kind)?)?;
        }
        Ok(Served {
            lab,
            promises,
            rows,
        })
    }
}

impl Served<'_> {
    /// Whether a node has the type of a promise.
    fn has(&self, number: usize, node: NodeId) -> bool
        requires served { KnowsTypes self.now }
        requires number { number < length self.now.promises.now }
        requires node { node.0 < length self.now.lab.now.nodes }
        ensures { result ≡ has_type self.now.lab.now (promise_at self.now.promises.now number).kind node }
    {
        self.rows[number][node.0 as usize]
    }

    /// Which of these nodes have the type of a promise.
    fn row_for(&self, alloc: Global, number: usize, nodes: &[NodeId]) -> Result<Vec<bool>, Memory>
        requires served { KnowsTypes self.now }
        requires number { number < length self.now.promises.now }
        requires nodes { All (λ node. node.0 < length self.now.lab.now.nodes) nodes.now }
        ensures { IfOk result (λ row. row.items ≡ map (has_type self.now.lab.now (promise_at self.now.promises.now number).kind) nodes.now) }
    {
        let mut row = Vec::with_capacity(alloc, nodes.len())?;
        for node in nodes {
            row.push(self.has(number, *node))?;
        }
        Ok(row)
    }

    /// By need at a moment, which of these nodes have its type.
    pub(crate) fn rows_at(
        &self,
        alloc: Global,
        at: u64,
        nodes: &[NodeId],
    ) -> Result<Vec<Vec<bool>>, Memory>
        requires served { KnowsTypes self.now }
        requires nodes { All (λ node. node.0 < length self.now.lab.now.nodes) nodes.now }
        ensures { IfOk result (λ table. rows table.items ≡ table_of self.now.lab.now nodes.now (needs_at self.now.promises.now at)) }
    {
        let mut table = Vec::new(alloc);
        for number in 0..self.promises.len() {
            if holds_at(&self.promises[number], at) {
                table.push(self.row_for(alloc, number, nodes)?)?;
            }
        }
        Ok(table)
    }
}
