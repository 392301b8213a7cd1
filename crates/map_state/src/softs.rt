// The soft weights of virtual nodes on nodes.
ghost use Rattle.std.specs.Prelude.{◌≡◌, ◌<◌, ℕ, [], length, All, IfOk, slice_index_or};
ghost use Rattle.virt_topo.specs.Soundness.{IsSound};
ghost use Rattle.cost_rule.specs.Cost.{soft_at};
ghost use Rattle.map_state.specs.Softs.{AreSofts, IsSoftRow};

use cost_rule::soft_at;
use lab_base::{Items, Memory, NodeId};
use node_maps::Kinds;
use phys_lab::Lab;
use std::alloc::Global;
use virt_topo::Wiring;

/// By virtual node and node, what is soft of the one on the other. Virtual nodes of one kind share a row.
#[derive(Drop)]
pub struct Softs {
    /// By kind of virtual node, and then by node.
    pub(crate) rows: Vec<Items<u16>>,
    /// By virtual node its kind.
    pub(crate) kinds: Vec<usize>,
}

/// By node what is soft of a virtual node there.
fn row_of(alloc: Global, lab: &Lab, wiring: &Wiring, virt: usize) -> Result<Items<u16>, Memory>
    requires sound { IsSound wiring.now }
    requires virt { virt < length wiring.now.nodes }
    ensures { IfOk result (IsSoftRow lab.now wiring.now virt) }
{
    // for the prover: it tells what every lab keeps
    let _kept = lab.range();
    let mut row = Items::new(alloc);
    for node in 0..lab.nodes().len() {
        row.push(soft_at(lab, wiring, virt, NodeId(node as u16)) as u16)?;
    }
    Ok(row)
}

/// The rows of these virtual nodes.
fn rows_of(
    alloc: Global,
    lab: &Lab,
    wiring: &Wiring,
    ones: &[usize],
) -> Result<Vec<Items<u16>>, Memory>
    requires sound { IsSound wiring.now }
    requires ones { All (λ v. v < length wiring.now.nodes) ones.now }
    ensures one_each { IfOk result (λ rows. length rows.items ≡ length ones.now) }
    ensures each { IfOk result (λ rows. (k : ℕ) → k < length ones.now
        → IsSoftRow lab.now wiring.now (slice_index_or ones.now k 0) (slice_index_or rows.items k [])) }
{
    let mut rows = Vec::new(alloc);
    for kind in 0..ones.len() {
        rows.push(row_of(alloc, lab, wiring, ones[kind])?)?;
    }
    Ok(rows)
}

impl Softs {
    /// The soft weights of the virtual nodes of a wiring on the nodes of a lab.
    pub(crate) fn of(alloc: Global, lab: &Lab, wiring: &Wiring) -> Result<Softs, Memory>
        requires { IsSound wiring.now }
        ensures { IfOk result (AreSofts lab.now wiring.now) }
    {
        let found = Kinds::of(alloc, wiring.nodes.as_slice())?;
        let rows = rows_of(alloc, lab, wiring, &found.ones)?;
        Ok(Softs {
            rows,
            kinds: found.kinds,
        })
    }

    /// The soft weight of a virtual node on a node.
    pub(crate) fn at(&self, _lab: &Lab, _wiring: &Wiring, virt: usize, node: NodeId) -> u64
        requires softs { AreSofts _lab.now _wiring.now self.now }
        requires virt { virt < length _wiring.now.nodes }
        requires node { node.0 < length _lab.now.nodes }
        ensures sum { result ≡ soft_at _lab.now _wiring.now virt node }
        ensures small { result < 65_536 }
    {
        let row = self.rows[self.kinds[virt]].as_slice();
        row[node.0 as usize] as u64
    }
}
