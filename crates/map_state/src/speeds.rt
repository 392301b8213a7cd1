// Speeds that suffice for all ends of a virtual node, and speeds that all interfaces of a node have.
ghost use Rattle.std.specs.Prelude.{◌≡◌, ◌<◌, ◌≤◌, ℕ, length, nat_le, slice_index_or, All, IfOk};
ghost use Rattle.virt_topo.specs.Soundness.{IsSound};
ghost use Rattle.phys_lab.specs.declared.parts.Iface.{Iface as IfaceSeen};
ghost use Rattle.node_maps.specs.declared.ends.End.{End as EndSeen};
ghost use Rattle.node_maps.specs.NodeMaps.{ends_of};
ghost use Rattle.map_state.specs.Speeds.{wanted_by, AreSpeeds};

use lab_base::{Memory, NodeId};
use node_maps::End;
use phys_lab::Lab;
use std::alloc::Global;
use virt_topo::Wiring;

/// More than any interface has.
const TOO_FAST: u64 = 18_446_744_073_709_551_615;

/// By virtual node a speed that suffices for each of its ends, and by node one that each of its interfaces has.
#[derive(Drop)]
pub struct Speeds {
    /// `TOO_FAST` where some end is multiplexed, for that one may share an interface.
    pub(crate) wanted: Vec<u64>,
    /// Below `TOO_FAST`.
    pub(crate) least: Vec<u64>,
}

/// The speed that suffices for an end which shares no interface.
fn wanted_by(end: &End) -> u64
    ensures { result ≡ wanted_by end.now }
{
    if end.multiplexed { TOO_FAST } else { end.kbps }
}

/// The speed of that number becomes at least this one.
fn raise(speeds: &mut Vec<u64>, number: usize, kbps: u64)
    requires { number < length speeds.old.items }
    ensures one_each { length speeds.new.items ≡ length speeds.old.items }
    ensures here { kbps ≤ slice_index_or speeds.new.items number 0 }
    ensures others { (n : ℕ) → slice_index_or speeds.old.items n 0 ≤ slice_index_or speeds.new.items n 0 }
{
    if speeds[number] < kbps {
        speeds[number] = kbps;
    }
}

/// The speed of that number becomes at most this one.
fn lower(speeds: &mut Vec<u64>, number: usize, kbps: u64)
    requires { number < length speeds.old.items }
    ensures one_each { length speeds.new.items ≡ length speeds.old.items }
    ensures here { slice_index_or speeds.new.items number 0 ≤ kbps }
    ensures others { (n : ℕ) → slice_index_or speeds.new.items n 0 ≤ slice_index_or speeds.old.items n 0 }
{
    if speeds[number] > kbps {
        speeds[number] = kbps;
    }
}

/// By virtual node a speed that suffices for each of its ends.
fn wanted_of(alloc: Global, virts: usize, ends: &[End]) -> Result<Vec<u64>, Memory>
    requires { All (λ e. e.node < virts) ends.now }
    ensures one_each { IfOk result (λ wanted. length wanted.items ≡ virts) }
    ensures each { IfOk result (λ wanted. (k : ℕ) (d : EndSeen) → k < length ends.now
        → wanted_by (slice_index_or ends.now k d) ≤ slice_index_or wanted.items (slice_index_or ends.now k d).node 0) }
{
    let mut wanted = vec![in alloc; 0u64; virts]?;
    for end in ends {
        raise(&mut wanted, end.node as usize, wanted_by(end));
    }
    Ok(wanted)
}

/// By node a speed that each of its interfaces has.
fn least_of(alloc: Global, lab: &Lab) -> Result<Vec<u64>, Memory>
    ensures one_each { IfOk result (λ least. length least.items ≡ length lab.now.nodes) }
    ensures each { IfOk result (λ least. (k : ℕ) (d : IfaceSeen) → k < length lab.now.ifaces
        → slice_index_or least.items (slice_index_or lab.now.ifaces k d).node.0 0 ≤ (slice_index_or lab.now.ifaces k d).kbps) }
    ensures small { IfOk result (λ least. (n : ℕ) → n < length lab.now.nodes → slice_index_or least.items n 0 < TOO_FAST) }
{
    // for the prover: it tells what every lab keeps
    let _kept = lab.range();
    let mut least = vec![in alloc; TOO_FAST - 1; lab.nodes().len()]?;
    let ifaces = lab.ifaces();
    for iface in ifaces {
        lower(&mut least, iface.node.0 as usize, iface.kbps);
    }
    Ok(least)
}

impl Speeds {
    /// The speeds of a wiring's virtual nodes and of a lab's nodes.
    pub(crate) fn of(
        alloc: Global,
        lab: &Lab,
        wiring: &Wiring,
        ends: &[End],
    ) -> Result<Speeds, Memory>
        requires sound { IsSound wiring.now }
        requires ends { ends.now ≡ ends_of wiring.now.segments }
        ensures { IfOk result (AreSpeeds lab.now wiring.now) }
    {
        let wanted = wanted_of(alloc, wiring.nodes.len(), ends)?;
        let least = least_of(alloc, lab)?;
        Ok(Speeds { wanted, least })
    }

    /// Whether each interface of a node has a speed that suffices for each end of a virtual node.
    pub(crate) fn suffice(&self, virt: usize, node: NodeId) -> bool
        requires virt { virt < length self.now.wanted.items }
        requires node { node.0 < length self.now.least.items }
        ensures { result ≡ nat_le (slice_index_or self.now.wanted.items virt 0) (slice_index_or self.now.least.items node.0 0) }
    {
        self.wanted[virt] <= self.least[node.0 as usize]
    }
}
