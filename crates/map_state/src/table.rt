// Tables for tries.
ghost use Rattle.std.specs.Prelude.{◌≡◌, ◌<◌, ◌≤◌, ◌==◌, ◌++◌, ℕ, true, false, length, replicate, IfOk, OnOk, IsTrue, IsFalse};
ghost use Rattle.phys_lab.specs.Sides.{joined};
ghost use Rattle.virt_topo.specs.Soundness.{IsSound};
ghost use Rattle.cost_rule.specs.Cost.{soft_at};
ghost use Rattle.node_maps.specs.NodeMaps.{ends_of};
ghost use Rattle.map_state.specs.Nodes.{numbers_of};
ghost use Rattle.map_state.specs.Tables.{AreAllJoined, AreFirsts, AreRows, AreOwn, IsTableOf};

use crate::softs::Softs;
use crate::speeds::Speeds;
use crate::ties::{Tie, ties_of};
use lab_base::{Items, Memory, NodeId, SwitchId};
use node_maps::End;
use phys_lab::Lab;
use std::alloc::Global;
use trunk_sums::{Crossings, EndRow};
use virt_topo::{MAX_ENDS, MAX_KBPS, MAX_SEGMENT_ENDS, Segment, Wiring};

/// The tables of a lab and a wiring that tries use.
#[derive(Drop)]
pub struct Table {
    /// By end its segment, how many ends that has, and its speed.
    pub(crate) rows: Vec<EndRow>,
    /// By virtual node the numbers of its ends.
    pub(crate) own: Vec<Items<u16>>,
    /// By segment the number of its first end.
    pub(crate) firsts: Vec<u16>,
    pub(crate) crossings: Crossings,
    /// The virtual nodes that must have one type; none where no class has a weight of 1,000 or more.
    pub(crate) ties: Vec<Tie>,
    /// All switches are joined.
    pub(crate) joined: bool,
    pub(crate) softs: Softs,
    pub(crate) speeds: Speeds,
}

fn push_rows(rows: &mut Vec<EndRow>, number: u16, segment: &Segment) -> Result<(), Memory>
    requires few { length segment.now.ends ≤ MAX_SEGMENT_ENDS }
    requires slow { segment.now.kbps ≤ MAX_KBPS }
    ensures { OnOk result (rows.new.items
        ≡ rows.old.items ++ replicate (length segment.now.ends) (record { segment = number; ends = length segment.now.ends; kbps = segment.now.kbps })) }
{
    let ends = segment.ends.len();
    for _end in 0..ends {
        rows.push(EndRow {
            segment: number,
            ends: ends as u16,
            kbps: segment.kbps as u32,
        })?;
    }
    Ok(())
}

fn rows_of(alloc: Global, wiring: &Wiring) -> Result<Vec<EndRow>, Memory>
    requires { IsSound wiring.now }
    ensures { IfOk result (λ rows. AreRows wiring.now rows.items) }
{
    let mut rows = Vec::new(alloc);
    let mut number = 0u16;
    for segment in wiring.segments.as_slice() {
        push_rows(&mut rows, number, segment)?;
        number += 1;
    }
    Ok(rows)
}

/// The numbers of a virtual node's ends.
fn own_ends(alloc: Global, ends: &[End], virt: u16) -> Result<Items<u16>, Memory>
    requires { length ends.now ≤ MAX_ENDS }
    ensures { IfOk result (λ own. own ≡ numbers_of 0 (λ e. e.node == virt) ends.now) }
{
    let mut own = Items::new(alloc);
    let mut number = 0u16;
    for end in ends {
        if end.node == virt {
            own.push(number)?;
        }
        number += 1;
    }
    Ok(own)
}

fn own_of(alloc: Global, wiring: &Wiring, ends: &[End]) -> Result<Vec<Items<u16>>, Memory>
    requires sound { IsSound wiring.now }
    requires ends { ends.now ≡ ends_of wiring.now.segments }
    ensures { IfOk result (λ own. AreOwn wiring.now own.items) }
{
    let mut own = Vec::new(alloc);
    for virt in 0..wiring.nodes.len() {
        own.push(own_ends(alloc, ends, virt as u16)?)?;
    }
    Ok(own)
}

/// By segment the number of its first end.
fn firsts_of(alloc: Global, wiring: &Wiring) -> Result<Vec<u16>, Memory>
    requires { IsSound wiring.now }
    ensures { IfOk result (λ firsts. AreFirsts wiring.now firsts.items) }
{
    let mut firsts = Vec::new(alloc);
    let mut next = 0u16;
    for segment in wiring.segments.as_slice() {
        firsts.push(next)?;
        next += segment.ends.len() as u16;
    }
    Ok(firsts)
}

fn is_joined_to_all(lab: &Lab, switch: usize) -> bool
    requires { switch < length lab.now.switches }
    ensures joined { IsTrue result → (b : ℕ) → b < length lab.now.switches → joined lab.now.trunks switch b ≡ true }
    ensures parted { IsFalse result → (b : ℕ) × (b < length lab.now.switches) × (joined lab.now.trunks switch b ≡ false) }
{
    // for the prover: it tells what every lab keeps
    let _kept = lab.range();
    for other in 0..lab.switches().len() {
        if !lab.joined(SwitchId(switch as u16), SwitchId(other as u16)) {
            return false;
        }
    }
    true
}

fn are_all_joined(lab: &Lab) -> bool
    ensures joined { IsTrue result → AreAllJoined lab.now }
    ensures parted { IsFalse result → AreAllJoined lab.now → ⊥ }
{
    for switch in 0..lab.switches().len() {
        if !is_joined_to_all(lab, switch) {
            return false;
        }
    }
    true
}

impl Table {
    /// The tables of a wiring on a lab.
    pub fn of(alloc: Global, lab: &Lab, wiring: &Wiring, ends: &[End]) -> Result<Table, Memory>
        requires sound { IsSound wiring.now }
        requires ends { ends.now ≡ ends_of wiring.now.segments }
        ensures { IfOk result (IsTableOf lab.now wiring.now) }
    {
        let rows = rows_of(alloc, wiring)?;
        let own = own_of(alloc, wiring, ends)?;
        let firsts = firsts_of(alloc, wiring)?;
        let crossings = Crossings::of_lab(alloc, lab)?;
        let ties = ties_of(alloc, wiring)?;
        let joined = are_all_joined(lab);
        let softs = Softs::of(alloc, lab, wiring)?;
        let speeds = Speeds::of(alloc, lab, wiring, ends)?;
        Ok(Table {
            rows,
            own,
            firsts,
            crossings,
            ties,
            joined,
            softs,
            speeds,
        })
    }

    /// The soft weight of a virtual node on a node.
    pub fn soft_at(&self, lab: &Lab, wiring: &Wiring, virt: usize, node: NodeId) -> u64
        requires table { IsTableOf lab.now wiring.now self.now }
        requires virt { virt < length wiring.now.nodes }
        requires node { node.0 < length lab.now.nodes }
        ensures sum { result ≡ soft_at lab.now wiring.now virt node }
        ensures small { result < 65_536 }
    {
        self.softs.at(lab, wiring, virt, node)
    }
}
