// The counts kept by place of a mapping.
ghost use Rattle.std.specs.Prelude.{◌≡◌, ◌<◌, ◌≤◌, ◌+◌, ◌-◌, ◌==◌, ℕ, length, slice_index_or, slice_set, if◌then◌else◌, map, IfOk, All, true};
ghost use Rattle.virt_topo.specs.Soundness.{IsSound};
ghost use Rattle.virt_topo.specs.Wirings.{virt_at};
ghost use Rattle.cost_rule.specs.Cost.{nodes_in_use, soft as soft_in};
ghost use Rattle.lab_model.specs.Shapes.{IsShaped, node_at, has_name};
ghost use Rattle.lab_model.specs.Rules.{is_asked, no_place, place_at};
ghost use Rattle.map_state.specs.Softs.{AreSofts};
ghost use Rattle.map_state.specs.Members.{AreMembers, asked_index, is_plain};
ghost use Rattle.map_state.specs.Hosted.{IsHosting, hosted_at, placed_at};

use crate::members::{Members, virt_index};
use crate::softs::Softs;
use cost_rule::{MAX_SOFT, parts_of};
use lab_base::{Items, Memory, Name, NodeId};
use node_maps::Place;
use phys_lab::Lab;
use std::alloc::Global;
use std::mem;
use virt_topo::{Asks, MAX_TOPOLOGY_NODES, Mapping, Wiring};

/// The soft cost after a move, and where the virtual node is counted then by class and type, if it is.
#[derive(Clone, Copy)]
pub struct Outcome {
    pub soft: u64,
    pub counted: Option<usize>,
}

/// By virtual node its node, by node how many virtual nodes are on it, how many nodes are in use, by class and type how many members
/// have it, and what is soft.
#[derive(Drop)]
pub struct Hosting {
    /// By virtual node its node.
    pub(crate) hosts: Vec<u16>,
    pub(crate) hosted: Vec<u16>,
    pub(crate) nodes: u64,
    pub(crate) members: Members,
    pub(crate) soft: u64,
}

fn node_of(mapping: &Mapping, virt: usize) -> NodeId
    requires { virt < length mapping.now.places }
    ensures { result.0 ≡ (slice_index_or mapping.now.places virt no_place).0.0 }
{
    mapping.places.as_slice()[virt].0
}

fn kind_of(mapping: &Mapping, virt: usize) -> Name
    requires { virt < length mapping.now.places }
    ensures { result ≡ (slice_index_or mapping.now.places virt no_place).1 }
{
    mapping.places.as_slice()[virt].1
}

/// Whether a virtual node asks for one type, and so for no class.
fn is_plain(wiring: &Wiring, virt: usize) -> bool
    requires { virt < length wiring.now.nodes }
    ensures { result ≡ is_plain (virt_at wiring.now virt).asks }
{
    matches!(wiring.nodes.as_slice()[virt].asks, Asks::Plain(_))
}

/// A sum, with two parts more and two less.
fn changed(sum: u64, more: (u64, u64), less: (u64, u64)) -> u64
    requires small { sum ≤ MAX_SOFT }
    requires first { more.0 ≤ MAX_SOFT }
    requires second { more.1 ≤ MAX_SOFT }
    requires within { less.0 + less.1 ≤ sum + more.0 + more.1 }
    ensures { result + less.0 + less.1 ≡ sum + more.0 + more.1 }
{
    sum + more.0 + more.1 - less.0 - less.1
}

/// 1 where something holds, and else 0.
fn one_if(holds: bool) -> u64
    ensures { result ≡ (if holds then 1 else 0) }
{
    if holds { 1 } else { 0 }
}

fn set_place(alloc: Global, mapping: &mut Mapping, virt: usize, place: Place)
    requires { virt < length mapping.old.places }
    ensures { mapping.new ≡ placed_at mapping.old virt place }
{
    let mut places = mem::replace(&mut mapping.places, Items::new(alloc)).into_vec();
    places[virt] = place;
    mapping.places = Items::from_vec(places);
}

/// By virtual node its node.
fn hosts_of(alloc: Global, mapping: &Mapping) -> Result<Vec<u16>, Memory>
    ensures { IfOk result (λ hosts. hosts.items ≡ map (λ p. p.0.0) mapping.now.places) }
{
    let mut hosts = Vec::new(alloc);
    for place in mapping.places.as_slice() {
        hosts.push(place.0.0)?;
    }
    Ok(hosts)
}

fn count_hosted(alloc: Global, lab: &Lab, mapping: &Mapping) -> Result<Vec<u16>, Memory>
    requires few { length mapping.now.places ≤ MAX_TOPOLOGY_NODES }
    requires within { All (λ p. p.0.0 < length lab.now.nodes) mapping.now.places }
    ensures one_each { IfOk result (λ hosted. length hosted.items ≡ length lab.now.nodes) }
    ensures hosted { IfOk result (λ hosted. (n : ℕ) → n < length lab.now.nodes → slice_index_or hosted.items n 0 ≡ hosted_at mapping.now.places n) }
{
    let mut hosted = vec![in alloc; 0u16; lab.nodes().len()]?;
    for place in mapping.places.as_slice() {
        hosted[place.0.0 as usize] += 1;
    }
    Ok(hosted)
}

impl Hosting {
    /// The counts of a mapping.
    pub fn of(
        alloc: Global,
        lab: &Lab,
        wiring: &Wiring,
        mapping: &Mapping,
    ) -> Result<Hosting, Memory>
        requires sound { IsSound wiring.now }
        requires shaped { IsShaped lab.now wiring.now mapping.now }
        ensures { IfOk result (λ hosting. IsHosting lab.now wiring.now mapping.now hosting) }
    {
        let hosts = hosts_of(alloc, mapping)?;
        let hosted = count_hosted(alloc, lab, mapping)?;
        let members = Members::of(alloc, wiring, mapping)?;
        let parts = parts_of(lab, wiring, mapping);
        Ok(Hosting {
            hosts,
            hosted,
            nodes: parts.nodes,
            members,
            soft: parts.soft,
        })
    }

    fn leave(&mut self, node: NodeId)
        requires within { node.0 < length self.old.hosted.items }
        requires guest { 0 < slice_index_or self.old.hosted.items node.0 0 }
        requires used { slice_index_or self.old.hosted.items node.0 0 ≡ 1 → 0 < self.old.nodes }
        ensures hosted { self.new.hosted.items ≡ slice_set self.old.hosted.items node.0 (slice_index_or self.old.hosted.items node.0 0 - 1) }
        ensures nodes { self.new.nodes + (if slice_index_or self.old.hosted.items node.0 0 == 1 then 1 else 0) ≡ self.old.nodes }
        ensures hosts { self.new.hosts ≡ self.old.hosts }
        ensures members { self.new.members ≡ self.old.members }
        ensures soft { self.new.soft ≡ self.old.soft }
    {
        self.hosted[node.0 as usize] -= 1;
        if self.hosted[node.0 as usize] == 0 {
            self.nodes -= 1;
        }
    }

    fn join(&mut self, node: NodeId)
        requires within { node.0 < length self.old.hosted.items }
        requires few { slice_index_or self.old.hosted.items node.0 0 ≤ MAX_TOPOLOGY_NODES }
        requires few_nodes { self.old.nodes ≤ MAX_TOPOLOGY_NODES }
        ensures hosted { self.new.hosted.items ≡ slice_set self.old.hosted.items node.0 (slice_index_or self.old.hosted.items node.0 0 + 1) }
        ensures nodes { self.new.nodes ≡ self.old.nodes + (if slice_index_or self.old.hosted.items node.0 0 == 0 then 1 else 0) }
        ensures hosts { self.new.hosts ≡ self.old.hosts }
        ensures members { self.new.members ≡ self.old.members }
        ensures soft { self.new.soft ≡ self.old.soft }
    {
        if self.hosted[node.0 as usize] == 0 {
            self.nodes += 1;
        }
        self.hosted[node.0 as usize] += 1;
    }

    /// Moves a virtual node to another place in all counts. `into` is the index of its class and type among the members. The soft cost is left as it was.
    fn go(
        &mut self,
        alloc: Global,
        lab: &Lab,
        wiring: &Wiring,
        mapping: &mut Mapping,
        virt: usize,
        place: Place,
        into: Option<usize>,
    )
        requires sound { IsSound wiring.now }
        requires shaped { IsShaped lab.now wiring.now mapping.old }
        requires hosting { IsHosting lab.now wiring.now mapping.old self.old }
        requires virt { virt < length wiring.now.nodes }
        requires node { place.0.0 < length lab.now.nodes }
        requires into { into ≡ asked_index wiring.now (virt_at wiring.now virt).asks place.1 }
        ensures mapping { mapping.new ≡ placed_at mapping.old virt place }
        ensures hosts { self.new.hosts.items ≡ map (λ p. p.0.0) (placed_at mapping.old virt place).places }
        ensures one_each { length self.new.hosted.items ≡ length lab.now.nodes }
        ensures hosted { (n : ℕ) → n < length lab.now.nodes → slice_index_or self.new.hosted.items n 0 ≡ hosted_at (placed_at mapping.old virt place).places n }
        ensures nodes { self.new.nodes ≡ nodes_in_use (placed_at mapping.old virt place) }
        ensures members { AreMembers wiring.now (placed_at mapping.old virt place) self.new.members }
        ensures soft { self.new.soft ≡ self.old.soft }
    {
        // for the prover: it tells what every lab keeps
        let _kept = lab.range();
        let from = node_of(mapping, virt);
        self.leave(from);
        self.join(place.0);
        self.hosts[virt] = place.0.0;
        self.members.go(wiring, mapping, virt, &place, into);
        set_place(alloc, mapping, virt, place);
    }

    /// The soft part of the cost once a virtual node is at another place, and where it is counted then, if it is.
    pub(crate) fn soft_after(
        &self,
        lab: &Lab,
        wiring: &Wiring,
        softs: &Softs,
        mapping: &Mapping,
        virt: usize,
        place: &Place,
    ) -> (u64, Option<usize>)
        requires sound { IsSound wiring.now }
        requires softs { AreSofts lab.now wiring.now softs.now }
        requires shaped { IsShaped lab.now wiring.now mapping.now }
        requires hosting { IsHosting lab.now wiring.now mapping.now self.now }
        requires virt { virt < length wiring.now.nodes }
        requires node { place.now.0.0 < length lab.now.nodes }
        requires asked { is_asked wiring.now (virt_at wiring.now virt).asks (place_at mapping.now virt).1 ≡ true }
        ensures soft { result.0 ≡ soft_in lab.now wiring.now (placed_at mapping.now virt place.now) }
        ensures counted { result.1 ≡ asked_index wiring.now (virt_at wiring.now virt).asks place.now.1 }
    {
        // for the prover: it tells what every lab keeps
        let _kept = lab.range();
        let old = &mapping.places.as_slice()[virt];
        let before = softs.at(lab, wiring, virt, old.0);
        let after = softs.at(lab, wiring, virt, place.0);
        if is_plain(wiring, virt) {
            let soft = changed(self.soft, (after, 0), (before, 0));
            return (soft, None);
        }
        if old.1 == place.1 {
            let soft = changed(self.soft, (after, 0), (before, 0));
            return (soft, self.members.counted(virt));
        }
        let into = virt_index(wiring, virt, &place.1);
        let gained = self
            .members
            .type_soft(wiring, mapping, virt, &place.1, into);
        let lost = self.members.last_soft(wiring, mapping, virt);
        let soft = changed(self.soft, (after, gained), (before, lost));
        (soft, into)
    }

    /// How many nodes are in use once a virtual node is at another place.
    pub(crate) fn nodes_after(
        &self,
        lab: &Lab,
        wiring: &Wiring,
        mapping: &Mapping,
        virt: usize,
        place: &Place,
    ) -> u64
        requires sound { IsSound wiring.now }
        requires shaped { IsShaped lab.now wiring.now mapping.now }
        requires hosting { IsHosting lab.now wiring.now mapping.now self.now }
        requires virt { virt < length wiring.now.nodes }
        requires node { place.now.0.0 < length lab.now.nodes }
        ensures { result ≡ nodes_in_use (placed_at mapping.now virt place.now) }
    {
        let from = node_of(mapping, virt);
        if from.0 == place.0.0 {
            return self.nodes;
        }
        let joined = one_if(self.hosted[place.0.0 as usize] == 0);
        let left = one_if(self.hosted[from.0 as usize] == 1);
        self.nodes + joined - left
    }

    /// A virtual node goes to another place.
    pub fn place_virt(
        &mut self,
        alloc: Global,
        lab: &Lab,
        wiring: &Wiring,
        softs: &Softs,
        mapping: &mut Mapping,
        virt: usize,
        place: Place,
    )
        requires sound { IsSound wiring.now }
        requires softs { AreSofts lab.now wiring.now softs.now }
        requires shaped { IsShaped lab.now wiring.now mapping.old }
        requires hosting { IsHosting lab.now wiring.now mapping.old self.old }
        requires virt { virt < length wiring.now.nodes }
        requires node { place.0.0 < length lab.now.nodes }
        requires typed { has_name (node_at lab.now place.0).types place.1 ≡ true }
        ensures mapping { mapping.new ≡ placed_at mapping.old virt place }
        ensures shaped { IsShaped lab.now wiring.now mapping.new }
        ensures hosting { IsHosting lab.now wiring.now mapping.new self.new }
    {
        // for the prover: it tells what every lab keeps
        let _kept = lab.range();
        let from = node_of(mapping, virt);
        let kind = kind_of(mapping, virt);
        let before = softs.at(lab, wiring, virt, from);
        let after = softs.at(lab, wiring, virt, place.0);
        let out_of = self.members.counted(virt);
        let into = virt_index(wiring, virt, &place.1);
        let gained = self
            .members
            .type_soft(wiring, mapping, virt, &place.1, into);
        self.go(alloc, lab, wiring, mapping, virt, place, into);
        let lost = self.members.type_soft(wiring, mapping, virt, &kind, out_of);
        self.soft = changed(self.soft, (after, gained), (before, lost));
    }

    /// A virtual node goes to a place. The outcome was predicted.
    pub fn place_predicted(
        &mut self,
        alloc: Global,
        lab: &Lab,
        wiring: &Wiring,
        mapping: &mut Mapping,
        virt: usize,
        place: Place,
        outcome: Outcome,
    )
        requires sound { IsSound wiring.now }
        requires shaped { IsShaped lab.now wiring.now mapping.old }
        requires hosting { IsHosting lab.now wiring.now mapping.old self.old }
        requires virt { virt < length wiring.now.nodes }
        requires node { place.0.0 < length lab.now.nodes }
        requires typed { has_name (node_at lab.now place.0).types place.1 ≡ true }
        requires soft { outcome.soft ≡ soft_in lab.now wiring.now (placed_at mapping.old virt place) }
        requires counted { outcome.counted ≡ asked_index wiring.now (virt_at wiring.now virt).asks place.1 }
        ensures mapping { mapping.new ≡ placed_at mapping.old virt place }
        ensures shaped { IsShaped lab.now wiring.now mapping.new }
        ensures hosting { IsHosting lab.now wiring.now mapping.new self.new }
    {
        self.go(alloc, lab, wiring, mapping, virt, place, outcome.counted);
        self.soft = outcome.soft;
    }
}
