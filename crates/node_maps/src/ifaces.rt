// The interface rule.
ghost use Rattle.std.specs.Prelude.{◌≡◌, ◌<◌, ◌+◌, ◌++◌, ◌∷◌, ◌==◌, ℕ, List, true, [], if◌then◌else◌, slice_set, length, All, Some, None, slice_index_or, IfOk, OnOk, IfSome};
ghost use Rattle.std.specs.List.{find, list_any};
ghost use Rattle.lab_model.specs.Rules.{Laid};
ghost use Rattle.node_maps.specs.NodeMaps.{load_of, plugs_from};
ghost use Rattle.node_maps.specs.Indexed.{Adds, AreOrdered, HasPlaces, IsNext, IsSized, Marks, serves};

use crate::ends::End;
use crate::index::{NodeIface, NodeIfaces};
use crate::lists::Place;
use lab_base::{IfaceId, Items, Memory};
use phys_lab::Lab;
use std::alloc::Global;
use std::mem;
use virt_topo::MAX_SEGMENTS;

/// Noted as used of an interface that no further end may have: more than any interface has.
const FULL: u64 = 18_446_744_073_709_551_615;

/// Whether an interface, of which this is noted, may have one more end.
fn serves(used: u64, last: u16, kbps: u64, end: End) -> bool
    requires { end.segment < MAX_SEGMENTS }
    ensures { result ≡ serves used last kbps (load_of end) }
{
    if end.kbps > kbps {
        return false;
    }
    if used == 0 {
        return true;
    }
    end.multiplexed && used <= kbps - end.kbps && last != end.segment + 1
}

/// The first of the interfaces that may have one more end.
fn first_free(listed: &[NodeIface], used: &[u64], last: &[u16], end: End) -> Option<NodeIface>
    requires used { All (λ x. x.id.0 < length used.now) listed.now }
    requires last { All (λ x. x.id.0 < length last.now) listed.now }
    requires segment { end.segment < MAX_SEGMENTS }
    ensures first { result ≡ find (λ x. serves (slice_index_or used.now x.id.0 0) (slice_index_or last.now x.id.0 0) x.kbps (load_of end)) listed.now }
    ensures within { IfSome result (λ x. x.id.0 < length used.now) }
    ensures serves { IfSome result (λ x. serves (slice_index_or used.now x.id.0 0) (slice_index_or last.now x.id.0 0) x.kbps (load_of end) ≡ true) }
{
    for iface in listed {
        let at = iface.id.0 as usize;
        if serves(used[at], last[at], iface.kbps, end) {
            return Some(*iface);
        }
    }
    None
}

/// Nothing is used of these interfaces any more.
fn unmark(used: &mut Vec<u64>, plugs: &[IfaceId])
    ensures one_each { length used.new.items ≡ length used.old.items }
    ensures free { (i : ℕ) → (list_any (λ p. p.0 == i) plugs.now ≡ true → slice_index_or used.new.items i 0 ≡ 0) }
    ensures others { (i : ℕ) → slice_index_or used.old.items i 0 ≡ 0 → slice_index_or used.new.items i 0 ≡ 0 }
{
    for plug in plugs {
        if (plug.0 as usize) < used.len() {
            used[plug.0 as usize] = 0;
        }
    }
}

/// The interfaces given so far by the rule: the plugs, and by interface what is on it.
#[derive(Drop)]
pub struct Given {
    plugs: Items<IfaceId>,
    /// The kbps of its ends, or `FULL` where one isn't of a multiplexed segment.
    used: Vec<u64>,
    /// One more than the segment of the last end that it got, where that one is multiplexed.
    last: Vec<u16>,
}

impl Given {
    /// Nothing so far.
    pub fn nothing(alloc: Global, lab: &Lab) -> Result<Given, Memory>
        ensures { IfOk result (λ given. Marks lab.now given []) }
    {
        Ok(Given {
            plugs: Items::new(alloc),
            used: vec![in alloc; 0; lab.ifaces().len()]?,
            last: vec![in alloc; 0; lab.ifaces().len()]?,
        })
    }

    /// The plugs, in the order in which they were given.
    pub fn plugs(&self) -> &[IfaceId]
        ensures { result.now ≡ self.now.plugs }
    {
        self.plugs.as_slice()
    }

    /// Forgets what it gave.
    pub fn clear(&mut self, alloc: Global, _lab: &Lab)
        ensures { (had : List Laid) → Marks _lab.now self.old had → Marks _lab.now self.new [] }
    {
        unmark(&mut self.used, self.plugs.as_slice());
        let mut plugs = mem::replace(&mut self.plugs, Items::new(alloc)).into_vec();
        plugs.clear();
        self.plugs = Items::from_vec(plugs);
    }

    /// Notes that an end has got an interface.
    fn note(&mut self, iface: NodeIface, end: End) -> Result<(), Memory>
        requires used { iface.id.0 < length self.old.used.items }
        requires last { iface.id.0 < length self.old.last.items }
        requires segment { end.segment < MAX_SEGMENTS }
        requires serves { serves (slice_index_or self.old.used.items iface.id.0 0) (slice_index_or self.old.last.items iface.id.0 0) iface.kbps (load_of end)
            ≡ true }
        ensures plugs { OnOk result (self.new.plugs ≡ self.old.plugs ++ iface.id ∷ []) }
        ensures used { OnOk result (self.new.used.items ≡ slice_set self.old.used.items iface.id.0
            (if end.multiplexed then slice_index_or self.old.used.items iface.id.0 0 + end.kbps else FULL)) }
        ensures last { OnOk result (self.new.last.items
            ≡ (if end.multiplexed then slice_set self.old.last.items iface.id.0 (end.segment + 1) else self.old.last.items)) }
    {
        let at = iface.id.0 as usize;
        self.plugs.push(iface.id)?;
        if end.multiplexed {
            self.used[at] += end.kbps;
            self.last[at] = end.segment + 1;
        } else {
            self.used[at] = FULL;
        }
        Ok(())
    }

    /// Gives one more end its interface, where its virtual node is placed. It is the first one of the node that may bear the end beside the earlier
    /// ends. False where there is none.
    pub fn add(
        &mut self,
        lab: &Lab,
        index: &NodeIfaces,
        places: &[Place],
        end: End,
    ) -> Result<bool, Memory>
        requires index { HasPlaces lab.now places.now index.now }
        requires sized { IsSized lab.now self.old }
        requires segment { end.segment < MAX_SEGMENTS }
        ensures sized { OnOk result (IsSized lab.now self.new) }
        ensures adds { IfOk result (λ yes. (had : List Laid) → Marks lab.now self.old had → IsNext end had → Adds lab.now places.now end had self.new yes) }
    {
        // for the prover: it tells what every lab keeps
        let _kept = lab.range();
        let Some(place) = places.get(end.node as usize) else {
            return Ok(true);
        };
        let Some(iface) = first_free(index.of(place.0), &self.used, &self.last, end) else {
            return Ok(false);
        };
        self.note(iface, end)?;
        Ok(true)
    }
}

/// Gives each end its interface, where its virtual node is placed. False where some end gets none.
fn give(
    alloc: Global,
    lab: &Lab,
    places: &[Place],
    ends: &[End],
    given: &mut Given,
) -> Result<bool, Memory>
    requires ends { AreOrdered ends.now }
    requires nothing { Marks lab.now given.old [] }
    ensures { IfOk result (λ yes. plugs_from lab.now places.now ends.now ≡ (if yes then Some given.new.plugs else None)) }
{
    let index = NodeIfaces::of_places(alloc, lab, places)?;
    for end in ends {
        if !given.add(lab, &index, places, *end)? {
            return Ok(false);
        }
    }
    Ok(true)
}

/// The interface rule for the ends whose virtual nodes are placed.
/// Each takes the first interface of its node that may bear it beside the earlier ends. None where some end gets none.
pub fn serve(
    alloc: Global,
    lab: &Lab,
    places: &[Place],
    ends: &[End],
) -> Result<Option<Items<IfaceId>>, Memory>
    requires { AreOrdered ends.now }
    ensures { IfOk result (λ plugs. plugs ≡ plugs_from lab.now places.now ends.now) }
{
    let mut given = Given::nothing(alloc, lab)?;
    if give(alloc, lab, places, ends, &mut given)? {
        Ok(Some(given.plugs))
    } else {
        Ok(None)
    }
}
