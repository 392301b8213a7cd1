// The members of classes, counted by class and type.
ghost use Rattle.std.specs.Prelude.{◌≡◌, ◌<◌, ◌≤◌, ◌+◌, ◌*◌, ℕ, None, true, false, length, position, slice_index_or, slice_set, IfOk, IfSome};
ghost use Rattle.std.specs.List.{list_any};
ghost use Rattle.lab_base.specs.Names.{same_name};
ghost use Rattle.virt_topo.specs.Soundness.{IsSound};
ghost use Rattle.virt_topo.specs.Wirings.{virt_at};
ghost use Rattle.lab_model.specs.Shapes.{Place as PlaceSeen};
ghost use Rattle.lab_model.specs.Rules.{class_at, is_asked, no_place, place_at};
ghost use Rattle.cost_rule.specs.Cost.{types_of};
ghost use Rattle.map_state.specs.Members.{AreMembers, type_index, class_index, asked_index, one_at};
ghost use Rattle.map_state.specs.Hosted.{kind_soft as kind_soft_in, asked_soft as asked_soft_in, placed_at};

use cost_rule::has_kind;
use lab_base::{Memory, Name};
use node_maps::Place;
use std::alloc::Global;
use virt_topo::{Asks, MAX_SOFT_WEIGHT, MAX_TOPOLOGY_NODES, MAX_TYPES, Mapping, Wiring};

/// By class and by type that it lists, how many of its members have the type.
#[derive(Drop)]
pub(crate) struct Members {
    /// Each class has room for as many types as one may list.
    pub(crate) counts: Vec<u16>,
    /// By virtual node where it is counted, if it is.
    pub(crate) own: Vec<Option<usize>>,
}

/// The index of a type among others.
fn place_among(types: &[Name], kind: &Name) -> Option<usize>
    ensures is { result ≡ position (λ t. same_name t kind.now) types.now }
    ensures within { IfSome result (λ k. k < length types.now) }
{
    types.iter().position(|listed| *listed == *kind)
}

/// The index of a type among those that a class lists.
fn type_index(wiring: &Wiring, class: usize, kind: &Name) -> Option<usize>
    requires { class < length wiring.now.classes }
    ensures is { result ≡ type_index wiring.now class kind.now }
    ensures within { IfSome result (λ k. k < length (class_at wiring.now class).types) }
{
    place_among(wiring.classes.as_slice()[class].types.as_slice(), kind)
}

/// Where the members of a class that have the type are counted, if the class lists it.
fn class_index(wiring: &Wiring, class: usize, kind: &Name) -> Option<usize>
    requires sound { IsSound wiring.now }
    requires class { class < length wiring.now.classes }
    ensures is { result ≡ class_index wiring.now class kind.now }
    ensures within { IfSome result (λ n. n < length wiring.now.classes * MAX_TYPES) }
{
    let number = type_index(wiring, class, kind)?;
    Some(class * MAX_TYPES + number)
}

/// Where the members of the class asked for, if there is one, that have the type are counted.
fn asked_index(wiring: &Wiring, asks: &Asks, kind: &Name) -> Option<usize>
    requires sound { IsSound wiring.now }
    ensures is { result ≡ asked_index wiring.now asks.now kind.now }
    ensures within { IfSome result (λ n. n < length wiring.now.classes * MAX_TYPES) }
{
    match asks {
        Asks::Plain(_) => None,
        Asks::Class(class) => {
            if (*class as usize) < wiring.classes.len() {
                class_index(wiring, *class as usize, kind)
            } else {
                None
            }
        }
    }
}

/// Where the members of the class of a virtual node, if it asks for one, that have the type are counted.
pub(crate) fn virt_index(wiring: &Wiring, virt: usize, kind: &Name) -> Option<usize>
    requires sound { IsSound wiring.now }
    requires virt { virt < length wiring.now.nodes }
    ensures is { result ≡ asked_index wiring.now (virt_at wiring.now virt).asks kind.now }
    ensures within { IfSome result (λ n. n < length wiring.now.classes * MAX_TYPES) }
{
    asked_index(wiring, &wiring.nodes.as_slice()[virt].asks, kind)
}

/// Where the members of the class of a virtual node, if it asks for one, that have its type are counted.
fn own_place(wiring: &Wiring, mapping: &Mapping, virt: usize) -> Option<usize>
    requires sound { IsSound wiring.now }
    requires placed { length mapping.now.places ≡ length wiring.now.nodes }
    requires virt { virt < length wiring.now.nodes }
    ensures is { result ≡ asked_index wiring.now (virt_at wiring.now virt).asks (slice_index_or mapping.now.places virt no_place).1 }
    ensures within { IfSome result (λ n. n < length wiring.now.classes * MAX_TYPES) }
{
    virt_index(wiring, virt, &mapping.places.as_slice()[virt].1)
}

impl Members {
    /// The counts of no members.
    fn none(alloc: Global, wiring: &Wiring) -> Result<Members, Memory>
        requires { IsSound wiring.now }
        ensures room { IfOk result (λ members. length members.counts.items ≡ length wiring.now.classes * MAX_TYPES) }
        ensures none { IfOk result (λ members. (n : ℕ) → slice_index_or members.counts.items n 0 ≡ 0) }
        ensures one_each { IfOk result (λ members. length members.own.items ≡ length wiring.now.nodes) }
    {
        let counts = vec![in alloc; 0u16; wiring.classes.len() * MAX_TYPES]?;
        let own = vec![in alloc; None; wiring.nodes.len()]?;
        Ok(Members { counts, own })
    }

    /// The counts of a mapping.
    pub(crate) fn of(alloc: Global, wiring: &Wiring, mapping: &Mapping) -> Result<Members, Memory>
        requires sound { IsSound wiring.now }
        requires placed { length mapping.now.places ≡ length wiring.now.nodes }
        ensures { IfOk result (λ members. AreMembers wiring.now mapping.now members) }
    {
        let mut members = Members::none(alloc, wiring)?;
        for virt in 0..wiring.nodes.len() {
            members.join(virt, own_place(wiring, mapping, virt));
        }
        Ok(members)
    }

    /// Where a virtual node is counted, if it is.
    pub(crate) fn counted(&self, virt: usize) -> Option<usize>
        requires { virt < length self.now.own.items }
        ensures { result ≡ slice_index_or self.now.own.items virt None }
    {
        self.own[virt]
    }

    fn leave(&mut self, place: Option<usize>)
        requires within { IfSome place (λ n. n < length self.old.counts.items) }
        requires some { IfSome place (λ n. 0 < slice_index_or self.old.counts.items n 0) }
        ensures room { length self.new.counts.items ≡ length self.old.counts.items }
        ensures counts { (n : ℕ) → slice_index_or self.new.counts.items n 0 + one_at place n ≡ slice_index_or self.old.counts.items n 0 }
        ensures own { self.new.own.items ≡ self.old.own.items }
    {
        if let Some(place) = place {
            self.counts[place] -= 1;
        }
    }

    fn join(&mut self, virt: usize, place: Option<usize>)
        requires virt { virt < length self.old.own.items }
        requires within { IfSome place (λ n. n < length self.old.counts.items) }
        requires few { IfSome place (λ n. slice_index_or self.old.counts.items n 0 ≤ MAX_TOPOLOGY_NODES) }
        ensures room { length self.new.counts.items ≡ length self.old.counts.items }
        ensures counts { (n : ℕ) → slice_index_or self.new.counts.items n 0 ≡ slice_index_or self.old.counts.items n 0 + one_at place n }
        ensures own { self.new.own.items ≡ slice_set self.old.own.items virt place }
    {
        if let Some(place) = place {
            self.counts[place] += 1;
        }
        self.own[virt] = place;
    }

    /// A virtual node, which the mapping has at its old place, goes to another one; `into` is the index at which it is counted then.
    pub(crate) fn go(
        &mut self,
        _wiring: &Wiring,
        _mapping: &Mapping,
        virt: usize,
        _place: &Place,
        into: Option<usize>,
    )
        requires sound { IsSound _wiring.now }
        requires placed { length _mapping.now.places ≡ length _wiring.now.nodes }
        requires counted { AreMembers _wiring.now _mapping.now self.old }
        requires virt { virt < length _wiring.now.nodes }
        requires into { into ≡ asked_index _wiring.now (virt_at _wiring.now virt).asks _place.now.1 }
        ensures { AreMembers _wiring.now (placed_at _mapping.now virt _place.now) self.new }
    {
        let from = self.counted(virt);
        self.leave(from);
        self.join(virt, into);
    }

    /// Whether a member of the class has the type; `at` is where these are counted. A type that the class doesn't list isn't counted.
    fn has_kind(
        &self,
        wiring: &Wiring,
        mapping: &Mapping,
        class: usize,
        kind: &Name,
        at: Option<usize>,
    ) -> bool
        requires sound { IsSound wiring.now }
        requires placed { length mapping.now.places ≡ length wiring.now.nodes }
        requires counted { AreMembers wiring.now mapping.now self.now }
        requires class { class < length wiring.now.classes }
        requires at { at ≡ class_index wiring.now class kind.now }
        ensures { result ≡ list_any (same_name kind.now) (types_of class wiring.now.nodes mapping.now.places) }
    {
        match at {
            Some(place) => self.counts[place] > 0,
            None => has_kind(wiring, mapping, class as u16, *kind, 0),
        }
    }

    /// The cost that a class would have more if one of its members had a type too; `at` is where these are counted.
    fn kind_soft(
        &self,
        wiring: &Wiring,
        mapping: &Mapping,
        class: usize,
        kind: &Name,
        at: Option<usize>,
    ) -> u64
        requires sound { IsSound wiring.now }
        requires placed { length mapping.now.places ≡ length wiring.now.nodes }
        requires counted { AreMembers wiring.now mapping.now self.now }
        requires class { class < length wiring.now.classes }
        requires at { at ≡ class_index wiring.now class kind.now }
        ensures is { result ≡ kind_soft_in wiring.now mapping.now class kind.now }
        ensures small { result ≤ MAX_SOFT_WEIGHT }
    {
        let weight = wiring.classes.as_slice()[class].weight;
        if weight < 1_000 && !self.has_kind(wiring, mapping, class, kind, at) {
            weight as u64
        } else {
            0
        }
    }

    /// The cost that the class asked for, if there is one, would have more by that type; `at` is where its members that have it are counted.
    fn asked_soft(
        &self,
        wiring: &Wiring,
        mapping: &Mapping,
        asks: &Asks,
        kind: &Name,
        at: Option<usize>,
    ) -> u64
        requires sound { IsSound wiring.now }
        requires placed { length mapping.now.places ≡ length wiring.now.nodes }
        requires counted { AreMembers wiring.now mapping.now self.now }
        requires at { at ≡ asked_index wiring.now asks.now kind.now }
        ensures is { result ≡ asked_soft_in wiring.now mapping.now asks.now kind.now }
        ensures small { result ≤ MAX_SOFT_WEIGHT }
    {
        match asks {
            Asks::Plain(_) => 0,
            Asks::Class(class) => {
                if (*class as usize) < wiring.classes.len() {
                    self.kind_soft(wiring, mapping, *class as usize, kind, at)
                } else {
                    0
                }
            }
        }
    }

    /// The cost that the class of a virtual node would have less once the virtual node has a type that is another one: the weight, where no other
    /// member has its type.
    pub(crate) fn last_soft(&self, wiring: &Wiring, _mapping: &Mapping, virt: usize) -> u64
        requires sound { IsSound wiring.now }
        requires placed { length _mapping.now.places ≡ length wiring.now.nodes }
        requires counted { AreMembers wiring.now _mapping.now self.now }
        requires virt { virt < length wiring.now.nodes }
        requires asked { is_asked wiring.now (virt_at wiring.now virt).asks (place_at _mapping.now virt).1 ≡ true }
        ensures is { (p : PlaceSeen) → same_name (place_at _mapping.now virt).1 p.1 ≡ false
            → result ≡ asked_soft_in wiring.now (placed_at _mapping.now virt p) (virt_at wiring.now virt).asks (place_at _mapping.now virt).1 }
        ensures small { result ≤ MAX_SOFT_WEIGHT }
    {
        match self.counted(virt) {
            Some(place) => {
                let weight = wiring.classes.as_slice()[place / MAX_TYPES].weight;
                if weight < 1_000 && self.counts[place] == 1 {
                    weight as u64
                } else {
                    0
                }
            }
            None => 0,
        }
    }

    /// The cost that the class of a virtual node would have more by that type; `at` is where its members that have it are counted.
    pub(crate) fn type_soft(
        &self,
        wiring: &Wiring,
        mapping: &Mapping,
        virt: usize,
        kind: &Name,
        at: Option<usize>,
    ) -> u64
        requires sound { IsSound wiring.now }
        requires placed { length mapping.now.places ≡ length wiring.now.nodes }
        requires counted { AreMembers wiring.now mapping.now self.now }
        requires virt { virt < length wiring.now.nodes }
        requires at { at ≡ asked_index wiring.now (virt_at wiring.now virt).asks kind.now }
        ensures is { result ≡ asked_soft_in wiring.now mapping.now (virt_at wiring.now virt).asks kind.now }
        ensures small { result ≤ MAX_SOFT_WEIGHT }
    {
        let asks = &wiring.nodes.as_slice()[virt].asks;
        self.asked_soft(wiring, mapping, asks, kind, at)
    }
}
