// Virtual nodes that must have one type.
ghost use Rattle.std.specs.Prelude.{◌≡◌, ◌<◌, true, List, length, slice_index_or, All, None, IfSome, IfOk};
ghost use Rattle.std.specs.List.{list_all};
ghost use Rattle.virt_topo.specs.Soundness.{IsSound};
ghost use Rattle.virt_topo.specs.Wirings.{virt_at};
ghost use Rattle.lab_model.specs.Shapes.{Place as PlaceSeen};
ghost use Rattle.lab_model.specs.Rules.{class_at, is_member, first_type, no_place};
ghost use Rattle.node_maps.specs.Moved.{has_class_type};
ghost use Rattle.map_state.specs.Ties.{IsTie, AreTies, have_one_type};

use lab_base::Memory;
use node_maps::Place;
use std::alloc::Global;
use virt_topo::{Asks, Wiring};

/// The first member of a class of weight 1,000 or more, and a member, which must have its type.
#[derive(Clone, Copy)]
pub(crate) struct Tie {
    pub(crate) first: u16,
    pub(crate) member: u16,
}

fn weight_of(wiring: &Wiring, class: u16) -> u32
    ensures { result ≡ (class_at wiring.now class).weight }
{
    match wiring.classes.as_slice().get(class as usize) {
        Some(class) => class.weight,
        None => 0,
    }
}

fn asks_of(wiring: &Wiring, virt: u16) -> Asks
    requires { virt < length wiring.now.nodes }
    ensures { result ≡ (virt_at wiring.now virt).asks }
{
    wiring.nodes.as_slice()[virt as usize].asks
}

fn is_member(class: u16, asks: Asks) -> bool
    ensures { result ≡ is_member class asks }
{
    match asks {
        Asks::Plain(_) => false,
        Asks::Class(other) => other == class,
    }
}

/// The first member of the class of a virtual node.
fn first_member(wiring: &Wiring, class: u16, virt: u16) -> u16
    requires virt { virt < length wiring.now.nodes }
    requires member { is_member class (virt_at wiring.now virt).asks ≡ true }
    ensures within { result < length wiring.now.nodes }
    ensures first { (places : List PlaceSeen) → length places ≡ length wiring.now.nodes
        → first_type class wiring.now.nodes places ≡ (slice_index_or places result no_place).1 }
{
    for earlier in 0..virt {
        if is_member(class, asks_of(wiring, earlier)) {
            return earlier;
        }
    }
    virt
}

/// The tie of a virtual node, if it asks for a class of weight 1,000 or more.
fn tie_of(wiring: &Wiring, virt: u16) -> Option<Tie>
    requires { virt < length wiring.now.nodes }
    ensures tie { IfSome result (IsTie wiring.now) }
    ensures member { IfSome result (λ tie. tie.member ≡ virt) }
    ensures none { result ≡ None → (places : List PlaceSeen) → has_class_type wiring.now places virt ≡ true }
{
    let Asks::Class(class) = asks_of(wiring, virt) else {
        return None;
    };
    if weight_of(wiring, class) < 1_000 {
        return None;
    }
    Some(Tie {
        first: first_member(wiring, class, virt),
        member: virt,
    })
}

/// The ties of all virtual nodes.
pub(crate) fn ties_of(alloc: Global, wiring: &Wiring) -> Result<Vec<Tie>, Memory>
    requires { IsSound wiring.now }
    ensures { IfOk result (λ ties. AreTies wiring.now ties.items) }
{
    let mut ties = Vec::new(alloc);
    for virt in 0..wiring.nodes.len() {
        if let Some(tie) = tie_of(wiring, virt as u16) {
            ties.push(tie)?;
        }
    }
    Ok(ties)
}

fn have_one_type(places: &[Place], tie: Tie) -> bool
    requires first { tie.first < length places.now }
    requires member { tie.member < length places.now }
    ensures { result ≡ have_one_type places.now tie }
{
    places[tie.first as usize].1 == places[tie.member as usize].1
}

/// Whether the virtual nodes of each tie have one type.
pub(crate) fn are_kept(ties: &[Tie], places: &[Place]) -> bool
    requires { All (λ t. (t.first < length places.now) × (t.member < length places.now)) ties.now }
    ensures { result ≡ list_all (have_one_type places.now) ties.now }
{
    ties.iter().all(|tie| have_one_type(places, *tie))
}
