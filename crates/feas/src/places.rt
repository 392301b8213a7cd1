// The rules on the place of a virtual node.
ghost use Rattle.std.specs.Prelude.{◌≡◌, IfSome, ◌<◌, ◌||◌, length};
ghost use Rattle.std.specs.List.{list_any};
ghost use Rattle.lab_base.specs.Names.{same_name};
ghost use Rattle.virt_topo.specs.Wirings.{virt_at};
ghost use Rattle.lab_model.specs.Shapes.{has_name, IsFreeOf, IsShaped, node_at};
ghost use Rattle.lab_model.specs.Rules.{place_at, class_at, is_asked, are_met, is_member, first_type};
ghost use Rattle.lab_model.specs.Rules.{is_of_one_type, suits, keeps_f1, keeps_f3, is_fixed_at, keeps_f4};
ghost use Rattle.lab_model.specs.Feasible.{first_below};

use lab_base::Name;
use lab_model::{node_at, place_at, virt_at};
use phys_lab::{Free, Lab};
use virt_topo::{Asks, Mapping, VirtNode, Wiring};

fn keeps_f1(free: &Free, mapping: &Mapping, virt: usize) -> bool
    requires virt { virt < length mapping.now.places }
    requires place { (place_at mapping.now virt).0.0 < length free.now.nodes }
    ensures { result ≡ keeps_f1 free.now mapping.now virt }
{
    let place = place_at(mapping, virt);
    free.nodes.as_slice()[place.0.0 as usize]
}

/// The first virtual node that is placed on a node that somebody claims.
pub(crate) fn first_claimed(
    lab: &Lab,
    free: &Free,
    wiring: &Wiring,
    mapping: &Mapping,
) -> Option<usize>
    requires free { IsFreeOf lab.now free.now }
    requires shaped { IsShaped lab.now wiring.now mapping.now }
    ensures first { result ≡ first_below (length wiring.now.nodes) (keeps_f1 free.now mapping.now) }
    ensures within { IfSome result (λ virt. virt < length wiring.now.nodes) }
{
    for virt in 0..wiring.nodes.len() {
        if !keeps_f1(free, mapping, virt) {
            return Some(virt);
        }
    }
    None
}

fn has_name(pairs: &[(Name, u32)], name: Name) -> bool
    ensures { result ≡ has_name pairs.now name }
{
    pairs.iter().any(|pair| pair.0 == name)
}

fn are_met(wanted: &[(Name, u32)], given: &[(Name, u32)]) -> bool
    ensures { result ≡ are_met wanted.now given.now }
{
    wanted
        .iter()
        .all(|pair| pair.1 < 1_000 || has_name(given, pair.0))
}

fn types_of(wiring: &Wiring, class: u16) -> &[Name]
    ensures { result.now ≡ (class_at wiring.now class).types }
{
    match wiring.classes.as_slice().get(class as usize) {
        Some(class) => class.types.as_slice(),
        None => &[],
    }
}

fn weight_of(wiring: &Wiring, class: u16) -> u32
    ensures { result ≡ (class_at wiring.now class).weight }
{
    match wiring.classes.as_slice().get(class as usize) {
        Some(class) => class.weight,
        None => 0,
    }
}

fn is_among(types: &[Name], name: Name) -> bool
    ensures { result ≡ list_any (λ t. same_name t name) types.now }
{
    types.iter().any(|kind| *kind == name)
}

fn is_asked(wiring: &Wiring, asks: &Asks, name: Name) -> bool
    ensures { result ≡ is_asked wiring.now asks.now name }
{
    match asks {
        Asks::Plain(kind) => *kind == name,
        Asks::Class(class) => is_among(types_of(wiring, *class), name),
    }
}

fn is_member(class: u16, asks: &Asks) -> bool
    ensures { result ≡ is_member class asks.now }
{
    match asks {
        Asks::Plain(_) => false,
        Asks::Class(other) => *other == class,
    }
}

/// Whether the first member of a class has that type; without a member no type is the first.
fn is_first_type(class: u16, wiring: &Wiring, mapping: &Mapping, name: Name) -> bool
    requires { length mapping.now.places ≡ length wiring.now.nodes }
    ensures { result ≡ same_name (first_type class wiring.now.nodes mapping.now.places) name }
{
    for virt in 0..wiring.nodes.len() {
        if is_member(class, &virt_at(wiring, virt).asks) {
            return place_at(mapping, virt).1 == name;
        }
    }
    name.bytes().is_empty()
}

fn is_of_one_type(wiring: &Wiring, mapping: &Mapping, asks: &Asks, name: Name) -> bool
    requires { length mapping.now.places ≡ length wiring.now.nodes }
    ensures { result ≡ is_of_one_type wiring.now mapping.now asks.now name }
{
    match asks {
        Asks::Plain(_) => true,
        Asks::Class(class) => weight_of(wiring, *class) < 1_000
            || is_first_type(*class, wiring, mapping, name),
    }
}

/// Whether a virtual node suits a node with these features under one of its types.
/// The virtual node asks for that type, and desires and features of weight 1,000 or more meet each other.
pub fn suits(wiring: &Wiring, node: &VirtNode, features: &[(Name, u32)], name: Name) -> bool
    ensures { result ≡ suits wiring.now node.now features.now name }
{
    is_asked(wiring, &node.asks, name)
        && are_met(node.desires.as_slice(), features)
        && are_met(features, node.desires.as_slice())
}

fn keeps_f3(lab: &Lab, wiring: &Wiring, mapping: &Mapping, virt: usize) -> bool
    requires shaped { IsShaped lab.now wiring.now mapping.now }
    requires virt { virt < length wiring.now.nodes }
    ensures { result ≡ keeps_f3 lab.now wiring.now mapping.now virt }
{
    let node = virt_at(wiring, virt);
    let place = place_at(mapping, virt);
    suits(
        wiring,
        node,
        node_at(lab, place.0).features.as_slice(),
        place.1,
    ) && is_of_one_type(wiring, mapping, &node.asks, place.1)
}

/// The first virtual node whose type, desires, features or class break the third rule.
pub(crate) fn first_unsuited(lab: &Lab, wiring: &Wiring, mapping: &Mapping) -> Option<usize>
    requires { IsShaped lab.now wiring.now mapping.now }
    ensures first { result ≡ first_below (length wiring.now.nodes) (keeps_f3 lab.now wiring.now mapping.now) }
    ensures within { IfSome result (λ virt. virt < length wiring.now.nodes) }
{
    for virt in 0..wiring.nodes.len() {
        if !keeps_f3(lab, wiring, mapping, virt) {
            return Some(virt);
        }
    }
    None
}

/// Whether a virtual node may be on a node of that name: it isn't fixed, or fixed there.
pub fn is_fixed_at(fixed: Option<Name>, name: Name) -> bool
    ensures { result ≡ is_fixed_at fixed name }
{
    match fixed {
        Some(fixed) => fixed == name,
        None => true,
    }
}

fn keeps_f4(lab: &Lab, wiring: &Wiring, mapping: &Mapping, virt: usize) -> bool
    requires shaped { IsShaped lab.now wiring.now mapping.now }
    requires virt { virt < length wiring.now.nodes }
    ensures { result ≡ keeps_f4 lab.now wiring.now mapping.now virt }
{
    let place = place_at(mapping, virt);
    is_fixed_at(virt_at(wiring, virt).fixed, node_at(lab, place.0).name)
}

/// The first fixed virtual node that is on another node than its own.
pub(crate) fn first_misplaced(lab: &Lab, wiring: &Wiring, mapping: &Mapping) -> Option<usize>
    requires { IsShaped lab.now wiring.now mapping.now }
    ensures first { result ≡ first_below (length wiring.now.nodes) (keeps_f4 lab.now wiring.now mapping.now) }
    ensures within { IfSome result (λ virt. virt < length wiring.now.nodes) }
{
    for virt in 0..wiring.nodes.len() {
        if !keeps_f4(lab, wiring, mapping, virt) {
            return Some(virt);
        }
    }
    None
}
