// The virtual nodes of an experiment on a node.
ghost use Rattle.std.specs.Prelude.{◌≡◌, ◌++◌, ◌<◌, length, slice_get, IfOk, OnOk};
ghost use Rattle.lab_seen.specs.Claimed.{is_there, hosted_nth, hosted_of, hosted_in, is_among, with_others, hosted};

use lab_base::{Items, Memory, Name};
use lab_model::node_name;
use phys_lab::Lab;
use std::alloc::Global;
use virt_topo::{Experiment, Mapped, Mapping, Phase, Wiring};

/// Whether a mapping has the virtual node of that number on the node of that name.
fn is_there(lab: &Lab, mapping: &Mapping, name: &[u8], number: usize) -> bool
    ensures { result ≡ is_there lab.now name.now (slice_get mapping.now.places number) }
{
    match mapping.places.as_slice().get(number) {
        Some(place) => node_name(lab, place.0) == name,
        None => false,
    }
}

/// The virtual node of that number, where a mapping has it on the node of that name.
fn push_hosted_node(
    hosted: &mut Items<Name>,
    lab: &Lab,
    wiring: &Wiring,
    mapping: &Mapping,
    name: &[u8],
    number: usize,
) -> Result<(), Memory>
    requires { number < length wiring.now.nodes }
    ensures { OnOk result (hosted.new ≡ hosted.old ++ hosted_nth lab.now wiring.now mapping.now name.now number) }
{
    if is_there(lab, mapping, name, number) {
        hosted.push(wiring.nodes.as_slice()[number].name)
    } else {
        Ok(())
    }
}

/// The virtual nodes that a mapping has on the node of that name.
#[tactic(auto, using(crate::proofs::Steps::counted_more))]
fn hosted_of(
    alloc: Global,
    lab: &Lab,
    wiring: &Wiring,
    mapping: &Mapping,
    name: &[u8],
) -> Result<Items<Name>, Memory>
    ensures { IfOk result (λ found. found ≡ hosted_of lab.now wiring.now mapping.now name.now) }
{
    let mut hosted = Items::new(alloc);
    for number in 0..wiring.nodes.len() {
        push_hosted_node(&mut hosted, lab, wiring, mapping, name, number)?;
    }
    Ok(hosted)
}

fn hosted_in(
    alloc: Global,
    lab: &Lab,
    mapped: &Option<Mapped>,
    name: &[u8],
) -> Result<Items<Name>, Memory>
    ensures { IfOk result (λ found. found ≡ hosted_in lab.now mapped.now name.now) }
{
    match mapped {
        Some(mapped) => hosted_of(alloc, lab, &mapped.wiring, &mapped.mapping, name),
        None => Ok(Items::new(alloc)),
    }
}

fn is_among(names: &[Name], name: Name) -> bool
    ensures { result ≡ is_among names.now name }
{
    names.iter().any(|own| *own == name)
}

fn with_others(alloc: Global, names: &Items<Name>, others: &[Name]) -> Result<Items<Name>, Memory>
    ensures { IfOk result (λ all. all ≡ with_others names.now others.now) }
{
    let mut all = names.copy(alloc)?;
    for other in others {
        if !is_among(names.as_slice(), *other) {
            all.push(*other)?;
        }
    }
    Ok(all)
}

fn of_move(
    alloc: Global,
    lab: &Lab,
    old: &Option<Mapped>,
    new: &Option<Mapped>,
    name: &[u8],
) -> Result<Items<Name>, Memory>
    ensures { IfOk result (λ found. found ≡ with_others (hosted_in lab.now old.now name.now) (hosted_in lab.now new.now name.now)) }
{
    let first = hosted_in(alloc, lab, old, name)?;
    let second = hosted_in(alloc, lab, new, name)?;
    with_others(alloc, &first, second.as_slice())
}

/// The virtual nodes of an experiment on the node of that name.
pub fn hosted(
    alloc: Global,
    lab: &Lab,
    experiment: &Experiment,
    name: &[u8],
) -> Result<Items<Name>, Memory>
    ensures { IfOk result (λ found. found ≡ hosted lab.now experiment.now name.now) }
{
    match &experiment.phase {
        Phase::Out => Ok(Items::new(alloc)),
        Phase::In { mapping, .. } => {
            let found = hosted_of(alloc, lab, &experiment.wiring, mapping, name)?;
            with_others(alloc, &Items::new(alloc), found.as_slice())
        }
        Phase::Moving { old, new } => of_move(alloc, lab, old, new, name),
    }
}
