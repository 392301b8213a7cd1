// The claims of experiments.
ghost use Rattle.std.specs.Prelude.{◌≡◌, ◌++◌, not, map, IfOk, OnOk};
ghost use Rattle.std.specs.List.{flat_map, list_all};
ghost use Rattle.lab_model.specs.Claims.{tags_of, claimed_tags};
ghost use Rattle.plain_model.specs.Holds.{shares_place, shares_in, shares, are_apart};

use lab_base::{Memory, Name, NodeId, VlanId};
use lab_model::{claims, node_name};
use phys_lab::Lab;
use std::alloc::Global;
use virt_topo::{Experiment, Mapped, Phase};

fn shares_place(lab: &Lab, other: &Experiment, places: &[(NodeId, Name)]) -> bool
    ensures { result ≡ shares_place lab.now other.now places.now }
{
    places
        .iter()
        .any(|place| claims(lab, other, node_name(lab, place.0)))
}

fn shares_in(lab: &Lab, other: &Experiment, mapped: &Option<Mapped>) -> bool
    ensures { result ≡ shares_in lab.now other.now mapped.now }
{
    match mapped {
        Some(mapped) => shares_place(lab, other, mapped.mapping.places.as_slice()),
        None => false,
    }
}

/// Whether two experiments claim one node.
fn shares(lab: &Lab, other: &Experiment, experiment: &Experiment) -> bool
    ensures { result ≡ shares lab.now other.now experiment.now }
{
    match &experiment.phase {
        Phase::Out => false,
        Phase::In { mapping, .. } => shares_place(lab, other, mapping.places.as_slice()),
        Phase::Moving { old, new } => shares_in(lab, other, old) || shares_in(lab, other, new),
    }
}

fn is_apart(lab: &Lab, experiment: &Experiment, others: &[Experiment]) -> bool
    ensures { result ≡ list_all (λ f. not (shares lab.now f experiment.now)) others.now }
{
    others.iter().all(|other| !shares(lab, other, experiment))
}

/// Whether no node is claimed by two experiments.
pub(crate) fn are_apart(lab: &Lab, experiments: &[Experiment]) -> bool
    ensures { result ≡ are_apart lab.now experiments.now }
{
    match experiments.split_first() {
        Some((experiment, others)) => is_apart(lab, experiment, others) && are_apart(lab, others),
        None => true,
    }
}

fn push_tags(listed: &mut Vec<u16>, tags: &[VlanId]) -> Result<(), Memory>
    ensures { OnOk result (listed.new.items ≡ listed.old.items ++ map (λ tag. tag.0) tags.now) }
{
    for tag in tags {
        listed.push(tag.0)?;
    }
    Ok(())
}

fn push_tags_of(listed: &mut Vec<u16>, mapped: &Option<Mapped>) -> Result<(), Memory>
    ensures { OnOk result (listed.new.items ≡ listed.old.items ++ tags_of mapped.now) }
{
    match mapped {
        Some(mapped) => push_tags(listed, mapped.tags.as_slice()),
        None => Ok(()),
    }
}

fn push_claimed(listed: &mut Vec<u16>, experiment: &Experiment) -> Result<(), Memory>
    ensures { OnOk result (listed.new.items ≡ listed.old.items ++ claimed_tags experiment.now) }
{
    match &experiment.phase {
        Phase::Out => Ok(()),
        Phase::In { tags, .. } => push_tags(listed, tags.as_slice()),
        Phase::Moving { old, new } => {
            push_tags_of(listed, old)?;
            push_tags_of(listed, new)
        }
    }
}

/// The VLAN ids that the experiments claim.
pub(crate) fn claimed_tags(alloc: Global, experiments: &[Experiment]) -> Result<Vec<u16>, Memory>
    ensures { IfOk result (λ listed. listed.items ≡ flat_map claimed_tags experiments.now) }
{
    let mut listed = Vec::new(alloc);
    for experiment in experiments {
        push_claimed(&mut listed, experiment)?;
    }
    Ok(listed)
}
