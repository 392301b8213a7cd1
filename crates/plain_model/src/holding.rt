// Whether trunks, nodes and VLAN ids hold the claims.
ghost use Rattle.std.specs.Prelude.{◌≡◌, ◌↔◌, ◌==◌, IsTrue, IfOk};
ghost use Rattle.std.specs.List.{flat_map, list_all, list_any};
ghost use Rattle.lab_model.specs.Beside.{all_differ};
ghost use Rattle.lab_model.specs.Claims.{claimed_tags};
ghost use Rattle.lab_model.specs.Holding.{Holding};
ghost use Rattle.plain_model.specs.Holds.{all_fit, is_in_range, are_tags, is_holding};

use crate::claims::{are_apart, claimed_tags};
use crate::suits::all_fit;
use crate::uses::have_room;
use lab_base::Memory;
use phys_lab::Lab;
use std::alloc::Global;
use virt_topo::Experiment;

fn has_number(numbers: &[u16], number: u16) -> bool
    ensures { result ≡ list_any (λ y. y == number) numbers.now }
{
    numbers.iter().any(|other| *other == number)
}

fn all_differ(numbers: &[u16]) -> bool
    ensures { result ≡ all_differ numbers.now }
{
    match numbers.split_first() {
        Some((number, others)) => !has_number(others, *number) && all_differ(others),
        None => true,
    }
}

fn is_in_range(lab: &Lab, tag: u16) -> bool
    ensures { result ≡ is_in_range lab.now tag }
{
    let (least, most) = lab.range();
    least <= tag && tag <= most
}

fn are_in_range(lab: &Lab, tags: &[u16]) -> bool
    ensures { result ≡ list_all (is_in_range lab.now) tags.now }
{
    tags.iter().all(|tag| is_in_range(lab, *tag))
}

fn are_tags(lab: &Lab, tags: &[u16]) -> bool
    ensures { result ≡ are_tags lab.now tags.now }
{
    all_differ(tags) && are_in_range(lab, tags)
}

fn holds(lab: &Lab, experiments: &[Experiment], fit: bool, tags: &[u16]) -> bool
    requires fit { fit ≡ all_fit lab.now experiments.now }
    requires tags { tags.now ≡ flat_map claimed_tags experiments.now }
    ensures { result ≡ is_holding lab.now experiments.now }
{
    fit && (are_apart(lab, experiments) && (have_room(lab, experiments) && are_tags(lab, tags)))
}

/// Whether trunks, nodes and VLAN ids hold the claims of the experiments.
/// Each claimed mapping suits the lab, and no node is claimed twice. Each trunk has room for all. All ids differ and are in the lab's range.
pub fn is_holding(alloc: Global, lab: &Lab, experiments: &[Experiment]) -> Result<bool, Memory>
    ensures { IfOk result (λ holds. IsTrue holds ↔ Holding lab.now experiments.now) }
{
    let fit = all_fit(alloc, lab, experiments)?;
    let tags = claimed_tags(alloc, experiments)?;
    Ok(holds(lab, experiments, fit, &tags))
}
