// The claims of an experiment.
ghost use Rattle.std.specs.Prelude.{◌≡◌, ◌==◌, map};
ghost use Rattle.std.specs.List.{list_any};
ghost use Rattle.lab_model.specs.Claims.{tags_of};
ghost use Rattle.lab_seen.specs.Claimed.{moving_held, how_held, way_of, stand_of, has_tag};

use lab_base::VlanId;
use lab_model::is_placed;
use lab_view::{Held, Stand};
use phys_lab::Lab;
use virt_topo::{Experiment, Mapped, Phase};

fn moving_held(by_old: bool, by_new: bool) -> Held
    ensures { result ≡ moving_held by_old by_new }
{
    if by_old {
        if by_new { Held::Stays } else { Held::Goes }
    } else {
        Held::Comes
    }
}

/// How an experiment holds the node of that name, which it claims.
pub fn how_held(lab: &Lab, experiment: &Experiment, name: &[u8]) -> Held
    ensures { result ≡ how_held lab.now experiment.now name.now }
{
    match &experiment.phase {
        Phase::Out | Phase::In { .. } => Held::Stands,
        Phase::Moving { old, new } => {
            let by_old = is_placed(lab, old, name);
            moving_held(by_old, is_placed(lab, new, name))
        }
    }
}

fn way_of(old: &Option<Mapped>, new: &Option<Mapped>) -> Stand
    ensures { result ≡ way_of old.now new.now }
{
    match old {
        None => Stand::Comes,
        Some(_) => match new {
            None => Stand::Goes,
            Some(_) => Stand::Changes,
        },
    }
}

/// Where an experiment stands, and which way it moves.
pub fn stand_of(experiment: &Experiment) -> Stand
    ensures { result ≡ stand_of experiment.now }
{
    match &experiment.phase {
        Phase::Out => Stand::Out,
        Phase::In { .. } => Stand::In,
        Phase::Moving { old, new } => way_of(old, new),
    }
}

fn is_tag(tags: &[VlanId], id: u16) -> bool
    ensures { result ≡ list_any (λ tag. tag == id) (map (λ tag. tag.0) tags.now) }
{
    tags.iter().map(|tag| tag.0).any(|own| own == id)
}

fn is_tag_of(mapped: &Option<Mapped>, id: u16) -> bool
    ensures { result ≡ list_any (λ tag. tag == id) (tags_of mapped.now) }
{
    match mapped {
        Some(mapped) => is_tag(mapped.tags.as_slice(), id),
        None => false,
    }
}

/// Whether an experiment claims the VLAN id.
pub fn has_tag(experiment: &Experiment, id: u16) -> bool
    ensures { result ≡ has_tag experiment.now id }
{
    match &experiment.phase {
        Phase::Out => false,
        Phase::In { tags, .. } => is_tag(tags.as_slice(), id),
        Phase::Moving { old, new } => is_tag_of(old, id) || is_tag_of(new, id),
    }
}
