// How much an experiment claims.
ghost use Rattle.std.specs.Prelude.{◌≡◌, ◌<◌, ◌^◌, length};
ghost use Rattle.lab_model.specs.Claims.{tags_of};
ghost use Rattle.lab_seen.specs.Claimed.{nodes_claimed, ids_claimed};

use lab_model::claims;
use phys_lab::Lab;
use virt_topo::{Experiment, Mapped, Phase};

/// How many nodes an experiment claims.
pub fn nodes_claimed(lab: &Lab, experiment: &Experiment) -> usize
    ensures { result ≡ nodes_claimed lab.now experiment.now }
{
    lab.nodes()
        .iter()
        .filter(|node| claims(lab, experiment, node.name.bytes()))
        .count()
}

fn tags_in(mapped: &Option<Mapped>) -> usize
    ensures { result ≡ length (tags_of mapped.now) }
{
    match mapped {
        Some(mapped) => mapped.tags.len(),
        None => 0,
    }
}

/// How many VLAN ids an experiment claims.
pub fn ids_claimed(experiment: &Experiment) -> usize
    requires { ids_claimed experiment.now < 2 ^ 32 }
    ensures { result ≡ ids_claimed experiment.now }
{
    match &experiment.phase {
        Phase::Out => 0,
        Phase::In { tags, .. } => tags.len(),
        Phase::Moving { old, new } => tags_in(old) + tags_in(new),
    }
}
