// The claims of experiments.
ghost use Rattle.std.specs.Prelude.{◌≡◌};
ghost use Rattle.std.specs.List.{list_any};
ghost use Rattle.std.specs.Str.{bytes_eq};
ghost use Rattle.lab_model.specs.Wants.{node_name};
ghost use Rattle.lab_model.specs.Claims.{is_placed, claims_it};

use crate::at::node_name;
use lab_base::{Name, NodeId};
use phys_lab::Lab;
use virt_topo::{Experiment, Mapped, Phase};

fn is_on(lab: &Lab, places: &[(NodeId, Name)], name: &[u8]) -> bool
    ensures { result ≡ list_any (λ p. bytes_eq (node_name lab.now p.0) name.now) places.now }
{
    places.iter().any(|place| node_name(lab, place.0) == name)
}

/// Whether a mapping places a virtual node on the node of that name; false where there is no mapping.
pub fn is_placed(lab: &Lab, mapped: &Option<Mapped>, name: &[u8]) -> bool
    ensures { result ≡ is_placed lab.now mapped.now name.now }
{
    match mapped {
        Some(mapped) => is_on(lab, mapped.mapping.places.as_slice(), name),
        None => false,
    }
}

/// Whether an experiment claims the node of that name.
pub fn claims(lab: &Lab, experiment: &Experiment, name: &[u8]) -> bool
    ensures { result ≡ claims_it lab.now experiment.now name.now }
{
    match &experiment.phase {
        Phase::Out => false,
        Phase::In { mapping, .. } => is_on(lab, mapping.places.as_slice(), name),
        Phase::Moving { old, new } => is_placed(lab, old, name) || is_placed(lab, new, name),
    }
}
