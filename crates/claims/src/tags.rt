// Whether VLAN ids are free.
ghost use Rattle.std.specs.Prelude.{◌≡◌, map};
ghost use Rattle.std.specs.List.{list_all};
ghost use Rattle.lab_model.specs.Beside.{all_differ};
ghost use Rattle.claims.specs.Counts.{is_free_id};

use crate::claims::Claims;
use lab_base::{Name, Tags, VlanId};

/// Whether a VLAN id has a place in a table from a first one on, and no owner there.
fn is_free(first: u16, owners: &[Option<Name>], tag: VlanId) -> bool
    ensures { result ≡ is_free_id first owners.now tag.0 }
{
    if tag.0 < first {
        return false;
    }
    match owners.get((tag.0 - first) as usize) {
        Some(owner) => owner.is_none(),
        None => false,
    }
}

fn all_free(first: u16, owners: &[Option<Name>], tags: &[VlanId]) -> bool
    ensures { result ≡ list_all (λ tag. is_free_id first owners.now tag.0) tags.now }
{
    tags.iter().all(|tag| is_free(first, owners, *tag))
}

fn all_differ(tags: &[VlanId]) -> bool
    ensures { result ≡ all_differ (map (λ tag. tag.0) tags.now) }
{
    let mut rest = tags;
    while let Some((first, others)) = rest.split_first() {
        if others.contains(first) {
            return false;
        }
        rest = others;
    }
    true
}

impl Claims {
    ghost use Rattle.std.specs.Prelude.{◌≡◌};
    ghost use Rattle.claims.specs.Answered.{are_free_ids};

    /// Whether these VLAN ids can be taken: no two are equal, each lies in the lab's range, and no claim has it.
    pub fn are_free(&self, tags: &Tags) -> bool
        ensures { result ≡ are_free_ids self.now tags.now }
    {
        let tags = tags.as_slice();
        all_differ(tags) && all_free(self.range.0, &self.tables.ids, tags)
    }
}
