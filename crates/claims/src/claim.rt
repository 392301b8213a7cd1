ghost use Rattle.std.specs.Prelude.{◌≡◌, ◌<◌, length, max, IfSome};
ghost use Rattle.claims.specs.Held.{use_in, claim_use};
ghost use Rattle.claims.specs.Adding.{side_of};

use crate::hold::Hold;
use lab_base::Name;

/// The claim of an experiment. One that stands in the lab has `new` alone, one that leaves it `old` alone, and one that changes has both.
#[derive(Drop)]
pub struct Claim {
    pub old: Option<Hold>,
    pub new: Option<Hold>,
}

/// An experiment with its claim.
#[derive(Drop)]
pub(crate) struct Entry {
    pub exp: Name,
    pub claim: Claim,
}

fn use_in(hold: &Option<Hold>, trunk: usize) -> u64
    requires { IfSome hold.now (λ h. trunk < length h.uses) }
    ensures { result ≡ use_in trunk hold.now }
{
    match hold {
        Some(hold) => hold.uses.as_slice()[trunk],
        None => 0,
    }
}

impl Claim {
    /// The kbps that the claim uses of a trunk: the greater of both uses.
    pub(crate) fn use_of(&self, trunk: usize) -> u64
        requires old { IfSome self.now.old (λ h. trunk < length h.uses) }
        requires new { IfSome self.now.new (λ h. trunk < length h.uses) }
        ensures { result ≡ claim_use trunk self.now }
    {
        std::cmp::max(use_in(&self.old, trunk), use_in(&self.new, trunk))
    }

    /// One side of the claim, as that of an experiment that stands.
    pub(crate) fn side(self, keep_new: bool) -> Claim
        ensures { result ≡ side_of keep_new self }
    {
        let (kept, gone) = if keep_new {
            (self.new, self.old)
        } else {
            (self.old, self.new)
        };
        drop(gone);
        Claim {
            old: None,
            new: kept,
        }
    }
}
