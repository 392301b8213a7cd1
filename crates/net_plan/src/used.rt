ghost use Rattle.std.specs.Prelude.{◌≡◌, not, [], IfOk, OnOk};
ghost use Rattle.net_plan.specs.Addresses.{uses, taken};

use lab_base::Memory;
use std::alloc::Global;
use std::collections::BTreeSet;
use std::marker::Model;

/// A set of used addresses. Contracts see their list.
#[derive(Drop)]
pub(crate) struct Used {
    addresses: BTreeSet<u32>,
}

impl Model for Used {
    ghost use Rattle.std.specs.Prelude.{ℕ, List};

    ghost Value = { List ℕ };

    ghost view = { λ used. used.addresses.keys };
}

impl Used {
    /// The empty set.
    pub(crate) fn new(alloc: Global) -> Used
        ensures { result ≡ [] }
    {
        Used {
            addresses: BTreeSet::new(alloc),
        }
    }

    pub(crate) fn contains(&self, address: u32) -> bool
        ensures { result ≡ uses self.now address }
    {
        self.addresses.contains(&address)
    }

    /// Adds an address to the set; true where it wasn't in it.
    pub(crate) fn insert(&mut self, address: u32) -> Result<bool, Memory>
        ensures free { IfOk result (λ free. free ≡ not (uses self.old address)) }
        ensures used { OnOk result (uses self.new ≡ taken (uses self.old) address) }
    {
        let free = self.addresses.insert(address)?;
        Ok(free)
    }
}
