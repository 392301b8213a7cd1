ghost use Rattle.std.specs.Prelude.{◌≡◌, ◌<◌, ◌+◌, OnOk, OnErr};
ghost use Rattle.node_state.specs.Watched.{seen};
ghost use Rattle.swap_txn.specs.Troubles.{told_by};

use lab_base::{Boot, Name, What};
use node_state::{MAX_POLLS, Seen, Watch};

/// A node that is watched since its boot.
#[derive(Drop)]
pub(crate) struct Watched {
    pub(crate) node: Name,
    pub(crate) watch: Watch,
}

impl Watched {
    /// Takes the state that a poll is answered with; `Ok` tells whether the node is up. After trouble the watch begins anew.
    pub(crate) fn see(&mut self, state: Boot) -> Result<bool, What>
        requires { self.old.watch.polls < MAX_POLLS }
        ensures told { result ≡ told_by self.old.node (seen self.old.watch state) }
        ensures node { self.new.node ≡ self.old.node }
        ensures last { OnOk result (self.new.watch.last ≡ state) }
        ensures polls { OnOk result (self.new.watch.polls ≡ self.old.watch.polls + 1) }
        ensures anew { OnErr result (self.new.watch.polls ≡ 0) }
    {
        let node = self.node;
        let seen = self.watch.see(state);
        match seen {
            Seen::Up => Ok(true),
            Seen::Wait => Ok(false),
            Seen::TooLong => {
                self.watch = Watch::new();
                Err(What::Late(node))
            }
            Seen::Unlawful(from, to) => {
                self.watch = Watch::new();
                Err(What::Unlawful { node, from, to })
            }
        }
    }
}
