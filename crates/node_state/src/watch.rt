ghost use Rattle.std.specs.Prelude.{◌≡◌, ◌+◌, min};
ghost use Rattle.lab_base.specs.declared.boot.Boot.TheVariants as boots;
ghost use Rattle.node_state.specs.Watched.{seen};

use crate::lawful;
use lab_base::Boot;
use std::marker::Model;

/// The number of polls after which a node that isn't up has taken too long.
pub const MAX_POLLS: u32 = 64;

/// The verdict of a watch on a state: the first of these that holds.
#[derive(Clone, Copy, PartialEq, Eq)]
pub enum Seen {
    /// The second state may not follow the first.
    Unlawful(Boot, Boot),
    /// The node is up.
    Up,
    /// This is the 64th poll.
    TooLong,
    /// The node has to be polled again.
    Wait,
}

/// A node that is watched since its boot. Contracts see its last state and the number of its polls.
#[derive(Drop)]
pub struct Watch {
    last: Boot,
    polls: u32,
}

impl Model for Watch {
    ghost use Rattle.node_state.specs.Watched.{Watched};
    ghost use Rattle.node_state.specs.WatchView.{watched_of};

    ghost Value = { Watched };

    ghost view = { watched_of };
}

impl Watch {
    /// The watch of a node that was just told to boot: BOOTING, and no poll.
    pub fn new() -> Watch
        ensures last { result.last ≡ boots.Booting }
        ensures polls { result.polls ≡ 0 }
    {
        Watch {
            last: Boot::Booting,
            polls: 0,
        }
    }

    /// Takes the answer of a poll. At the type's end the number of polls stands still.
    pub fn see(&mut self, state: Boot) -> Seen
        ensures seen { result ≡ seen self.old state }
        ensures last { self.new.last ≡ state }
        ensures polls { self.new.polls ≡ min (self.old.polls + 1) u32.MAX }
    {
        let last = self.last;
        self.last = state;
        self.polls = self.polls.saturating_add(1);
        if !lawful(last, state) {
            Seen::Unlawful(last, state)
        } else if state == Boot::IsUp {
            Seen::Up
        } else if self.polls == MAX_POLLS {
            Seen::TooLong
        } else {
            Seen::Wait
        }
    }
}
