ghost use Rattle.std.specs.Prelude.{◌≡◌};
ghost use Rattle.journal_rec.specs.Payloads.{IsBody};
ghost use Rattle.journal_rec.specs.declared.record.Record.TheVariants as records;
ghost use Rattle.swap_txn.specs.States.{undone};

use crate::Undoing;
use crate::at::At;
use crate::sending::Sending;
use crate::work::Work;
use journal_rec::Encoded;
use lab_base::{Name, What};
use swap_plan::Commands;

/// The way back of a swap: its undo, and the record Abort.
#[derive(Drop)]
pub(crate) struct WayBack {
    pub(crate) commands: Commands,
    /// The record Abort.
    pub(crate) abort: Encoded,
    /// Whether the experiment is in the lab afterwards.
    pub(crate) inside: bool,
}

impl WayBack {
    /// The undo of that experiment from its beginning, after that trouble.
    pub(crate) fn undoing(self, exp: Name, what: &What) -> Undoing
        requires { IsBody self.abort (records.Abort exp) }
        ensures { result ≡ undone exp (record { plan = self.commands; inside = self.inside }) what.now }
    {
        At::of(Work {
            exp,
            sending: Sending::new(self.commands),
            last: self.abort,
            commit: false,
            inside: self.inside,
            why: Some(*what),
            back: None,
        })
    }
}
