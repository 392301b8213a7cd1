// Takers of replies, which take the reply to each command.
ghost use Rattle.std.specs.Prelude.{◌≤◌, ℕ, List, Option, IsErrOf, OnOk};
ghost use Rattle.lab_base.specs.Counts.{Rose};
ghost use Rattle.script_text.specs.Replies.{text_of};
ghost use Rattle.script_text.specs.declared.reply.Reply.{Reply as AnyReply};
ghost use Rattle.lab_top.specs.Answering.{Sent};

use crate::command::CommandFault;
use lab_gen::Tally;
use lab_io::{Sink, write_all};
use script_text::{Reply, reply_text};
use std::alloc::Global;

/// It takes the reply to each command: it writes the reply, or counts it.
pub(crate) trait ReplyTaker {
    /// The bytes that were written, where they are told.
    ghost written: { Self → Option (List ℕ) };

    /// How often a write failed.
    ghost faults: { Self → ℕ };

    /// How a reply that it takes changes it.
    ghost takes: { Self → AnyReply → Self → Type 0 };

    /// Takes a reply.
    fn take_reply(&mut self, alloc: Global, reply: &Reply) -> Result<(), CommandFault>
        ensures sent { Sent (written self.old) (written self.new) (text_of reply.now) result }
        ensures takes { OnOk result (takes self.old reply.now self.new) }
        ensures write { IsErrOf result CommandFault.WriteFault → Rose (faults self.old) (faults self.new) }
        ensures later { faults self.old ≤ faults self.new };
}

/// A sink: the text of the reply is written.
impl<K: Sink> ReplyTaker for K {
    ghost written = { K.written };

    ghost faults = { K.faults };

    ghost takes = { λ old reply new. Unit {0} };

    fn take_reply(&mut self, alloc: Global, reply: &Reply) -> Result<(), CommandFault> {
        let Ok(text) = reply_text(alloc, reply) else {
            return Err(CommandFault::Memory);
        };
        match write_all(self, text.bytes()) {
            Ok(()) => Ok(()),
            Err(_) => Err(CommandFault::WriteFault),
        }
    }
}

/// A tally of the replies: nothing is written.
#[derive(Clone, Copy)]
pub(crate) struct Counter {
    pub(crate) tally: Tally,
}

impl ReplyTaker for Counter {
    ghost use Rattle.std.specs.Prelude.{None};
    ghost use Rattle.lab_top.specs.ReplyTakers.{Counts};

    ghost written = { λ counter. None };

    ghost faults = { λ counter. 0 };

    ghost takes = { Counts };

    fn take_reply(&mut self, _alloc: Global, reply: &Reply) -> Result<(), CommandFault> {
        match self.tally.count(reply) {
            Ok(()) => Ok(()),
            Err(_) => Err(CommandFault::Memory),
        }
    }
}
