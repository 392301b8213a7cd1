// The reply to `batch`.
ghost use Rattle.std.specs.Prelude.{◌≡◌, ◌++◌, ◌||◌, ◌∷◌, [], List, IfOk};
ghost use Rattle.script_text.specs.Replies.{served_of, tells_failed};
ghost use Rattle.script_text.specs.declared.reply.Reply.{Reply as AnyReply};

use crate::reply::Served;
use crate::{Reply, reply_text};
use lab_base::{Memory, Text};
use std::alloc::Global;

fn either(one: bool, other: bool) -> bool
    ensures { result ≡ (one || other) }
{
    one || other
}

fn tells_failed(reply: &Reply) -> bool
    ensures { result ≡ tells_failed reply.now }
{
    matches!(reply, Reply::Failed { .. })
}

impl Served {
    /// The replies to no run.
    pub fn none(alloc: Global) -> Served
        ensures { result ≡ served_of [] }
    {
        Served {
            lines: Text::new(alloc),
            closes: false,
            blames: false,
            fails: false,
        }
    }

    /// These replies, and one more after them.
    pub fn followed_by(&self, alloc: Global, reply: &Reply) -> Result<Served, Memory>
        ensures { IfOk result (λ served. (told : List AnyReply) → self.now ≡ served_of told → served ≡ served_of (told ++ reply.now ∷ [])) }
    {
        let line = reply_text(alloc, reply)?;
        let mut lines = self.lines.copy()?;
        lines.push_bytes(line.bytes())?;
        let closes = either(self.closes, reply.closes());
        let blames = either(self.blames, reply.blames_device());
        let fails = either(self.fails, tells_failed(reply));
        Ok(Served {
            lines,
            closes,
            blames,
            fails,
        })
    }
}
