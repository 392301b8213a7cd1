// The reply to `play`.
ghost use Rattle.std.specs.Prelude.{◌≡◌, IfOk, None, Some};
ghost use Rattle.script_text.specs.Replies.{played_of};

use crate::{Reply, reply_text};
use lab_base::{Memory, Name, Text};
use std::alloc::Global;

/// The reply to `play` where each event was answered `in`.
pub fn played_all(alloc: Global, exp: Name, played: u64) -> Reply
    ensures { result ≡ played_of exp played None }
{
    Reply::Played {
        exp,
        played,
        last: Text::new(alloc),
        closes: false,
        blames: false,
    }
}

/// The reply to `play` where so many events were answered `in`, and the next one so.
pub fn played_until(alloc: Global, exp: Name, played: u64, ended: &Reply) -> Result<Reply, Memory>
    ensures { IfOk result (λ reply. reply ≡ played_of exp played (Some ended.now)) }
{
    let last = reply_text(alloc, ended)?;
    Ok(Reply::Played {
        exp,
        played,
        last,
        closes: ended.closes(),
        blames: ended.blames_device(),
    })
}
