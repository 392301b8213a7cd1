// The text of the lab of records.
ghost use Rattle.std.specs.Prelude.{◌≡◌, IfOk};
ghost use Rattle.lab_look.specs.Seen.{lab_text};
ghost use Rattle.lab_look.specs.Shows.{IsText};

use crate::looked::{Looked, look};
use crate::seen::view_of;
use lab_base::{Memory, Text};
use lab_state::LabState;
use lab_view::lines_of;
use plant::Side;
use ptop_text::print_ptop;
use std::alloc::Global;

/// The text of a lab: its ptop text, and line by line who holds what; `no lab` where there is none yet.
pub fn text_of(alloc: Global, state: &LabState) -> Result<Text, Memory>
    ensures { IfOk result (λ text. text ≡ lab_text state.now.state) }
{
    let Some(lab) = state.lab() else {
        return Text::from_slice(alloc, b"no lab\n");
    };
    // There is a lab.
    let Some(claims) = state.claims() else {
        unreachable!()
    };
    let view = view_of(alloc, state, lab, claims)?;
    let lines = lines_of(alloc, &view)?;
    let mut text = print_ptop(alloc, lab)?;
    text.push_bytes(lines.bytes())?;
    Ok(text)
}

/// The text or picture of two sides.
#[derive(Drop)]
pub enum Shown {
    Text(Text),
    /// The sides are no journal, for a fault at that place.
    Bad(Side, u64),
}

/// The text of the lab of two sides.
pub fn text_in(alloc: Global, a: &[u8], b: &[u8]) -> Result<Shown, Memory>
    ensures { IfOk result (IsText a.now b.now) }
{
    match look(alloc, a, b) {
        Ok(Looked::New) => {
            let text = Text::from_slice(alloc, b"no lab\n")?;
            Ok(Shown::Text(text))
        }
        Ok(Looked::Found(_, _, state)) => {
            let text = text_of(alloc, &state)?;
            Ok(Shown::Text(text))
        }
        Ok(Looked::Bad(side, at, _)) => Ok(Shown::Bad(side, at)),
        Ok(Looked::Wrong(side, at, _)) => Ok(Shown::Bad(side, at)),
        Err(Memory) => Err(Memory),
    }
}
