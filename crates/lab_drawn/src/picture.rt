// The picture of the lab of records.
ghost use Rattle.std.specs.Prelude.{IfOk};
ghost use Rattle.lab_drawn.specs.Drawings.{IsPicture, IsPictureOf};

use lab_base::{Memory, Text};
use lab_layout::geometry_of;
use lab_look::{Looked, Shown, look, view_of};
use lab_picture::{KEY, STYLE, draw};
use lab_state::LabState;
use std::alloc::Global;

/// The picture where there is no lab.
const NONE: &[u8] =
    b"<svg xmlns=\"http://www.w3.org/2000/svg\" viewBox=\"0 0 300 80\" width=\"300\" height=\"80\"><text x=\"40\" y=\"46\" font-family=\"sans-serif\">no lab</text></svg>\n";

/// The picture of a lab, as an SVG text.
pub fn picture_of(alloc: Global, state: &LabState) -> Result<Text, Memory>
    ensures { IfOk result (IsPictureOf (record { style = STYLE.now; key = KEY.now; none = NONE.now }) state.now.state) }
{
    let Some(lab) = state.lab() else {
        return Text::from_slice(alloc, NONE);
    };
    // There is a lab.
    let Some(claims) = state.claims() else {
        unreachable!()
    };
    let view = view_of(alloc, state, lab, claims)?;
    let geometry = geometry_of(alloc, &view)?;
    draw(alloc, &geometry, &view)
}

/// The picture of the lab of two sides.
pub fn picture_in(alloc: Global, a: &[u8], b: &[u8]) -> Result<Shown, Memory>
    ensures { IfOk result (IsPicture (record { style = STYLE.now; key = KEY.now; none = NONE.now }) a.now b.now) }
{
    match look(alloc, a, b) {
        Ok(Looked::New) => {
            let text = Text::from_slice(alloc, NONE)?;
            Ok(Shown::Text(text))
        }
        Ok(Looked::Found(_, _, state)) => {
            let text = picture_of(alloc, &state)?;
            Ok(Shown::Text(text))
        }
        Ok(Looked::Bad(side, at, _)) => Ok(Shown::Bad(side, at)),
        Ok(Looked::Wrong(side, at, _)) => Ok(Shown::Bad(side, at)),
        Err(Memory) => Err(Memory),
    }
}
