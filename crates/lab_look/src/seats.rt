// Who holds a machine, and whose a VLAN id is.
ghost use Rattle.std.specs.Prelude.{◌≡◌, ◌≤◌, ◌^◌, length, ◌<◌, IfOk, slice_get};
ghost use Rattle.lab_look.specs.Seats.{holder, owner, seat_by, seat_of};

use claims::MAX_EXPERIMENTS;
use lab_base::Memory;
use lab_model::claims;
use lab_seen::{has_tag, hosted, how_held};
use lab_state::LabState;
use lab_view::Seat;
use phys_lab::Lab;
use std::alloc::Global;

/// The number of the first experiment that claims the node of that name.
fn holder_of(state: &LabState, lab: &Lab, name: &[u8]) -> Option<usize>
    requires { length state.now.state.experiments ≤ MAX_EXPERIMENTS }
    ensures { result ≡ holder lab.now state.now.state.experiments name.now }
{
    for number in 0..state.len() {
        match state.nth(number as u16) {
            Some(own) => {
                if claims(lab, own, name) {
                    return Some(number);
                }
            }
            None => return None,
        }
    }
    None
}

/// The number of the first experiment that claims the VLAN id.
pub(crate) fn owner_of(state: &LabState, id: u16) -> Option<usize>
    requires { length state.now.state.experiments ≤ MAX_EXPERIMENTS }
    ensures { result ≡ owner state.now.state.experiments id }
{
    for number in 0..state.len() {
        match state.nth(number as u16) {
            Some(own) => {
                if has_tag(own, id) {
                    return Some(number);
                }
            }
            None => return None,
        }
    }
    None
}

/// How an experiment, that of a number, holds the node of that name.
fn seat_by(
    alloc: Global,
    state: &LabState,
    lab: &Lab,
    name: &[u8],
    number: usize,
) -> Result<Option<Seat>, Memory>
    requires { number < 2 ^ 16 }
    ensures { IfOk result (λ seat. seat ≡ seat_by lab.now name.now number (slice_get state.now.state.experiments number)) }
{
    match state.nth(number as u16) {
        Some(own) => {
            let found = hosted(alloc, lab, own, name)?;
            Ok(Some(Seat {
                exp: number,
                held: how_held(lab, own, name),
                hosted: found,
            }))
        }
        None => Ok(None),
    }
}

/// Who holds the node of that name, if one does.
pub(crate) fn seat_of(
    alloc: Global,
    state: &LabState,
    lab: &Lab,
    name: &[u8],
) -> Result<Option<Seat>, Memory>
    requires { length state.now.state.experiments ≤ MAX_EXPERIMENTS }
    ensures { IfOk result (λ seat. seat ≡ seat_of lab.now state.now.state.experiments name.now) }
{
    match holder_of(state, lab, name) {
        Some(number) => seat_by(alloc, state, lab, name, number),
        None => Ok(None),
    }
}
