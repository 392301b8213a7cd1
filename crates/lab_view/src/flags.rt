// The colours of experiments. An experiment has a flag: a tint that fills its machines, and at their left a bar in a strong colour
// and of a form. Its bar is that of the first machine that it holds, whatever other experiments there are. So is its tint where more than
// eight experiments hold machines; while they are fewer each has a tint of its own, by the order of their first machines.
ghost use Rattle.std.specs.Prelude.{◌≡◌, ◌+◌, ◌≤◌, min, position, IfOk, if◌then◌else◌};
ghost use Rattle.lab_view.specs.Views.{is_held_by};
ghost use Rattle.lab_view.specs.Flags.{tint_of, flag_of, first_in, is_first, firsts_before, are_few, tints_of, flag_of_exp};

use crate::counts::is_held_by;
use crate::view::{Seat, View};
use lab_base::{Items, Memory};
use std::alloc::Global;

/// How many flags there are, and as many machines have flags of their own. A lab has at most so many.
pub const MAX_FLAGS: usize = 1_024;

/// How many tints there are.
pub const TINTS: usize = 8;

/// The number of a tint, of a bar's colour and of the bar's form.
#[derive(Clone, Copy, PartialEq, Eq)]
pub struct Flag {
    pub tint: u8,
    pub bar: u8,
    pub form: u8,
}

/// The flag of a machine's number.
pub fn flag_of(machine: usize) -> Flag
    ensures { result ≡ flag_of machine }
{
    let low = machine % 8;
    let middle = machine / 8 % 8;
    let high = machine / 64 % 16;
    Flag {
        tint: ((low + middle + high) % 8) as u8,
        bar: ((low + 2 * middle) % 8) as u8,
        form: high as u8,
    }
}

fn first_held(view: &View, exp: usize) -> Option<usize>
    ensures { result ≡ position (is_held_by exp) view.now.machines }
{
    let machines = view.machines.as_slice();
    machines.iter().position(|machine| is_held_by(machine, exp))
}

/// The first machine of who has a seat.
fn first_in(view: &View, seat: &Option<Seat>) -> Option<usize>
    ensures { result ≡ first_in view.now seat.now }
{
    match seat {
        Some(seat) => first_held(view, seat.exp),
        None => None,
    }
}

/// Whether a machine is the first one that its holder holds.
fn is_first(view: &View, machine: usize) -> bool
    ensures { result ≡ is_first view.now machine }
{
    match view.machines.as_slice().get(machine) {
        Some(own) => match first_in(view, &own.seat) {
            Some(first) => first == machine,
            None => false,
        },
        None => false,
    }
}

/// How many experiments have their first machine up to that one, where so many have theirs before it; one more than there are tints stands
/// for all that are more.
#[tactic(auto, using(crate::proofs::Firsts::firsts_some, crate::proofs::Firsts::firsts_none, crate::proofs::Firsts::firsts_less))]
fn firsts_up_to(view: &View, machine: usize, before: usize) -> usize
    requires { before ≡ min (firsts_before view.now machine) (TINTS + 1) }
    ensures { result ≡ min (firsts_before view.now (machine + 1)) (TINTS + 1) }
{
    if before <= TINTS && is_first(view, machine) {
        before + 1
    } else {
        before
    }
}

/// Whether each experiment that holds machines may have a tint of its own.
fn are_few(view: &View) -> bool
    ensures { result ≡ are_few view.now }
{
    let mut count = 0_usize;
    for machine in 0..view.machines.len() {
        count = firsts_up_to(view, machine, count);
    }
    count <= TINTS
}

fn tint_by(few: bool, before: usize, machine: usize) -> u8
    requires { before ≤ TINTS + 1 }
    ensures { result ≡ if few then before else tint_of machine }
{
    if few {
        before as u8
    } else {
        flag_of(machine).tint
    }
}

/// By machine the tint of an experiment whose first machine it is.
pub fn tints_of(alloc: Global, view: &View) -> Result<Items<u8>, Memory>
    ensures { IfOk result (λ tints. tints ≡ tints_of view.now) }
{
    let few = are_few(view);
    let mut count = 0_usize;
    let mut tints = Items::new(alloc);
    for machine in 0..view.machines.len() {
        tints.push(tint_by(few, count, machine))?;
        count = firsts_up_to(view, machine, count);
    }
    Ok(tints)
}

/// The flag of an experiment, none where it holds no machine.
#[tactic(auto, using(crate::proofs::Firsts::tint_within, crate::proofs::Firsts::tint_at))]
pub fn flag_of_exp(view: &View, tints: &[u8], exp: usize) -> Option<Flag>
    requires { tints.now ≡ tints_of view.now }
    ensures { result ≡ flag_of_exp view.now exp }
{
    match first_held(view, exp) {
        Some(first) => Some(Flag {
            tint: tints[first],
            ..flag_of(first)
        }),
        None => None,
    }
}
