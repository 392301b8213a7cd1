// The free part of a lab.
ghost use Rattle.std.specs.Prelude.{◌≡◌, ◌/◌, nat_lt, length, get_or, find};
ghost use Rattle.lab_view.specs.Views.{times, is_most, home_of, is_under, is_lone, is_unheld, is_free_under, is_held_by, free_machines, count_under, free_under, free_ids};

use crate::view::{Machine, View};

fn times(number: usize, numbers: &[usize]) -> usize
    ensures { result ≡ times number numbers.now }
{
    numbers.iter().filter(|own| **own == number).count()
}

/// Whether no number stands more often in a list.
fn is_most(numbers: &[usize], number: usize) -> bool
    ensures { result ≡ is_most numbers.now number }
{
    let most = times(number, numbers);
    numbers.iter().all(|own| times(*own, numbers) <= most)
}

/// Whether the first number is more than half of a list.
fn leads(numbers: &[usize]) -> bool
    ensures { result ≡ nat_lt (length numbers.now / 2) (times (get_or numbers.now 0 0) numbers.now) }
{
    match numbers {
        [first, ..] => times(*first, numbers) > numbers.len() / 2,
        [] => false,
    }
}

/// The first number that no other stands more often than. Where it leads, no other is counted: mostly all interfaces of a machine
/// are on one switch.
#[tactic(auto, using(crate::proofs::Leading::leads_front))]
fn first_most(numbers: &[usize]) -> Option<usize>
    ensures { result ≡ find (is_most numbers.now) numbers.now }
{
    if leads(numbers) {
        return numbers.first().copied();
    }
    numbers.iter().copied().find(|own| is_most(numbers, *own))
}

/// The switch that a machine stands under, the first one with the most of its interfaces; none where it has no interface.
pub fn home_of(machine: &Machine) -> Option<usize>
    ensures { result ≡ home_of machine.now }
{
    first_most(machine.plugs.as_slice())
}

/// Whether a machine stands under a switch.
pub(crate) fn is_under(machine: &Machine, switch: usize) -> bool
    ensures { result ≡ is_under switch machine.now }
{
    match home_of(machine) {
        Some(home) => home == switch,
        None => false,
    }
}

/// Whether a machine has no interface.
pub(crate) fn is_lone(machine: &Machine) -> bool
    ensures { result ≡ is_lone machine.now }
{
    home_of(machine).is_none()
}

fn is_unheld(machine: &Machine) -> bool
    ensures { result ≡ is_unheld machine.now }
{
    machine.seat.is_none()
}

fn is_free_under(machine: &Machine, switch: usize) -> bool
    ensures { result ≡ is_free_under switch machine.now }
{
    is_under(machine, switch) && is_unheld(machine)
}

/// Whether the experiment of that number holds a machine.
pub(crate) fn is_held_by(machine: &Machine, exp: usize) -> bool
    ensures { result ≡ is_held_by exp machine.now }
{
    match &machine.seat {
        Some(seat) => seat.exp == exp,
        None => false,
    }
}

/// How many machines stand under a switch.
pub fn count_under(view: &View, switch: usize) -> usize
    ensures { result ≡ count_under view.now switch }
{
    let machines = view.machines.as_slice();
    machines
        .iter()
        .filter(|machine| is_under(machine, switch))
        .count()
}

/// How many of the machines under a switch are free.
pub fn free_under(view: &View, switch: usize) -> usize
    ensures { result ≡ free_under view.now switch }
{
    let machines = view.machines.as_slice();
    machines
        .iter()
        .filter(|machine| is_free_under(machine, switch))
        .count()
}

/// How many machines are free.
pub fn free_machines(view: &View) -> usize
    ensures { result ≡ free_machines view.now }
{
    let machines = view.machines.as_slice();
    machines.iter().filter(|machine| is_unheld(machine)).count()
}

/// How many VLAN ids are free.
pub fn free_ids(view: &View) -> usize
    ensures { result ≡ free_ids view.now }
{
    let owners = view.owners.as_slice();
    owners.iter().filter(|owner| owner.is_none()).count()
}
