// The text of a lab: line by line who holds each machine, what is left of trunks and of VLAN ids, and which experiments move.
ghost use Rattle.std.specs.Prelude.{◌≡◌, ◌≤◌, ◌<◌, ◌+◌, ◌++◌, length, IfOk, OnOk, flat_map, is_none, codes, ◌^◌, ◌∷◌, []};
ghost use Rattle.std.specs.List.{range_with_len};
ghost use Rattle.lab_view.specs.Lines.{held_word, spaced, seat_words, machine_line, line_under, lone_line, switch_lines, has_lone, lone_head, lone_part, lone_lines, left_of, unit_words, total_words, left_words, trunk_line, run_words, free_run, ids_line, move_line, phase_word, exp_lines, free_line, lines_of};
ghost use Rattle.lab_view.specs.Views.{switch_name, exp_name};
ghost use Rattle.lab_view.specs.Runs.{owner_at};

use crate::counts::{count_under, free_ids, free_machines, free_under, is_lone, is_under};
use crate::runs::{begins_run, owner_at, run_length};
use crate::view::{Exp, Held, MAX_IDS, Machine, Seat, Stand, Trunk, View};
use lab_base::{Memory, Name, Text};
use std::alloc::Global;

fn held_word(held: Held) -> &'static str
    ensures { result.now ≡ held_word held }
{
    match held {
        Held::Stands => " in ",
        Held::Comes => " comes ",
        Held::Goes => " goes ",
        Held::Stays => " stays ",
    }
}

fn push_exp(text: &mut Text, view: &View, exp: usize) -> Result<(), Memory>
    ensures { OnOk result (text.new ≡ text.old ++ exp_name view.now exp) }
{
    match view.experiments.as_slice().get(exp) {
        Some(own) => text.push_bytes(own.name.bytes()),
        None => Ok(()),
    }
}

fn push_switch_name(text: &mut Text, view: &View, switch: usize) -> Result<(), Memory>
    ensures { OnOk result (text.new ≡ text.old ++ switch_name view.now switch) }
{
    match view.switches.as_slice().get(switch) {
        Some(name) => text.push_bytes(name.bytes()),
        None => Ok(()),
    }
}

fn push_hosted(text: &mut Text, hosted: &[Name]) -> Result<(), Memory>
    ensures { OnOk result (text.new ≡ text.old ++ flat_map spaced hosted.now) }
{
    for guest in hosted {
        text.push(b' ')?;
        text.push_bytes(guest.bytes())?;
    }
    Ok(())
}

fn push_seat(text: &mut Text, view: &View, seat: &Option<Seat>) -> Result<(), Memory>
    ensures { OnOk result (text.new ≡ text.old ++ seat_words view.now seat.now) }
{
    match seat {
        None => text.push_bytes(b" free"),
        Some(seat) => {
            text.push_bytes(held_word(seat.held).as_bytes())?;
            push_exp(text, view, seat.exp)?;
            push_hosted(text, seat.hosted.as_slice())
        }
    }
}

/// `machine NODE free`, or `machine NODE in E V ..`.
fn push_machine(text: &mut Text, view: &View, machine: &Machine) -> Result<(), Memory>
    ensures { OnOk result (text.new ≡ text.old ++ machine_line view.now machine.now) }
{
    text.push_bytes(b"machine ")?;
    text.push_bytes(machine.name.bytes())?;
    push_seat(text, view, &machine.seat)?;
    text.push(b'\n')
}

fn push_if_under(text: &mut Text, view: &View, switch: usize, own: &Machine) -> Result<(), Memory>
    ensures { OnOk result (text.new ≡ text.old ++ line_under view.now switch own.now) }
{
    if is_under(own, switch) {
        push_machine(text, view, own)
    } else {
        Ok(())
    }
}

fn push_under(text: &mut Text, view: &View, switch: usize) -> Result<(), Memory>
    ensures { OnOk result (text.new ≡ text.old ++ flat_map (line_under view.now switch) view.now.machines) }
{
    for machine in view.machines.as_slice() {
        push_if_under(text, view, switch, machine)?;
    }
    Ok(())
}

/// `switch SWITCH F of N free`, and its machines.
fn push_switch(text: &mut Text, view: &View, switch: usize) -> Result<(), Memory>
    ensures { OnOk result (text.new ≡ text.old ++ switch_lines view.now switch) }
{
    text.push_bytes(b"switch ")?;
    push_switch_name(text, view, switch)?;
    text.push(b' ')?;
    text.push_number(free_under(view, switch) as u64)?;
    text.push_bytes(b" of ")?;
    text.push_number(count_under(view, switch) as u64)?;
    text.push_bytes(b" free\n")?;
    push_under(text, view, switch)
}

#[tactic(auto, using(lab_base::proofs::Lists::flat_map_range))]
fn push_switches(text: &mut Text, view: &View) -> Result<(), Memory>
    ensures { OnOk result (text.new ≡ text.old ++ flat_map (switch_lines view.now) (range_with_len 0 (length view.now.switches))) }
{
    for switch in 0..view.switches.len() {
        push_switch(text, view, switch)?;
    }
    Ok(())
}

fn push_if_lone(text: &mut Text, view: &View, machine: &Machine) -> Result<(), Memory>
    ensures { OnOk result (text.new ≡ text.old ++ lone_line view.now machine.now) }
{
    if is_lone(machine) {
        push_machine(text, view, machine)
    } else {
        Ok(())
    }
}

fn push_lone_machines(text: &mut Text, view: &View) -> Result<(), Memory>
    ensures { OnOk result (text.new ≡ text.old ++ flat_map (lone_line view.now) view.now.machines) }
{
    for machine in view.machines.as_slice() {
        push_if_lone(text, view, machine)?;
    }
    Ok(())
}

fn has_lone(view: &View) -> bool
    ensures { result ≡ has_lone view.now }
{
    let machines = view.machines.as_slice();
    machines.iter().any(|machine| is_lone(machine))
}

/// The heading of machines without an interface.
#[tactic(auto, unfolding(crate::specs::Lines::lone_head))]
fn lone_head() -> &'static [u8]
    ensures { result.now ≡ lone_head }
{
    b"switch none\n"
}

/// The machines without an interface, under a heading of their own.
fn push_lone_part(text: &mut Text, view: &View) -> Result<(), Memory>
    ensures { OnOk result (text.new ≡ text.old ++ lone_part view.now) }
{
    text.push_bytes(lone_head())?;
    push_lone_machines(text, view)
}

fn push_lone(text: &mut Text, view: &View) -> Result<(), Memory>
    ensures { OnOk result (text.new ≡ text.old ++ lone_lines view.now) }
{
    if has_lone(view) {
        push_lone_part(text, view)
    } else {
        Ok(())
    }
}

/// A switch's name between blanks.
fn push_end(text: &mut Text, view: &View, switch: usize) -> Result<(), Memory>
    ensures { OnOk result (text.new ≡ text.old ++ 32 ∷ [] ++ switch_name view.now switch) }
{
    text.push(b' ')?;
    push_switch_name(text, view, switch)
}

/// The kbps that nobody claims of a trunk.
#[tactic(auto, unfolding(crate::specs::Lines::left_of))]
fn left_of(trunk: &Trunk) -> u64
    ensures { result ≡ left_of trunk.now }
{
    trunk.kbps.saturating_sub(trunk.used)
}

#[tactic(auto, unfolding(crate::specs::Lines::unit_words))]
fn unit_words() -> &'static [u8]
    ensures { result.now ≡ unit_words }
{
    b" kbps left\n"
}

/// ` of N kbps left`.
fn push_total(text: &mut Text, kbps: u64) -> Result<(), Memory>
    ensures { OnOk result (text.new ≡ text.old ++ total_words kbps) }
{
    text.push_bytes(b" of ")?;
    text.push_number(kbps)?;
    text.push_bytes(unit_words())
}

/// ` L of N kbps left`.
fn push_left(text: &mut Text, trunk: &Trunk) -> Result<(), Memory>
    ensures { OnOk result (text.new ≡ text.old ++ left_words trunk.now) }
{
    text.push(b' ')?;
    text.push_number(left_of(trunk))?;
    push_total(text, trunk.kbps)
}

/// `trunk LINK SWITCH SWITCH L of N kbps left`.
fn push_trunk(text: &mut Text, view: &View, trunk: &Trunk) -> Result<(), Memory>
    ensures { OnOk result (text.new ≡ text.old ++ trunk_line view.now trunk.now) }
{
    text.push_bytes(b"trunk ")?;
    text.push_bytes(trunk.link.bytes())?;
    push_end(text, view, trunk.first)?;
    push_end(text, view, trunk.second)?;
    push_left(text, trunk)
}

fn push_trunks(text: &mut Text, view: &View) -> Result<(), Memory>
    ensures { OnOk result (text.new ≡ text.old ++ flat_map (trunk_line view.now) view.now.trunks) }
{
    for trunk in view.trunks.as_slice() {
        push_trunk(text, view, trunk)?;
    }
    Ok(())
}

/// ` 100-103`, or ` 107`.
fn push_run(text: &mut Text, first: u64, count: u64) -> Result<(), Memory>
    requires { first + count < 2 ^ 32 }
    ensures { OnOk result (text.new ≡ text.old ++ run_words first count) }
{
    text.push(b' ')?;
    text.push_number(first)?;
    if count > 1 {
        text.push(b'-')?;
        text.push_number(first + count - 1)?;
    }
    Ok(())
}

fn push_if_free(text: &mut Text, view: &View, place: usize) -> Result<(), Memory>
    requires few { length view.now.owners ≤ MAX_IDS }
    requires within { place < length view.now.owners }
    ensures { OnOk result (text.new ≡ text.old ++ free_run view.now place) }
{
    let owners = view.owners.as_slice();
    if begins_run(owners, place) && owner_at(owners, place).is_none() {
        let count = run_length(owners, place) as u64;
        push_run(text, u64::from(view.low) + place as u64, count)
    } else {
        Ok(())
    }
}

/// `ids free 100-103 107`.
#[tactic(auto, using(lab_base::proofs::Lists::flat_map_range))]
fn push_ids(text: &mut Text, view: &View) -> Result<(), Memory>
    requires { length view.now.owners ≤ MAX_IDS }
    ensures { OnOk result (text.new ≡ text.old ++ ids_line view.now) }
{
    text.push_bytes(b"ids free")?;
    for place in 0..view.owners.len() {
        push_if_free(text, view, place)?;
    }
    text.push(b'\n')
}

/// `moves E`, and the way.
fn push_way(text: &mut Text, name: &Name, way: &[u8]) -> Result<(), Memory>
    ensures { OnOk result (text.new ≡ text.old ++ codes "moves " ++ name.now ++ way.now) }
{
    text.push_bytes(b"moves ")?;
    text.push_bytes(name.bytes())?;
    text.push_bytes(way)
}

fn push_move(text: &mut Text, exp: &Exp) -> Result<(), Memory>
    ensures { OnOk result (text.new ≡ text.old ++ move_line exp.now) }
{
    match exp.stand {
        Stand::Out | Stand::In => Ok(()),
        Stand::Comes => push_way(text, &exp.name, b" in\n"),
        Stand::Goes => push_way(text, &exp.name, b" out\n"),
        Stand::Changes => push_way(text, &exp.name, b" change\n"),
    }
}

fn phase_word(stand: Stand) -> &'static str
    ensures { result.now ≡ phase_word stand }
{
    match stand {
        Stand::Out => " out ",
        Stand::In => " in ",
        Stand::Comes | Stand::Goes | Stand::Changes => " moving ",
    }
}

/// `exp E PHASE N M`, as the reply to `status` has it, and `moves E WAY` where it moves.
fn push_exp_lines(text: &mut Text, exp: &Exp) -> Result<(), Memory>
    ensures { OnOk result (text.new ≡ text.old ++ exp_lines exp.now) }
{
    text.push_bytes(b"exp ")?;
    text.push_bytes(exp.name.bytes())?;
    text.push_bytes(phase_word(exp.stand).as_bytes())?;
    text.push_number(u64::from(exp.nodes))?;
    text.push(b' ')?;
    text.push_number(u64::from(exp.ids))?;
    text.push(b'\n')?;
    push_move(text, exp)
}

fn push_exps(text: &mut Text, view: &View) -> Result<(), Memory>
    ensures { OnOk result (text.new ≡ text.old ++ flat_map exp_lines view.now.experiments) }
{
    for exp in view.experiments.as_slice() {
        push_exp_lines(text, exp)?;
    }
    Ok(())
}

/// `free N M`.
fn push_free(text: &mut Text, view: &View) -> Result<(), Memory>
    ensures { OnOk result (text.new ≡ text.old ++ free_line view.now) }
{
    text.push_bytes(b"free ")?;
    text.push_number(free_machines(view) as u64)?;
    text.push(b' ')?;
    text.push_number(free_ids(view) as u64)?;
    text.push(b'\n')
}

/// The lines of a lab after its ptop text. A lab has at most 65,536 VLAN ids.
pub fn lines_of(alloc: Global, view: &View) -> Result<Text, Memory>
    requires { length view.now.owners ≤ MAX_IDS }
    ensures { IfOk result (λ text. text ≡ lines_of view.now) }
{
    let mut text = Text::new(alloc);
    push_switches(&mut text, view)?;
    push_lone(&mut text, view)?;
    push_trunks(&mut text, view)?;
    push_ids(&mut text, view)?;
    push_exps(&mut text, view)?;
    push_free(&mut text, view)?;
    Ok(text)
}
