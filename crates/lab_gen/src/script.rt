// The script of a seed.
ghost use Rattle.std.specs.Prelude.{◌≡◌, ◌+◌, ◌*◌, ◌-◌, ◌%◌, ◌<◌, ◌≤◌, ◌++◌, List, length, IfOk, OnOk};
ghost use Rattle.std.specs.List.{flat_map};
ghost use Rattle.lab_gen.specs.Script.{drawn_lines, experiment_lines, generated, interface_lines, lab_lines, numbers, swapout_lines, text_of, top_lines};
ghost use Rattle.rand_pcg.specs.Pcg.{pcg32};
ghost use Rattle.script_text.specs.Commands.{AtEnd, IsScript};
ghost use Rattle.script_text.specs.declared.command.Command.{Command};

use crate::lines::{Line, push_command, push_lines, push_numbered};
use lab_base::{Memory, Text};
use lab_io::MAX_SCRIPT;
use rand_core::SeedableRng;
use rand_core::utils::NextWord;
use rand_pcg::Pcg32;
use std::alloc::Global;

/// A bound on the virtual nodes of a generated experiment.
const MAX_NODES: u16 = 1_000;

/// Adds the interfaces of the 64 nodes.
fn push_interfaces(text: &mut Text) -> Result<(), Memory>
    ensures { OnOk result (text.new ≡ text.old ++ text_of (flat_map interface_lines (numbers 1 64))) }
{
    for place in 0..64 {
        push_lines(text, Line::Interface { node: 1 + place }, 0, 4)?;
    }
    Ok(())
}

/// Adds the lab.
fn push_lab(text: &mut Text) -> Result<(), Memory>
    ensures { OnOk result (text.new ≡ text.old ++ text_of lab_lines) }
{
    text.push_bytes(b"vlans 100 199\n")?;
    push_lines(text, Line::Switch, 1, 4)?;
    push_lines(text, Line::Node, 1, 64)?;
    push_interfaces(text)?;
    push_lines(text, Line::Trunk, 2, 3)
}

/// Adds the nodes and links of an experiment of so many virtual nodes.
fn push_top(text: &mut Text, nodes: u16) -> Result<(), Memory>
    requires some { 0 < nodes }
    requires few { nodes ≤ MAX_NODES }
    ensures { OnOk result (text.new ≡ text.old ++ text_of (top_lines nodes)) }
{
    push_lines(text, Line::VirtualNode, 1, nodes)?;
    push_lines(text, Line::VirtualLink, 1, nodes - 1)
}

/// Adds the command that swaps out the second experiment before this one, if there is one.
fn push_swapout(text: &mut Text, number: u16) -> Result<(), Memory>
    ensures { OnOk result (text.new ≡ text.old ++ text_of (swapout_lines number)) }
{
    if number < 3 {
        return Ok(());
    }
    push_numbered(text, b"swapout E", u64::from(number - 2))?;
    text.push(b'\n')
}

/// Adds the commands on an experiment of so many virtual nodes.
fn push_experiment(text: &mut Text, number: u16, nodes: u16) -> Result<(), Memory>
    requires some { 0 < nodes }
    requires few { nodes ≤ MAX_NODES }
    ensures { OnOk result (text.new ≡ text.old ++ text_of (experiment_lines number nodes)) }
{
    push_command(text, b"create-top E", number, 2 * nodes - 1)?;
    push_top(text, nodes)?;
    push_command(text, b"swapin E", number, number)?;
    push_swapout(text, number)
}

/// The number of virtual nodes of the next experiment.
fn draw_nodes(words: &mut Pcg32) -> u16
    ensures nodes { result ≡ 2 + (pcg32 words.old).0 % 5 }
    ensures after { words.new ≡ (pcg32 words.old).1 }
{
    let word: u32 = words.next_word();
    (2 + word % 5) as u16
}

/// Adds the commands on the 40 experiments.
fn push_experiments(text: &mut Text, seed: u64) -> Result<(), Memory>
    ensures { OnOk result (text.new ≡ text.old ++ text_of (flat_map (drawn_lines seed) (numbers 1 40))) }
{
    let mut words = Pcg32::seed_from_u64(seed);
    for place in 0..40 {
        let nodes = draw_nodes(&mut words);
        push_experiment(text, 1 + place, nodes)?;
    }
    Ok(())
}

/// The script of a seed: a lab, 40 experiments that are swapped in and out by turns, and `status`.
pub fn generate(alloc: Global, seed: u64) -> Result<Text, Memory>
    ensures text { IfOk result (λ text. text ≡ generated seed) }
    ensures short { IfOk result (λ text. length text < MAX_SCRIPT) }
    ensures script { IfOk result (λ text. (commands : List Command) × IsScript text commands AtEnd) }
{
    let mut text = Text::new(alloc);
    text.push_bytes(b"ptop 328\n")?;
    push_lab(&mut text)?;
    push_experiments(&mut text, seed)?;
    text.push_bytes(b"status\n")?;
    Ok(text)
}
