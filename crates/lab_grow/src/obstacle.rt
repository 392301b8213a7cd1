// Obstacles of an experiment.
ghost use Rattle.std.specs.Prelude.{List};
ghost use Rattle.virt_topo.specs.Soundness.{IsSound};
ghost use Rattle.virt_topo.specs.declared.experiment.Experiment.{Experiment as AnyExperiment};
ghost use Rattle.lab_model.specs.Shapes.{IsShaped};
ghost use Rattle.claims.specs.Experiments.{ClaimsOf};

use claims::Claims;
use feas::{CheckFault, check};
use lab_base::{IfaceId, Kind, Memory, Name, TEXT_LIMIT, Text, TextRefused, VlanId};
use phys_lab::Lab;
use solution_text::{print_end, read_solution};
use std::alloc::Global;
use virt_topo::{Broken, Experiment, Mapping, Subject};

/// An obstacle of an experiment over the new lab.
#[derive(Drop)]
pub enum Obstacle {
    /// It moves: a start of the program over the old folder settles it.
    Moves,
    /// A line of its place names what the new lab doesn't have: a machine, its type, or an interface.
    Place(Kind, Text),
    /// Its place breaks that rule there, by that subject.
    Rule(Broken, Text),
    /// Its VLAN id isn't in the range of the new lab.
    Id(VlanId),
    /// A link has other ports of switches there, so the tables would differ.
    Cable(Option<Name>),
    /// It is another one there.
    Other,
}

/// The line of that number, counted from 1, without its end.
fn line_of(text: &[u8], number: usize) -> &[u8] {
    for (place, line) in text.split(|byte| *byte == b'\n').enumerate() {
        if place + 1 == number {
            return line;
        }
    }
    &[]
}

/// The name of an interface, `NODE:IFACE`.
fn push_iface(text: &mut Text, lab: &Lab, plug: IfaceId) -> Result<(), Memory> {
    let Some(iface) = lab.ifaces().get(plug.0 as usize) else {
        return Ok(());
    };
    let Some(node) = lab.nodes().get(iface.node.0 as usize) else {
        return Ok(());
    };
    text.push_bytes(node.name.bytes())?;
    text.push(b':')?;
    text.push_bytes(iface.name.bytes())
}

/// The name of an end, and that of its interface.
fn end_name(
    alloc: Global,
    lab: &Lab,
    own: &Experiment,
    mapping: &Mapping,
    end: u16,
) -> Result<Text, Memory> {
    let mut text = print_end(alloc, &own.wiring, end)?;
    if let Some(plug) = mapping.plugs.as_slice().get(end as usize) {
        text.push(b' ')?;
        push_iface(&mut text, lab, *plug)?;
    }
    Ok(text)
}

/// A name as a text, none where there is none.
fn name_text(alloc: Global, name: Option<&Name>) -> Result<Text, Memory> {
    match name {
        Some(name) => Text::from_slice(alloc, name.bytes()),
        None => Ok(Text::new(alloc)),
    }
}

/// The name of the subject of a broken rule.
fn subject_name(
    alloc: Global,
    lab: &Lab,
    own: &Experiment,
    mapping: &Mapping,
    subject: Subject,
) -> Result<Text, Memory> {
    let wiring = &own.wiring;
    match subject {
        Subject::Virt(virt) => match wiring.nodes.as_slice().get(virt as usize) {
            Some(node) => name_text(alloc, Some(&node.name)),
            None => name_text(alloc, None),
        },
        Subject::Node(node) => match lab.nodes().get(node.0 as usize) {
            Some(node) => name_text(alloc, Some(&node.name)),
            None => name_text(alloc, None),
        },
        Subject::End(end) => end_name(alloc, lab, own, mapping, end),
        Subject::Trunk(trunk) => match lab.trunks().get(trunk.0 as usize) {
            Some(trunk) => name_text(alloc, Some(&trunk.link)),
            None => name_text(alloc, None),
        },
        Subject::Segment(segment) => match wiring.segments.as_slice().get(segment as usize) {
            Some(segment) => name_text(alloc, Some(&segment.owner)),
            None => name_text(alloc, None),
        },
        Subject::Vlans => Text::from_slice(alloc, b"vlans"),
    }
}

fn rule_broken(
    alloc: Global,
    lab: &Lab,
    claims: &Claims,
    own: &Experiment,
    mapping: &Mapping,
) -> Result<Option<Obstacle>, Memory>
    requires claims { (es : List AnyExperiment) × ClaimsOf lab.now es claims.now }
    requires sound { IsSound (own.now).wiring }
    requires shaped { IsShaped lab.now (own.now).wiring mapping.now }
{
    let free = claims.free_without(alloc, own.name)?;
    match check(alloc, lab, &free, &own.wiring, mapping) {
        Ok(()) => Ok(None),
        Err(CheckFault::Violation { rule, subject }) => {
            let name = subject_name(alloc, lab, own, mapping, subject)?;
            Ok(Some(Obstacle::Rule(rule, name)))
        }
        Err(CheckFault::Memory) => Err(Memory),
    }
}

fn id_out(lab: &Lab, tags: &[VlanId]) -> Option<VlanId> {
    let (low, high) = lab.range();
    for tag in tags {
        if tag.0 < low || high < tag.0 {
            return Some(*tag);
        }
    }
    None
}

/// The obstacle of the place with that text in a lab that holds the others so far.
pub(crate) fn obstacle_of(
    alloc: Global,
    lab: &Lab,
    claims: &Claims,
    own: &Experiment,
    text: &Text,
    tags: &[VlanId],
) -> Result<Obstacle, Memory>
    requires claims { (es : List AnyExperiment) × ClaimsOf lab.now es claims.now }
    requires sound { IsSound (own.now).wiring }
{
    if text.len() >= TEXT_LIMIT {
        return Ok(Obstacle::Other);
    }
    let mapping = match read_solution(alloc, text.bytes(), lab, &own.wiring) {
        Ok(mapping) => mapping,
        Err(TextRefused::Text(fault)) => {
            let line = Text::from_slice(alloc, line_of(text.bytes(), fault.line as usize))?;
            return Ok(Obstacle::Place(fault.kind, line));
        }
        Err(TextRefused::Memory) => return Err(Memory),
    };
    match rule_broken(alloc, lab, claims, own, &mapping)? {
        Some(obstacle) => Ok(obstacle),
        None => match id_out(lab, tags) {
            Some(tag) => Ok(Obstacle::Id(tag)),
            None => Ok(Obstacle::Other),
        },
    }
}
