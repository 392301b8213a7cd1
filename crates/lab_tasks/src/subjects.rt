// The names that replies have for the subjects of rules.
ghost use Rattle.std.specs.Prelude.{◌≡◌, map, IfOk};
ghost use Rattle.top_text.specs.Canonical.{virt_name};
ghost use Rattle.lab_tasks.specs.Needs.{name_at, subject_name};

use lab_base::{Memory, Text};
use phys_lab::Lab;
use solution_text::print_end;
use std::alloc::Global;
use virt_topo::{Subject, Wiring};

fn virt_name(wiring: &Wiring, virt: u16) -> &[u8]
    ensures { result.now ≡ virt_name wiring.now virt }
{
    match wiring.nodes.as_slice().get(virt as usize) {
        Some(node) => node.name.bytes(),
        None => &[],
    }
}

fn segment_name(wiring: &Wiring, segment: u16) -> &[u8]
    ensures { result.now ≡ name_at (map (λ x. x.name) wiring.now.segments) segment }
{
    match wiring.segments.as_slice().get(segment as usize) {
        Some(segment) => segment.name.bytes(),
        None => &[],
    }
}

fn node_name(lab: &Lab, node: u16) -> &[u8]
    ensures { result.now ≡ name_at (map (λ x. x.name) lab.now.nodes) node }
{
    match lab.nodes().get(node as usize) {
        Some(node) => node.name.bytes(),
        None => &[],
    }
}

fn trunk_name(lab: &Lab, trunk: u16) -> &[u8]
    ensures { result.now ≡ name_at (map (λ x. x.link) lab.now.trunks) trunk }
{
    match lab.trunks().get(trunk as usize) {
        Some(trunk) => trunk.link.bytes(),
        None => &[],
    }
}

/// The name of what breaks a rule: of an end `V:K`, and `vlans` of the VLAN ids.
pub(crate) fn subject_name(
    alloc: Global,
    lab: &Lab,
    wiring: &Wiring,
    subject: Subject,
) -> Result<Text, Memory>
    ensures { IfOk result (λ name. name ≡ subject_name lab.now wiring.now subject) }
{
    match subject {
        Subject::Virt(virt) => Text::from_slice(alloc, virt_name(wiring, virt)),
        Subject::Node(node) => Text::from_slice(alloc, node_name(lab, node.0)),
        Subject::End(end) => print_end(alloc, wiring, end),
        Subject::Trunk(trunk) => Text::from_slice(alloc, trunk_name(lab, trunk.0)),
        Subject::Segment(segment) => Text::from_slice(alloc, segment_name(wiring, segment)),
        Subject::Vlans => Text::from_slice(alloc, b"vlans"),
    }
}
