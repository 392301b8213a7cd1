// The lab of the lines read so far.
ghost use Rattle.std.specs.Prelude.{◌≡◌, is_some};
ghost use Rattle.lab_base.specs.Texts.{views};
ghost use Rattle.line_text.specs.Reading.{and_then};
ghost use Rattle.ptop_text.specs.Lines.{vlans_line, device_line, link_line};
ghost use Rattle.ptop_text.specs.Adding.{with_range, with_device, with_link, with_trunk_line, with_iface_line};
ghost use Rattle.ptop_text.specs.Adding.{switch_number, node_number, switch_at, node_at, unknown_kind, added};
ghost use Rattle.line_text.specs.Refusals.{Takes};
ghost use Rattle.ptop_text.specs.Refusals.{refusal_of, link_refusal};

use crate::device::{Device, device_in};
use crate::link::{FirstEnd, Link, link_in, vlans_in};
use lab_base::{Kind, Name, NodeId, SwitchId};
use line_text::{AddLine, LineFault};
use phys_lab::{Iface, LabBuilder, LabFault, Trunk};
use std::alloc::Global;

/// A number that names no switch and no node.
const NONE: u16 = 65_535;

/// The lab so far, and whether a `vlans` line set its range.
#[derive(Drop)]
pub(crate) struct LabSoFar {
    pub(crate) lab: LabBuilder,
    pub(crate) has_range: bool,
}

fn switch_number(lab: &LabBuilder, name: Name) -> SwitchId
    ensures { result ≡ switch_number lab.now name }
{
    match lab.switch_named(name) {
        Some(switch) => switch,
        None => SwitchId(NONE),
    }
}

fn node_number(lab: &LabBuilder, name: Name) -> NodeId
    ensures { result ≡ node_number lab.now name }
{
    match lab.node_named(name) {
        Some(node) => node,
        None => NodeId(NONE),
    }
}

fn is_switch(lab: &LabBuilder, name: Name) -> bool
    ensures { result ≡ is_some (switch_at lab.now name) }
{
    lab.switch_named(name).is_some()
}

fn is_node(lab: &LabBuilder, name: Name) -> bool
    ensures { result ≡ is_some (node_at lab.now name) }
{
    lab.node_named(name).is_some()
}

/// The kind of the fault where an end of a link names no switch or node that may stand there.
fn unknown_kind(lab: &LabBuilder, first: Name, second: Name) -> Kind
    ensures { result ≡ unknown_kind lab.now first second }
{
    if (is_switch(lab, first) || is_node(lab, first)) && is_node(lab, second) {
        Kind::Ends
    } else {
        Kind::Unknown
    }
}

/// The fault of a line whose part the builder refuses.
fn refusal_of(fault: LabFault) -> LineFault
    ensures { result ≡ refusal_of fault }
{
    match fault {
        LabFault::Range => LineFault::Kind(Kind::Range),
        LabFault::Twice => LineFault::Kind(Kind::Twice),
        LabFault::Unknown => LineFault::Kind(Kind::Unknown),
        LabFault::PortTaken => LineFault::Kind(Kind::Port),
        LabFault::Cycle => LineFault::Kind(Kind::Cycle),
        LabFault::Limit => LineFault::Kind(Kind::Limit),
        LabFault::Memory => LineFault::Memory,
    }
}

fn link_refusal(lab: &LabBuilder, first: Name, second: Name, fault: LabFault) -> LineFault
    ensures { result ≡ link_refusal lab.now first second fault }
{
    match fault {
        LabFault::Unknown => LineFault::Kind(unknown_kind(lab, first, second)),
        other => refusal_of(other),
    }
}

impl LabSoFar {
    fn add_range(&mut self, range: (u16, u16)) -> Result<(), LineFault>
        ensures { Takes result self.new (with_range self.old range) }
    {
        self.lab.set_range(range.0, range.1).map_err(refusal_of)?;
        if self.has_range {
            return Err(LineFault::Kind(Kind::Twice));
        }
        self.has_range = true;
        Ok(())
    }

    fn add_device(&mut self, device: Device) -> Result<(), LineFault>
        ensures { Takes result self.new (with_device self.old device) }
    {
        match device {
            Device::Switch(name) => self.lab.add_switch(name).map_err(refusal_of),
            Device::Node(node) => self.lab.add_node(node).map_err(refusal_of),
        }
    }

    fn add_trunk(&mut self, trunk: Trunk, first: Name, second: Name) -> Result<(), LineFault>
        ensures { Takes result self.new (with_trunk_line self.old first second trunk) }
    {
        match self.lab.add_trunk(trunk) {
            Ok(()) => Ok(()),
            Err(fault) => Err(link_refusal(&self.lab, first, second, fault)),
        }
    }

    fn add_iface(&mut self, iface: Iface, first: Name, second: Name) -> Result<(), LineFault>
        ensures { Takes result self.new (with_iface_line self.old first second iface) }
    {
        match self.lab.add_iface(iface) {
            Ok(()) => Ok(()),
            Err(fault) => Err(link_refusal(&self.lab, first, second, fault)),
        }
    }

    fn add_link(&mut self, read: Link) -> Result<(), LineFault>
        ensures { Takes result self.new (with_link self.old read) }
    {
        let (link, ((first, end), ((second, port), kbps))) = read;
        let switch = switch_number(&self.lab, second);
        match end {
            FirstEnd::Port(at) => {
                let trunk = Trunk {
                    link,
                    first: (switch_number(&self.lab, first), at),
                    second: (switch, port),
                    kbps,
                };
                self.add_trunk(trunk, first, second)
            }
            FirstEnd::Iface(name) => {
                let iface = Iface {
                    link,
                    node: node_number(&self.lab, first),
                    name,
                    switch,
                    port,
                    kbps,
                };
                self.add_iface(iface, first, second)
            }
        }
    }

    fn add_vlans_line(&mut self, fields: &[&[u8]]) -> Result<(), LineFault>
        ensures { Takes result self.new (and_then (vlans_line (views fields.now)) (with_range self.old)) }
    {
        let range = vlans_in(fields)?;
        self.add_range(range)
    }

    fn add_node_line(&mut self, alloc: Global, fields: &[&[u8]]) -> Result<(), LineFault>
        ensures { Takes result self.new (and_then (device_line (views fields.now)) (with_device self.old)) }
    {
        let device = device_in(alloc, fields)??;
        self.add_device(device)
    }

    fn add_link_line(&mut self, fields: &[&[u8]]) -> Result<(), LineFault>
        ensures { Takes result self.new (and_then (link_line self.old.lab (views fields.now)) (with_link self.old)) }
    {
        let link = link_in(&self.lab, fields)?;
        self.add_link(link)
    }
}

impl AddLine for LabSoFar {
    ghost use Rattle.ptop_text.specs.declared.so_far.LabSoFar.{LabSoFar};

    ghost Contents = { LabSoFar };

    ghost contents = { λ so_far. so_far };

    ghost added = { λ _. added };

    fn add(&mut self, alloc: Global, fields: &[&[u8]]) -> Result<(), LineFault> {
        match fields {
            [] => Err(LineFault::Kind(Kind::Word)),
            [keyword, rest @ ..] => {
                if *keyword == b"vlans".as_slice() {
                    self.add_vlans_line(rest)
                } else if *keyword == b"node".as_slice() {
                    self.add_node_line(alloc, rest)
                } else if *keyword == b"link".as_slice() {
                    self.add_link_line(rest)
                } else {
                    Err(LineFault::Kind(Kind::Word))
                }
            }
        }
    }
}
