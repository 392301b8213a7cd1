ghost use Rattle.std.specs.Prelude.{◌≡◌, ◌<◌, IfOk, length};
ghost use Rattle.lab_base.specs.Texts.{views};
ghost use Rattle.line_text.specs.Reading.{and_then};
ghost use Rattle.line_text.specs.Refusals.{Reads, Takes};
ghost use Rattle.lab_model.specs.Shapes.{IsShaped};
ghost use Rattle.solution_text.specs.Solutions.{all_given, line_given, line_keyed, mapped, mapping_of_text};
ghost use Rattle.solution_text.specs.Solutions.{nothing, place_line, plug_line, with_place_line, with_plug_line};
ghost use Rattle.solution_text.specs.Names.{AreNames};

use crate::ends::end_nodes;
use crate::given::{Given, all_given, none_given};
use crate::lines::{place_in, plug_in};
use crate::names::{Names, names_of};
use lab_base::{Kind, Memory, TEXT_LIMIT, TextFault, TextRefused};
use line_text::{AddLine, LineFault, read_lines};
use phys_lab::Lab;
use std::alloc::Global;
use virt_topo::{Mapping, Wiring};

/// The places and plugs so far, and the names by which further lines give them.
#[derive(Drop)]
struct GivenByNames<'a> {
    given: Given,
    names: &'a Names<'a>,
}

fn add_place_line(
    given: &mut Given,
    alloc: Global,
    names: &Names<'_>,
    fields: &[&[u8]],
) -> Result<(), LineFault>
    requires { AreNames names.now }
    ensures { Takes result given.new (and_then (place_line (views fields.now)) (with_place_line names.now.lab.now names.now.wiring.now given.old)) }
{
    let (virt, (node, kind)) = place_in(fields)?;
    let virt = names.virt(virt);
    let node = names.node(node);
    given.add_place(alloc, names.lab, virt, node, kind)
}

fn add_plug_line(
    given: &mut Given,
    alloc: Global,
    names: &Names<'_>,
    fields: &[&[u8]],
) -> Result<(), LineFault>
    requires { AreNames names.now }
    ensures { Takes result given.new (and_then (plug_line (views fields.now)) (with_plug_line names.now.lab.now names.now.wiring.now given.old)) }
{
    let (end, iface) = plug_in(fields)?;
    let end = names.end(end.0, end.1);
    let iface = names.iface(iface.0, iface.1);
    given.add_plug(alloc, end, iface)
}

fn add_keyed(
    given: &mut Given,
    alloc: Global,
    names: &Names<'_>,
    keyword: &[u8],
    fields: &[&[u8]],
) -> Result<(), LineFault>
    requires { AreNames names.now }
    ensures { Takes result given.new (line_keyed names.now.lab.now names.now.wiring.now given.old keyword.now (views fields.now)) }
{
    if keyword == b"node".as_slice() {
        add_place_line(given, alloc, names, fields)
    } else if keyword == b"plug".as_slice() {
        add_plug_line(given, alloc, names, fields)
    } else {
        Err(LineFault::Kind(Kind::Word))
    }
}

impl AddLine for GivenByNames<'_> {
    ghost use Rattle.solution_text.specs.declared.given.Given.{Given};

    ghost Contents = { Given };

    ghost contents = { λ so_far. so_far.given };

    ghost added = { λ so_far. line_given so_far.names.now.lab.now so_far.names.now.wiring.now };

    ghost can_add = { λ so_far. AreNames so_far.names.now };

    fn add(&mut self, alloc: Global, fields: &[&[u8]]) -> Result<(), LineFault> {
        match fields {
            [] => Err(LineFault::Kind(Kind::Word)),
            [keyword, rest @ ..] => add_keyed(&mut self.given, alloc, self.names, keyword, rest),
        }
    }
}

fn nothing(alloc: Global, wiring: &Wiring) -> Result<Given, Memory>
    ensures { IfOk result (λ given. given ≡ nothing wiring.now) }
{
    let nodes = end_nodes(alloc, wiring.segments.as_slice())?;
    let places = none_given(alloc, wiring.nodes.len())?;
    let plugs = none_given(alloc, nodes.len())?;
    Ok(Given { places, plugs })
}

fn missing_at(line: u32) -> TextRefused
    ensures { result ≡ TextRefused.Text (record { line = line; kind = Kind.Missing }) }
{
    TextRefused::Text(TextFault {
        line,
        kind: Kind::Missing,
    })
}

/// The mapping of the given places and plugs, if none is missing. `line` is the number after the text's last line.
fn mapping_of(alloc: Global, line: u32, given: &Given) -> Result<Mapping, TextRefused>
    ensures { Reads result (mapped line (all_given given.now.places) (all_given given.now.plugs)) }
{
    let places = all_given(alloc, given.places.as_slice())?;
    let plugs = all_given(alloc, given.plugs.as_slice())?;
    match (places, plugs) {
        (Some(places), Some(plugs)) => Ok(Mapping { places, plugs }),
        (Some(_), None) => Err(missing_at(line)),
        (None, _) => Err(missing_at(line)),
    }
}

/// Reads the mapping of a solution text, with the tables of its lab and wiring.
fn read_named(alloc: Global, names: &Names<'_>, text: &[u8]) -> Result<Mapping, TextRefused>
    requires short { length text.now < TEXT_LIMIT }
    requires names { AreNames names.now }
    ensures { Reads result (mapping_of_text names.now.lab.now names.now.wiring.now text.now) }
{
    let given = nothing(alloc, names.wiring)?;
    let mut so_far = GivenByNames { given, names };
    let line = read_lines(alloc, text, &mut so_far)?;
    mapping_of(alloc, line, &so_far.given)
}

/// Reads the mapping of a solution text for a lab and a wiring; a refusal has the kind and the line of the first fault.
pub fn read_solution(
    alloc: Global,
    text: &[u8],
    lab: &Lab,
    wiring: &Wiring,
) -> Result<Mapping, TextRefused>
    requires { length text.now < TEXT_LIMIT }
    ensures reads { Reads result (mapping_of_text lab.now wiring.now text.now) }
    ensures shaped { IfOk result (IsShaped lab.now wiring.now) }
{
    let names = names_of(alloc, lab, wiring)?;
    read_named(alloc, &names, text)
}
