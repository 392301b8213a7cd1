// Lines by their keyword.
ghost use Rattle.std.specs.Prelude.{◌≡◌, OnOk, codes};
ghost use Rattle.lab_base.specs.Texts.{views};
ghost use Rattle.lab_base.specs.Names.{same_name};
ghost use Rattle.line_text.specs.Reading.{and_then};
ghost use Rattle.line_text.specs.Refusals.{Takes};
ghost use Rattle.top_text.specs.Lines.{class_line, node_line, fix_line, link_line, pipe_line, multiplex_line};
ghost use Rattle.top_text.specs.Adding.{kept, with_class, with_node, virt_named, segment_of, with_segment, pipe_of};
ghost use Rattle.top_text.specs.Adding.{with_pipe, placed, segment_named, marked, wire_added, node_added, keyed, added};
ghost use Rattle.top_text.specs.Tables.{IsReading};

use crate::adding::{add_class, add_link, add_mark, add_node, add_pipe, add_place};
use crate::lines::{class_in, fix_in, link_in, multiplex_in, node_in, pipe_in};
use crate::so_far::SoFar;
use lab_base::Kind;
use line_text::{AddLine, LineFault};
use std::alloc::Global;

fn add_class_line(so_far: &mut SoFar, alloc: Global, fields: &[&[u8]]) -> Result<(), LineFault>
    requires { IsReading so_far.old }
    ensures takes { Takes result so_far.new.wiring (and_then (class_line (views fields.now)) (λ class. kept (with_class so_far.old.wiring class))) }
    ensures keeps { OnOk result (IsReading so_far.new) }
{
    let class = class_in(alloc, fields)??;
    add_class(so_far, class)
}

fn add_node_line(so_far: &mut SoFar, alloc: Global, fields: &[&[u8]]) -> Result<(), LineFault>
    requires { IsReading so_far.old }
    ensures takes { Takes result so_far.new.wiring (and_then (node_line (views fields.now)) (λ node. kept (with_node so_far.old.wiring node))) }
    ensures keeps { OnOk result (IsReading so_far.new) }
{
    let node = node_in(alloc, fields)??;
    add_node(so_far, alloc, node)
}

fn add_fix_line(so_far: &mut SoFar, alloc: Global, fields: &[&[u8]]) -> Result<(), LineFault>
    requires { IsReading so_far.old }
    ensures takes { Takes result so_far.new.wiring
        (and_then (fix_line (views fields.now)) (λ fix. placed so_far.old.wiring fix.1 (virt_named so_far.old.wiring fix.0))) }
    ensures keeps { OnOk result (IsReading so_far.new) }
{
    let fix = fix_in(fields)?;
    let named = so_far.virt_named(fix.0);
    add_place(so_far, alloc, named, fix.1)
}

fn add_link_line(so_far: &mut SoFar, alloc: Global, fields: &[&[u8]]) -> Result<(), LineFault>
    requires { IsReading so_far.old }
    ensures takes { Takes result so_far.new.wiring
        (and_then (link_line (views fields.now)) (λ link. kept (with_segment so_far.old.wiring (segment_of so_far.old.wiring link)))) }
    ensures keeps { OnOk result (IsReading so_far.new) }
{
    let link = link_in(alloc, fields)??;
    add_link(so_far, alloc, link)
}

fn add_pipe_line(so_far: &mut SoFar, fields: &[&[u8]]) -> Result<(), LineFault>
    requires { IsReading so_far.old }
    ensures takes { Takes result so_far.new.wiring
        (and_then (pipe_line (views fields.now)) (λ pipe. kept (with_pipe so_far.old.wiring (pipe_of so_far.old.wiring pipe)))) }
    ensures keeps { OnOk result (IsReading so_far.new) }
{
    let pipe = pipe_in(fields)?;
    add_pipe(so_far, pipe)
}

fn add_multiplex_line(so_far: &mut SoFar, alloc: Global, fields: &[&[u8]]) -> Result<(), LineFault>
    requires { IsReading so_far.old }
    ensures takes { Takes result so_far.new.wiring
        (and_then (multiplex_line (views fields.now)) (λ name. marked so_far.old.wiring (segment_named so_far.old.wiring name))) }
    ensures keeps { OnOk result (IsReading so_far.new) }
{
    let name = multiplex_in(fields)?;
    let named = so_far.segment_named(name);
    add_mark(so_far, alloc, named)
}

fn add_wire(
    so_far: &mut SoFar,
    alloc: Global,
    keyword: &[u8],
    fields: &[&[u8]],
) -> Result<(), LineFault>
    requires { IsReading so_far.old }
    ensures takes { Takes result so_far.new.wiring (wire_added so_far.old.wiring keyword.now (views fields.now)) }
    ensures keeps { OnOk result (IsReading so_far.new) }
{
    if keyword == b"link".as_slice() {
        add_link_line(so_far, alloc, fields)
    } else if keyword == b"pipe".as_slice() {
        add_pipe_line(so_far, fields)
    } else if keyword == b"multiplex".as_slice() {
        add_multiplex_line(so_far, alloc, fields)
    } else {
        Err(LineFault::Kind(Kind::Word))
    }
}

fn add_node_or_wire(
    so_far: &mut SoFar,
    alloc: Global,
    keyword: &[u8],
    fields: &[&[u8]],
) -> Result<(), LineFault>
    requires { IsReading so_far.old }
    ensures takes { Takes result so_far.new.wiring (node_added so_far.old.wiring keyword.now (views fields.now)) }
    ensures keeps { OnOk result (IsReading so_far.new) }
{
    if keyword == b"node".as_slice() {
        add_node_line(so_far, alloc, fields)
    } else if keyword == b"fix-node".as_slice() {
        add_fix_line(so_far, alloc, fields)
    } else {
        add_wire(so_far, alloc, keyword, fields)
    }
}

fn is_class_word(keyword: &[u8]) -> bool
    ensures { result ≡ same_name keyword.now (codes "make-vclass") }
{
    keyword == b"make-vclass".as_slice()
}

fn add_keyed(
    so_far: &mut SoFar,
    alloc: Global,
    keyword: &[u8],
    fields: &[&[u8]],
) -> Result<(), LineFault>
    requires { IsReading so_far.old }
    ensures takes { Takes result so_far.new.wiring (keyed so_far.old.wiring keyword.now (views fields.now)) }
    ensures keeps { OnOk result (IsReading so_far.new) }
{
    if is_class_word(keyword) {
        add_class_line(so_far, alloc, fields)
    } else {
        add_node_or_wire(so_far, alloc, keyword, fields)
    }
}

impl AddLine for SoFar {
    ghost use Rattle.virt_topo.specs.declared.wiring.Wiring.{Wiring};

    ghost Contents = { Wiring };

    ghost contents = { λ so_far. so_far.wiring };

    ghost added = { λ _. added };

    ghost can_add = { IsReading };

    fn add(&mut self, alloc: Global, fields: &[&[u8]]) -> Result<(), LineFault> {
        match fields {
            [] => Err(LineFault::Kind(Kind::Word)),
            [keyword, rest @ ..] => add_keyed(self, alloc, keyword, rest),
        }
    }
}
