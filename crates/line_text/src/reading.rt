// Reading a text line after line.
ghost use Rattle.std.specs.Prelude.{◌≡◌, ◌<◌, ◌+◌, ℕ, List, Result, Ok, OnOk, IfOk, length};
ghost use Rattle.lab_base.specs.Texts.{lines_of, views};
ghost use Rattle.lab_base.specs.declared.fault.Kind.{Kind};
ghost use Rattle.line_text.specs.Reading.{line_added, read_from};
ghost use Rattle.line_text.specs.Refusals.{ReadsInto, Takes};

use crate::{LineFault, refusal};
use lab_base::{TEXT_LIMIT, TextRefused, fields_in, first_line, is_skipped};
use std::alloc::Global;

/// A reader's state between two lines: it has what the lines so far give, and takes one more.
pub trait AddLine {
    // Its type in definitions.
    ghost Contents: { Type 0 };

    ghost contents: { Self → Contents };

    // The contents with one line more, by its fields, or that line's fault.
    ghost added: { Self → Contents → List (List ℕ) → Result Contents Kind };

    // It may take a line.
    ghost can_add: { Self → Type 0 } = { λ _. Unit {0} };

    /// Adds a line that isn't skipped, by its fields. After an error drop the state.
    fn add(&mut self, alloc: Global, fields: &[&[u8]]) -> Result<(), LineFault>
        requires { can_add self.old }
        ensures takes { Takes result (contents self.new) (added self.old (contents self.old) (views fields.now)) }
        ensures can { OnOk result (can_add self.new) }
        ensures same { added self.new ≡ added self.old };
}

fn add_line<S: AddLine>(alloc: Global, line: &[u8], so_far: &mut S) -> Result<(), LineFault>
    requires { S.can_add so_far.old }
    ensures takes { Takes result (S.contents so_far.new) (line_added (S.added so_far.old) (S.contents so_far.old) line.now) }
    ensures can { OnOk result (S.can_add so_far.new) }
    ensures same { S.added so_far.new ≡ S.added so_far.old }
{
    let fields = fields_in(alloc, line)?;
    if is_skipped(&fields) {
        return Ok(());
    }
    so_far.add(alloc, &fields)
}

/// Adds the lines of a text to a reader's state, and answers the number after the last line.
/// The first line with a fault ends it. After an error drop the state.
pub fn read_lines<S: AddLine>(
    alloc: Global,
    text: &[u8],
    so_far: &mut S,
) -> Result<u32, TextRefused>
    requires short { length text.now < TEXT_LIMIT }
    requires can { S.can_add so_far.old }
    ensures reads { ReadsInto result (S.contents so_far.new) (read_from (S.added so_far.old) 1 (Ok (S.contents so_far.old)) (lines_of text.now)) }
    ensures lines { IfOk result (λ line. line ≡ length (lines_of text.now) + 1) }
    ensures can { OnOk result (S.can_add so_far.new) }
    ensures same { S.added so_far.new ≡ S.added so_far.old }
{
    let mut line = 1u32;
    let mut rest = text;
    while let Some(first) = first_line(rest) {
        if let Err(fault) = add_line(alloc, first.line, so_far) {
            return Err(refusal(line, fault));
        }
        line += 1;
        rest = first.rest;
    }
    Ok(line)
}
