// The lines that a check tells of both sides.
ghost use Rattle.std.specs.Prelude.{◌≡◌, ◌++◌, ◌∷◌, [], nat_lt, length, decimal, IfOk, OnOk};
ghost use Rattle.lab_look.specs.Records.{listed};
ghost use Rattle.lab_look.specs.Reports.{is_headed, has_more, has_lost, are_apart, is_damaged};
ghost use Rattle.lab_look.specs.CheckLines.{stands_on, no_journal, epoch_words, changed_words, after_words, side_word, damage, head_words, cut_line, side_lines, apart_line, shut_records, left_words, shut_words, shut_lines, after_lines, rows_line, stands_lines, closed_words, gate_line, on_lines, standing_lines, form_words, fault_line, verdict_of, sides_lines, check_text, IsChecked};

use crate::damage::{are_apart, has_lost, has_more, is_damaged, is_headed};
use crate::records::push_listed;
use crate::report::{Report, SideReport, Standing, report_of};
use crate::tables::TablesSeen;
use journal_disk::Head;
use journal_rec::Found;
use lab_base::{Items, Memory, Text, TextFault};
use lab_sides::Walked;
use plant::Side;
use std::alloc::Global;

/// How a check tells.
#[derive(Clone, Copy)]
pub struct CheckOptions {
    /// Two looks in a row found both sides the same: only then is something told as damage.
    pub still: bool,
    /// All records are listed, and not the last ones alone.
    pub all: bool,
}

/// The lines of a check, and whether they tell damage.
#[derive(Drop)]
pub struct CheckLines {
    pub text: Text,
    pub damaged: bool,
}

#[tactic(auto, unfolding(crate::specs::CheckLines::stands_on))]
fn stands_on() -> &'static [u8]
    ensures { result.now ≡ stands_on }
{
    b"stands on "
}

#[tactic(auto, unfolding(crate::specs::CheckLines::no_journal))]
fn no_journal() -> &'static [u8]
    ensures { result.now ≡ no_journal }
{
    b"no journal yet\n"
}

#[tactic(auto, unfolding(crate::specs::CheckLines::epoch_words))]
fn epoch_words() -> &'static [u8]
    ensures { result.now ≡ epoch_words }
{
    b" bytes epoch "
}

#[tactic(auto, unfolding(crate::specs::CheckLines::changed_words))]
fn changed_words() -> &'static [u8]
    ensures { result.now ≡ changed_words }
{
    b"the gate was changed, whole records behind it: "
}

#[tactic(auto, unfolding(crate::specs::CheckLines::after_words))]
fn after_words() -> &'static [u8]
    ensures { result.now ≡ after_words }
{
    b"whole records behind it: "
}

fn side_word(side: Side) -> &'static [u8]
    ensures { result.now ≡ side_word side }
{
    match side {
        Side::A => b"side A",
        Side::B => b"side B",
    }
}

fn damage(still: bool) -> &'static [u8]
    ensures { result.now ≡ damage still }
{
    if still {
        b"DAMAGE: "
    } else {
        b"came while it was read: "
    }
}

fn push_head(text: &mut Text, head: Head) -> Result<(), Memory>
    ensures { OnOk result (text.new ≡ text.old ++ head_words head) }
{
    match head {
        Head::Blank => text.push_bytes(b" bytes blank\n"),
        Head::Foreign => text.push_bytes(b" bytes no journal\n"),
        Head::Headed(epoch) => {
            text.push_bytes(epoch_words())?;
            text.push_number(epoch)?;
            text.push(b'\n')
        }
    }
}

/// A side, and words after it.
fn push_side(text: &mut Text, side: Side, words: &[u8]) -> Result<(), Memory>
    ensures { OnOk result (text.new ≡ text.old ++ side_word side ++ words.now) }
{
    text.push_bytes(side_word(side))?;
    text.push_bytes(words)
}

/// A side that shows damage, and words after it.
fn push_damage(text: &mut Text, still: bool, side: Side, words: &[u8]) -> Result<(), Memory>
    ensures { OnOk result (text.new ≡ text.old ++ damage still ++ side_word side ++ words.now) }
{
    text.push_bytes(damage(still))?;
    push_side(text, side, words)
}

fn push_cut(text: &mut Text, still: bool, side: Side, cut: bool) -> Result<(), Memory>
    ensures { OnOk result (text.new ≡ text.old ++ cut_line still side cut) }
{
    if cut {
        push_damage(text, still, side, b" is cut in its header\n")
    } else {
        Ok(())
    }
}

/// `side A 1784 bytes epoch 1`.
fn push_side_lines(text: &mut Text, still: bool, side: Side, own: &SideReport) -> Result<(), Memory>
    ensures { OnOk result (text.new ≡ text.old ++ side_lines still side own.now) }
{
    push_side(text, side, b" ")?;
    text.push_number(own.bytes)?;
    push_head(text, own.head)?;
    push_cut(text, still, side, own.cut)
}

fn push_apart(text: &mut Text, still: bool, apart: bool) -> Result<(), Memory>
    ensures { OnOk result (text.new ≡ text.old ++ apart_line still apart) }
{
    if apart {
        text.push_bytes(damage(still))?;
        text.push_bytes(b"the epochs of the sides don't follow each other\n")
    } else {
        Ok(())
    }
}

fn is_some(found: &Items<Found>) -> bool
    ensures { result ≡ nat_lt 0 (length found.now) }
{
    found.len() > 0
}

fn push_shut_records(
    text: &mut Text,
    how: CheckOptions,
    side: Side,
    found: &Items<Found>,
) -> Result<(), Memory>
    ensures { OnOk result (text.new ≡ text.old ++ shut_records how side found.now) }
{
    if is_some(found) {
        push_damage(
            text,
            how.still,
            side,
            b" has a closed header over these records\n",
        )?;
        push_listed(text, how.all, found.as_slice())
    } else {
        push_side(text, side, b" has a closed header over no record\n")
    }
}

fn push_left(
    text: &mut Text,
    how: CheckOptions,
    side: Side,
    lost: bool,
    found: &Items<Found>,
) -> Result<(), Memory>
    ensures { OnOk result (text.new ≡ text.old ++ left_words how side lost found.now) }
{
    if lost {
        push_damage(
            text,
            how.still,
            side,
            b" has lost its header gate over these records\n",
        )?;
        push_listed(text, how.all, found.as_slice())
    } else {
        push_side(
            text,
            side,
            b" has a closed header, as a move of the journal leaves it\n",
        )
    }
}

fn push_shut_words(
    text: &mut Text,
    how: CheckOptions,
    side: Side,
    headed: bool,
    lost: bool,
    found: &Items<Found>,
) -> Result<(), Memory>
    ensures { OnOk result (text.new ≡ text.old ++ shut_words how side headed lost found.now) }
{
    if headed {
        push_left(text, how, side, lost, found)
    } else {
        push_shut_records(text, how, side, found)
    }
}

fn push_shut(
    text: &mut Text,
    how: CheckOptions,
    side: Side,
    shut: &Option<Items<Found>>,
    other: Head,
    lost: bool,
) -> Result<(), Memory>
    ensures { OnOk result (text.new ≡ text.old ++ shut_lines how side shut.now other lost) }
{
    match shut {
        Some(found) => push_shut_words(text, how, side, is_headed(other), lost, found),
        None => Ok(()),
    }
}

/// A number at the end of a line.
fn push_count(text: &mut Text, count: u64) -> Result<(), Memory>
    ensures { OnOk result (text.new ≡ text.old ++ decimal count ++ 10 ∷ []) }
{
    text.push_number(count)?;
    text.push(b'\n')
}

#[tactic(auto, unfolding(crate::specs::CheckLines::after_lines))]
fn push_after(text: &mut Text, how: CheckOptions, found: &Items<Found>) -> Result<(), Memory>
    ensures { OnOk result (text.new ≡ text.old ++ after_lines how found.now) }
{
    if has_more(found) {
        text.push_bytes(damage(how.still))?;
        text.push_bytes(changed_words())?;
        push_count(text, found.len() as u64)?;
        push_listed(text, how.all, found.as_slice())
    } else {
        text.push_bytes(after_words())?;
        push_count(text, found.len() as u64)?;
        push_listed(text, how.all, found.as_slice())
    }
}

fn push_rows(text: &mut Text, still: bool, rows: bool) -> Result<(), Memory>
    ensures { OnOk result (text.new ≡ text.old ++ rows_line still rows) }
{
    if rows {
        text.push_bytes(damage(still))?;
        text.push_bytes(b"the tables have lines\n")
    } else {
        Ok(())
    }
}

/// `stands on side A, records: 8`, and the records.
#[tactic(auto, unfolding(crate::specs::CheckLines::stands_lines))]
fn push_stands(text: &mut Text, all: bool, side: Side, found: &Items<Found>) -> Result<(), Memory>
    ensures { OnOk result (text.new ≡ text.old ++ stands_lines all side found.now) }
{
    text.push_bytes(stands_on())?;
    push_side(text, side, b", records: ")?;
    push_count(text, found.len() as u64)?;
    push_listed(text, all, found.as_slice())
}

#[tactic(auto, unfolding(crate::specs::CheckLines::closed_words))]
fn closed_words() -> &'static [u8]
    ensures { result.now ≡ closed_words }
{
    b" closed gate\n"
}

/// `  1784 closed gate`.
#[tactic(auto, unfolding(crate::specs::CheckLines::gate_line))]
fn push_gate(text: &mut Text, gate: u64) -> Result<(), Memory>
    ensures { OnOk result (text.new ≡ text.old ++ gate_line gate) }
{
    text.push_bytes(b"  ")?;
    text.push_number(gate)?;
    text.push_bytes(closed_words())
}

fn push_on(
    text: &mut Text,
    how: CheckOptions,
    side: Side,
    walked: &Walked,
    found: &Items<Found>,
) -> Result<(), Memory>
    ensures { OnOk result (text.new ≡ text.old ++ on_lines how side walked.now found.now) }
{
    push_stands(text, how.all, side, &walked.found)?;
    push_gate(text, walked.gate)?;
    push_after(text, how, found)
}

/// Records, and the side that shows damage, with the place of it.
fn push_wrong(
    text: &mut Text,
    how: CheckOptions,
    found: &Items<Found>,
    side: Side,
    words: &[u8],
    at: u64,
) -> Result<(), Memory>
    ensures { OnOk result (text.new ≡ text.old ++ listed how.all found.now ++ damage how.still ++ side_word side ++ words.now ++ decimal at ++ 10 ∷ []) }
{
    push_listed(text, how.all, found.as_slice())?;
    push_damage(text, how.still, side, words)?;
    push_count(text, at)
}

fn push_standing(
    text: &mut Text,
    how: CheckOptions,
    rows: bool,
    standing: &Standing,
) -> Result<(), Memory>
    ensures { OnOk result (text.new ≡ text.old ++ standing_lines how rows standing.now) }
{
    match standing {
        Standing::New => {
            text.push_bytes(no_journal())?;
            push_rows(text, how.still, rows)
        }
        Standing::On(side, walked, found, _) => push_on(text, how, *side, walked, found),
        Standing::Bad(side, at, before) => {
            push_wrong(text, how, before, *side, b" is bad at ", *at)
        }
        Standing::Wrong(side, at, walked) => push_wrong(
            text,
            how,
            &walked.found,
            *side,
            b" has a record that can't follow at ",
            *at,
        ),
    }
}

#[tactic(auto, unfolding(crate::specs::CheckLines::form_words))]
fn form_words() -> &'static [u8]
    ensures { result.now ≡ form_words }
{
    b" of tables has another form: "
}

/// `DAMAGE: line 3 of tables has another form: fields`, where there is such a line.
fn push_fault(text: &mut Text, still: bool, fault: Option<TextFault>) -> Result<(), Memory>
    ensures { OnOk result (text.new ≡ text.old ++ fault_line still fault) }
{
    match fault {
        Some(fault) => {
            text.push_bytes(damage(still))?;
            text.push_bytes(b"line ")?;
            text.push_number(fault.line as u64)?;
            text.push_bytes(form_words())?;
            text.push_bytes(fault.kind.word().as_bytes())?;
            text.push(b'\n')
        }
        None => Ok(()),
    }
}

fn verdict_of(still: bool, damaged: bool) -> &'static [u8]
    ensures { result.now ≡ verdict_of still damaged }
{
    if still {
        if damaged { b"damaged\n" } else { b"sound\n" }
    } else {
        b"a program is at work here\n"
    }
}

/// The lines of both sides.
fn push_sides(text: &mut Text, how: CheckOptions, report: &Report) -> Result<(), Memory>
    ensures { OnOk result (text.new ≡ text.old ++ sides_lines how report.now) }
{
    let Report { a, b, standing } = report;
    push_side_lines(text, how.still, Side::A, a)?;
    push_side_lines(text, how.still, Side::B, b)?;
    push_apart(text, how.still, are_apart(a.head, b.head))?;
    let lost = has_lost(standing);
    push_shut(text, how, Side::A, &a.shut, b.head, lost)?;
    push_shut(text, how, Side::B, &b.shut, a.head, lost)
}

/// The text of a check.
fn check_text(
    alloc: Global,
    report: &Report,
    how: CheckOptions,
    tables: TablesSeen,
) -> Result<Text, Memory>
    ensures { IfOk result (λ text. text ≡ check_text how tables report.now) }
{
    let mut text = Text::new(alloc);
    push_sides(&mut text, how, report)?;
    push_standing(&mut text, how, tables.rows, &report.standing)?;
    push_fault(&mut text, how.still, tables.fault)?;
    text.push_bytes(verdict_of(how.still, is_damaged(report, tables)))?;
    Ok(text)
}

/// The check of two sides and the tables. Something is told as damage only where two looks in a row found both sides the same.
pub fn check(
    alloc: Global,
    a: &[u8],
    b: &[u8],
    how: CheckOptions,
    tables: TablesSeen,
) -> Result<CheckLines, Memory>
    ensures { IfOk result (IsChecked a.now b.now how tables) }
{
    let report = report_of(alloc, a, b)?;
    let text = check_text(alloc, &report, how, tables)?;
    let damaged = how.still && is_damaged(&report, tables);
    Ok(CheckLines { text, damaged })
}
