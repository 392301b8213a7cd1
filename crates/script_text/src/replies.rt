ghost use Rattle.std.specs.Prelude.{◌≡◌, ◌++◌, ◌∷◌, [], codes, decimal, IfOk, OnOk};
ghost use Rattle.std.specs.List.{flat_map};
ghost use Rattle.lab_base.specs.declared.what.What.TheVariants as whats;
ghost use Rattle.script_text.specs.Replies.{named_line, fault_line, two_line, lab_line, exp_line, what_words, trouble_line, failed_line, infeasible_line, tag_line, placed_lines, shown_lines, solved_lines, played_lines, text_of};
ghost use Rattle.script_text.specs.Replies.{kind_word, wait_line, row_line, audit_line, audit_lines};

use crate::words::{boot_word, end_word, rule_word};
use crate::{AuditLine, FailedEnd, PhaseWord, Placed, Reply, StatusLine, TagLine};
use lab_base::Piece::{Bytes, Number};
use lab_base::{Boot, Memory, Name, Text, TextFault, VlanId, What, push_pieces, text_of_pieces};
use std::alloc::Global;
use virt_topo::Broken;

fn named<'a>(alloc: Global, words: &'a [u8], name: &'a Name) -> Result<Text, Memory>
    ensures { IfOk result (λ text. text ≡ named_line words.now name.now) }
{
    text_of_pieces(alloc, &[Bytes(words), Bytes(name.bytes()), Bytes(b"\n")])
}

fn lab(alloc: Global, switches: u16, nodes: u16, trunks: u16) -> Result<Text, Memory>
    ensures { IfOk result (λ text. text ≡ lab_line switches nodes trunks) }
{
    text_of_pieces(
        alloc,
        &[
            Bytes(b"lab "),
            Number(switches.into()),
            Bytes(b" "),
            Number(nodes.into()),
            Bytes(b" "),
            Number(trunks.into()),
            Bytes(b"\n"),
        ],
    )
}

fn created(alloc: Global, exp: &Name, nodes: u16, segments: u16) -> Result<Text, Memory>
    ensures { IfOk result (λ text. text ≡ two_line (codes "created " ++ exp.now ++ 32 ∷ []) nodes segments) }
{
    text_of_pieces(
        alloc,
        &[
            Bytes(b"created "),
            Bytes(exp.bytes()),
            Bytes(b" "),
            Number(nodes.into()),
            Bytes(b" "),
            Number(segments.into()),
            Bytes(b"\n"),
        ],
    )
}

fn add_tag(text: &mut Text, tag: &TagLine) -> Result<(), Memory>
    ensures { OnOk result (text.new ≡ text.old ++ tag_line tag.now) }
{
    push_pieces(
        text,
        &[
            Bytes(b"tag "),
            Bytes(tag.segment.bytes()),
            Bytes(b" "),
            Number(tag.vlan.0.into()),
            Bytes(b"\n"),
        ],
    )
}

fn add_tags(text: &mut Text, tags: &[TagLine]) -> Result<(), Memory>
    ensures { OnOk result (text.new ≡ text.old ++ flat_map tag_line tags.now) }
{
    for tag in tags {
        add_tag(text, tag)?;
    }
    Ok(())
}

fn add_placed(text: &mut Text, placed: &Option<Placed>) -> Result<(), Memory>
    ensures { OnOk result (text.new ≡ text.old ++ placed_lines placed.now) }
{
    let Some(placed) = placed else {
        return Ok(());
    };
    text.push_bytes(placed.solution.bytes())?;
    add_tags(text, placed.tags.as_slice())
}

/// The line after a text in a reply.
fn add_end(text: &mut Text, exp: &Name) -> Result<(), Memory>
    ensures { OnOk result (text.new ≡ text.old ++ codes "end " ++ exp.now ++ 10 ∷ []) }
{
    push_pieces(text, &[Bytes(b"end "), Bytes(exp.bytes()), Bytes(b"\n")])
}

fn shown<'a>(
    alloc: Global,
    exp: &'a Name,
    phase: PhaseWord,
    top: &'a Text,
    placed: &Option<Placed>,
) -> Result<Text, Memory>
    ensures { IfOk result (λ text. text ≡ shown_lines exp.now phase top.now placed.now) }
{
    let mut text = text_of_pieces(
        alloc,
        &[
            Bytes(b"show "),
            Bytes(exp.bytes()),
            Bytes(b" "),
            Bytes(phase.word().as_bytes()),
            Bytes(b"\n"),
            Bytes(top.bytes()),
        ],
    )?;
    add_placed(&mut text, placed)?;
    add_end(&mut text, exp)?;
    Ok(text)
}

/// The text of a search's solution, after the words `least` or `local`.
fn solved<'a>(
    alloc: Global,
    words: &'a [u8],
    exp: &'a Name,
    cost: u64,
    solution: &'a Text,
) -> Result<Text, Memory>
    ensures { IfOk result (λ text. text ≡ solved_lines words.now exp.now cost solution.now) }
{
    let mut text = text_of_pieces(
        alloc,
        &[
            Bytes(words),
            Bytes(exp.bytes()),
            Bytes(b" "),
            Number(cost),
            Bytes(b"\n"),
            Bytes(solution.bytes()),
        ],
    )?;
    add_end(&mut text, exp)?;
    Ok(text)
}

fn add_boots(text: &mut Text, node: &Name, from: Boot, to: Boot) -> Result<(), Memory>
    ensures { OnOk result (text.new ≡ text.old ++ what_words (whats.Unlawful node.now from to)) }
{
    push_pieces(
        text,
        &[
            Bytes(b"boot "),
            Bytes(node.bytes()),
            Bytes(b" "),
            Bytes(boot_word(from).as_bytes()),
            Bytes(b" "),
            Bytes(boot_word(to).as_bytes()),
        ],
    )
}

fn add_named(text: &mut Text, words: &[u8], name: &Name) -> Result<(), Memory>
    ensures { OnOk result (text.new ≡ text.old ++ words.now ++ name.now) }
{
    push_pieces(text, &[Bytes(words), Bytes(name.bytes())])
}

fn add_what(text: &mut Text, what: &What) -> Result<(), Memory>
    ensures { OnOk result (text.new ≡ text.old ++ what_words what.now) }
{
    match what {
        What::Device(name) => add_named(text, b"device ", name),
        What::Late(node) => add_named(text, b"boot ", node),
        What::Unlawful { node, from, to } => add_boots(text, node, *from, *to),
        What::Journal => text.push_bytes(b"journal"),
    }
}

fn failed(alloc: Global, exp: &Name, end: FailedEnd, what: &What) -> Result<Text, Memory>
    ensures { IfOk result (λ text. text ≡ failed_line exp.now end what.now) }
{
    let mut text = text_of_pieces(
        alloc,
        &[
            Bytes(b"failed "),
            Bytes(exp.bytes()),
            Bytes(b" "),
            Bytes(end_word(end).as_bytes()),
            Bytes(b" "),
        ],
    )?;
    add_what(&mut text, what)?;
    text.push(b'\n')?;
    Ok(text)
}

fn trouble(alloc: Global, exp: &Name, what: &What) -> Result<Text, Memory>
    ensures { IfOk result (λ text. text ≡ trouble_line exp.now what.now) }
{
    let mut text = text_of_pieces(
        alloc,
        &[Bytes(b"trouble "), Bytes(exp.bytes()), Bytes(b" ")],
    )?;
    add_what(&mut text, what)?;
    text.push(b'\n')?;
    Ok(text)
}

fn recovered(alloc: Global, done: u32, stuck: u32) -> Result<Text, Memory>
    ensures { IfOk result (λ text. text ≡ two_line (codes "recovered ") done stuck) }
{
    text_of_pieces(
        alloc,
        &[
            Bytes(b"recovered "),
            Number(done.into()),
            Bytes(b" "),
            Number(stuck.into()),
            Bytes(b"\n"),
        ],
    )
}

fn infeasible<'a>(
    alloc: Global,
    exp: &'a Name,
    rule: Broken,
    subject: &'a Text,
) -> Result<Text, Memory>
    ensures { IfOk result (λ text. text ≡ infeasible_line exp.now rule subject.now) }
{
    text_of_pieces(
        alloc,
        &[
            Bytes(b"infeasible "),
            Bytes(exp.bytes()),
            Bytes(b" "),
            Bytes(rule_word(rule).as_bytes()),
            Bytes(b" "),
            Bytes(subject.bytes()),
            Bytes(b"\n"),
        ],
    )
}

fn full_journal(alloc: Global, length: u64) -> Result<Text, Memory>
    ensures { IfOk result (λ text. text ≡ codes "full journal " ++ decimal length ++ 10 ∷ []) }
{
    text_of_pieces(
        alloc,
        &[Bytes(b"full journal "), Number(length), Bytes(b"\n")],
    )
}

fn bad(alloc: Global, exp: &Name, fault: TextFault) -> Result<Text, Memory>
    ensures { IfOk result (λ text. text ≡ fault_line (codes "bad " ++ exp.now ++ 32 ∷ []) fault) }
{
    text_of_pieces(
        alloc,
        &[
            Bytes(b"bad "),
            Bytes(exp.bytes()),
            Bytes(b" "),
            Number(fault.line.into()),
            Bytes(b" "),
            Bytes(fault.kind.word().as_bytes()),
            Bytes(b"\n"),
        ],
    )
}

/// Words with the line and the kind of a fault after them.
fn faulty(alloc: Global, words: &[u8], fault: TextFault) -> Result<Text, Memory>
    ensures { IfOk result (λ text. text ≡ fault_line words.now fault) }
{
    text_of_pieces(
        alloc,
        &[
            Bytes(words),
            Number(fault.line.into()),
            Bytes(b" "),
            Bytes(fault.kind.word().as_bytes()),
            Bytes(b"\n"),
        ],
    )
}

fn add_line(text: &mut Text, line: &StatusLine) -> Result<(), Memory>
    ensures { OnOk result (text.new ≡ text.old ++ exp_line line.now) }
{
    push_pieces(
        text,
        &[
            Bytes(b"exp "),
            Bytes(line.exp.bytes()),
            Bytes(b" "),
            Bytes(line.phase.word().as_bytes()),
            Bytes(b" "),
            Number(line.nodes.into()),
            Bytes(b" "),
            Number(line.vlans.into()),
            Bytes(b"\n"),
        ],
    )
}

fn listed(alloc: Global, experiments: &[StatusLine], nodes: u16, vlans: u16) -> Result<Text, Memory>
    ensures { IfOk result (λ text. text ≡ flat_map exp_line experiments.now ++ two_line (codes "free ") nodes vlans) }
{
    let mut text = Text::new(alloc);
    for experiment in experiments {
        add_line(&mut text, experiment)?;
    }
    push_pieces(
        &mut text,
        &[
            Bytes(b"free "),
            Number(nodes.into()),
            Bytes(b" "),
            Number(vlans.into()),
            Bytes(b"\n"),
        ],
    )?;
    Ok(text)
}

fn played<'a>(alloc: Global, exp: &'a Name, played: u64, last: &'a Text) -> Result<Text, Memory>
    ensures { IfOk result (λ text. text ≡ played_lines exp.now played last.now) }
{
    text_of_pieces(
        alloc,
        &[
            Bytes(b"played "),
            Bytes(exp.bytes()),
            Bytes(b" "),
            Number(played),
            Bytes(b"\n"),
            Bytes(last.bytes()),
        ],
    )
}

fn add_kinds(text: &mut Text, kinds: &[Name]) -> Result<(), Memory>
    ensures { OnOk result (text.new ≡ text.old ++ flat_map kind_word kinds.now) }
{
    for kind in kinds {
        push_pieces(text, &[Bytes(b" "), Bytes(kind.bytes())])?;
    }
    Ok(())
}

fn wait(
    alloc: Global,
    exp: &Name,
    at: u64,
    need: u32,
    have: u32,
    kinds: &[Name],
) -> Result<Text, Memory>
    ensures { IfOk result (λ text. text ≡ wait_line exp.now at need have kinds.now) }
{
    let mut text = text_of_pieces(
        alloc,
        &[
            Bytes(b"wait "),
            Bytes(exp.bytes()),
            Bytes(b" "),
            Number(at),
            Bytes(b" "),
            Number(need.into()),
            Bytes(b" "),
            Number(have.into()),
        ],
    )?;
    add_kinds(&mut text, kinds)?;
    text.push(b'\n')?;
    Ok(text)
}

fn add_row<'a>(
    text: &mut Text,
    words: &'a [u8],
    switch: &'a Name,
    port: u16,
    vlan: VlanId,
) -> Result<(), Memory>
    ensures { OnOk result (text.new ≡ text.old ++ row_line words.now switch.now port vlan.0) }
{
    push_pieces(
        text,
        &[
            Bytes(words),
            Bytes(switch.bytes()),
            Bytes(b" "),
            Number(port.into()),
            Bytes(b" "),
            Number(vlan.0.into()),
            Bytes(b"\n"),
        ],
    )
}

fn add_audited(text: &mut Text, line: &AuditLine) -> Result<(), Memory>
    ensures { OnOk result (text.new ≡ text.old ++ audit_line line.now) }
{
    match line {
        AuditLine::Lacks { switch, port, vlan } => add_row(text, b"lacks ", switch, *port, *vlan),
        AuditLine::Strange { switch, port, vlan } => {
            add_row(text, b"strange ", switch, *port, *vlan)
        }
        AuditLine::Node { node } => {
            push_pieces(text, &[Bytes(b"node "), Bytes(node.bytes()), Bytes(b"\n")])
        }
    }
}

fn audit(alloc: Global, lines: &[AuditLine]) -> Result<Text, Memory>
    ensures { IfOk result (λ text. text ≡ audit_lines lines.now) }
{
    let mut text = text_of_pieces(
        alloc,
        &[Bytes(b"audit "), Number(lines.len() as u64), Bytes(b"\n")],
    )?;
    for line in lines {
        add_audited(&mut text, line)?;
    }
    Ok(text)
}

/// The text of a reply: its lines, each with a line feed.
pub fn reply_text(alloc: Global, reply: &Reply) -> Result<Text, Memory>
    ensures { IfOk result (λ text. text ≡ text_of reply.now) }
{
    match reply {
        Reply::Lab {
            switches,
            nodes,
            trunks,
        } => lab(alloc, *switches, *nodes, *trunks),
        Reply::Created {
            exp,
            nodes,
            segments,
        } => created(alloc, exp, *nodes, *segments),
        Reply::Shown {
            exp,
            phase,
            top,
            placed,
        } => shown(alloc, exp, *phase, top, placed),
        Reply::Least {
            exp,
            cost,
            solution,
        } => solved(alloc, b"least ", exp, *cost, solution),
        Reply::Local {
            exp,
            cost,
            solution,
        } => solved(alloc, b"local ", exp, *cost, solution),
        Reply::NoneFits { exp } => named(alloc, b"none ", exp),
        Reply::GaveUp { exp } => named(alloc, b"gave up ", exp),
        Reply::Deleted { exp } => named(alloc, b"deleted ", exp),
        Reply::Listed {
            experiments,
            nodes,
            vlans,
        } => listed(alloc, experiments.as_slice(), *nodes, *vlans),
        Reply::NoLab => Text::from_slice(alloc, b"no lab\n"),
        Reply::LabIsSet => Text::from_slice(alloc, b"lab is set\n"),
        Reply::Exists { exp } => named(alloc, b"exists ", exp),
        Reply::Unknown { exp } => named(alloc, b"unknown ", exp),
        Reply::In { exp } => named(alloc, b"in ", exp),
        Reply::Out { exp } => named(alloc, b"out ", exp),
        Reply::More { exp } => named(alloc, b"more ", exp),
        Reply::Trouble { exp, what } => trouble(alloc, exp, what),
        Reply::Failed { exp, end, what } => failed(alloc, exp, *end, what),
        Reply::Recovered { done, stuck } => recovered(alloc, *done, *stuck),
        Reply::Played {
            exp,
            played: count,
            last,
            ..
        } => played(alloc, exp, *count, last),
        Reply::Wait {
            exp,
            at,
            need,
            have,
            kinds,
        } => wait(alloc, exp, *at, *need, *have, kinds.as_slice()),
        Reply::Served(served) => served.lines.copy(),
        Reply::Audit { lines } => audit(alloc, lines.as_slice()),
        Reply::Unread { name } => named(alloc, b"unread ", name),
        Reply::Planned => Text::from_slice(alloc, b"planned\n"),
        Reply::NoDrill => Text::from_slice(alloc, b"no drill\n"),
        Reply::Infeasible { exp, rule, subject } => infeasible(alloc, exp, *rule, subject),
        Reply::IsOut { exp } => named(alloc, b"is out ", exp),
        Reply::IsIn { exp } => named(alloc, b"is in ", exp),
        Reply::IsMoving { exp } => named(alloc, b"is moving ", exp),
        Reply::Busy { exp } => named(alloc, b"busy ", exp),
        Reply::NotOpen { exp } => named(alloc, b"not open ", exp),
        Reply::Bad { exp, fault } => bad(alloc, exp, *fault),
        Reply::BadPtop { fault } => faulty(alloc, b"bad ptop ", *fault),
        Reply::BadBatch { fault } => faulty(alloc, b"bad batch ", *fault),
        Reply::FullExperiments => Text::from_slice(alloc, b"full experiments 256\n"),
        Reply::FullSwaps => Text::from_slice(alloc, b"full swaps 16\n"),
        Reply::FullJournal { length } => full_journal(alloc, *length),
        Reply::Down => Text::from_slice(alloc, b"down\n"),
        Reply::Stopped => Text::from_slice(alloc, b"stopped\n"),
    }
}
