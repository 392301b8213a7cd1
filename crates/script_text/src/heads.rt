// The first line of a command.
ghost use Rattle.std.specs.Prelude.{◌≡◌, ◌≤◌, IfOk, IfSome};
ghost use Rattle.std.specs.Str.{bytes_eq};
ghost use Rattle.lab_base.specs.Texts.{views};
ghost use Rattle.script_text.specs.Blocks.{IsBlock, HasBlocks, IsInRange, IsTimely, SaysInRange};
ghost use Rattle.script_text.specs.Heads.{completed, both_completed, counted, named, no_field, only_name, only_count, name_and_count, name_and_counts, seed_of, name_and_seed, name_seed_and_count, moment_of, moment_and_count, name_span_and_count, swap_by, opened_by, head_by, said_of};

use crate::Command;
use crate::drill_heads::{fail_head, stop_head};
use lab_base::{Memory, Name, Text, fields_in, is_skipped, read_number};
use std::alloc::Global;

/// The most lines of a block.
pub const MAX_LINES: u64 = 16_384;

/// The last moment that a script names: of link events in microseconds.
pub const MAX_MOMENT: u64 = 1_000_000_000_000;

/// A command that one block completes.
#[derive(Clone, Copy)]
pub(crate) enum OneBlock {
    Ptop,
    Create {
        exp: Name,
    },
    CreateTop {
        exp: Name,
    },
    SwapinWith {
        only_begin: bool,
        exp: Name,
    },
    Modify {
        only_begin: bool,
        exp: Name,
        seed: u64,
    },
    Play {
        exp: Name,
        from: u64,
        to: u64,
    },
    Batch {
        moment: u64,
    },
}

/// A command that two blocks complete.
#[derive(Clone, Copy)]
pub(crate) enum TwoBlocks {
    ModifyWith { only_begin: bool, exp: Name },
}

/// The first line of a command: the whole command, or one that its blocks complete.
#[derive(Drop)]
pub(crate) enum Head {
    Whole(Command),
    Block {
        what: OneBlock,
        lines: u16,
    },
    /// The first block has `first` lines, and the second so many after them.
    Blocks {
        what: TwoBlocks,
        first: u16,
        second: u16,
    },
}

/// The reading of a line where a command may begin.
#[derive(Drop)]
pub(crate) enum Said {
    /// The line has no field, or its first one begins with `#`.
    Skipped,
    /// The line is no command's first line.
    Unknown,
    Begins(Head),
}

impl OneBlock {
    /// The command with its block.
    pub(crate) fn completed(self, lines: u16, text: Text) -> Command
        ensures command { result ≡ completed self lines text }
        ensures blocks { IsTimely self → IsBlock lines text → HasBlocks result }
    {
        match self {
            OneBlock::Ptop => Command::Ptop { lines, ptop: text },
            OneBlock::Create { exp } => Command::Create {
                exp,
                lines,
                ns: text,
            },
            OneBlock::CreateTop { exp } => Command::CreateTop {
                exp,
                lines,
                top: text,
            },
            OneBlock::SwapinWith { only_begin, exp } => Command::SwapinWith {
                only_begin,
                exp,
                lines,
                map: text,
            },
            OneBlock::Modify {
                only_begin,
                exp,
                seed,
            } => Command::Modify {
                only_begin,
                exp,
                seed,
                lines,
                ns: text,
            },
            OneBlock::Play { exp, from, to } => Command::Play {
                exp,
                from,
                to,
                lines,
                ns: text,
            },
            OneBlock::Batch { moment } => Command::Batch {
                moment,
                lines,
                text,
            },
        }
    }
}

impl TwoBlocks {
    /// The command with its blocks.
    pub(crate) fn completed(self, first: u16, one: Text, second: u16, other: Text) -> Command
        ensures command { result ≡ both_completed self first one second other }
        ensures blocks { IsBlock first one → IsBlock second other → HasBlocks result }
    {
        match self {
            TwoBlocks::ModifyWith { only_begin, exp } => Command::ModifyWith {
                only_begin,
                exp,
                top_lines: first,
                top: one,
                map_lines: second,
                map: other,
            },
        }
    }
}

/// The number of lines in a field.
fn count_in(field: &[u8]) -> Option<u16>
    ensures count { result ≡ counted field.now }
    ensures few { IfSome result (λ lines. lines ≤ MAX_LINES) }
{
    match read_number(field, MAX_LINES) {
        Ok(lines) => Some(lines as u16),
        Err(_) => None,
    }
}

/// The name that a field gives.
pub(crate) fn name_in(field: &[u8]) -> Option<Name>
    ensures { result ≡ named field.now }
{
    match Name::read(field) {
        Ok(name) => Some(name),
        Err(_) => None,
    }
}

/// Some where there is no field.
fn no_field(fields: &[&[u8]]) -> Option<()>
    ensures { result ≡ no_field (views fields.now) }
{
    match fields {
        [] => Some(()),
        _ => None,
    }
}

/// The name in the only field.
fn only_name(fields: &[&[u8]]) -> Option<Name>
    ensures { result ≡ only_name (views fields.now) }
{
    match fields {
        [exp] => name_in(exp),
        _ => None,
    }
}

/// The number of lines in the only field.
fn only_count(fields: &[&[u8]]) -> Option<u16>
    ensures count { result ≡ only_count (views fields.now) }
    ensures few { IfSome result (λ lines. lines ≤ MAX_LINES) }
{
    match fields {
        [lines] => count_in(lines),
        _ => None,
    }
}

/// The name and the number of lines in two fields.
fn name_and_count(fields: &[&[u8]]) -> Option<(Name, u16)>
    ensures pair { result ≡ name_and_count (views fields.now) }
    ensures few { IfSome result (λ given. given.1 ≤ MAX_LINES) }
{
    match fields {
        [exp, lines] => {
            let exp = name_in(exp)?;
            let lines = count_in(lines)?;
            Some((exp, lines))
        }
        _ => None,
    }
}

/// The name and the two numbers of lines in three fields.
fn name_and_counts(fields: &[&[u8]]) -> Option<(Name, u16, u16)>
    ensures triple { result ≡ name_and_counts (views fields.now) }
    ensures first { IfSome result (λ given. given.1 ≤ MAX_LINES) }
    ensures second { IfSome result (λ given. given.2 ≤ MAX_LINES) }
{
    match fields {
        [exp, first, second] => {
            let exp = name_in(exp)?;
            let first = count_in(first)?;
            let second = count_in(second)?;
            Some((exp, first, second))
        }
        _ => None,
    }
}

/// The seed in a field.
fn seed_in(field: &[u8]) -> Option<u64>
    ensures { result ≡ seed_of field.now }
{
    match read_number(field, u64::MAX) {
        Ok(seed) => Some(seed),
        Err(_) => None,
    }
}

/// The name and the seed in two fields.
fn name_and_seed(fields: &[&[u8]]) -> Option<(Name, u64)>
    ensures { result ≡ name_and_seed (views fields.now) }
{
    match fields {
        [exp, seed] => {
            let exp = name_in(exp)?;
            let seed = seed_in(seed)?;
            Some((exp, seed))
        }
        _ => None,
    }
}

/// The name, the seed and the number of lines in three fields.
fn name_seed_and_count(fields: &[&[u8]]) -> Option<(Name, u64, u16)>
    ensures triple { result ≡ name_seed_and_count (views fields.now) }
    ensures few { IfSome result (λ given. given.2 ≤ MAX_LINES) }
{
    match fields {
        [exp, seed, lines] => {
            let exp = name_in(exp)?;
            let seed = seed_in(seed)?;
            let lines = count_in(lines)?;
            Some((exp, seed, lines))
        }
        _ => None,
    }
}

/// The moment that a field gives.
fn moment_in(field: &[u8]) -> Option<u64>
    ensures moment { result ≡ moment_of field.now }
    ensures range { IfSome result (λ moment. moment ≤ MAX_MOMENT) }
{
    match read_number(field, MAX_MOMENT) {
        Ok(moment) => Some(moment),
        Err(_) => None,
    }
}

/// The moment and the number of lines that two fields give.
fn moment_and_count(fields: &[&[u8]]) -> Option<(u64, u16)>
    ensures given { result ≡ moment_and_count (views fields.now) }
    ensures range { IfSome result (λ given. given.0 ≤ MAX_MOMENT) }
    ensures few { IfSome result (λ given. given.1 ≤ MAX_LINES) }
{
    match fields {
        [moment, lines] => {
            let moment = moment_in(moment)?;
            let lines = count_in(lines)?;
            Some((moment, lines))
        }
        _ => None,
    }
}

/// The name, the two moments and the number of lines that four fields give.
fn name_span_and_count(fields: &[&[u8]]) -> Option<(Name, u64, u64, u16)>
    ensures given { result ≡ name_span_and_count (views fields.now) }
    ensures few { IfSome result (λ given. given.3 ≤ MAX_LINES) }
{
    match fields {
        [exp, from, to, lines] => {
            let exp = name_in(exp)?;
            let from = moment_in(from)?;
            let to = moment_in(to)?;
            let lines = count_in(lines)?;
            Some((exp, from, to, lines))
        }
        _ => None,
    }
}

/// Whether a field is that word.
pub(crate) fn is_word(field: &[u8], word: &[u8]) -> bool
    ensures { result ≡ bytes_eq field.now word.now }
{
    field == word
}

/// The head that the word of a swap and the fields after it are.
fn swap_by(only_begin: bool, word: &[u8], fields: &[&[u8]]) -> Option<Head>
    ensures head { result ≡ swap_by only_begin word.now (views fields.now) }
    ensures range { IfSome result IsInRange }
{
    if is_word(word, b"swapin") {
        let (exp, seed) = name_and_seed(fields)?;
        Some(Head::Whole(Command::Swapin {
            only_begin,
            exp,
            seed,
        }))
    } else if is_word(word, b"swapin-with") {
        let (exp, lines) = name_and_count(fields)?;
        Some(Head::Block {
            what: OneBlock::SwapinWith { only_begin, exp },
            lines,
        })
    } else if is_word(word, b"modify") {
        let (exp, seed, lines) = name_seed_and_count(fields)?;
        Some(Head::Block {
            what: OneBlock::Modify {
                only_begin,
                exp,
                seed,
            },
            lines,
        })
    } else if is_word(word, b"modify-with") {
        let (exp, first, second) = name_and_counts(fields)?;
        Some(Head::Blocks {
            what: TwoBlocks::ModifyWith { only_begin, exp },
            first,
            second,
        })
    } else if is_word(word, b"swapout") {
        let exp = only_name(fields)?;
        Some(Head::Whole(Command::Swapout { only_begin, exp }))
    } else {
        None
    }
}

/// The head of a swap that is only begun, from the fields after `open`.
fn opened_by(fields: &[&[u8]]) -> Option<Head>
    ensures head { result ≡ opened_by (views fields.now) }
    ensures range { IfSome result IsInRange }
{
    match fields {
        [word, rest @ ..] => swap_by(true, word, rest),
        [] => None,
    }
}

/// The head of a command, from its word and the fields after it. This is the table of all words.
fn head_by(word: &[u8], fields: &[&[u8]]) -> Option<Head>
    ensures head { result ≡ head_by word.now (views fields.now) }
    ensures range { IfSome result IsInRange }
{
    if is_word(word, b"ptop") {
        let lines = only_count(fields)?;
        Some(Head::Block {
            what: OneBlock::Ptop,
            lines,
        })
    } else if is_word(word, b"create") {
        let (exp, lines) = name_and_count(fields)?;
        Some(Head::Block {
            what: OneBlock::Create { exp },
            lines,
        })
    } else if is_word(word, b"create-top") {
        let (exp, lines) = name_and_count(fields)?;
        Some(Head::Block {
            what: OneBlock::CreateTop { exp },
            lines,
        })
    } else if is_word(word, b"show") {
        let exp = only_name(fields)?;
        Some(Head::Whole(Command::Show { exp }))
    } else if is_word(word, b"solve") {
        let (exp, seed) = name_and_seed(fields)?;
        Some(Head::Whole(Command::Solve { exp, seed }))
    } else if is_word(word, b"open") {
        opened_by(fields)
    } else if is_word(word, b"turn") {
        let exp = only_name(fields)?;
        Some(Head::Whole(Command::Turn { exp }))
    } else if is_word(word, b"finish") {
        let exp = only_name(fields)?;
        Some(Head::Whole(Command::Finish { exp }))
    } else if is_word(word, b"delete") {
        let exp = only_name(fields)?;
        Some(Head::Whole(Command::Delete { exp }))
    } else if is_word(word, b"recover") {
        no_field(fields)?;
        Some(Head::Whole(Command::Recover))
    } else if is_word(word, b"status") {
        no_field(fields)?;
        Some(Head::Whole(Command::Status))
    } else if is_word(word, b"audit") {
        no_field(fields)?;
        Some(Head::Whole(Command::Audit))
    } else if is_word(word, b"batch") {
        let (moment, lines) = moment_and_count(fields)?;
        Some(Head::Block {
            what: OneBlock::Batch { moment },
            lines,
        })
    } else if is_word(word, b"play") {
        let (exp, from, to, lines) = name_span_and_count(fields)?;
        Some(Head::Block {
            what: OneBlock::Play { exp, from, to },
            lines,
        })
    } else if is_word(word, b"fail") {
        fail_head(fields)
    } else if is_word(word, b"stop") {
        stop_head(fields)
    } else {
        swap_by(false, word, fields)
    }
}

/// Reads a line where a command may begin.
pub(crate) fn said_in(alloc: Global, line: &Text) -> Result<Said, Memory>
    ensures said { IfOk result (λ said. said ≡ said_of line.now) }
    ensures range { IfOk result SaysInRange }
{
    let fields = fields_in(alloc, line.bytes())?;
    if is_skipped(&fields) {
        return Ok(Said::Skipped);
    }
    let [word, rest @ ..] = fields.as_slice() else {
        return Ok(Said::Unknown);
    };
    match head_by(word, rest) {
        Some(head) => Ok(Said::Begins(head)),
        None => Ok(Said::Unknown),
    }
}
