//! Rows of searches, and of the outlook, by themselves. A row is the part that is run, the number of times, and two texts. They have a lab of
//! which nothing is claimed, and a batch or a wiring.
//!
//! ```text
//! ahead   whether the promises of a batch that hold at 0 fit
//! fit     FirstFit
//! walk    the annealing walk from FirstFit
//! solve   the whole search
//! ```
//!
//! Other rows tell the answers of a search by that many seeds, 0, 1, .., each answer once, with the machines of the virtual nodes by number. After
//! `asked` is told how often it asks the cost rule: for a mapping alone, by a step, and by parts.
//!
//! ```text
//! solved      the whole search; of one that draws, the cost alone
//! best        the cheapest of all node maps, which are few
//! descended   the descent from FirstFit
//! walked      the annealing walk from FirstFit: by the first letter of each machine, and whether it asks by parts more often than by a step
//! ```
//!
//! After a word of a search stands `-pack` where it is under the rule that counts nodes, as `walk-pack`; else it is under that of the trunks.
//!
//! A row isn't told where FirstFit finds no start of its walk or descent, or where `best` has many node maps. A text that is refused is told by
//! the line and the kind of its fault.
#![tactic(auto)]

mod ahead;
mod answers;
mod asked;
mod problem;
mod search;
mod walk;

use answers::Search;
use cost_rule::RuleNumber;
use lab_base::{Kind, Text, number_in};
use row_words::RowFault;
use search::{Run, What};
use std::alloc::Global;

/// The search of a row, if it is of one.
fn search_named(word: &str) -> Option<What> {
    match word {
        "fit" => Some(What::Fit),
        "walk" => Some(What::Walk),
        "solve" => Some(What::Solve),
        "solved" => Some(What::Answers(Search::Solve)),
        "best" => Some(What::Answers(Search::Best)),
        "descended" => Some(What::Answers(Search::Descend)),
        "walked" => Some(What::Answers(Search::Walk)),
        _ => None,
    }
}

/// The word of a search, and the rule that it is under.
fn ruled(kind: &str) -> (&str, RuleNumber) {
    match kind.strip_suffix("-pack") {
        Some(word) => (word, RuleNumber::Pack),
        None => (kind, RuleNumber::Trunk),
    }
}

/// Adds the output of a row.
fn add_output(
    out: &mut Text,
    alloc: Global,
    kind: &str,
    times: u64,
    ptop: &[u8],
    text: &[u8],
) -> Result<(), RowFault> {
    if kind == "ahead" {
        return ahead::add_output(out, alloc, times, ptop, text);
    }
    let (word, number) = ruled(kind);
    let Some(what) = search_named(word) else {
        return Err(RowFault::Word(Kind::Unknown));
    };
    let run = Run {
        what,
        number,
        times,
    };
    search::add_output(out, alloc, run, ptop, text)
}

/// The output of a row of two words over a lab's text and another one, without the end of its last line.
pub fn told(
    alloc: Global,
    kind: &str,
    times: &str,
    ptop: &[u8],
    text: &[u8],
) -> Result<Text, RowFault> {
    let times = number_in(times.as_bytes(), 1, 1_000_000)?;
    let mut out = Text::new(alloc);
    add_output(&mut out, alloc, kind, times, ptop, text)?;
    let mut lines = out.into_vec();
    let _end = lines.pop();
    Ok(Text::from_vec(lines))
}
