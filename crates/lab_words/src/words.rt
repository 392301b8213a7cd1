ghost use Rattle.std.specs.Prelude.{◌≡◌, ◌≢◌, codes, map, option_map, string_bytes, IfOk};
ghost use Rattle.clap.specs.Words.{FailsBy, fault_of, first_value, found_of, kind_of, matches_of, one_text, rows_of};
ghost use Rattle.lab_words.specs.Places.{Says, seen_of};
ghost use Rattle.lab_words.specs.Words.{choices_of, chosen, command_line, number_if, rule_named};

use crate::place::PlaceFault;
use clap::error::ErrorKind;
use clap::{Arg, ArgMatches, Command, Error, value_parser};
use cost_rule::RuleNumber;
use std::alloc::Global;

/// The choices of a command line.
#[derive(Clone, Copy)]
pub struct Chosen<'a> {
    /// The folder where the lab is kept, if not in memory.
    pub dir: Option<&'a str>,
    /// The cost rule of the session.
    pub rule: RuleNumber,
    /// The number after `--gen`: that script is obeyed in place of the source's.
    pub generated: Option<u64>,
}

/// The matches of the words with the options `[--cost COST] [--dir DIR] [--gen N]`.
fn matches<'a>(alloc: Global, words: &'a [String]) -> Result<ArgMatches<'a>, Error>
    ensures rows { IfOk result (λ m. rows_of (found_of m) ≡ matches_of command_line (map string_bytes words.now)) }
    ensures faults { FailsBy (fault_of command_line (map string_bytes words.now)) result }
{
    let command = Command::new(alloc, "labctl")
        .no_binary_name(true)
        .disable_help_flag(true)
        .arg(Arg::new(alloc, "cost").long("cost").default_value("trunk"))?
        .arg(Arg::new(alloc, "dir").long("dir"))?
        .arg(
            Arg::new(alloc, "gen")
                .long("gen")
                .value_parser(value_parser!(u64)),
        )?;
    command.try_get_matches_from(words)
}

/// The cost rule of a word; None where the word names none.
fn rule_named(word: &str) -> Option<RuleNumber>
    ensures { result ≡ rule_named word.now }
{
    match word {
        "trunk" => Some(RuleNumber::Trunk),
        "pack" => Some(RuleNumber::Pack),
        _ => None,
    }
}

/// The number after `--gen`: None where its value is no number, `Some(None)` where the option isn't there.
fn number_in(matches: &ArgMatches<'_>) -> Option<Option<u64>>
    ensures { result ≡ number_if (one_text (found_of matches.now) (codes "gen")) }
{
    match matches.try_get_one::<u64>("gen") {
        Ok(number) => Some(number),
        Err(_) => None,
    }
}

/// The choices of the matched options; None where the word of `--cost` or of `--gen` is no value of its kind.
fn chosen_in<'a>(matches: &ArgMatches<'a>) -> Option<Chosen<'a>>
    ensures { option_map seen_of result
        ≡ chosen (first_value (found_of matches.now) (codes "cost")) (first_value (found_of matches.now) (codes "dir"))
        (one_text (found_of matches.now) (codes "gen")) }
{
    let rule = rule_named(matches.get_str("cost")?)?;
    let generated = number_in(matches)?;
    Some(Chosen {
        dir: matches.get_str("dir"),
        rule,
        generated,
    })
}

fn fault_of(error: &Error) -> PlaceFault
    ensures { result ≡ PlaceFault.Usage → kind_of error.now ≢ ErrorKind.OutOfMemory }
{
    match error.kind() {
        ErrorKind::OutOfMemory => PlaceFault::Memory,
        _ => PlaceFault::Usage,
    }
}

/// The choices of a command line; `Usage` where the words are none.
pub fn read_words<'a>(alloc: Global, words: &'a [String]) -> Result<Chosen<'a>, PlaceFault>
    ensures { Says (choices_of words.now) result }
{
    let matches = match matches(alloc, words) {
        Ok(matches) => matches,
        Err(error) => return Err(fault_of(&error)),
    };
    match chosen_in(&matches) {
        Some(chosen) => Ok(chosen),
        None => Err(PlaceFault::Usage),
    }
}
