// The command line: what the words after the program's name choose.
use clap::error::ErrorKind;
use clap::{Arg, ArgAction, ArgMatches, Command, Error};
use std::alloc::Global;

/// A question about a folder.
#[derive(Clone, Copy)]
pub struct Asked<'a> {
    pub dir: &'a str,
    pub check: bool,
    /// A check is to list all records.
    pub records: bool,
    pub svg: bool,
}

/// Why words ask for nothing.
#[derive(Clone, Copy)]
pub enum WordsFault {
    /// They are a faulty command line.
    Usage,
    Memory,
}

/// The command `labview [--check [--records]] [--svg] DIR` on the words.
fn matches<'a>(alloc: Global, words: &'a [String]) -> Result<ArgMatches<'a>, Error> {
    let check = Arg::new(alloc, "check")
        .long("check")
        .action(ArgAction::SetTrue);
    let records = Arg::new(alloc, "records")
        .long("records")
        .action(ArgAction::SetTrue);
    let svg = Arg::new(alloc, "svg")
        .long("svg")
        .action(ArgAction::SetTrue);
    let dir = Arg::new(alloc, "dir").required(true);
    let command = Command::new(alloc, "labview")
        .no_binary_name(true)
        .disable_help_flag(true)
        .arg(check)?
        .arg(records)?
        .arg(svg)?
        .arg(dir)?;
    command.try_get_matches_from(words)
}

/// The question that words ask, if they are a command line.
pub fn read_words<'a>(alloc: Global, words: &'a [String]) -> Result<Asked<'a>, WordsFault> {
    let matches = match matches(alloc, words) {
        Ok(matches) => matches,
        Err(error) => {
            return Err(match error.kind() {
                ErrorKind::OutOfMemory => WordsFault::Memory,
                _ => WordsFault::Usage,
            });
        }
    };
    let check = matches.get_flag("check");
    let records = matches.get_flag("records");
    match matches.get_str("dir") {
        Some(dir) if check || !records => Ok(Asked {
            dir,
            check,
            records,
            svg: matches.get_flag("svg"),
        }),
        _ => Err(WordsFault::Usage),
    }
}
