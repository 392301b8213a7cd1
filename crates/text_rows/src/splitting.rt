//! The commands and words of Tcl texts.
use lab_base::Text;
use row_words::RowFault;
use std::alloc::{AllocError, Global};
use std::fmt::Write;
use tcl_words::{Command, Part, Word, WordKind, split};

fn show_part(out: &mut String, part: Part) -> Result<(), AllocError> {
    match part {
        Part::Plain { start, end } => write!(out, "p{start}-{end}"),
        Part::Escape { byte } => write!(out, "e{byte}"),
        Part::Variable { start, end } => write!(out, "v{start}-{end}"),
        Part::Script { start, end } => write!(out, "s{start}-{end}"),
    }
}

fn show_word(out: &mut String, word: &Word) -> Result<(), AllocError> {
    let kind = match word.kind {
        WordKind::Bare => 'b',
        WordKind::Quoted => 'q',
        WordKind::Braced => 'r',
    };
    write!(out, " {kind}{}-{}", word.start, word.end)?;
    for part in word.parts.as_slice() {
        out.push(':')?;
        show_part(out, *part)?;
    }
    Ok(())
}

fn show_command(out: &mut String, command: &Command) -> Result<(), AllocError> {
    write!(out, "|{}", command.line)?;
    for word in command.words.as_slice() {
        show_word(out, word)?;
    }
    Ok(())
}

fn show_commands(out: &mut String, commands: &[Command]) -> Result<(), AllocError> {
    for command in commands {
        show_command(out, command)?;
    }
    Ok(())
}

/// The commands as `|LINE` and the words, each by the first letter of its kind, its span and its parts.
pub fn told(alloc: Global, text: &[u8]) -> Result<Text, RowFault> {
    let mut out = String::new(alloc);
    if text.len() > 1000 {
        return Ok(Text::from_slice(alloc, b"long")?);
    }
    match split(alloc, text) {
        Ok(commands) => {
            let shown = show_commands(&mut out, &commands);
            drop(commands);
            shown?;
            Ok(Text::from_slice(alloc, out.as_bytes())?)
        }
        Err(refused) => Err(RowFault::from(refused)),
    }
}
