//! Commands of scripts.
use lab_base::{Memory, Text};
use lab_io::{LineReader, MemSource};
use plant::{How, Pick};
use script_text::*;
use std::alloc::Global;

fn how_word(how: How) -> &'static [u8] {
    match how {
        How::Applied => b"applied",
        How::Not => b"not",
        How::Hang => b"hang",
        How::Jump => b"jump",
        How::Read => b"read",
    }
}

fn pick_word(pick: Pick) -> &'static [u8] {
    match pick {
        Pick::Nothing => b"none",
        Pick::All => b"all",
        Pick::Torn => b"torn",
    }
}

/// The word of a command.
fn word_of(command: &Command) -> &'static [u8] {
    match command {
        Command::Ptop { .. } => b"ptop",
        Command::Create { .. } => b"create",
        Command::CreateTop { .. } => b"create-top",
        Command::Show { .. } => b"show",
        Command::Solve { .. } => b"solve",
        Command::Swapin { .. } => b"swapin",
        Command::SwapinWith { .. } => b"swapin-with",
        Command::Modify { .. } => b"modify",
        Command::ModifyWith { .. } => b"modify-with",
        Command::Swapout { .. } => b"swapout",
        Command::Turn { .. } => b"turn",
        Command::Finish { .. } => b"finish",
        Command::Fail { .. } => b"fail",
        Command::FailDisk { .. } => b"fail disk",
        Command::Stop { .. } => b"stop",
        Command::Play { .. } => b"play",
        Command::Batch { .. } => b"batch",
        Command::Delete { .. } => b"delete",
        Command::Recover => b"recover",
        Command::Status => b"status",
        Command::Audit => b"audit",
    }
}

/// The experiment or device of a command; the empty word where it names none.
fn name_of(command: &Command) -> &[u8] {
    match command {
        Command::Create { exp, .. }
        | Command::CreateTop { exp, .. }
        | Command::Show { exp }
        | Command::Solve { exp, .. }
        | Command::Swapin { exp, .. }
        | Command::SwapinWith { exp, .. }
        | Command::Modify { exp, .. }
        | Command::ModifyWith { exp, .. }
        | Command::Swapout { exp, .. }
        | Command::Turn { exp }
        | Command::Finish { exp }
        | Command::Play { exp, .. }
        | Command::Delete { exp } => exp.bytes(),
        Command::Fail { device, .. } => device.bytes(),
        _ => b"",
    }
}

/// Whether it is a swap that is opened only.
fn is_opened(command: &Command) -> bool {
    match command {
        Command::Swapin { only_begin, .. }
        | Command::SwapinWith { only_begin, .. }
        | Command::Modify { only_begin, .. }
        | Command::ModifyWith { only_begin, .. }
        | Command::Swapout { only_begin, .. } => *only_begin,
        _ => false,
    }
}

/// Adds a space and a word, unless that is empty.
fn push_word(seen: &mut Text, word: &[u8]) -> Result<(), Memory> {
    if word.is_empty() {
        return Ok(());
    }
    seen.push(b' ')?;
    seen.push_bytes(word)
}

fn push_count(seen: &mut Text, number: u64) -> Result<(), Memory> {
    seen.push(b' ')?;
    seen.push_number(number)
}

/// Adds a block, between angle brackets.
fn push_block(seen: &mut Text, block: &Text) -> Result<(), Memory> {
    seen.push_bytes(b" <")?;
    seen.push_bytes(block.bytes())?;
    seen.push(b'>')
}

/// Adds the number of lines of a block, and the block.
fn push_lines(seen: &mut Text, lines: u16, block: &Text) -> Result<(), Memory> {
    push_count(seen, u64::from(lines))?;
    push_block(seen, block)
}

/// Adds the number of a drill, and how its call ends.
fn push_drill(seen: &mut Text, command: &Command) -> Result<(), Memory> {
    match command {
        Command::Fail { nth, how, .. } => {
            push_count(seen, u64::from(*nth))?;
            push_word(seen, how_word(*how))
        }
        Command::FailDisk { nth } => push_count(seen, u64::from(*nth)),
        Command::Stop { nth, pick } => {
            push_count(seen, u64::from(*nth))?;
            push_word(seen, pick_word(*pick))
        }
        _ => Ok(()),
    }
}

/// Adds the moments and the block of a command that has a moment.
fn push_timed(seen: &mut Text, command: &Command) -> Result<(), Memory> {
    match command {
        Command::Play {
            from,
            to,
            lines,
            ns,
            ..
        } => {
            push_count(seen, *from)?;
            push_count(seen, *to)?;
            push_lines(seen, *lines, ns)
        }
        Command::Batch {
            moment,
            lines,
            text,
        } => {
            push_count(seen, *moment)?;
            push_lines(seen, *lines, text)
        }
        _ => push_drill(seen, command),
    }
}

/// Adds the numbers and blocks of a command that has a number before that of its lines, or two blocks.
fn push_many(seen: &mut Text, command: &Command) -> Result<(), Memory> {
    match command {
        Command::Modify {
            seed,
            lines,
            ns,
            ..
        } => {
            push_count(seen, *seed)?;
            push_lines(seen, *lines, ns)
        }
        Command::ModifyWith {
            top_lines,
            top,
            map_lines,
            map,
            ..
        } => {
            push_count(seen, u64::from(*top_lines))?;
            push_count(seen, u64::from(*map_lines))?;
            push_block(seen, top)?;
            push_block(seen, map)
        }
        _ => push_timed(seen, command),
    }
}

/// Adds what stands in a command after its word and its name: its numbers and blocks.
fn push_rest(seen: &mut Text, command: &Command) -> Result<(), Memory> {
    match command {
        Command::Ptop { lines, ptop } => push_lines(seen, *lines, ptop),
        Command::Create { lines, ns, .. } => push_lines(seen, *lines, ns),
        Command::CreateTop { lines, top, .. } => push_lines(seen, *lines, top),
        Command::SwapinWith { lines, map, .. } => push_lines(seen, *lines, map),
        Command::Solve { seed, .. } | Command::Swapin { seed, .. } => push_count(seen, *seed),
        _ => push_many(seen, command),
    }
}

/// Ends the line that stands, if one does.
fn end_line(seen: &mut Text) -> Result<(), Memory> {
    if seen.bytes().is_empty() {
        Ok(())
    } else {
        seen.push(b'\n')
    }
}

/// Adds a command by its words, on a line of its own.
fn add_command(seen: &mut Text, command: &Command) -> Result<(), Memory> {
    end_line(seen)?;
    if is_opened(command) {
        seen.push_bytes(b"open ")?;
    }
    seen.push_bytes(word_of(command))?;
    push_word(seen, name_of(command))?;
    push_rest(seen, command)
}

/// Adds the fault that ends a script.
fn push_fault(seen: &mut Text, fault: ScriptFault) -> Result<(), Memory> {
    end_line(seen)?;
    match fault {
        ScriptFault::Bad { line } => {
            seen.push_bytes(b"bad ")?;
            seen.push_number(line)
        }
        ScriptFault::ReadFault => seen.push_bytes(b"read fault"),
        ScriptFault::Memory => seen.push_bytes(b"memory"),
    }
}

/// Adds what is read next; tells whether it is a command.
fn add_next(seen: &mut Text, next: Result<Next, ScriptFault>) -> Result<bool, Memory> {
    match next {
        Ok(Next::Command(command)) => {
            let added = add_command(seen, &command);
            drop(command);
            added?;
            Ok(true)
        }
        Ok(Next::End) => Ok(false),
        Err(fault) => {
            push_fault(seen, fault)?;
            Ok(false)
        }
    }
}

/// The commands of a script by their words, and the line that is not in the grammar, if there is one.
pub fn told(alloc: Global, bytes: &[u8]) -> Result<Text, Memory> {
    let mut source = MemSource::new(alloc, bytes, &[])?;
    let mut lines = LineReader::new(alloc)?;
    let mut seen = Text::new(alloc);
    for _ in 0..1_000 {
        let next = read_command(alloc, &mut lines, &mut source);
        if !add_next(&mut seen, next)? {
            break;
        }
    }
    Ok(seen)
}
