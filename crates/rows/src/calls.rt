//! Calls whose answers no script tells: of readers and sinks in memory, of scripts of seeds, and of a plant in the files of a folder.
use lab_base::Kind;
use lab_gen::generate;
use lab_io::{Line, LineReader, MemSink, MemSource, write_all};
use layer_rows::{bytes_of, done_word, push_spelled, told_of_plant};
use plant::Plant;
use plant_file::FileLab;
use row_files::letters_in;
use row_words::{RowFault, Words};
use std::alloc::Global;
use std::fmt::Write;

/// Adds the line that a reader shows, with a `=` after it.
fn add_shown(
    out: &mut String,
    reader: &mut LineReader,
    source: &mut MemSource,
) -> Result<(), RowFault> {
    if let Ok(Some(line)) = reader.peek(source) {
        push_spelled(out, line.bytes())?;
        out.push('=')?;
    }
    Ok(())
}

/// The lines that a reader takes of these bytes, each after what it shows of it twice before, with a `|` after each.
pub fn lines(alloc: Global, spelled: &str) -> Result<String, RowFault> {
    let bytes = bytes_of(alloc, spelled)?;
    let mut source = MemSource::new(alloc, bytes.bytes(), &[])?;
    let mut reader = LineReader::new(alloc)?;
    let mut out = String::new(alloc);
    for _ in 0..100 {
        add_shown(&mut out, &mut reader, &mut source)?;
        add_shown(&mut out, &mut reader, &mut source)?;
        let Ok(Line::Text(line)) = reader.next(&mut source) else {
            break;
        };
        push_spelled(&mut out, line.bytes())?;
        out.push('|')?;
    }
    out.push('\n')?;
    Ok(out)
}

/// The answers of writes to a sink with room for so many bytes, whose write of that number fails, and what it has then.
pub fn sink(alloc: Global, room: usize, fails: u32, pieces: &[&str]) -> Result<String, RowFault> {
    let mut sink = MemSink::new(alloc, room, &[fails])?;
    let mut out = String::new(alloc);
    for piece in pieces {
        let answer = write_all(&mut sink, piece.as_bytes());
        out.push_str(if answer.is_ok() { "done " } else { "failed " })?;
    }
    push_spelled(&mut out, sink.bytes())?;
    out.push('\n')?;
    Ok(out)
}

/// How many bytes, commands and virtual nodes the script of a seed has.
fn add_sizes(out: &mut String, script: &str) -> Result<(), RowFault> {
    let (mut commands, mut nodes) = (0u32, 0u32);
    for line in script.lines() {
        let (word, rest) = line.split_once(' ').unwrap_or((line, ""));
        match word {
            "ptop" | "create-top" | "swapin" | "swapout" | "status" => {
                commands = commands.saturating_add(1);
            }
            "node" if rest.starts_with('v') => nodes = nodes.saturating_add(1),
            _ => {}
        }
    }
    Ok(writeln!(
        out,
        "{} bytes, {commands} commands, {nodes} nodes",
        script.len()
    )?)
}

/// How much the script of a seed has, and its lines of these numbers, from 0.
pub fn drawn(alloc: Global, seed: u64, numbers: &[&str]) -> Result<String, RowFault> {
    let script = generate(alloc, seed)?;
    let script = letters_in(alloc, script.bytes())?;
    let mut out = String::new(alloc);
    add_sizes(&mut out, script.as_str())?;
    for number in numbers {
        let line = script.lines().nth(number.parse()?).unwrap_or("");
        writeln!(out, "{line}")?;
    }
    Ok(out)
}

/// Writes or cuts a side, or reads some bytes of it, and adds the answer, if it is such an action.
fn told_of_side(
    out: &mut String,
    alloc: Global,
    plant: &mut FileLab<HostRuntime>,
    kind: &str,
    words: &mut Words<'_>,
) -> Result<bool, RowFault> {
    let side = match kind {
        "write" | "cut" | "part" => words.side()?,
        _ => return Ok(false),
    };
    let at = u64::from(words.number()?);
    match kind {
        "write" => {
            let bytes = bytes_of(alloc, words.word())?;
            out.push_str(done_word(plant.write(side, at, bytes.bytes())))?;
        }
        "cut" => out.push_str(done_word(plant.cut(side, at)))?,
        _ => {
            let mut part = [0u8; 3];
            let read = plant.read(side, at, &mut part);
            out.push_str(done_word(read))?;
            if read.is_ok() {
                out.push(' ')?;
                push_spelled(out, &part)?;
            }
        }
    }
    Ok(true)
}

/// Does an action over a plant in files, and adds its output in a line.
fn act(
    out: &mut String,
    alloc: Global,
    plant: &mut FileLab<HostRuntime>,
    action: &str,
) -> Result<(), RowFault> {
    let mut words = Words::new(action, 0);
    let kind = words.word();
    if !told_of_side(out, alloc, plant, kind, &mut words)?
        && !told_of_plant(out, plant, kind, &mut words)?
    {
        return Err(RowFault::Word(Kind::Unknown));
    }
    Ok(out.push('\n')?)
}

/// Does actions over plants in the files of one folder: those that begin with `other` by another plant.
fn act_all(
    out: &mut String,
    alloc: Global,
    plants: (&mut FileLab<HostRuntime>, &mut FileLab<HostRuntime>),
    actions: &str,
) -> Result<(), RowFault> {
    let (plant, other) = plants;
    for action in actions.split(';') {
        match action.trim().strip_prefix("other ") {
            Some(action) => act(out, alloc, other, action)?,
            None => act(out, alloc, plant, action.trim())?,
        }
    }
    Ok(())
}

/// The outputs of actions over a plant in the files of a folder.
pub fn calls(rt: &HostRuntime, folder: &str, actions: &str) -> Result<String, RowFault> {
    let mut plant = FileLab::new(rt, folder)?;
    let mut other = FileLab::new(rt, folder)?;
    let mut out = String::new(rt.alloc());
    let done = act_all(&mut out, rt.alloc(), (&mut plant, &mut other), actions);
    drop(other);
    drop(plant);
    done?;
    Ok(out)
}
