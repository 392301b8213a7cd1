//! The outputs of rows. A row is a line of words, of which the first one says what is run and what its output has:
//!
//! ```text
//! script FILE [WORDS]    the script by the words, over the folder that they choose or else a blank plant: what it writes, and how it ends
//! steps FILE [WORDS]     the same over a blank plant, and how many steps it has then: an opening of blank sides has 8, and an append 4
//! devices FILE           the same, with what the devices did, and what they hold then
//! again FILE             over the plant that the row before left
//! faulty R W ROOM FILE [WORDS]   the R-th read or the W-th write fails (0: none), and there is room for so many bytes
//! side A [B] FILE        over a plant whose side A has the bytes of a file, and side B those of another
//! sides                  how long both sides are that the row before left, and what is in them where that is little
//! like FILE              whether its side A has the bytes of the file, and its side B none
//! room                   how many commands and writes of 65,536 bytes a plant in memory takes before it stops, at first and after a restart
//! lines BYTES            the lines that a reader takes of these bytes, each after what it shows of it twice before
//! sink ROOM N PIECES     the answers of writes to a sink with room for so many bytes, whose N-th write fails, and what it has then
//! drawn SEED N..         how much the script of a seed has, and its lines of these numbers, from 0
//! calls FOLDER ACTIONS   calls of a plant in the files of a folder, or of another such plant: those actions of `layer_rows` that any plant takes, and
//!                        write SIDE AT BYTES, cut SIDE LENGTH, part SIDE AT
//! place WORDS            where the words keep the lab
//! file FILE              what is in the file
//! there FILE             whether the file or folder is there
//! remove FOLDER          nothing, and the folder is gone
//! repeats LAST FILE      the steps where the marked lines of the script stand 0, 1, .. LAST times
//! long COUNT FILE        what is written where they stand so often
//! each_drill LAST DRILL FILE     what is written where the drill of number 1, 2, .. LAST stands at the mark
//! cuts CALLS ENDS FILE.. how many numbers of each drill cut the command of the last file, after the others, each leading to one of the ends
//! reported CALLS ENDS FILE..     the same of failures, where `status` stands twice after the command, and then `recover`
//! order LETTERS END [DRILL , ..]         whether swaps that are turned in that order lead to the end
//! ```
//!
//! A blank plant is one in which nothing has happened. Lines are marked by a line `@` before and one after them, and a place by one.
use crate::calls::{calls, drawn, lines, sink};
use crate::cuts::{Cut, RECOVERS, TELLS, add_cuts, order};
use crate::devices::{add_did, add_held};
use crate::drills::drill_named;
use crate::folders::{folder_of, place, run_in, words_of};
use crate::numbers::{long, numbers, turns};
use crate::room::room;
use crate::run::{Given, blank, ended, plainly};
use crate::sides::{fill, like, sides};
use lab_base::Kind;
use layer_rows::yes_or_no;
use plant::Side;
use plant_mem::MemLab;
use row_files::{bytes_in, ends_of, is_there, remove, script_of, scripts_of, text_in};
use row_words::RowFault;
use std::fmt::Write;

/// The plant that the row before left.
fn kept(last: &mut Option<MemLab>) -> Result<&mut MemLab, RowFault> {
    last.as_mut().ok_or(RowFault::Plant)
}

/// Runs a script by words over the folder that they choose, or else over a blank plant.
fn script(
    rt: &HostRuntime,
    file: &str,
    words: &[&str],
    last: &mut Option<MemLab>,
) -> Result<String, RowFault> {
    let script = script_of(rt, file)?;
    let words = words_of(rt.alloc(), words)?;
    let given = Given {
        words: words.as_slice(),
        ..plainly(script.as_str())
    };
    match folder_of(rt.alloc(), words.as_slice())? {
        Some(folder) => run_in(rt, folder.as_str(), given),
        None => ended(rt.alloc(), given, blank(rt.alloc(), last)?),
    }
}

/// Runs a script by words over a blank plant, with the numbers of a failing read and write, and of bytes of room.
fn faulty(
    rt: &HostRuntime,
    numbers: [&str; 3],
    file: &str,
    words: &[&str],
    last: &mut Option<MemLab>,
) -> Result<String, RowFault> {
    let script = script_of(rt, file)?;
    let words = words_of(rt.alloc(), words)?;
    let [read, write, room] = numbers;
    let given = Given {
        words: words.as_slice(),
        script: script.as_str(),
        read: read.parse()?,
        write: write.parse()?,
        room: room.parse()?,
    };
    ended(rt.alloc(), given, blank(rt.alloc(), last)?)
}

/// Runs a script by words over a blank plant, and tells the number of its steps.
fn steps(
    rt: &HostRuntime,
    file: &str,
    words: &[&str],
    last: &mut Option<MemLab>,
) -> Result<String, RowFault> {
    let mut out = faulty(rt, ["0", "0", "65536"], file, words, last)?;
    writeln!(out, "steps {}", kept(last)?.trace().len())?;
    Ok(out)
}

/// Runs a script over a blank plant, and tells the commands and the states of its devices.
fn devices(rt: &HostRuntime, file: &str, last: &mut Option<MemLab>) -> Result<String, RowFault> {
    let mut out = faulty(rt, ["0", "0", "65536"], file, &[], last)?;
    let plant = kept(last)?;
    add_did(&mut out, rt.alloc(), plant)?;
    add_held(&mut out, rt.alloc(), plant)?;
    Ok(out)
}

/// Runs a script over the plant that the row before left.
fn again(rt: &HostRuntime, file: &str, last: &mut Option<MemLab>) -> Result<String, RowFault> {
    let script = script_of(rt, file)?;
    ended(rt.alloc(), plainly(script.as_str()), kept(last)?)
}

/// Puts a plant whose sides have the bytes of these files in the place of the last one: side A those of the first, and side B those of the second,
/// if there is one.
fn fill_both(rt: &HostRuntime, files: &[&str], last: &mut Option<MemLab>) -> Result<(), RowFault> {
    let plant = blank(rt.alloc(), last)?;
    for (n, file) in files.iter().enumerate() {
        let side = if n == 0 { Side::A } else { Side::B };
        fill(plant, side, &bytes_in(rt, file)?)?;
    }
    Ok(())
}

/// Cuts the command of the last file by stops and failures, after which what is stuck is recovered; or by failures alone, of which is told twice
/// before.
fn cuts(
    rt: &HostRuntime,
    is_told: bool,
    calls: u32,
    names: [&str; 2],
    others: &[&str],
    last: &mut Option<MemLab>,
) -> Result<String, RowFault> {
    let ends = ends_of(rt, names[0])?;
    let before = scripts_of(rt, others)?;
    let command = script_of(rt, names[1])?;
    let cut = Cut {
        before: before.as_str(),
        command: command.as_str(),
        ends: ends.as_slice(),
    };
    let mut out = String::new(rt.alloc());
    let then = if is_told { TELLS } else { RECOVERS };
    if !is_told {
        add_cuts(&mut out, rt.alloc(), cut, None, last)?;
    }
    add_cuts(&mut out, rt.alloc(), cut, Some((then, calls)), last)?;
    Ok(out)
}

/// Whether swaps that are turned in an order lead to an end.
fn ordered(
    rt: &HostRuntime,
    letters: &str,
    end: &str,
    drills: &[&str],
    last: &mut Option<MemLab>,
) -> Result<String, RowFault> {
    let ends = ends_of(rt, end)?;
    order(
        rt.alloc(),
        script_of(rt, "orders/opened")?,
        letters,
        ends.as_slice(),
        drills,
        last,
    )
}

/// The text of a row about files alone, or about what a plant takes.
fn told_alone(
    rt: &HostRuntime,
    words: &[&str],
    last: &mut Option<MemLab>,
) -> Result<String, RowFault> {
    match words {
        ["room"] => room(rt.alloc(), last),
        ["lines"] => lines(rt.alloc(), ""),
        ["lines", bytes] => lines(rt.alloc(), bytes),
        ["sink", room, fails, pieces @ ..] => {
            sink(rt.alloc(), room.parse()?, fails.parse()?, pieces)
        }
        ["drawn", seed, numbers @ ..] => drawn(rt.alloc(), seed.parse()?, numbers),
        ["place", words @ ..] => place(rt.alloc(), &words_of(rt.alloc(), words)?),
        ["file", file] => text_in(rt, file),
        ["there", file] => Ok(format!(in rt.alloc(); "{}\n", yes_or_no(is_there(rt, file)))?),
        ["remove", folder] => {
            remove(rt, folder)?;
            Ok(String::new(rt.alloc()))
        }
        _ => Err(RowFault::Word(Kind::Unknown)),
    }
}

/// The output of a row about scripts with drills or lines of many numbers.
fn told_of_numbers(
    rt: &HostRuntime,
    words: &[&str],
    last: &mut Option<MemLab>,
) -> Result<String, RowFault> {
    match words {
        ["repeats", most, file] => {
            turns(
                rt.alloc(),
                script_of(rt, file)?.as_str(),
                most.parse()?,
                last,
            )
        }
        ["long", count, file] => {
            long(
                rt.alloc(),
                script_of(rt, file)?.as_str(),
                count.parse()?,
                last,
            )
        }
        ["each_drill", most, drill, file] => {
            let script = script_of(rt, file)?;
            numbers(
                rt.alloc(),
                script.as_str(),
                drill_named(drill)?,
                most.parse()?,
                last,
            )
        }
        ["cuts", calls, ends, others @ .., file] => {
            cuts(rt, false, calls.parse()?, [*ends, *file], others, last)
        }
        ["reported", calls, ends, others @ .., file] => {
            cuts(rt, true, calls.parse()?, [*ends, *file], others, last)
        }
        ["order", letters, end, drills @ ..] => ordered(rt, letters, end, drills, last),
        _ => told_alone(rt, words, last),
    }
}

/// The output of a row of these words, over the plant that the row before left, or over one that is left to the next row.
fn told_of(
    rt: &HostRuntime,
    words: &[&str],
    last: &mut Option<MemLab>,
) -> Result<String, RowFault> {
    match words {
        ["script", file, words @ ..] => script(rt, file, words, last),
        ["steps", file, words @ ..] => steps(rt, file, words, last),
        ["devices", file] => devices(rt, file, last),
        ["faulty", read, write, room, file, words @ ..] => {
            faulty(rt, [*read, *write, *room], file, words, last)
        }
        ["again", file] => again(rt, file, last),
        ["side", sides @ .., file] => {
            fill_both(rt, sides, last)?;
            again(rt, file, last)
        }
        ["sides"] => sides(rt.alloc(), kept(last)?),
        ["like", file] => like(rt.alloc(), kept(last)?, &bytes_in(rt, file)?),
        _ => told_of_numbers(rt, words, last),
    }
}

/// The output of a row.
pub fn told(rt: &HostRuntime, line: &str, last: &mut Option<MemLab>) -> Result<String, RowFault> {
    if let Some((folder, actions)) = line
        .strip_prefix("calls ")
        .and_then(|rest| rest.split_once(' '))
    {
        return calls(rt, folder, actions);
    }
    let words: Vec<&str> = line.split_whitespace().collect(rt.alloc())?;
    told_of(rt, &words, last)
}
