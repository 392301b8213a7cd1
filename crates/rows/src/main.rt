//! Runs the rows that standard input lists, one a line, and prints after each line its output. A line in brackets tells the kind of the rows
//! below it. Rows of `[texts]`, `[labs]`, `[layers]` and `[searches]` are of the libraries `text_rows`, `lab_rows`, `layer_rows` and `search_rows`.
//! The last two words of a row of the last of these name files, of which it has the texts. Rows of `[scripts]` are of the whole program. The module
//! `row` lists their forms.
//!
//! The scripts and the other files that lines name lie in the folder where this runs. Those of `demo` must equal the files of the
//! repository's folder of that name, which users run.
#![tactic(auto)]

mod calls;
mod cuts;
mod devices;
mod drills;
mod folders;
mod numbers;
mod room;
mod row;
mod run;
mod sides;

use anyhow::{anyhow, bail};
use lab_base::Text;
use lab_rows::Texts;
use plant_mem::MemLab;
use row_words::RowFault;
use std::{fs, str};

/// The kinds of rows.
#[derive(Clone, Copy)]
enum Of {
    Texts,
    Labs,
    Layers,
    Searches,
    Scripts,
}

/// The kind of the rows below a line, if it begins some.
fn begun(line: &str) -> Option<Of> {
    match line {
        "[texts]" => Some(Of::Texts),
        "[labs]" => Some(Of::Labs),
        "[layers]" => Some(Of::Layers),
        "[searches]" => Some(Of::Searches),
        "[scripts]" => Some(Of::Scripts),
        _ => None,
    }
}

/// Prints a row with what it tells, which for a text that is refused is the fault.
fn print_row(rt: &HostRuntime, line: &str, told: Result<Text, RowFault>) -> anyhow::Result<()> {
    match told {
        Ok(told) => println!(rt; "== {line}\n{}", str::from_utf8(told.bytes())?)?,
        Err(RowFault::Text(fault)) => {
            println!(rt; "== {line}\n{} {}", fault.line, fault.kind.word())?;
        }
        Err(RowFault::Word(kind)) => bail!("{}: {line}", kind.word()),
        Err(RowFault::Plant) => bail!("a call failed: {line}"),
        Err(RowFault::Memory) => bail!("out of memory"),
    }
    Ok(())
}

fn print_lab(rt: &HostRuntime, texts: &mut Texts, line: &str) -> anyhow::Result<()> {
    match lab_rows::told(rt.alloc(), texts, line) {
        Ok(Some(told)) => print_row(rt, line, Ok(told)),
        Ok(None) => Ok(()),
        Err(row_fault) => print_row(rt, line, Err(row_fault)),
    }
}

/// Prints a row of a search, whose last two words are files.
fn print_search(rt: &HostRuntime, line: &str) -> anyhow::Result<()> {
    let words: Vec<&str> = line.split_whitespace().collect(rt.alloc())?;
    let [kind, times, ptop, text] = *words.as_slice() else {
        bail!("no such row: {line}");
    };
    let (ptop, text) = (fs::read(rt, ptop)?, fs::read(rt, text)?);
    print_row(
        rt,
        line,
        search_rows::told(rt.alloc(), kind, times, &ptop, &text),
    )
}

fn print_script(rt: &HostRuntime, last: &mut Option<MemLab>, line: &str) -> anyhow::Result<()> {
    match row::told(rt, line, last) {
        Ok(told) => Ok(print!(rt; "== {line}\n{told}")?),
        Err(row_fault) => print_row(rt, line, Err(row_fault)),
    }
}

/// Prints a row with its output.
fn print_output(
    rt: &HostRuntime,
    of: Option<Of>,
    texts: &mut Texts,
    last: &mut Option<MemLab>,
    line: &str,
) -> anyhow::Result<()> {
    match of {
        Some(Of::Texts) => print_row(rt, line, text_rows::told(rt.alloc(), line)),
        Some(Of::Labs) => print_lab(rt, texts, line),
        Some(Of::Layers) => print_row(rt, line, layer_rows::told(rt.alloc(), line)),
        Some(Of::Searches) => print_search(rt, line),
        Some(Of::Scripts) => print_script(rt, last, line),
        None => Err(anyhow!("no line says of what this is: {line}")),
    }
}

/// Goes over the lines.
fn print_all(rt: &HostRuntime, texts: &mut Texts, last: &mut Option<MemLab>) -> anyhow::Result<()> {
    let mut of = None;
    for line in rt.lines(rt.alloc()) {
        let line = line?;
        if let Some(other) = begun(line.as_str()) {
            of = Some(other);
            println!(rt; "{line}")?;
        } else if !line.is_empty() && !line.starts_with('#') {
            print_output(rt, of, texts, last, line.as_str())?;
        }
    }
    Ok(())
}

fn main(rt: HostRuntime) -> anyhow::Result<()> {
    let mut texts = Texts::new(rt.alloc());
    let mut last: Option<MemLab> = None;
    let told = print_all(&rt, &mut texts, &mut last);
    drop(last);
    drop(texts);
    told
}
