//! Runs over a folder in memory, and what is left of it.
ghost use Rattle.std.specs.Prelude.{IfOk, IfSome};
ghost use Rattle.lab_folder.specs.Left.{IsLeft};
ghost use Rattle.mem_folder.specs.MemTold.{held_of};

use folder::{Folder, FolderFiles, NamedFolder};
use lab_base::Memory;
use lab_folder::{After, folders, run_over};
use lab_io::{MemSink, MemSource};
use mem_folder::MemFolder;
use plant::Pick;
use row_files::letters_in;
use row_words::RowFault;
use std::alloc::Global;
use std::fmt::Write;

/// A folder in which nothing has happened.
pub fn blank(alloc: Global) -> Result<MemFolder, Memory>
    ensures { IfOk result (λ folder. IsLeft (held_of folder)) }
{
    folders();
    match MemFolder::new(alloc) {
        Ok(folder) => Ok(folder),
        Err(memory) => Err(memory),
    }
}

/// Puts such a folder in the place of the last one.
pub fn begin(alloc: Global, slot: &mut Option<MemFolder>) -> Result<(), Memory>
    ensures { IfSome slot.new (λ folder. IsLeft (held_of folder)) }
{
    *slot = None;
    match blank(alloc) {
        Ok(folder) => {
            *slot = Some(folder);
            Ok(())
        }
        Err(memory) => Err(memory),
    }
}

/// Runs the program over a folder.
fn run_through(
    alloc: Global,
    source: &mut MemSource,
    sink: &mut MemSink,
    folder: MemFolder,
) -> MemFolder
    requires { IsLeft (held_of folder) }
    ensures { IsLeft (held_of result) }
{
    let words = Vec::new(alloc);
    let named = NamedFolder::over(alloc, folder);
    let After { folder, .. } = run_over(alloc, &words, source, sink, named);
    folder.into_files()
}

/// The output of a script over the folder.
pub fn run(alloc: Global, script: &str, slot: &mut Option<MemFolder>) -> Result<String, RowFault>
    requires { IfSome slot.old (λ folder. IsLeft (held_of folder)) }
    ensures { IfSome slot.new (λ folder. IsLeft (held_of folder)) }
{
    let mut source = MemSource::new(alloc, script.as_bytes(), &[])?;
    let mut sink = MemSink::new(alloc, 65_536, &[])?;
    if let Some(folder) = slot.take() {
        *slot = Some(run_through(alloc, &mut source, &mut sink, folder));
    }
    letters_in(alloc, sink.bytes())
}

/// Plans that the next run is cut off in its call of that number.
pub fn stop_in(slot: &mut Option<MemFolder>, nth: u64, is_done: bool)
    requires { IfSome slot.old (λ folder. IsLeft (held_of folder)) }
    ensures { IfSome slot.new (λ folder. IsLeft (held_of folder)) }
{
    if let Some(folder) = slot {
        folder.stop_in(nth, is_done);
    }
}

/// Whether the last run was cut off.
pub fn is_cut_off(slot: &Option<MemFolder>) -> bool {
    match slot {
        Some(folder) => folder.stopped(),
        None => false,
    }
}

/// How many older texts a loss of power may leave.
pub fn olds(slot: &Option<MemFolder>) -> usize {
    match slot {
        Some(folder) => folder.olds(),
        None => 0,
    }
}

/// The folder after a loss of power, where there are so many older texts. It is a kill where the pick leaves all, and the newest text is left.
fn lost(folder: MemFolder, pick: Pick, back: usize) -> Result<MemFolder, Memory>
    requires { IsLeft (held_of folder) }
    ensures { IfOk result (λ folder. IsLeft (held_of folder)) }
{
    folders();
    if folder.olds() < back {
        return Err(Memory);
    }
    match folder.lose(pick, back) {
        Ok(folder) => Ok(folder),
        Err(memory) => Err(memory),
    }
}

/// Loses power.
pub fn lose(slot: &mut Option<MemFolder>, pick: Pick, back: usize) -> Result<(), Memory>
    requires { IfSome slot.old (λ folder. IsLeft (held_of folder)) }
    ensures { IfSome slot.new (λ folder. IsLeft (held_of folder)) }
{
    match slot.take() {
        Some(folder) => match lost(folder, pick, back) {
            Ok(folder) => {
                *slot = Some(folder);
                Ok(())
            }
            Err(memory) => Err(memory),
        },
        None => Ok(()),
    }
}

/// The lines of a text, in order.
fn in_order(alloc: Global, text: &str) -> Result<String, RowFault> {
    let mut lines: Vec<&str> = text.lines().collect(alloc)?;
    lines.sort()?;
    let mut out = String::new(alloc);
    for line in &lines {
        writeln!(out, "{line}")?;
    }
    Ok(out)
}

/// The text of the tables, its lines in order. It takes the folder.
pub fn tables(alloc: Global, slot: &mut Option<MemFolder>) -> Result<String, RowFault> {
    match slot.take() {
        Some(folder) => {
            let mut named = NamedFolder::over(alloc, folder);
            let text = letters_in(alloc, &named.text()?)?;
            in_order(alloc, text.as_str())
        }
        None => Err(RowFault::Plant),
    }
}
