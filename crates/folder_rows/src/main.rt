//! Runs the rows that standard input lists, one a line, over a folder in memory, and prints after each line what it tells:
//!
//! ```text
//! crashes ENDS FILE..    how many calls the script of the last file has after the others, and how often it is killed in them or power lost, each time
//!                        leading to one of the ends
//! reopened K ENDS FILE.. the same of the opening after the last file, whose run is killed in its K-th call
//! moved COUNT ENDS FILE..        the same of an opening after the files, where the marked lines of the last one stand so often
//! limit BYTES FILE       the reply to the third command of a script, where the journal has at most so many bytes
//! ```
//!
//! The scripts and ends that lines name lie in the folder where this runs. Lines are marked by a line `@` before and one after them.
#![tactic(auto)]

mod crashes;
mod limits;
mod row;
mod runs;

use anyhow::bail;
use mem_folder::MemFolder;
use row_words::RowFault;

/// Goes over the lines.
fn print_all(rt: &HostRuntime, slot: &mut Option<MemFolder>) -> anyhow::Result<()> {
    for line in rt.lines(rt.alloc()) {
        let line = line?;
        if !line.is_empty() && !line.starts_with('#') {
            match row::told(rt, line.as_str(), slot) {
                Ok(told) => print!(rt; "== {line}\n{told}")?,
                Err(RowFault::Word(kind)) => bail!("{}: {line}", kind.word()),
                Err(_) => bail!("a call failed: {line}"),
            }
        }
    }
    Ok(())
}

fn main(rt: HostRuntime) -> anyhow::Result<()> {
    let mut slot: Option<MemFolder> = None;
    let told = print_all(&rt, &mut slot);
    drop(slot);
    told
}
