//! The outputs of rows.
use crate::crashes::{Case, crashes};
use crate::limits::limit;
use lab_base::Kind;
use mem_folder::MemFolder;
use row_files::{Marked, ends_of, script_of, scripts_of};
use row_words::RowFault;

/// The script of an opening.
pub const OPENING: &str = "status\nshow A\naudit\n";

/// Which run a row cuts off: that of the last file, the opening after that where it is killed in its call of a number, or the opening after that
/// where its marked lines stand so often.
#[derive(Clone, Copy)]
enum Of {
    Last,
    Killed(u64),
    Many(u32),
}

/// Cuts a run off in each of its calls.
fn cut_off(
    rt: &HostRuntime,
    of: Of,
    ends: &str,
    files: &[&str],
    slot: &mut Option<MemFolder>,
) -> Result<String, RowFault> {
    let [others @ .., last] = files else {
        return Err(RowFault::Word(Kind::Missing));
    };
    let ends = ends_of(rt, ends)?;
    let mut before = scripts_of(rt, others)?;
    let last = script_of(rt, last)?;
    if let Of::Many(count) = of {
        before.push_str(
            Marked::of(last.as_str())?
                .times(rt.alloc(), count)?
                .as_str(),
        )?;
    }
    let case = Case {
        before: before.as_str(),
        killed: match of {
            Of::Killed(nth) => Some((last.as_str(), nth)),
            _ => None,
        },
        command: if matches!(of, Of::Last) {
            last.as_str()
        } else {
            OPENING
        },
        ends: ends.as_slice(),
    };
    crashes(rt.alloc(), &case, slot)
}

/// The output of a row.
pub fn told(
    rt: &HostRuntime,
    line: &str,
    slot: &mut Option<MemFolder>,
) -> Result<String, RowFault> {
    let words: Vec<&str> = line.split_whitespace().collect(rt.alloc())?;
    match words.as_slice() {
        ["crashes", ends, files @ ..] => cut_off(rt, Of::Last, ends, files, slot),
        ["reopened", nth, ends, files @ ..] => {
            cut_off(rt, Of::Killed(nth.parse()?), ends, files, slot)
        }
        ["moved", count, ends, files @ ..] => {
            cut_off(rt, Of::Many(count.parse()?), ends, files, slot)
        }
        ["limit", bytes, file] => limit(rt, bytes.parse()?, file),
        _ => Err(RowFault::Word(Kind::Unknown)),
    }
}
