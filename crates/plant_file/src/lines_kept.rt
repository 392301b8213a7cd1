// Lines beside the text that they make up.
ghost use Rattle.std.specs.Prelude.{◌≡◌, ◌<◌, ◌≤◌, ◌+◌, ◌++◌, ◌∷◌, [], IfOk, OnOk, OnErr, IsTrue, IsFalse, length, take, drop, vec_len};
ghost use Rattle.std.specs.List.{find};
ghost use Rattle.line_text.specs.Printing.{line_text};
ghost use Rattle.plant_file.specs.Entries.{is_keyed, without};
ghost use Rattle.plant_file.specs.Lines.{entry_fields};
ghost use Rattle.plant_file.specs.Kept.{entries_of, IsLine, AreKept, IsSpot};
ghost use Rattle.plant_file.specs.Marks.{key_mark};

use crate::entry::{Entry, Key};
use crate::print::print_entry;
use lab_base::{Memory, Text};
use std::alloc::Global;

/// A line of the tables: what it says, how many bytes it has in the text, and the mark of its key. It is small, since a search goes
/// over all.
#[derive(Drop)]
pub struct Line {
    pub(crate) entry: Box<Entry>,
    pub(crate) size: usize,
    pub(crate) mark: u64,
}

/// Where a line stands: its number, and where its bytes begin.
#[derive(Clone, Copy)]
pub struct Spot {
    pub(crate) line: usize,
    pub(crate) at: usize,
}

/// Takes bytes out of a text.
fn cut(text: &mut Vec<u8>, at: usize, size: usize)
    requires { at + size ≤ vec_len text.old }
    ensures { text.new.items ≡ take at text.old.items ++ drop (at + size) text.old.items }
{
    let len = text.len();
    text.copy_within(at + size..len, at);
    text.truncate(len - size);
}

/// Whether a line has a key of that mark.
fn has_key(line: &Line, key: &Key, mark: u64) -> bool
    requires line { IsLine line.now }
    requires mark { mark ≡ key_mark key.now }
    ensures { result ≡ is_keyed key.now line.now.entry.value }
{
    line.mark == mark && line.entry.is_keyed(key)
}

/// A text without its first bytes.
fn behind(text: &[u8], size: usize) -> &[u8]
    requires { size ≤ length text.now }
    ensures { result.now ≡ drop size text.now }
{
    &text[size..]
}

/// The first line of that key.
fn spot_of(lines: &[Line], text: &[u8], key: &Key) -> Option<Spot>
    requires { AreKept lines.now text.now }
    ensures { IsSpot key.now lines.now result }
{
    let mark = key.mark();
    let mut rest = text;
    let mut line = 0;
    for here in lines {
        if has_key(here, key, mark) {
            let at = text.len() - rest.len();
            return Some(Spot { line, at });
        }
        rest = behind(rest, here.size);
        line += 1;
    }
    None
}

/// Takes the first line of that key out, and tells whether there was one.
fn take_one(lines: &mut Vec<Line>, text: &mut Vec<u8>, key: &Key) -> bool
    requires { AreKept lines.old.items text.old.items }
    ensures kept { AreKept lines.new.items text.new.items }
    ensures others { without (is_keyed key.now) (entries_of lines.new.items) ≡ without (is_keyed key.now) (entries_of lines.old.items) }
    ensures fewer { IsTrue result → vec_len lines.new < vec_len lines.old }
    ensures none { IsFalse result → without (is_keyed key.now) (entries_of lines.new.items) ≡ entries_of lines.new.items }
{
    match spot_of(lines, text, key) {
        Some(spot) => {
            let gone = lines.remove(spot.line);
            cut(text, spot.at, gone.size);
            true
        }
        None => false,
    }
}

/// Takes the lines of that key out.
pub(crate) fn take_out(lines: &mut Vec<Line>, text: &mut Vec<u8>, key: &Key)
    requires { AreKept lines.old.items text.old.items }
    ensures kept { AreKept lines.new.items text.new.items }
    ensures without { entries_of lines.new.items ≡ without (is_keyed key.now) (entries_of lines.old.items) }
{
    while take_one(lines, text, key) {}
}

/// The line of an entry that has this text.
fn line_of(alloc: Global, entry: Entry, own: &Text) -> Result<Line, Memory>
    requires { own.now ≡ line_text (entry_fields entry) }
    ensures line { IfOk result IsLine }
    ensures entry { IfOk result (λ line. line.entry.value ≡ entry) }
{
    let mark = entry.key().mark();
    let entry = Box::new(alloc, entry)?;
    Ok(Line {
        entry,
        size: own.len(),
        mark,
    })
}

/// Adds a line at the end.
pub(crate) fn put_line(
    lines: &mut Vec<Line>,
    text: &mut Vec<u8>,
    alloc: Global,
    entry: Entry,
) -> Result<(), Memory>
    requires { AreKept lines.old.items text.old.items }
    ensures kept { AreKept lines.new.items text.new.items }
    ensures ok { OnOk result (entries_of lines.new.items ≡ entries_of lines.old.items ++ entry ∷ []) }
    ensures err { OnErr result (entries_of lines.new.items ≡ entries_of lines.old.items) }
{
    let own = print_entry(alloc, &entry)?;
    let line = line_of(alloc, entry, &own)?;
    let before = text.len();
    text.extend_from_slice(own.bytes())?;
    match lines.push(line) {
        Ok(()) => Ok(()),
        Err(_) => {
            text.truncate(before);
            Err(Memory)
        }
    }
}

/// The first entry of that key.
pub(crate) fn find_line(lines: &[Line], text: &[u8], key: &Key) -> Option<Entry>
    requires { AreKept lines.now text.now }
    ensures { result ≡ find (is_keyed key.now) (entries_of lines.now) }
{
    match spot_of(lines, text, key) {
        Some(spot) => Some(*lines[spot.line].entry),
        None => None,
    }
}
