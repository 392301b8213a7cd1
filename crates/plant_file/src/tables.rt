// The tables, with their text.
ghost use Rattle.std.specs.Prelude.{◌≡◌, ◌<◌, ◌++◌, ◌∷◌, [], Ok, OnOk, OnErr, length, true};
ghost use Rattle.std.specs.List.{find, list_all};
ghost use Rattle.line_text.specs.Refusals.{Reads};
ghost use Rattle.plant_file.specs.Entries.{is_keyed, without};
ghost use Rattle.plant_file.specs.Kept.{entries_of};
ghost use Rattle.plant_file.specs.Lines.{tables_text, tables_of_text};
ghost use Rattle.plant_file.specs.Printable.{is_printable};

use crate::entry::{Entry, Key};
use crate::lines_kept::{Line, find_line, put_line, take_out};
use lab_base::{Memory, TEXT_LIMIT, TextRefused};
use line_text::read_lines;
use plant::Answer;
use std::alloc::Global;
use std::marker::Model;

/// The tables after a command, and its answer.
#[derive(Drop)]
pub struct Obeyed {
    pub tables: Tables,
    pub answer: Answer,
}

/// The tables, whose text is at hand: a command changes the lines that it is about, and prints no other.
///
/// Contracts see the entries.
#[derive(Drop)]
pub struct Tables {
    lines: Vec<Line>,
    text: Vec<u8>,
}

impl Model for Tables {
    ghost use Rattle.std.specs.Prelude.{List};
    ghost use Rattle.plant_file.specs.Kept.{entries_of, AreKept};
    ghost use Rattle.plant_file.specs.declared.entry.Entry.{Entry};

    ghost Value = { List Entry };

    ghost view = { λ tables. entries_of tables.lines.items };

    ghost invariant = { λ tables. AreKept tables.lines.items tables.text.items };
}

impl Tables {
    /// Tables that say nothing.
    pub fn new(alloc: Global) -> Tables
        ensures { result ≡ [] }
    {
        Tables {
            lines: Vec::new(alloc),
            text: Vec::new(alloc),
        }
    }

    /// The tables of a text.
    pub fn read(alloc: Global, text: &[u8]) -> Result<Tables, TextRefused>
        requires { length text.now < TEXT_LIMIT }
        ensures { Reads result (tables_of_text text.now) }
    {
        let mut tables = Tables::new(alloc);
        read_lines(alloc, text, &mut tables)?;
        Ok(tables)
    }

    /// Their text.
    pub fn text(&self) -> &[u8]
        ensures text { result.now ≡ tables_text self.now }
        ensures again { tables_of_text result.now ≡ Ok self.now }
    {
        self.text.as_slice()
    }

    /// The lines, each with its entry.
    pub(crate) fn lines(&self) -> &[Line]
        ensures entries { entries_of result.now ≡ self.now }
        ensures printable { list_all is_printable self.now ≡ true }
    {
        self.lines.as_slice()
    }

    /// Adds an entry at the end.
    pub(crate) fn put(&mut self, alloc: Global, entry: Entry) -> Result<(), Memory>
        ensures ok { OnOk result (self.new ≡ self.old ++ entry ∷ []) }
        ensures err { OnErr result (self.new ≡ self.old) }
    {
        put_line(&mut self.lines, &mut self.text, alloc, entry)
    }

    /// Takes the entries of that key out.
    pub(crate) fn take_out(&mut self, key: &Key)
        ensures { self.new ≡ without (is_keyed key.now) self.old }
    {
        take_out(&mut self.lines, &mut self.text, key);
    }

    /// The first entry of that key.
    pub(crate) fn find(&self, key: &Key) -> Option<Entry>
        ensures { result ≡ find (is_keyed key.now) self.now }
    {
        find_line(&self.lines, &self.text, key)
    }
}
