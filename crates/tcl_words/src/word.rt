//! Commands, their words, and the parts of words.

use lab_base::Items;

/// The form in which a word is written.
#[derive(Clone, Copy, Drop)]
pub enum WordKind {
    Bare,
    Quoted,
    Braced,
}

/// A part of a word.
#[derive(Clone, Copy, Drop)]
pub enum Part {
    /// The bytes from `start` to `end`, which stand for themselves.
    Plain { start: u32, end: u32 },
    /// A byte by its escape, or the blank of a joined line.
    Escape { byte: u8 },
    /// A variable, from its `$` to after its name, its `}` or its index.
    Variable { start: u32, end: u32 },
    /// A script, without its brackets.
    Script { start: u32, end: u32 },
}

/// A word, with its quotes or braces.
#[derive(Drop)]
pub struct Word {
    pub kind: WordKind,
    pub start: u32,
    pub end: u32,
    pub parts: Items<Part>,
}

/// A command, with the line of its first word, from 1.
#[derive(Drop)]
pub struct Command {
    pub words: Items<Word>,
    pub line: u32,
}

/// A variable in a text: its name, its index if it has one, and the place after it.
#[derive(Drop)]
pub struct Reference {
    pub name_start: usize,
    pub name_end: usize,
    pub index: Option<Items<Part>>,
    pub end: usize,
}
