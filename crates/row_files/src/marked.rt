//! Marked lines of scripts.
use lab_base::Kind;
use row_words::RowFault;
use std::alloc::{AllocError, Global};

/// A script with marked lines: what stands before them, these lines, and what stands after them. A line `@` stands before and after the lines.
#[derive(Clone, Copy)]
pub struct Marked<'a> {
    pub before: &'a str,
    pub lines: &'a str,
    pub behind: &'a str,
}

impl<'a> Marked<'a> {
    pub fn of(script: &'a str) -> Result<Marked<'a>, RowFault> {
        let (before, rest) = script
            .split_once("@\n")
            .ok_or(RowFault::Word(Kind::Missing))?;
        let (lines, behind) = rest.split_once("@\n").ok_or(RowFault::Word(Kind::Missing))?;
        Ok(Marked {
            before,
            lines,
            behind,
        })
    }

    /// The script with its marked lines so often.
    pub fn times(&self, alloc: Global, count: u32) -> Result<String, AllocError> {
        let mut script = String::from_str(alloc, self.before)?;
        for _ in 0..count {
            script.push_str(self.lines)?;
        }
        script.push_str(self.behind)?;
        Ok(script)
    }
}
