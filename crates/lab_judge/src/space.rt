// The space that a journal has for records.
ghost use Rattle.std.specs.Prelude.{◌≡◌};
ghost use Rattle.lab_judge.specs.JudgeRun.{has_space};

use journal_rec::LAST_RECORDS;

/// The length of a journal, and its limit, in bytes.
#[derive(Clone, Copy, PartialEq, Eq)]
pub struct Space {
    pub length: u64,
    pub limit: u64,
}

impl Space {
    /// Whether a record of so many bytes leaves room for the last records of moves.
    pub fn has(self, size: u64) -> bool
        ensures { result ≡ has_space self size }
    {
        let Some(end) = self.length.checked_add(size) else {
            return false;
        };
        match end.checked_add(LAST_RECORDS) {
            Some(needed) => needed <= self.limit,
            None => false,
        }
    }
}
