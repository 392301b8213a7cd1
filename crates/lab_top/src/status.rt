ghost use Rattle.std.specs.Prelude.{◌≡◌};
ghost use Rattle.lab_top.specs.Codes.{code_of};

use plant::Side;

/// How a run ended.
#[derive(Clone, Copy, PartialEq, Eq)]
pub enum Status {
    /// The script was read to its end.
    Done,
    /// The source failed.
    ReadFault,
    /// The sink failed.
    WriteFault,
    /// The words are no command line.
    Usage,
    /// The first line that is not in the grammar of scripts, the script's first line being 1.
    BadScript { line: u64 },
    /// Memory was wanting.
    Memory,
    /// The sides of the disk are no journal.
    /// It has the side, and the position of the record that can't be read or can't follow. Where there is no room for the last records of the
    /// experiments that move, it has the last gate.
    JournalBad { side: Side, at: u64 },
}

impl Status {
    /// The exit code of the program.
    pub fn code(&self) -> u8
        ensures { result ≡ code_of self.now }
    {
        match self {
            Status::Done => 0,
            Status::ReadFault => 1,
            Status::WriteFault => 2,
            Status::Usage => 3,
            Status::BadScript { .. } => 4,
            Status::Memory => 5,
            Status::JournalBad { .. } => 6,
        }
    }
}
