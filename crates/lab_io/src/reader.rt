ghost use Rattle.std.specs.Prelude.{◌≤◌};
ghost use Rattle.lab_io.specs.declared.limits.TheConstants.{MAX_SCRIPT};

use lab_base::Text;
use std::alloc::Global;

/// A line of a source.
#[derive(Drop)]
pub enum Line {
    /// The bytes of the line, without its end.
    Text(Text),
    /// The source has no line left.
    End,
}

/// The reason why there is no line.
#[derive(Clone, Copy, Debug, PartialEq, Eq)]
pub enum LineFault {
    /// The line of that number, from 1, has more than 4,096 bytes, or ends beyond the limit of the script.
    TooLong(u64),
    /// The source failed before the line's end.
    ReadFault,
    Memory,
}

/// Reads the lines of a source, however the source cuts its bytes.
#[derive(Drop)]
pub struct LineReader {
    pub(crate) alloc: Global,
    /// Bytes that were read and belong to no line taken.
    pub(crate) pending: Vec<u8>,
    /// The number of lines taken, and of their bytes with their ends.
    pub(crate) lines: u64,
    pub(crate) taken: u64,
    /// The source has nothing more; it is not asked again.
    pub(crate) ended: bool,
    pub(crate) fault: Option<LineFault>,
    ghost counted: { lines ≤ taken },
    ghost within: { taken ≤ MAX_SCRIPT },
}
