/// The most bytes of a line, without its line feed or carriage return.
pub const MAX_LINE: usize = 4_096;

/// The most bytes that one read of a source asks for.
pub(crate) const CHUNK: usize = 4_096;

/// The most bytes of a script.
pub const MAX_SCRIPT: u64 = 1 << 32;

/// The most bytes that a reader keeps pending: a line with its end, and one read after it.
pub const MAX_PENDING: usize = MAX_LINE + 1 + CHUNK;
