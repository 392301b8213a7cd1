/// The most bytes of a side of the journal.
pub const MAX_JOURNAL: u64 = 1 << 32;

/// The most bytes of the last record of a move, `commit` or `abort`, with its gate.
pub const LAST_RECORD: u64 = 39;

/// How many bytes a record leaves, so that the last record of each move finds room.
pub const LAST_RECORDS: u64 = 10_240;
