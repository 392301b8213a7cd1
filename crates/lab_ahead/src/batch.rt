use lab_base::{Items, Name};

/// A promise: `count` nodes of a type are kept for others, from the moment `from` up to and without `to`.
#[derive(Clone, Copy, PartialEq, Eq)]
pub struct Promise {
    pub kind: Name,
    pub count: u16,
    pub from: u64,
    pub to: u64,
}

/// A run: an experiment asks to be in for so long, by a search with this seed.
#[derive(Clone, Copy, PartialEq, Eq)]
pub struct Run {
    pub exp: Name,
    pub seed: u64,
    pub length: u64,
}

/// A batch: its promises and its runs, each in the order of its lines.
#[derive(Drop)]
pub struct Batch {
    pub promises: Items<Promise>,
    pub runs: Items<Run>,
}
