use crate::Drill;

/// The number of faults of the disk, and that of the devices. At its last value a count stands still.
#[derive(Clone, Copy, PartialEq, Eq)]
pub struct Faults {
    pub disk: u64,
    pub devices: u64,
}

/// A moment: the length of the trace, and both counts of faults.
#[derive(Clone, Copy, PartialEq, Eq)]
pub struct Moment {
    pub at: usize,
    pub faults: Faults,
}

/// A drill that was taken, with the length of the trace then.
#[derive(Clone, Copy, PartialEq, Eq)]
pub struct Taken {
    pub at: usize,
    pub drill: Drill,
}
