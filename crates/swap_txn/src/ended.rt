use lab_base::{Name, What};

/// A swap that ended.
#[derive(Clone, Copy, PartialEq, Eq)]
pub struct Ended {
    pub exp: Name,
    /// Whether the experiment is in the lab now.
    pub inside: bool,
    /// Whether its last record is Commit; else it is Abort. The other fields don't tell a change that was done from one that a settling took back.
    pub committed: bool,
    /// The trouble that began the undo, where there was one.
    pub why: Option<What>,
}
