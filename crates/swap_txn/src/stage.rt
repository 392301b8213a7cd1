/// The list of a course in which the next command stands.
#[derive(Clone, Copy, PartialEq, Eq)]
pub enum Stage {
    Clear,
    Cable,
    Load,
    Boot,
    /// Nothing is left.
    Done,
}
