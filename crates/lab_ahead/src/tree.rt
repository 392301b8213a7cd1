// The tree of a search for an augmenting path, from a need that wants a node.

/// A need in the tree. It is reached by the number of a node that it has, and that the need of an earlier step can take.
#[derive(Clone, Copy)]
pub(crate) struct Step {
    pub(crate) need: u16,
    pub(crate) position: usize,
    pub(crate) parent: usize,
}

/// The needs in a tree, and by need whether it is in it.
#[derive(Drop)]
pub(crate) struct SearchTree {
    pub(crate) steps: Vec<Step>,
    pub(crate) seen: Vec<bool>,
}

/// A free node, and the step whose need can take it.
#[derive(Drop)]
pub(crate) struct Path {
    pub(crate) tree: SearchTree,
    pub(crate) place: usize,
    pub(crate) position: usize,
}

/// The outcome of a search from a need.
#[derive(Drop)]
pub(crate) enum Search {
    Free(Path),
    Stuck(SearchTree),
}
