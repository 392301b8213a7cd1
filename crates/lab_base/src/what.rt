use crate::{Boot, Name};

/// The trouble that a swap meets, as its states and the replies about it tell it.
#[derive(Clone, Copy, PartialEq, Eq)]
pub enum What {
    /// A command to that device failed.
    Device(Name),
    /// The node was not up at the 64th poll after its boot.
    Late(Name),
    /// The second boot state may not follow the first.
    Unlawful { node: Name, from: Boot, to: Boot },
    /// A call on the journal failed.
    Journal,
}
