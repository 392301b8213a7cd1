ghost use Rattle.std.specs.Prelude.{◌≡◌};

/// The cost of the moved parts, before in the one mapping and after in the other.
#[derive(Clone, Copy)]
pub(crate) struct Moved {
    pub(crate) before: u64,
    pub(crate) after: u64,
}

impl Moved {
    /// The costs where nothing moved.
    pub(crate) fn nothing() -> Moved
        ensures { result ≡ record { before = 0; after = 0 } }
    {
        Moved {
            before: 0,
            after: 0,
        }
    }
}
