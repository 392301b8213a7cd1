ghost use Rattle.std.specs.Prelude.{◌≡◌, length};

use std::marker::Model;

/// A record as the journal holds it behind its gate: the length of its payload, the payload, and the next gate, closed. Contracts see these bytes.
#[derive(Drop)]
pub struct Encoded {
    bytes: Vec<u8>,
}

impl Model for Encoded {
    ghost use Rattle.std.specs.Prelude.{ℕ, List};

    ghost Value = { List ℕ };

    ghost view = { λ encoded. encoded.bytes.items };
}

impl Encoded {
    pub(crate) fn new(bytes: Vec<u8>) -> Encoded
        ensures { result ≡ bytes.items }
    {
        Encoded { bytes }
    }

    /// The number of bytes by which the record makes the journal longer: the length of its payload, and 5.
    pub fn size(&self) -> u64
        ensures { result ≡ length self.now }
    {
        self.bytes.len() as u64
    }

    /// The bytes of the record, from its length to the next gate.
    pub fn bytes(&self) -> &[u8]
        ensures { result.now ≡ self.now }
    {
        self.bytes.as_slice()
    }
}
