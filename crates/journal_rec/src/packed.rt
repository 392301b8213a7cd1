ghost use Rattle.std.specs.Prelude.{◌≡◌, ◌+◌, ◌++◌, ◌∷◌, [], List, length, IfOk, OnOk, OnErr};
ghost use Rattle.journal_rec.specs.declared.record.Record.{Record};
ghost use Rattle.journal_rec.specs.Payloads.{IsBody};
ghost use Rattle.journal_rec.specs.Packing.{ArePacked, side_length};

use crate::Encoded;
use lab_base::Memory;
use std::alloc::Global;
use std::marker::Model;

/// An open gate.
const OPEN: u8 = 0xa5;

/// Records as a side holds them after its header: each behind its open gate, and a closed gate after the last. Contracts see these bytes.
#[derive(Drop)]
pub struct Packed {
    bytes: Vec<u8>,
}

impl Model for Packed {
    ghost use Rattle.std.specs.Prelude.{ℕ, List, ◌<◌, vec_len};

    ghost Value = { List ℕ };

    ghost view = { λ packed. packed.bytes.items };

    ghost invariant = { λ packed. 0 < vec_len packed.bytes };
}

impl Packed {
    /// The packed records of an empty journal: a closed gate alone.
    pub fn new(alloc: Global) -> Result<Packed, Memory>
        ensures { IfOk result (λ packed. ArePacked packed []) }
    {
        let mut bytes = Vec::new(alloc);
        bytes.push(0)?;
        Ok(Packed { bytes })
    }

    /// Adds a record after the others.
    pub fn add(&mut self, encoded: &Encoded) -> Result<(), Memory>
        ensures ok { OnOk result ((rs : List Record) (r : Record) → ArePacked self.old rs → IsBody encoded.now r → ArePacked self.new (rs ++ r ∷ [])) }
        ensures length { OnOk result (length self.new ≡ length self.old + length encoded.now) }
        ensures err { OnErr result (self.new ≡ self.old) }
    {
        let gate = self.bytes.len() - 1;
        self.bytes.extend_from_slice(encoded.bytes())?;
        self.bytes[gate] = OPEN;
        Ok(())
    }

    /// The length of a side with these records.
    pub fn length(&self) -> u64
        ensures { result ≡ side_length self.now }
    {
        17 + self.bytes.len() as u64
    }

    /// The bytes of the side after its header.
    pub fn bytes(&self) -> &[u8]
        ensures { result.now ≡ self.now }
    {
        self.bytes.as_slice()
    }
}
