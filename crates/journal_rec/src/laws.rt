ghost use Rattle.std.specs.Prelude.{◌≡◌, ℕ, List};
ghost use Rattle.journal_rec.specs.Payloads.{payload, IsRecord, Decodes};
ghost use Rattle.journal_rec.specs.declared.record.Record.{Record};

/// A record has one spelling, and bytes are the payload of at most one record.
pub fn one_spelling()
    ensures payloads { (r s : Record) → IsRecord r → IsRecord s → payload r ≡ payload s → r ≡ s }
    ensures decoded { (bytes : List ℕ) (r s : Record) → Decodes bytes r → Decodes bytes s → r ≡ s }
{}
