// One record to the journal.
ghost use Rattle.std.specs.Prelude.{◌≡◌, ◌≤◌, ◌+◌, ℕ, length, Err};
ghost use Rattle.journal_rec.specs.Payloads.{IsBody};
ghost use Rattle.journal_rec.specs.declared.record.Record.{Record};
ghost use Rattle.journal_disk.specs.Standing.{length_of, limit_of};
ghost use Rattle.swap_txn.specs.Steps.{Stands, Writes};

use journal_disk::{AppendFault, Journal};
use journal_rec::Encoded;
use plant::Plant;

/// Appends a record for which there is room.
pub(crate) fn write<P: Plant>(
    encoded: &Encoded,
    journal: &mut Journal,
    plant: &mut P,
) -> Result<(), AppendFault>
    requires stands { Stands (P.seen plant.old).told journal.old }
    requires fits { length_of journal.old + length encoded.now ≤ limit_of journal.old }
    ensures writes { (r : Record) → IsBody encoded.now r → Writes r (P.seen plant.old) (P.seen plant.new) journal.old journal.new result }
    ensures fits { (length size : ℕ) → result ≡ Err (AppendFault.Full length size) → ⊥ }
{
    journal.append(encoded, plant)
}
