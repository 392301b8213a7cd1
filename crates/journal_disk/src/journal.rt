ghost use Rattle.std.specs.Prelude.{◌<◌, ◌≤◌, ◌+◌, ◌^◌};
ghost use Rattle.journal_rec.specs.declared.limits.TheConstants.{MAX_JOURNAL};

use crate::AppendFault;
use crate::heads::OPEN;
use journal_rec::Encoded;
use plant::{Fault, Plant, Side};

/// An open journal: its live side, and the gates there up to the first closed one.
#[derive(Drop)]
pub struct Journal {
    pub(crate) side: Side,
    /// The position of the first closed gate.
    pub(crate) gate: u64,
    /// The most bytes of a side.
    pub(crate) limit: u64,
    /// The number of its moves onto the other side, and 1.
    pub(crate) epoch: u64,
    ghost gate_fits: { gate + 1 < 2 ^ 64 },
    ghost limit_fits: { limit ≤ MAX_JOURNAL },
}

impl Journal {
    ghost use Rattle.std.specs.Prelude.{◌≡◌, ◌↔◌, ◌<◌, ◌≤◌, ◌+◌, ◌++◌, [], ◌∷◌, ℕ, List, length, Err, IfSome, IsErrOf, OnOk, OnErr, IsTrue};
    ghost use Rattle.lab_base.specs.Counts.{Rose};
    ghost use Rattle.plant.specs.DiskCalls.{DiskCause};
    ghost use Rattle.plant.specs.Events.{Event};
    ghost use Rattle.plant.specs.Told.{with_steps};
    ghost use Rattle.journal_rec.specs.Payloads.{IsBody};
    ghost use Rattle.journal_rec.specs.declared.record.Record.{Record};
    ghost use Rattle.journal_disk.specs.Standing.{side_of, length_of, limit_of, IsAt, Appends, Adds, Moments};
    ghost use Rattle.journal_disk.specs.Epochs.{epoch_of, HasEpoch};

    /// The side to which records are appended.
    pub fn side(&self) -> Side
        ensures { result ≡ side_of self.now }
    {
        self.side
    }

    /// The length that the journal may not pass.
    pub fn limit(&self) -> u64
        ensures limit { result ≡ limit_of self.now }
        ensures most { limit_of self.now ≤ MAX_JOURNAL }
    {
        self.limit
    }

    /// The position after the first closed gate.
    pub fn length(&self) -> u64
        ensures { result ≡ length_of self.now }
    {
        self.gate + 1
    }

    /// The epoch of the journal: the side with the greater one is live.
    pub fn epoch(&self) -> u64
        ensures { result ≡ epoch_of self.now }
    {
        self.epoch
    }

    /// Appends a record. After `Ok` it is durable; after `Plant` or `Stopped` the journal has to be opened anew.
    pub fn append<P: Plant>(&mut self, encoded: &Encoded, plant: &mut P) -> Result<(), AppendFault>
        // Both sides are as this journal's last call left them.
        requires { IfSome (P.seen plant.old).told (λ t. (rs : List Record) × IsAt t.trace self.old rs) }
        ensures full { limit_of self.old < length_of self.old + length encoded.now → result ≡ Err (AppendFault.Full (length_of self.old) (length encoded.now)) }
        ensures fits { length_of self.old + length encoded.now ≤ limit_of self.old → (size length : ℕ) → result ≡ Err (AppendFault.Full length size) → ⊥ }
        ensures nothing { limit_of self.old < length_of self.old + length encoded.now → plant.new ≡ plant.old }
        ensures plant { IsErrOf result AppendFault.Plant → Rose (P.seen plant.old).faults.disk (P.seen plant.new).faults.disk }
        ensures later { (P.seen plant.old).faults.disk ≤ (P.seen plant.new).faults.disk }
        ensures devices { (P.seen plant.new).faults.devices ≡ (P.seen plant.old).faults.devices }
        ensures stopped { length_of self.old + length encoded.now ≤ limit_of self.old → IsErrOf result AppendFault.Stopped ↔ IsTrue (P.seen plant.new).stopped }
        ensures appends { (r : Record) → IsBody encoded.now r → Appends (P.seen plant.old).told (P.seen plant.new).told self.old r result }
        ensures moments { (r : Record) (rs : List Record) → IsBody encoded.now r → IfSome (P.seen plant.old).told (λ t. IsAt t.trace self.old rs
            → (steps : List Event) × ((P.seen plant.new).told ≡ with_steps (P.seen plant.old).told steps)
            × Moments t.trace steps (side_of self.old) rs r result) }
        ensures stands { OnOk result ((r : Record) (rs : List Record) → IsBody encoded.now r → IfSome (P.seen plant.old).told (λ t. IsAt t.trace self.old rs
            → IfSome (P.seen plant.new).told (λ u. IsAt u.trace self.new (rs ++ r ∷ [])))) }
        ensures length { OnOk result (length_of self.new ≡ length_of self.old + length encoded.now) }
        ensures side { side_of self.new ≡ side_of self.old }
        ensures limit { limit_of self.new ≡ limit_of self.old }
        ensures epoch { epoch_of self.new ≡ epoch_of self.old }
        ensures of_epoch { OnOk result ((r : Record) (rs : List Record) → IsBody encoded.now r
            → IfSome (P.seen plant.old).told (λ t. IsAt t.trace self.old rs → HasEpoch t.trace self.old
            → IfSome (P.seen plant.new).told (λ u. HasEpoch u.trace self.new))) }
        ensures err { OnErr result (self.new ≡ self.old) }
    {
        let length = self.length();
        let size = encoded.size();
        if length.saturating_add(size) > self.limit {
            return Err(AppendFault::Full { length, size });
        }
        self.add(encoded, plant)?;
        self.gate += size;
        Ok(())
    }

    /// The four steps of an append: the body behind the closed gate, a sync, the open gate, a sync.
    fn add<P: Plant>(&self, encoded: &Encoded, plant: &mut P) -> Result<(), Fault>
        // Both sides are as this journal's last call left them.
        requires { IfSome (P.seen plant.old).told (λ t. (rs : List Record) × IsAt t.trace self.now rs) }
        ensures adds { (r : Record) → IsBody encoded.now r → Adds (P.seen plant.old).told (P.seen plant.new).told self.now r result }
        ensures cause { DiskCause (P.seen plant.old).faults (P.seen plant.new).faults result }
        ensures stopped { IsErrOf result Fault.Stopped ↔ IsTrue (P.seen plant.new).stopped }
    {
        plant.write(self.side, self.gate + 1, encoded.bytes())?;
        plant.sync(self.side)?;
        plant.write(self.side, self.gate, &[OPEN])?;
        plant.sync(self.side)
    }
}
