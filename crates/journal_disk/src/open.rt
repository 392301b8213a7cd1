ghost use Rattle.std.specs.Prelude.{◌≡◌, ◌↔◌, ◌≤◌, ℕ, List, Err, length, take, drop, IfOk, IfSome, IsErrOf, IsTrue};
ghost use Rattle.lab_base.specs.Counts.{Rose};
ghost use Rattle.plant.specs.Disks.{disk};
ghost use Rattle.plant.specs.declared.step.Side.{Side as AnySide};
ghost use Rattle.plant.specs.declared.step.Side.TheVariants.{A, B};
ghost use Rattle.journal_rec.specs.declared.record.Record.{Record};
ghost use Rattle.journal_rec.specs.Payloads.{number};
ghost use Rattle.journal_model.specs.Journals.{Bad};
ghost use Rattle.journal_disk.specs.Walks.{placed};
ghost use Rattle.journal_disk.specs.Standing.{IsAt, HasAll, Holds, limit_of};
ghost use Rattle.journal_disk.specs.Epochs.{epoch_of, HasEpoch};
ghost use Rattle.journal_disk.specs.Openings.{IsOpened};
ghost use Rattle.journal_disk.specs.Opening.{Opens};
ghost use Rattle.journal_disk.specs.Before.{IsOpening};
ghost use Rattle.plant.specs.Events.{Event};
ghost use Rattle.plant.specs.Told.{with_steps};

use crate::heads::{HEADER, LiveSide, epoch_in};
use crate::make::make;
use crate::sides::{read_sides, sync_sides};
use crate::walk::{FIRST, WalkFault, walk};
use crate::{Journal, OpenFault};
use journal_rec::{Found, MAX_JOURNAL};
use plant::{Plant, Side};
use std::alloc::Global;

/// A journal with its records.
pub type Opened = (Journal, Vec<Found>);

/// The journal on a side with a header.
fn opened(alloc: Global, side: Side, bytes: &[u8], limit: u64) -> Result<Opened, OpenFault>
    requires header { HEADER ≤ length bytes.now }
    requires limit { limit ≤ MAX_JOURNAL }
    ensures opened { IsOpened side limit bytes.now result }
    ensures epoch { IfOk result (λ opened. epoch_of opened.0 ≡ number (take 8 (drop 9 bytes.now))) }
{
    match walk(alloc, bytes) {
        Ok(walked) => {
            let gate = walked.gate;
            let epoch = epoch_in(&bytes[9..]);
            let journal = Journal {
                side,
                gate,
                limit,
                epoch,
            };
            Ok((journal, walked.found))
        }
        Err(WalkFault::Bad(at)) => Err(OpenFault::Bad { side, at }),
        Err(WalkFault::Memory) => Err(OpenFault::Memory),
    }
}

impl Journal {
    /// Opens the journal with its records, in order. Where both sides are blank it makes a new one. `limit` is the most bytes of a side.
    pub fn open<P: Plant>(alloc: Global, plant: &mut P, limit: u64) -> Result<Opened, OpenFault>
        requires least { HEADER ≤ limit }
        requires most { limit ≤ MAX_JOURNAL }
        ensures ok { IfOk result (λ opened. (rs : List Record) × (opened.1.items ≡ placed FIRST rs)
            × IfSome (P.seen plant.new).told (λ t. IsAt t.trace opened.0 rs × HasAll t.trace rs)) }
        ensures holds { IfOk result (λ opened. (rs : List Record) × Holds rs opened.0 opened.1.items) }
        ensures bad { (side : AnySide) (at : ℕ) → result ≡ Err (OpenFault.Bad side at)
            → IfSome (P.seen plant.new).told (λ t. Bad (disk A t.trace).reads (disk B t.trace).reads side at) }
        ensures plant { IsErrOf result OpenFault.Plant → Rose (P.seen plant.old).faults.disk (P.seen plant.new).faults.disk }
        ensures later { (P.seen plant.old).faults.disk ≤ (P.seen plant.new).faults.disk }
        ensures devices { (P.seen plant.new).faults.devices ≡ (P.seen plant.old).faults.devices }
        ensures stopped { IsErrOf result OpenFault.Stopped ↔ IsTrue (P.seen plant.new).stopped }
        ensures limit { IfOk result (λ opened. limit_of opened.0 ≡ limit) }
        ensures epoch { IfOk result (λ opened. IfSome (P.seen plant.new).told (λ t. HasEpoch t.trace opened.0)) }
        ensures opens { (steps : List Event) × ((P.seen plant.new).told ≡ with_steps (P.seen plant.old).told steps)
            × IfSome (P.seen plant.old).told (λ t. Opens t.trace steps result) }
        ensures moments { (steps : List Event) × ((P.seen plant.new).told ≡ with_steps (P.seen plant.old).told steps)
            × IfSome (P.seen plant.old).told (λ t. IsOpening t.trace steps result) }
    {
        sync_sides(plant)?;
        let sides = read_sides(alloc, plant)?;
        match sides.live_side {
            LiveSide::New => {
                make(plant, sides.is_short)?;
                let gate = FIRST as u64;
                let journal = Journal {
                    side: Side::A,
                    gate,
                    limit,
                    epoch: 1,
                };
                Ok((journal, Vec::new(alloc)))
            }
            LiveSide::On(side) => opened(alloc, side, &sides.live, limit),
            LiveSide::Wrong(side) => Err(OpenFault::Bad { side, at: 0 }),
        }
    }
}
