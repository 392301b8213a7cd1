// The records of two sides.
ghost use Rattle.std.specs.Prelude.{◌≡◌, IfOk};
ghost use Rattle.plant.specs.Sides.{of_side};
ghost use Rattle.journal_model.specs.Journals.{head, live, On};
ghost use Rattle.lab_sides.specs.Reads.{IsRead};

use crate::walking::{Ended, Walked, walk};
use journal_disk::{LiveSide, place_in};
use journal_rec::Found;
use lab_base::{Items, Memory};
use plant::Side;
use std::alloc::Global;

/// The records of two sides.
#[derive(Drop)]
pub enum Read {
    /// Both are blank.
    New,
    /// A journal on that side.
    On(Side, Walked),
    /// No journal, since a side has a fault: at the open gate of a record that is none, which has these records before it, or at 0
    /// for its header.
    Bad {
        side: Side,
        at: u64,
        before: Items<Found>,
    },
}

/// The bytes of a side.
pub fn bytes_of<'a>(side: Side, a: &'a [u8], b: &'a [u8]) -> &'a [u8]
    ensures { result.now ≡ of_side side a.now b.now }
{
    match side {
        Side::A => a,
        Side::B => b,
    }
}

/// The journal on a side that is the live one.
#[tactic(auto, using(crate::proofs::Placing::live_sides))]
fn read_side(alloc: Global, side: Side, a: &[u8], b: &[u8]) -> Result<Read, Memory>
    requires { live (head a.now) (head b.now) ≡ On side }
    ensures { IfOk result (IsRead a.now b.now) }
{
    match walk(alloc, bytes_of(side, a, b))? {
        Ended::Whole(walked) => Ok(Read::On(side, walked)),
        Ended::Torn(walked) => Ok(Read::Bad {
            side,
            at: walked.gate,
            before: walked.found,
        }),
    }
}

/// The records of two sides.
#[tactic(auto, using(crate::proofs::Placing::live_sides))]
pub fn read_sides(alloc: Global, a: &[u8], b: &[u8]) -> Result<Read, Memory>
    ensures { IfOk result (IsRead a.now b.now) }
{
    match place_in(a, b) {
        LiveSide::New => Ok(Read::New),
        LiveSide::On(side) => read_side(alloc, side, a, b),
        LiveSide::Wrong(side) => Ok(Read::Bad {
            side,
            at: 0,
            before: Items::new(alloc),
        }),
    }
}
