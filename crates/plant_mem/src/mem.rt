ghost use Rattle.std.specs.Prelude.{◌≤◌, vec_capacity};

use crate::past::Past;
use crate::plans::Plan;
use crate::stops::StopPlan;
use plant::{Faults, Moment, Pick, Taken};

/// The number of steps from a start to the one at which the plant stops.
pub(crate) const ROOM: usize = 262_144;

/// The number of bytes that are written from a start to the stop, and of those for which each side has room.
pub(crate) const BYTES: usize = 16_777_216;

/// The number of steps for which there is more room from the start, so that the first restarts of a short run move nothing that is kept.
pub(crate) const MORE_ROOM: usize = 16_384;

/// The number of written bytes for which there is more room from the start.
pub(crate) const MORE_BYTES: usize = 1_048_576;

/// A plant in memory, which tells its trace and takes drills.
///
/// From the start and after each restart it takes 262,144 steps more and 16 MiB more of written bytes. It has room for them, with an entry of its
/// tables of nodes, of pipes and of rows for each step, and with 16 MiB more on each side as it reads, and as it is durable. So none of its six calls to
/// the disk and the devices takes memory.
///
/// At the write, sync, cut or command that would pass these numbers it stops, without effect. A restart then leaves the durable bytes.
#[derive(Drop)]
pub struct MemLab {
    pub(crate) past: Past,
    /// The number of steps at which the plant stops.
    pub(crate) last_step: usize,
    /// The number of written bytes that it doesn't pass.
    pub(crate) last_byte: usize,
    pub(crate) marks: Vec<Moment>,
    pub(crate) taken: Vec<Taken>,
    pub(crate) plans: Vec<Plan>,
    /// For each planned failure of the disk, in how many calls it comes.
    pub(crate) disk_plans: Vec<u32>,
    pub(crate) stop: Option<StopPlan>,
    /// The pick of the stop.
    pub(crate) pick: Pick,
    pub(crate) faults: Faults,
    pub(crate) stopped: bool,
    ghost steps_fit: { last_step ≤ vec_capacity past.steps },
    ghost bytes_fit: { last_byte ≤ vec_capacity past.bytes },
}
