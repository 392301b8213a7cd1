ghost use Rattle.std.specs.Prelude.{◌≡◌};
ghost use Rattle.plant_mem.specs.DiskPlans.{fails_next, stops_next, counted_all, stop_counted};
ghost use Rattle.plant_mem.specs.CallEnds.{met, has_effect};

use crate::stops::{StopPlan, count_disk, count_stop, is_done};
use plant::Pick;

/// The end of a call of the disk.
#[derive(Clone, Copy)]
pub enum CallEnd {
    Done,
    Fails,
    /// The plant stops at the call.
    Stops(Pick),
    /// The plant is already stopped.
    AlreadyStopped,
}

impl CallEnd {
    /// Whether the call has its effect.
    pub(crate) fn has_effect(self) -> bool
        ensures { result ≡ has_effect self }
    {
        match self {
            CallEnd::Done => true,
            CallEnd::Stops(pick) => is_done(pick),
            CallEnd::Fails | CallEnd::AlreadyStopped => false,
        }
    }
}

/// Counts a call in the drills that wait, and answers its end.
pub(crate) fn count_call(stop: &mut Option<StopPlan>, plans: &mut Vec<u32>) -> CallEnd
    ensures met { result ≡ met (stops_next stop.old) (fails_next plans.old.items) }
    ensures stop { stop.new ≡ stop_counted stop.old }
    ensures plans { plans.new.items ≡ counted_all plans.old.items }
{
    let stops = count_stop(stop);
    let fails = count_disk(plans);
    match stops {
        Some(pick) => CallEnd::Stops(pick),
        None => { if fails { CallEnd::Fails } else { CallEnd::Done } }
    }
}
