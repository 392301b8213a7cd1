ghost use Rattle.std.specs.Prelude.{◌≡◌, ◌<◌, ◌++◌, vec_len, vec_capacity};
ghost use Rattle.plant_mem.specs.DiskPlans.{one_less, counted_all, fails_next, stops_next, stop_counted, stop_planned, disk_planned, is_done};

use plant::{Drill, Pick};

/// A stop that waits.
#[derive(Clone, Copy)]
pub struct StopPlan {
    /// The number of writes, syncs, cuts and commands up to the stop, from 1.
    pub left: u32,
    pub pick: Pick,
}

/// Whether the call at which the plant stops has its effect.
pub(crate) fn is_done(pick: Pick) -> bool
    ensures { result ≡ is_done pick }
{
    match pick {
        Pick::Nothing => false,
        Pick::All | Pick::Torn => true,
    }
}

fn count_one(left: &mut u32)
    ensures { left.new ≡ one_less left.old }
{
    *left = left.saturating_sub(1);
}

/// Counts a call of the disk in each plan.
fn count_all(plans: &mut Vec<u32>)
    ensures { plans.new.items ≡ counted_all plans.old.items }
{
    for left in plans.iter_mut() {
        count_one(left);
    }
}

/// Counts a call of the disk in each plan. True where the call fails by one.
pub(crate) fn count_disk(plans: &mut Vec<u32>) -> bool
    ensures fires { result ≡ fails_next plans.old.items }
    ensures counted { plans.new.items ≡ counted_all plans.old.items }
{
    let fires = plans.iter().any(|left| *left == 1);
    count_all(plans);
    fires
}

/// Counts a call in the stop that waits. Answers the pick where the plant stops at this call.
pub(crate) fn count_stop(stop: &mut Option<StopPlan>) -> Option<Pick>
    ensures stops { result ≡ stops_next stop.old }
    ensures counted { stop.new ≡ stop_counted stop.old }
{
    match stop {
        None => None,
        Some(plan) => {
            let fires = plan.left == 1;
            plan.left = plan.left.saturating_sub(1);
            if fires { Some(plan.pick) } else { None }
        }
    }
}

/// Adds the failure of the disk that a drill plans, where it plans one.
pub(crate) fn add_disk_plan(plans: &mut Vec<u32>, drill: &Drill)
    requires { vec_len plans.old < vec_capacity plans.old }
    ensures { plans.new.items ≡ plans.old.items ++ disk_planned drill.now }
{
    match drill {
        Drill::Disk { nth } => plans.push_reserved(*nth),
        Drill::Device { .. } | Drill::Stop { .. } => {}
    }
}

/// Sets the stop that a drill plans, in the place of the one that waits.
pub(crate) fn add_stop(stop: &mut Option<StopPlan>, drill: &Drill)
    ensures { stop.new ≡ stop_planned drill.now stop.old }
{
    match drill {
        Drill::Stop { nth, pick } => {
            *stop = Some(StopPlan {
                left: *nth,
                pick: *pick,
            });
        }
        Drill::Device { .. } | Drill::Disk { .. } => {}
    }
}
