ghost use Rattle.std.specs.Prelude.{◌≡◌, ◌<◌, ◌++◌, map, option_map, vec_len, vec_capacity};
ghost use Rattle.std.specs.List.{list_any, find};
ghost use Rattle.lab_base.specs.Lists.{listed};
ghost use Rattle.plant_mem.specs.Plans.{is_poll, is_wipe, is_applying, is_hang, is_jump, is_read, waits_for_poll, counts};
ghost use Rattle.plant_mem.specs.Readings.{counts_reading, is_due_reading, reading_counted};
ghost use Rattle.plant_mem.specs.Plans.{is_due, fails_by, firing, jumps_by, begins_hang, hangs_by, boot_step_of, counted, plan_of};

use crate::boot_step::BootStep;
use lab_base::Name;
use plant::{DeviceOp, Drill, How};

fn is_poll(op: &DeviceOp) -> bool
    ensures { result ≡ is_poll op.now }
{
    matches!(op, DeviceOp::Poll { .. })
}

fn is_wipe(op: &DeviceOp) -> bool
    ensures { result ≡ is_wipe op.now }
{
    matches!(op, DeviceOp::Wipe { .. })
}

/// Whether a command with this failure is applied.
fn is_applying(how: How) -> bool
    ensures { result ≡ is_applying how }
{
    matches!(&how, How::Applied)
}

fn is_hang(how: How) -> bool
    ensures { result ≡ is_hang how }
{
    matches!(&how, How::Hang)
}

fn is_jump(how: How) -> bool
    ensures { result ≡ is_jump how }
{
    matches!(&how, How::Jump)
}

/// Whether the drill waits for a reading, which is no command.
fn is_read(how: How) -> bool
    ensures { result ≡ is_read how }
{
    matches!(&how, How::Read)
}

/// Whether the drill waits for a poll, and not for any command.
fn waits_for_poll(how: How) -> bool
    ensures { result ≡ waits_for_poll how }
{
    is_hang(how) || is_jump(how)
}

/// A device's drill that waits, or a hang that lasts.
#[derive(Clone, Copy)]
pub struct Plan {
    pub device: Name,
    pub how: How,
    /// The number of commands to the device, or of its polls, up to the one that fails, from 1. At 0 the plan is used up.
    pub left: u32,
    /// Whether the node hangs by this plan.
    pub hangs: bool,
}

impl Plan {
    /// Whether the command counts for the plan.
    fn counts(&self, op: &DeviceOp) -> bool
        ensures { result ≡ counts op.now self.now }
    {
        !is_read(self.how)
            && self.device == op.device()
            && (is_poll(op) || !waits_for_poll(self.how))
    }

    /// Whether the plan waits for exactly this command.
    fn is_due(&self, op: &DeviceOp) -> bool
        ensures { result ≡ is_due op.now self.now }
    {
        self.counts(op) && self.left == 1
    }

    /// Whether the command fails by the plan.
    fn fails(&self, op: &DeviceOp) -> bool
        ensures { result ≡ fails_by op.now self.now }
    {
        self.is_due(op) && !waits_for_poll(self.how)
    }

    /// Whether the poll jumps by the plan.
    fn jumps(&self, op: &DeviceOp) -> bool
        ensures { result ≡ jumps_by op.now self.now }
    {
        self.is_due(op) && is_jump(self.how)
    }

    /// Whether the node begins to hang by the plan.
    fn begins_hang(&self, op: &DeviceOp) -> bool
        ensures { result ≡ begins_hang op.now self.now }
    {
        self.is_due(op) && is_hang(self.how)
    }

    /// Whether the poll hangs by the plan.
    fn hangs(&self, op: &DeviceOp) -> bool
        ensures { result ≡ hangs_by op.now self.now }
    {
        self.begins_hang(op) || self.counts(op) && self.hangs
    }

    /// Whether a reading of the device counts for the plan.
    fn counts_reading(&self, device: &Name) -> bool
        ensures { result ≡ counts_reading device.now self.now }
    {
        is_read(self.how) && self.device == *device
    }

    /// Whether the plan waits for exactly this reading.
    fn is_due_reading(&self, device: &Name) -> bool
        ensures { result ≡ is_due_reading device.now self.now }
    {
        self.counts_reading(device) && self.left == 1
    }

    /// Counts a reading.
    fn count_reading(&mut self, device: &Name)
        ensures { self.new ≡ reading_counted device.now self.old }
    {
        if self.counts_reading(device) {
            self.left = self.left.saturating_sub(1);
        }
    }

    /// Counts a command.
    fn count(&mut self, op: &DeviceOp, applied: bool)
        ensures { self.new ≡ counted op.now applied self.old }
    {
        let ends = applied && is_wipe(op) && self.device == op.device();
        self.hangs = self.begins_hang(op) || self.hangs && !ends;
        if self.counts(op) {
            self.left = self.left.saturating_sub(1);
        }
    }
}

/// The plan that a drill makes for a command; None where it makes none.
fn plan_of(drill: &Drill) -> Option<Plan>
    ensures { result ≡ plan_of drill.now }
{
    match drill {
        Drill::Device { name, nth, how } => Some(Plan {
            device: *name,
            how: *how,
            left: *nth,
            hangs: false,
        }),
        Drill::Disk { .. } | Drill::Stop { .. } => None,
    }
}

/// Adds the plan that a drill makes for a device, if it makes one.
pub(crate) fn add_plan(plans: &mut Vec<Plan>, drill: &Drill)
    requires { vec_len plans.old < vec_capacity plans.old }
    ensures { plans.new.items ≡ plans.old.items ++ listed (plan_of drill.now) }
{
    if let Some(plan) = plan_of(drill) {
        plans.push_reserved(plan);
    }
}

fn failing<'a>(plans: &'a [Plan], op: &DeviceOp) -> Option<&'a Plan>
    ensures { option_map (λ plan. plan.now) result ≡ find (fails_by op.now) plans.now }
{
    plans.iter().find(|plan| plan.fails(op))
}

/// Whether the failing command is applied; None where it doesn't fail.
pub(crate) fn failure_of(plans: &[Plan], op: &DeviceOp) -> Option<bool>
    ensures { result ≡ firing op.now plans.now }
{
    match failing(plans, op) {
        Some(plan) => Some(is_applying(plan.how)),
        None => None,
    }
}

fn jumps(plans: &[Plan], op: &DeviceOp) -> bool
    ensures { result ≡ list_any (jumps_by op.now) plans.now }
{
    plans.iter().any(|plan| plan.jumps(op))
}

fn hangs(plans: &[Plan], op: &DeviceOp) -> bool
    ensures { result ≡ list_any (hangs_by op.now) plans.now }
{
    plans.iter().any(|plan| plan.hangs(op))
}

/// How far the command moves the boot state, where it is a poll.
pub(crate) fn boot_step_of(plans: &[Plan], op: &DeviceOp) -> BootStep
    ensures { result ≡ boot_step_of op.now plans.now }
{
    if jumps(plans, op) {
        BootStep::Jumps
    } else if hangs(plans, op) {
        BootStep::Hangs
    } else {
        BootStep::Moves
    }
}

/// Counts a command in each plan.
pub(crate) fn count_down(plans: &mut Vec<Plan>, op: &DeviceOp, applied: bool)
    ensures { plans.new.items ≡ map (counted op.now applied) plans.old.items }
{
    for plan in plans.iter_mut() {
        plan.count(op, applied);
    }
}

/// Whether a reading of the device fails by a plan.
pub(crate) fn fails_reading(plans: &[Plan], device: &Name) -> bool
    ensures { result ≡ list_any (is_due_reading device.now) plans.now }
{
    plans.iter().any(|plan| plan.is_due_reading(device))
}

/// Counts a reading in each plan.
pub(crate) fn count_readings(plans: &mut Vec<Plan>, device: &Name)
    ensures { plans.new.items ≡ map (reading_counted device.now) plans.old.items }
{
    for plan in plans.iter_mut() {
        plan.count_reading(device);
    }
}
