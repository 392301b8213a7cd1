ghost use Rattle.std.specs.Prelude.{◌≡◌, ℕ, List};
ghost use Rattle.plant.specs.Worlds.{World, is_row, row_after, world_after};
ghost use Rattle.plant_mem.specs.declared.rows.Row.{Row};
ghost use Rattle.plant_mem.specs.RowTables.{row_of};
ghost use Rattle.plant_mem.specs.Steps.{event_of};

use lab_base::{Name, VlanId};
use plant::{DeviceOp, Step};

/// A port of a switch in a VLAN.
#[derive(Clone, Copy)]
pub struct Row {
    pub switch: Name,
    pub port: u16,
    pub vlan: VlanId,
}

impl Row {
    fn is(&self, switch: &Name, port: u16, vlan: &VlanId) -> bool
        ensures { result ≡ is_row switch.now port (vlan.now).0 (row_of self.now) }
    {
        self.switch == *switch && self.port == port && self.vlan.0 == vlan.0
    }

    /// Whether the row is there after a command that was applied.
    fn after_op(&self, op: &DeviceOp, had: bool) -> bool
        ensures { result ≡ row_after op.now (row_of self.now) had }
    {
        match op {
            DeviceOp::Join { switch, port, vlan } => self.is(switch, *port, vlan) || had,
            DeviceOp::Leave { switch, port, vlan } => !self.is(switch, *port, vlan) && had,
            DeviceOp::Shape { .. }
            | DeviceOp::Load { .. }
            | DeviceOp::Boot { .. }
            | DeviceOp::Poll { .. }
            | DeviceOp::Wipe { .. } => had,
        }
    }

    /// Whether the row is there after a step.
    pub(crate) fn after(&self, step: &Step, had: bool) -> bool
        ensures { (bytes : List ℕ) (world : World) → had ≡ world.rows (row_of self.now)
            → result ≡ (world_after world (event_of bytes step.now)).rows (row_of self.now) }
    {
        match step {
            Step::Did {
                op,
                applied: true,
                ..
            } => self.after_op(op, had),
            Step::Did { applied: false, .. }
            | Step::Wrote { .. }
            | Step::Synced { .. }
            | Step::Cut { .. }
            | Step::Missed { .. }
            | Step::Restarted { .. }
            | Step::Unread { .. } => had,
        }
    }
}
