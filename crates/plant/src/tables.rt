ghost use Rattle.std.specs.Prelude.{◌≡◌, IfOk, OnOk, IfSome};
ghost use Rattle.plant.specs.Told.{with_steps};
ghost use Rattle.plant.specs.Worlds.{world_of};
ghost use Rattle.plant.specs.Readings.{unread, ReadCause, TellsRow, TellsNode, TellsPipe, RowsFit, PipesFit};

use crate::{NodeRow, PipeRow, Plant, ReadFailed};
use lab_base::{Name, VlanId};

/// A plant whose devices tell what they hold.
///
/// A reading changes no side and no table. Where the plant tells its trace, a reading that failed is a step of it, and no other
/// reading is. A stopped plant may be read.
pub trait Tables: Plant {
    /// The nth row of a switch, from 0, by port and then by VLAN id. None exactly where there are fewer.
    fn row(&mut self, switch: Name, nth: u32) -> Result<Option<(u16, VlanId)>, ReadFailed>
        ensures trace { (Self.seen self.new).told ≡ with_steps (Self.seen self.old).told (unread switch result) }
        ensures row { IfSome (Self.seen self.old).told (λ t. IfOk result (TellsRow (world_of t.trace) switch nth)) }
        ensures fits { IfSome (Self.seen self.old).told (λ t. OnOk result (RowsFit (world_of t.trace) switch)) }
        ensures cause { ReadCause (Self.seen self.old).faults (Self.seen self.new).faults result }
        ensures still { (Self.seen self.new).stopped ≡ (Self.seen self.old).stopped };

    /// The OS and the boot state of a node, and how many pipes it has.
    fn node(&mut self, node: Name) -> Result<NodeRow, ReadFailed>
        ensures trace { (Self.seen self.new).told ≡ with_steps (Self.seen self.old).told (unread node result) }
        ensures node { IfSome (Self.seen self.old).told (λ t. IfOk result (TellsNode ((world_of t.trace).node node))) }
        ensures cause { ReadCause (Self.seen self.old).faults (Self.seen self.new).faults result }
        ensures still { (Self.seen self.new).stopped ≡ (Self.seen self.old).stopped };

    /// The nth pipe of a node, from 0, by number. None exactly where there are fewer.
    fn pipe(&mut self, node: Name, nth: u16) -> Result<Option<PipeRow>, ReadFailed>
        ensures trace { (Self.seen self.new).told ≡ with_steps (Self.seen self.old).told (unread node result) }
        ensures pipe { IfSome (Self.seen self.old).told (λ t. IfOk result (TellsPipe ((world_of t.trace).node node) nth)) }
        ensures fits { IfSome (Self.seen self.old).told (λ t. OnOk result (PipesFit ((world_of t.trace).node node))) }
        ensures cause { ReadCause (Self.seen self.old).faults (Self.seen self.new).faults result }
        ensures still { (Self.seen self.new).stopped ≡ (Self.seen self.old).stopped };
}
