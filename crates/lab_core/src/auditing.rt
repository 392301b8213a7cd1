// `audit`: in what the devices differ from what the experiments of the lab want.
ghost use Rattle.std.specs.Prelude.{◌≡◌, ◌≤◌, ℕ, List};
ghost use Rattle.cost_rule.specs.declared.rule.RuleNumber.{RuleNumber as AnyRule};
ghost use Rattle.script_text.specs.declared.command.Command.TheVariants as commands;
ghost use Rattle.lab_core.specs.Auditing.{broken_by};
ghost use Rattle.lab_core.specs.Controller.{CanWork, WorksWith};
ghost use Rattle.lab_core.specs.Obey.{ObeysCommand};
ghost use Rattle.lab_core.specs.Sessions.{OpenSwap};

use crate::controller::Controller;
use crate::fault::CoreFault;
use lab_audit::{AuditFault, audit};
use plant::Tables;
use script_text::Reply;

/// The reply to an audit that a reading broke off.
fn broken_by(fault: &AuditFault) -> Result<Reply, CoreFault>
    ensures { result ≡ broken_by fault.now }
{
    match fault {
        AuditFault::Unread(name) => Ok(Reply::Unread { name: *name }),
        AuditFault::Memory => Err(CoreFault::Memory),
    }
}

impl Controller {
    /// Tells in what the devices differ from what is wanted of them. It changes nothing.
    pub(crate) fn audit<P: Tables>(&mut self, plant: &mut P) -> Result<Reply, CoreFault>
        requires works { CanWork (P.seen plant.old) self.old }
        ensures { (rule : AnyRule) (opens : List OpenSwap) (devices : ℕ) → devices ≤ (P.seen plant.old).faults.devices
            → WorksWith (P.seen plant.old) self.old opens
            → ObeysCommand rule commands.Audit devices (P.seen plant.old) (P.seen plant.new) self.old self.new opens result }
    {
        let Some(_lab) = self.lab.lab() else {
            return Ok(Reply::NoLab);
        };
        match audit(self.alloc, &self.lab, plant) {
            Ok(lines) => Ok(Reply::Audit { lines }),
            Err(fault) => broken_by(&fault),
        }
    }
}
