ghost use Rattle.std.specs.Prelude.{◌≡◌, ◌↔◌, true, IsTrue, IfOk};
ghost use Rattle.lab_model.specs.Isolated.{Isolated};
ghost use Rattle.plain_model.specs.Holds.{all_fit};
ghost use Rattle.plain_model.specs.Rows.{world_sent};

use crate::{Sent, is_isolated, pipes_after, rows_after, wanted_rows};
use lab_base::Memory;
use phys_lab::Lab;
use std::alloc::Global;
use virt_topo::Experiment;

/// Whether after these commands the world is isolated: each row has an owner, and rows that reach each other have one.
pub fn is_isolated_after(
    alloc: Global,
    lab: &Lab,
    experiments: &[Experiment],
    commands: &[Sent],
) -> Result<bool, Memory>
    requires { all_fit lab.now experiments.now ≡ true }
    ensures { IfOk result (λ isolated. IsTrue isolated ↔ Isolated lab.now experiments.now (world_sent commands.now)) }
{
    let wanted = wanted_rows(alloc, lab, experiments)?;
    let rows = rows_after(alloc, commands)?;
    let pipes = pipes_after(alloc, commands)?;
    Ok(is_isolated(lab, &wanted, &rows, &pipes))
}
