// Readings of devices, by the text of the tables. They change no table.
ghost use Rattle.std.specs.Prelude.{◌≡◌, Ok, IfOk, OnOk, None};
ghost use Rattle.std.specs.Option.{ForSome};
ghost use Rattle.std.specs.Result.{ForOk};
ghost use Rattle.plant.specs.Worlds.{world_of};
ghost use Rattle.plant.specs.Readings.{unread, TellsRow, TellsNode, TellsPipe, RowsFit, PipesFit};
ghost use Rattle.folder.specs.Folders.{with_steps};
ghost use Rattle.plant_file.specs.Standing.{AreOf, Keeps};

use crate::sending::take_tables;
use crate::tables::Tables;
use crate::tells::{node_of, pipe_of, row_of};
use folder::Folder;
use lab_base::{Memory, Name, VlanId};
use plant::{NodeRow, PipeRow, ReadFailed};
use std::alloc::Global;

/// The tables, for a reading of a device. A reading that has none is noted as failed.
fn tables_for<F: Folder>(
    folder: &mut F,
    kept: &mut Option<Tables>,
    alloc: Global,
    device: Name,
) -> Result<Tables, ReadFailed>
    requires { ForSome kept.old (λ tables. ForSome (F.told folder.old) (AreOf tables)) }
    ensures told { F.told folder.new ≡ with_steps (F.told folder.old) (unread device result) }
    ensures still { F.is_stopped folder.new ≡ F.is_stopped folder.old }
    ensures tables { ForOk result (λ tables. ForSome (F.told folder.old) (AreOf tables)) }
    ensures none { kept.new ≡ None }
{
    match take_tables(folder, kept, alloc) {
        Ok(tables) => Ok(tables),
        Err(_) => {
            folder.unread(device);
            Err(ReadFailed)
        }
    }
}

/// The answer of a reading of a device. One that failed is noted.
fn answered<F: Folder, T>(
    folder: &mut F,
    device: Name,
    found: Result<T, Memory>,
) -> Result<T, ReadFailed>
    ensures told { F.told folder.new ≡ with_steps (F.told folder.old) (unread device result) }
    ensures still { F.is_stopped folder.new ≡ F.is_stopped folder.old }
    ensures found { IfOk result (λ value. found ≡ Ok value) }
{
    match found {
        Ok(value) => Ok(value),
        Err(Memory) => {
            folder.unread(device);
            Err(ReadFailed)
        }
    }
}

/// The nth row of a switch.
pub(crate) fn read_row<F: Folder>(
    folder: &mut F,
    kept: &mut Option<Tables>,
    alloc: Global,
    switch: Name,
    nth: u32,
) -> Result<Option<(u16, VlanId)>, ReadFailed>
    requires fits { ForSome (F.told folder.old) Keeps }
    requires kept { ForSome kept.old (λ tables. ForSome (F.told folder.old) (AreOf tables)) }
    ensures told { F.told folder.new ≡ with_steps (F.told folder.old) (unread switch result) }
    ensures still { F.is_stopped folder.new ≡ F.is_stopped folder.old }
    ensures row { ForSome (F.told folder.old) (λ h. IfOk result (TellsRow (world_of h.past.trace) switch nth)) }
    ensures fits { ForSome (F.told folder.old) (λ h. OnOk result (RowsFit (world_of h.past.trace) switch)) }
    ensures kept { ForSome kept.new (λ tables. ForSome (F.told folder.old) (AreOf tables)) }
{
    let tables = tables_for(folder, kept, alloc, switch)?;
    let found = row_of(alloc, &tables, &switch, nth);
    *kept = Some(tables);
    answered(folder, switch, found)
}

/// The row of a node.
pub(crate) fn read_node<F: Folder>(
    folder: &mut F,
    kept: &mut Option<Tables>,
    alloc: Global,
    node: Name,
) -> Result<NodeRow, ReadFailed>
    requires fits { ForSome (F.told folder.old) Keeps }
    requires kept { ForSome kept.old (λ tables. ForSome (F.told folder.old) (AreOf tables)) }
    ensures told { F.told folder.new ≡ with_steps (F.told folder.old) (unread node result) }
    ensures still { F.is_stopped folder.new ≡ F.is_stopped folder.old }
    ensures node { ForSome (F.told folder.old) (λ h. IfOk result (TellsNode ((world_of h.past.trace).node node))) }
    ensures kept { ForSome kept.new (λ tables. ForSome (F.told folder.old) (AreOf tables)) }
{
    let tables = tables_for(folder, kept, alloc, node)?;
    let found = node_of(alloc, &tables, &node);
    *kept = Some(tables);
    answered(folder, node, found)
}

/// The nth pipe of a node.
pub(crate) fn read_pipe<F: Folder>(
    folder: &mut F,
    kept: &mut Option<Tables>,
    alloc: Global,
    node: Name,
    nth: u16,
) -> Result<Option<PipeRow>, ReadFailed>
    requires fits { ForSome (F.told folder.old) Keeps }
    requires kept { ForSome kept.old (λ tables. ForSome (F.told folder.old) (AreOf tables)) }
    ensures told { F.told folder.new ≡ with_steps (F.told folder.old) (unread node result) }
    ensures still { F.is_stopped folder.new ≡ F.is_stopped folder.old }
    ensures pipe { ForSome (F.told folder.old) (λ h. IfOk result (TellsPipe ((world_of h.past.trace).node node) nth)) }
    ensures fits { ForSome (F.told folder.old) (λ h. OnOk result (PipesFit ((world_of h.past.trace).node node))) }
    ensures kept { ForSome kept.new (λ tables. ForSome (F.told folder.old) (AreOf tables)) }
{
    let tables = tables_for(folder, kept, alloc, node)?;
    let found = pipe_of(alloc, &tables, &node, nth);
    *kept = Some(tables);
    answered(folder, node, found)
}
