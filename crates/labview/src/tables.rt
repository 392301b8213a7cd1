// A look at the tables of a folder.
ghost use Rattle.std.specs.Prelude.{◌≡◌, ◌≤◌, length, IfOk};
ghost use Rattle.labview.specs.Seen.{seen_of};

use lab_base::{Memory, TextRefused};
use lab_look::TablesSeen;
use plant_file::Tables;
use std::alloc::Global;

/// The longest text of tables that a program reads.
pub const MAX_TABLES: usize = 1 << 30;

/// A look at a text of tables.
pub fn tables_seen(alloc: Global, text: &[u8]) -> Result<TablesSeen, Memory>
    requires { length text.now ≤ MAX_TABLES }
    ensures { IfOk result (λ seen. seen ≡ seen_of text.now) }
{
    let fault = match Tables::read(alloc, text) {
        Ok(_tables) => None,
        Err(TextRefused::Text(fault)) => Some(fault),
        Err(TextRefused::Memory) => return Err(Memory),
    };
    let rows = !text.is_empty();
    Ok(TablesSeen { rows, fault })
}
