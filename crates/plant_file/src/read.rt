// Reading the tables of a text.
ghost use Rattle.plant_file.specs.Lines.{added};

use crate::lines::entry_in;
use crate::tables::Tables;
use line_text::{AddLine, LineFault};
use std::alloc::Global;

impl AddLine for Tables {
    ghost use Rattle.std.specs.Prelude.{List};
    ghost use Rattle.plant_file.specs.declared.entry.Entry.{Entry};

    ghost Contents = { List Entry };

    ghost contents = { λ tables. tables };

    ghost added = { λ _. added };

    fn add(&mut self, alloc: Global, fields: &[&[u8]]) -> Result<(), LineFault> {
        let entry = entry_in(fields)?;
        self.put(alloc, entry)?;
        Ok(())
    }
}
