use crate::answers::of_reading;
use crate::folder_lab::FolderLab;
use crate::readings::{read_node, read_pipe, read_row};
use folder::Folder;
use lab_base::{Name, VlanId};
use plant::{NodeRow, PipeRow, ReadFailed, Tables};

/// A reading answers by the text of the tables, as a command does. An error is a fault of the devices.
impl<F: Folder + Drop> Tables for FolderLab<F> {
    fn row(&mut self, switch: Name, nth: u32) -> Result<Option<(u16, VlanId)>, ReadFailed> {
        let found = read_row(&mut self.folder, &mut self.kept, self.alloc, switch, nth);
        of_reading(&mut self.faults, found)
    }

    fn node(&mut self, node: Name) -> Result<NodeRow, ReadFailed> {
        let found = read_node(&mut self.folder, &mut self.kept, self.alloc, node);
        of_reading(&mut self.faults, found)
    }

    fn pipe(&mut self, node: Name, nth: u16) -> Result<Option<PipeRow>, ReadFailed> {
        let found = read_pipe(&mut self.folder, &mut self.kept, self.alloc, node, nth);
        of_reading(&mut self.faults, found)
    }
}
