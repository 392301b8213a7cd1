use crate::folder::Folder;
use crate::folder_files::FolderFiles;
use crate::named_folder::{Durable, NamedFolder};
use lab_base::{Memory, Name, TextFault};
use plant::{Answer, DeviceOp, Fault, Faults, Side};

/// Calls on sides and notes are those of the files.
impl<F: FolderFiles + Drop> Folder for NamedFolder<F> {
    ghost use Rattle.folder.specs.Files.{as_held};

    ghost told = { λ folder. as_held (F.told folder.files) };

    ghost is_stopped = { λ folder. F.is_stopped folder.files };

    ghost reads_possible = { λ folder. F.reads_possible folder.files };

    fn length(&mut self, side: Side) -> Result<u64, Fault> {
        self.files.length(side)
    }

    fn read(&mut self, side: Side, at: u64, into: &mut [u8]) -> Result<(), Fault> {
        self.files.read(side, at, into)
    }

    fn write(&mut self, side: Side, at: u64, bytes: &[u8]) -> Result<(), Fault> {
        self.files.write(side, at, bytes)
    }

    fn sync(&mut self, side: Side) -> Result<(), Fault> {
        self.files.sync(side)
    }

    fn cut(&mut self, side: Side, size: u64) -> Result<(), Fault> {
        self.files.cut(side, size)
    }

    fn text(&mut self) -> Result<Vec<u8>, Fault> {
        self.stamp = None;
        let stamp = self.files.stamp();
        let bytes = self.settled()?;
        self.stamp = stamp;
        Ok(bytes)
    }

    fn is_as_left(&mut self) -> bool {
        let now = self.files.stamp();
        self.stamp.is_some() && now == self.stamp
    }

    fn send(&mut self, op: &DeviceOp, answer: Answer, text: &[u8]) -> Result<(), Fault> {
        if self.files.stopped() {
            return Err(Fault::Stopped);
        }
        self.stamp = None;
        match self.prepare(text) {
            Ok(()) => {
                let keep = self.durable == Durable::Now;
                self.there = false;
                self.durable = Durable::Unknown;
                self.files.rename(op, answer, text, keep)?;
                self.there = true;
                self.durable = Durable::Old;
                self.stamp = self.files.stamp();
                Ok(())
            }
            Err(Fault::Failed) => {
                self.files.unsent(op);
                Err(Fault::Failed)
            }
            Err(Fault::Stopped) => Err(Fault::Stopped),
        }
    }

    fn sync_text(&mut self) -> Result<(), Fault> {
        if self.files.stopped() {
            return Err(Fault::Stopped);
        }
        if self.has_tables() {
            self.secure()
        } else {
            Err(Fault::Failed)
        }
    }

    fn unsent(&mut self, op: &DeviceOp) {
        self.files.unsent(op);
    }

    fn miss(&mut self, side: Side) {
        self.files.miss(side);
    }

    fn unread(&mut self, device: Name) {
        self.files.unread(device);
    }

    fn refused(&mut self, fault: TextFault) {
        self.refused = Some(fault);
    }

    fn mark(&mut self, faults: Faults) -> Result<(), Memory> {
        self.files.mark(faults)
    }

    fn restart(&mut self) -> Result<(), Memory> {
        self.files.restart()
    }

    fn stopped(&self) -> bool {
        self.files.stopped()
    }
}
