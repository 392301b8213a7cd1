ghost use Rattle.std.specs.Prelude.{◌≡◌, ◌≢◌, Err, IfOk};
ghost use Rattle.folder.specs.Names.{names_in};

use crate::std_files::{
    cut_to, length_of, make, make_file, open, read_at, stamp_of, sync_folder, write_at,
};
use folder::{FolderFiles, Paths, Stamp, TextName};
use lab_base::{Memory, Name};
use plant::{Answer, DeviceOp, Fault, Faults, Side};
use std::alloc::AllocGlobal;
use std::fs::{self, File};
use std::io::{self, Write};
use std::rt::Files;

/// A folder of std's files. It tells nothing, and never stops.
#[derive(Drop)]
pub struct StdFolder<R: Files<File = File> + AllocGlobal + Drop> {
    rt: R,
    pub(crate) paths: Paths,
    /// A file of the folder, locked from the first call on: one program at a time is at work here.
    lock: Option<File>,
    /// Whether it is durable which files the folder has.
    listed: bool,
}

/// An answer of std's.
fn of<T: Drop>(found: io::Result<T>) -> Result<T, Fault>
    ensures { result ≢ Err Fault.Stopped }
{
    match found {
        Ok(value) => Ok(value),
        Err(_) => Err(Fault::Failed),
    }
}

/// None where a file is missing.
fn if_there<T: Drop>(found: io::Result<T>) -> io::Result<Option<T>> {
    match found {
        Ok(value) => Ok(Some(value)),
        Err(error) if error.kind() == io::ErrorKind::NotFound => Ok(None),
        Err(error) => Err(error),
    }
}

impl<R: Files<File = File> + AllocGlobal + Drop> StdFolder<R> {
    /// The folder of that name. It opens nothing.
    pub fn new(rt: R, dir: &str) -> Result<StdFolder<R>, Memory>
        ensures { IfOk result (λ folder. folder.paths ≡ names_in dir.now) }
    {
        let paths = Paths::new(rt.alloc(), dir)?;
        Ok(StdFolder {
            rt,
            paths,
            lock: None,
            listed: false,
        })
    }

    /// Opens a side. A file or a folder that is missing is made.
    fn open_side(&mut self, side: Side) -> io::Result<File> {
        let this = &*self;
        let paths = &this.paths;
        if let Some(file) = if_there(open(&this.rt, paths.side(side)))? {
            return Ok(file);
        }
        let made = make(&this.rt, paths, side);
        self.listed = false;
        made
    }

    /// Locks the folder, at the first call. It fails where another program is at work there. The lock is of `journal.a`, which stays the
    /// same file, and ends with the program.
    fn hold(&mut self) -> io::Result<()> {
        if self.lock.is_none() {
            let file = self.open_side(Side::A)?;
            file.try_lock()?;
            self.lock = Some(file);
        }
        Ok(())
    }

    /// Opens a side of the locked folder.
    fn side(&mut self, side: Side) -> io::Result<File> {
        self.hold()?;
        self.open_side(side)
    }

    fn length_of(&mut self, side: Side) -> io::Result<u64> {
        length_of(&self.side(side)?)
    }

    fn read_of(&mut self, side: Side, at: u64, into: &mut [u8]) -> io::Result<()> {
        read_at(&mut self.side(side)?, at, into)
    }

    fn write_on(&mut self, side: Side, at: u64, bytes: &[u8]) -> io::Result<()> {
        write_at(&mut self.side(side)?, at, bytes)
    }

    /// Makes a side durable, and that it is in its folder, where that isn't known.
    fn sync_of(&mut self, side: Side) -> io::Result<()> {
        self.side(side)?.sync_all()?;
        self.list()
    }

    /// Makes durable which files the folder has, where it isn't known to be.
    fn list(&mut self) -> io::Result<()> {
        if !self.listed {
            sync_folder(&self.rt, self.paths.folder())?;
            self.listed = true;
        }
        Ok(())
    }

    fn cut_of(&mut self, side: Side, size: u64) -> io::Result<()> {
        cut_to(&self.side(side)?, size)
    }

    fn bytes_of(&mut self, name: TextName) -> io::Result<Option<Vec<u8>>> {
        self.hold()?;
        if_there(fs::read(&self.rt, self.paths.text(name)))
    }

    fn stamp_of(&self) -> io::Result<Stamp> {
        stamp_of(&fs::metadata(&self.rt, self.paths.text(TextName::Tables))?)
    }

    fn make_text(&mut self) -> io::Result<()> {
        self.hold()?;
        make_file(&self.rt, self.paths.text(TextName::Tables))?;
        Ok(())
    }

    /// Gives a file the name of the tables.
    fn name_of(&mut self, from: TextName) -> io::Result<()> {
        self.hold()?;
        let paths = &self.paths;
        fs::rename(&self.rt, paths.text(from), paths.text(TextName::Tables))
    }

    /// Writes a text beside the tables. Its length comes before its bytes: so a file whose bytes a loss of power took has zeros.
    fn write_text(&mut self, text: &[u8]) -> io::Result<()> {
        self.hold()?;
        let mut file = fs::create(&self.rt, self.paths.text(TextName::Beside))?;
        file.set_len(text.len() as u64)?;
        file.write_all(text)
    }

    /// Takes the name from the old text, and gives it to the one beside. No file is put over another: a file system writes such a file out
    /// before it goes on.
    fn rename_text(&mut self, keep: bool) -> io::Result<()> {
        let paths = &self.paths;
        let tables = paths.text(TextName::Tables);
        if keep {
            fs::rename(&self.rt, tables, paths.text(TextName::Older))?;
        } else {
            fs::remove_file(&self.rt, tables)?;
        }
        fs::rename(&self.rt, paths.text(TextName::Beside), tables)
    }

    fn sync_text(&mut self) -> io::Result<()> {
        self.hold()?;
        fs::open(&self.rt, self.paths.text(TextName::Tables))?.sync_all()?;
        self.listed = false;
        self.list()
    }
}

impl<R: Files<File = File> + AllocGlobal + Drop> FolderFiles for StdFolder<R> {
    ghost use Rattle.std.specs.Prelude.{None, false};

    ghost told = { λ _. None };

    ghost is_stopped = { λ _. false };

    ghost reads_possible = { λ _. tt };

    fn length(&mut self, side: Side) -> Result<u64, Fault> {
        of(self.length_of(side))
    }

    fn read(&mut self, side: Side, at: u64, into: &mut [u8]) -> Result<(), Fault> {
        of(self.read_of(side, at, into))
    }

    fn write(&mut self, side: Side, at: u64, bytes: &[u8]) -> Result<(), Fault> {
        of(self.write_on(side, at, bytes))
    }

    fn sync(&mut self, side: Side) -> Result<(), Fault> {
        of(self.sync_of(side))
    }

    fn cut(&mut self, side: Side, size: u64) -> Result<(), Fault> {
        of(self.cut_of(side, size))
    }

    fn bytes(&mut self, name: TextName) -> Result<Option<Vec<u8>>, Fault> {
        of(self.bytes_of(name))
    }

    fn stamp(&mut self) -> Option<Stamp> {
        self.stamp_of().ok()
    }

    fn make_tables(&mut self) -> Result<(), Fault> {
        of(self.make_text())
    }

    fn name_tables(&mut self, from: TextName) -> Result<(), Fault> {
        of(self.name_of(from))
    }

    fn write_beside(&mut self, text: &[u8]) -> Result<(), Fault> {
        of(self.write_text(text))
    }

    fn rename(
        &mut self,
        _op: &DeviceOp,
        _answer: Answer,
        _text: &[u8],
        keep: bool,
    ) -> Result<(), Fault> {
        of(self.rename_text(keep))
    }

    fn sync_tables(&mut self) -> Result<(), Fault> {
        of(self.sync_text())
    }

    fn unsent(&mut self, _op: &DeviceOp) {}

    fn miss(&mut self, _side: Side) {}

    fn unread(&mut self, _device: Name) {}

    fn mark(&mut self, _faults: Faults) -> Result<(), Memory> {
        Ok(())
    }

    /// It never stops, and this changes nothing.
    fn restart(&mut self) -> Result<(), Memory>
        ensures same { self.new ≡ self.old }
    {
        Ok(())
    }

    fn stopped(&self) -> bool {
        false
    }
}
