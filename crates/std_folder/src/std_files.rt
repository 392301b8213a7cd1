// Files of a folder, over std's.
use folder::{Paths, Stamp};
use plant::Side;
use std::fs::{self, File, Metadata, OpenOptions};
use std::io::{self, Read, Seek, SeekFrom, Write};
use std::rt::Files;

/// Makes durable which files a folder has.
pub(crate) fn sync_folder<R: Files<File = File>>(rt: &R, folder: &str) -> io::Result<()> {
    fs::open(rt, folder)?.sync_all()
}

/// Makes the folder where it is missing.
fn make_folder<R: Files<File = File>>(rt: &R, paths: &Paths) -> io::Result<()> {
    match fs::create_dir(rt, paths.folder()) {
        Ok(()) => {}
        Err(error) if error.kind() == io::ErrorKind::AlreadyExists => {}
        Err(error) => return Err(error),
    }
    sync_folder(rt, paths.parent())
}

/// Opens a file that is there.
pub(crate) fn open<R: Files<File = File>>(rt: &R, path: &str) -> io::Result<File> {
    OpenOptions::new().read(true).write(true).open(rt, path)
}

/// Opens a file, which is made where it is missing.
pub(crate) fn make_file<R: Files<File = File>>(rt: &R, path: &str) -> io::Result<File> {
    OpenOptions::new()
        .read(true)
        .write(true)
        .create(true)
        .open(rt, path)
}

/// Opens a side, which is made with its folder where they are missing.
pub(crate) fn make<R: Files<File = File>>(rt: &R, paths: &Paths, side: Side) -> io::Result<File> {
    make_folder(rt, paths)?;
    make_file(rt, paths.side(side))
}

/// The length of an open file.
pub(crate) fn length_of(file: &File) -> io::Result<u64> {
    Ok(file.metadata()?.len())
}

/// The stamp of a file that has these facts.
pub(crate) fn stamp_of(found: &Metadata) -> io::Result<Stamp> {
    Ok(Stamp {
        length: found.len(),
        time: found.modified()?,
    })
}

/// A range outside of a file.
fn outside() -> io::Error {
    io::Error::from(io::ErrorKind::InvalidInput)
}

/// Fills the buffer from that place on. It fails where the file ends before.
pub(crate) fn read_at(file: &mut File, at: u64, into: &mut [u8]) -> io::Result<()> {
    file.seek(SeekFrom::Start(at))?;
    file.read_exact(into)
}

/// Writes over what is there, and past the end, from a place that isn't beyond it. The length comes first: so a write that is cut off has
/// its whole range.
pub(crate) fn write_at(file: &mut File, at: u64, bytes: &[u8]) -> io::Result<()> {
    let length = length_of(file)?;
    let end = at.saturating_add(bytes.len() as u64);
    if length < at {
        return Err(outside());
    }
    if length < end {
        file.set_len(end)?;
    }
    file.seek(SeekFrom::Start(at))?;
    file.write_all(bytes)
}

/// Cuts a file to a length that isn't above its own.
pub(crate) fn cut_to(file: &File, size: u64) -> io::Result<()> {
    if length_of(file)? < size {
        return Err(outside());
    }
    file.set_len(size)
}
