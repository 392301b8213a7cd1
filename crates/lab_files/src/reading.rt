// The sides and the tables of a folder, as its next opening finds them.
use std::alloc::AllocGlobal;
use std::rt::Files;
use std::{fs, io};

/// The bytes of a file of the folder; None where it is missing.
pub fn file<R: Files + AllocGlobal>(rt: &R, dir: &str, name: &str) -> io::Result<Option<Vec<u8>>> {
    let mut path = String::from_str(rt.alloc(), dir)?;
    path.push_str("/")?;
    path.push_str(name)?;
    match fs::read(rt, path.as_str()) {
        Ok(bytes) => Ok(Some(bytes)),
        Err(error) if error.kind() == io::ErrorKind::NotFound => Ok(None),
        Err(error) => Err(error),
    }
}

/// Whether a file was written whole: where a loss of power took its bytes it has zeros, which no text has.
fn is_whole(bytes: &[u8]) -> bool {
    !bytes.contains(&0)
}

/// The text before the last one, in the place of one that was not written whole.
fn older<R: Files + AllocGlobal>(rt: &R, dir: &str, torn: Vec<u8>) -> io::Result<Vec<u8>> {
    match file(rt, dir, "tables.old")? {
        Some(bytes) if is_whole(&bytes) => Ok(bytes),
        _ => Ok(torn),
    }
}

/// The text of the tables. A stop may have left it as `tables.new` or `tables.old`, which the next opening names `tables`.
pub fn tables_in<R: Files + AllocGlobal>(rt: &R, dir: &str) -> io::Result<Vec<u8>> {
    let none = Vec::new(rt.alloc());
    match file(rt, dir, "tables")? {
        Some(bytes) if is_whole(&bytes) => Ok(bytes),
        Some(torn) => older(rt, dir, torn),
        None => match file(rt, dir, "tables.new")? {
            Some(bytes) if is_whole(&bytes) => Ok(bytes),
            Some(_) => older(rt, dir, none),
            None => Ok(none),
        },
    }
}
