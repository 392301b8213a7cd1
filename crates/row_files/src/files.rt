//! Files.
use lab_base::Kind;
use row_words::RowFault;
use std::alloc::Global;
use std::{fs, str};

/// The letters that bytes are.
pub fn letters_in(alloc: Global, bytes: &[u8]) -> Result<String, RowFault> {
    match str::from_utf8(bytes) {
        Ok(letters) => Ok(String::from_str(alloc, letters)?),
        Err(_) => Err(RowFault::Word(Kind::Word)),
    }
}

/// The bytes of a file.
pub fn bytes_in(rt: &HostRuntime, file: &str) -> Result<Vec<u8>, RowFault> {
    match fs::read(rt, file) {
        Ok(bytes) => Ok(bytes),
        Err(_) => Err(RowFault::Word(Kind::Missing)),
    }
}

/// The text of a file.
pub fn text_in(rt: &HostRuntime, file: &str) -> Result<String, RowFault> {
    match fs::read_to_string(rt, file) {
        Ok(text) => Ok(text),
        Err(_) => Err(RowFault::Word(Kind::Missing)),
    }
}

/// The script of a file, which the row names without its ending.
pub fn script_of(rt: &HostRuntime, file: &str) -> Result<String, RowFault> {
    text_in(rt, format!(in rt.alloc(); "{file}.lab")?.as_str())
}

/// The scripts of files, one after another.
pub fn scripts_of(rt: &HostRuntime, files: &[&str]) -> Result<String, RowFault> {
    let mut scripts = String::new(rt.alloc());
    for file in files {
        scripts.push_str(script_of(rt, file)?.as_str())?;
    }
    Ok(scripts)
}

/// The ends that runs may come to: those of the files whose names stand between commas.
pub fn ends_of(rt: &HostRuntime, names: &str) -> Result<Vec<String>, RowFault> {
    let mut ends = Vec::new(rt.alloc());
    for name in names.split(',') {
        let end = text_in(rt, format!(in rt.alloc(); "{name}.end")?.as_str())?;
        if ends.push(end).is_err() {
            return Err(RowFault::Memory);
        }
    }
    Ok(ends)
}

/// Whether a file or folder is there.
pub fn is_there(rt: &HostRuntime, file: &str) -> bool {
    matches!(fs::exists(rt, file), Ok(true))
}

/// Removes a folder, if it is there.
pub fn remove(rt: &HostRuntime, folder: &str) -> Result<(), RowFault> {
    match fs::exists(rt, folder) {
        Ok(true) if fs::remove_dir_all(rt, folder).is_err() => Err(RowFault::Plant),
        _ => Ok(()),
    }
}
