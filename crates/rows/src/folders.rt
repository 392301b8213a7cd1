//! Where the words of a command line keep the lab, and runs over a lab in the files of a folder.
use crate::run::{Given, ended};
use lab_top::{Place, PlaceFault, place_of};
use plant_file::FileLab;
use row_words::RowFault;
use std::alloc::{AllocError, Global};

/// The words, as the program has them.
pub fn words_of(alloc: Global, words: &[&str]) -> Result<Vec<String>, AllocError> {
    let mut own = Vec::new(alloc);
    for word in words {
        own.push(String::from_str(alloc, word)?)?;
    }
    Ok(own)
}

/// The folder that the words choose, if they do.
pub fn folder_of(alloc: Global, words: &[String]) -> Result<Option<String>, RowFault> {
    match place_of(alloc, words) {
        Ok(Place::Folder(folder)) => Ok(Some(folder)),
        Ok(Place::Blank) | Err(PlaceFault::Usage) => Ok(None),
        Err(PlaceFault::Memory) => Err(RowFault::Memory),
    }
}

/// Where the words keep the lab.
pub fn place(alloc: Global, words: &[String]) -> Result<String, RowFault> {
    match place_of(alloc, words) {
        Ok(Place::Folder(folder)) => Ok(format!(in alloc; "folder {folder}\n")?),
        Ok(Place::Blank) => Ok("memory\n".to_string(alloc)?),
        Err(PlaceFault::Usage) => Ok("usage\n".to_string(alloc)?),
        Err(PlaceFault::Memory) => Err(RowFault::Memory),
    }
}

/// Runs a script over a folder.
pub fn run_in(rt: &HostRuntime, folder: &str, given: Given<'_>) -> Result<String, RowFault> {
    match FileLab::new(rt, folder) {
        Ok(mut plant) => {
            let told = ended(rt.alloc(), given, &mut plant);
            drop(plant);
            told
        }
        Err(_) => Err(RowFault::Memory),
    }
}
