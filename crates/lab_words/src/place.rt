ghost use Rattle.std.specs.Prelude.{◌≡◌};
ghost use Rattle.lab_words.specs.Places.{IsPlace};
ghost use Rattle.lab_words.specs.Words.{choices_of};

use crate::words::read_words;
use std::alloc::{AllocError, Global};

/// The place where a lab is kept.
#[derive(Drop)]
pub enum Place {
    /// Memory, as long as the run lasts. It begins with a plant in which nothing has happened.
    Blank,
    /// The files of that folder.
    Folder(String),
}

/// The reason why words choose nothing.
#[derive(Clone, Copy, Debug, PartialEq, Eq, Drop)]
pub enum PlaceFault {
    /// The words are a faulty command line.
    Usage,
    Memory,
}

impl From<AllocError> for PlaceFault {
    ghost use Rattle.std.specs.Prelude.{◌≡◌};
    ghost use Rattle.lab_words.specs.declared.place.PlaceFault.TheVariants.{Memory};

    ghost from_gives = { λ _ fault. fault ≡ Memory };

    fn from(_error: AllocError) -> PlaceFault {
        PlaceFault::Memory
    }
}

/// The place that words choose: the folder of `--dir DIR`, else memory. A function can't be named as the type `Place` but for case.
pub fn place_of(alloc: Global, words: &[String]) -> Result<Place, PlaceFault>
    ensures { IsPlace (choices_of words.now) result }
{
    match read_words(alloc, words)?.dir {
        Some(dir) => Ok(Place::Folder(String::from_str(alloc, dir)?)),
        None => Ok(Place::Blank),
    }
}
