ghost use Rattle.std.specs.Prelude.{◌≡◌, true, IfOk};
ghost use Rattle.folder.specs.Names.{names_in};
ghost use Rattle.std.specs.Option.{ForSome};
ghost use Rattle.folder.specs.Folders.{IsDurable};
ghost use Rattle.plant_file.specs.Standing.{Keeps, AreOf};

use crate::tables::Tables;
use folder::{Folder, NamedFolder};
use lab_base::{Memory, TextFault};
use plant::Faults;
use std::alloc::{AllocGlobal, Global};
use std::fs::File;
use std::rt::Files;
use std_folder::StdFolder;

/// A plant in the files of a folder. It takes no drills. It tells its past where the folder does.
#[derive(Drop)]
pub struct FolderLab<F: Folder + Drop> {
    pub(crate) folder: F,
    pub(crate) alloc: Global,
    /// The tables of the folder's text.
    pub(crate) kept: Option<Tables>,
    /// Whether the text is known to be durable.
    pub(crate) sure: bool,
    pub(crate) faults: Faults,
    ghost fits: { ForSome (F.told folder) Keeps },
    ghost kept_are: { ForSome kept (λ tables. ForSome (F.told folder) (AreOf tables)) },
    ghost surely: { ForSome (F.told folder) (λ h. sure ≡ true → IsDurable h) },
}

/// The plant of a folder of std's files.
pub type FileLab<R> = FolderLab<NamedFolder<StdFolder<R>>>;

impl<R: Files<File = File> + AllocGlobal + Clone + Drop> FolderLab<NamedFolder<StdFolder<R>>> {
    /// The plant of a folder. It opens nothing.
    pub fn new(rt: &R, dir: &str) -> Result<FolderLab<NamedFolder<StdFolder<R>>>, Memory>
        ensures faults { IfOk result (λ lab. lab.faults ≡ record { disk = 0; devices = 0 }) }
        ensures names { IfOk result (λ lab. lab.folder.files.paths ≡ names_in dir.now) }
    {
        let rt = rt.clone()?;
        let alloc = rt.alloc();
        Ok(FolderLab {
            folder: NamedFolder::over(alloc, StdFolder::new(rt, dir)?),
            alloc,
            kept: None,
            sure: false,
            faults: Faults {
                disk: 0,
                devices: 0,
            },
        })
    }
}

impl<R: Files<File = File> + AllocGlobal + Drop> FolderLab<NamedFolder<StdFolder<R>>> {
    /// The first line of another form of the tables, where a call read such a text: the last one that did.
    pub fn refused(&self) -> Option<TextFault>
        ensures { result ≡ self.now.folder.refused }
    {
        self.folder.text_fault()
    }
}

impl<F: Folder + Drop> FolderLab<F> {
    /// The plant of a folder.
    pub fn over(alloc: Global, folder: F) -> FolderLab<F>
        requires { ForSome (F.told folder) Keeps }
        ensures folder { result.folder ≡ folder }
        ensures faults { result.faults ≡ record { disk = 0; devices = 0 } }
    {
        FolderLab {
            folder,
            alloc,
            kept: None,
            sure: false,
            faults: Faults {
                disk: 0,
                devices: 0,
            },
        }
    }

    /// The folder, which another program may take.
    pub fn into_folder(self) -> F
        ensures folder { result ≡ self.folder }
        ensures keeps { ForSome (F.told result) Keeps }
    {
        self.folder
    }
}
