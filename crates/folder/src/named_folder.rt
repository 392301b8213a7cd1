ghost use Rattle.std.specs.Prelude.{◌≡◌, ◌≢◌, ◌⊎◌, ◌↔◌, [], None, false, true, IfOk, IsErrOf, IsFalse, IsTrue, OnErr, OnOk};
ghost use Rattle.std.specs.Option.{ForSome};
ghost use Rattle.folder.specs.Folders.{IsDurable, made_sure};
ghost use Rattle.folder.specs.declared.named_folder.Durable.TheVariants.{Now, Old};
ghost use Rattle.folder.specs.Files.{HasTables, IsBeside, as_held, files_of, is_torn, text_in};

use crate::folder_files::{FolderFiles, Stamp};
use crate::settling::{is_torn, settle};
use lab_base::TextFault;
use plant::Fault;
use std::alloc::Global;

/// Which text of the tables is durable.
#[derive(Clone, Copy, PartialEq, Eq)]
pub enum Durable {
    /// It isn't known.
    Unknown,
    /// The text of `tables` is.
    Now,
    /// The text of `tables.old` is, and that of `tables` is newer.
    Old,
}

/// A folder by its files: which of them has the text of the tables, and in which order they change.
///
/// Each text is a file of its own. It is written as `tables.new` and then takes the name `tables`, which the text before it has lost. Of that
/// one a durable text is kept as `tables.old`. So a kill leaves the old text or the new one, if not yet under its name.
#[derive(Drop)]
pub struct NamedFolder<F: FolderFiles + Drop> {
    pub(crate) files: F,
    pub(crate) alloc: Global,
    /// Whether a file is known to have the name `tables`.
    pub(crate) there: bool,
    pub(crate) durable: Durable,
    /// The stamp of `tables` as it was left.
    pub(crate) stamp: Option<Stamp>,
    /// The first line of another form of the last text that had one.
    pub(crate) refused: Option<TextFault>,
    ghost is_there: { there ≡ true → ForSome (files_of (F.told files)) HasTables },
    ghost is_now: { durable ≡ Now → ForSome (as_held (F.told files)) IsDurable },
    ghost is_old: { durable ≡ Old → ForSome (as_held (F.told files)) (λ h. h.older ≢ []) },
}

impl<F: FolderFiles + Drop> NamedFolder<F> {
    /// The folder of these files. It opens nothing.
    pub fn over(alloc: Global, files: F) -> NamedFolder<F>
        ensures files { result.files ≡ files }
        ensures refused { result.refused ≡ None }
    {
        NamedFolder {
            files,
            alloc,
            there: false,
            durable: Durable::Unknown,
            stamp: None,
            refused: None,
        }
    }

    /// The files of the folder, which another program may take.
    pub fn into_files(self) -> F
        ensures { result ≡ self.files }
    {
        self.files
    }

    /// The first line of another form of the tables, where a call read such a text: the last one that did.
    pub fn text_fault(&self) -> Option<TextFault>
        ensures { result ≡ self.now.refused }
    {
        self.refused
    }

    /// The text of the tables, whose file has their name after it. It is as durable as it was.
    pub(crate) fn settled(&mut self) -> Result<Vec<u8>, Fault>
        ensures told { as_held (F.told self.new.files) ≡ as_held (F.told self.old.files) }
        ensures text { ForSome (F.told self.old.files) (λ k. IfOk result (λ bytes. bytes.items ≡ text_in k.files)) }
        ensures there { OnOk result (self.new.there ≡ true) }
        ensures stopped { IsErrOf result Fault.Stopped ↔ IsTrue (F.is_stopped self.new.files) }
        ensures still { F.is_stopped self.new.files ≡ F.is_stopped self.old.files }
    {
        self.there = false;
        let bytes = settle(&mut self.files, self.alloc)?;
        self.there = true;
        Ok(bytes)
    }

    /// Whether a file has the name of the tables, after a look for one where it isn't known.
    pub(crate) fn has_tables(&mut self) -> bool
        ensures told { as_held (F.told self.new.files) ≡ as_held (F.told self.old.files) }
        ensures there { IsTrue result → self.new.there ≡ true }
        ensures still { F.is_stopped self.new.files ≡ F.is_stopped self.old.files }
    {
        if self.there {
            return true;
        }
        match self.settled() {
            Ok(_) => true,
            Err(_) => false,
        }
    }

    /// Makes the text that has the name of the tables durable, where it isn't.
    pub(crate) fn secure(&mut self) -> Result<(), Fault>
        requires there { self.old.there ≡ true }
        requires runs { IsFalse (F.is_stopped self.old.files) }
        ensures ok { OnOk result (as_held (F.told self.new.files) ≡ made_sure (as_held (F.told self.old.files))) }
        ensures err { OnErr result (as_held (F.told self.new.files) ≡ as_held (F.told self.old.files)) }
        ensures durable { OnOk result (self.new.durable ≡ Durable.Now) }
        ensures there { self.new.there ≡ true }
        ensures stopped { IsErrOf result Fault.Stopped ↔ IsTrue (F.is_stopped self.new.files) }
    {
        if self.durable == Durable::Now {
            return Ok(());
        }
        self.files.sync_tables()?;
        self.durable = Durable::Now;
        Ok(())
    }

    /// Makes the text durable where it isn't known which one is: so there is a durable one before the next takes its place.
    fn find_durable(&mut self) -> Result<(), Fault>
        requires there { self.old.there ≡ true }
        requires runs { IsFalse (F.is_stopped self.old.files) }
        ensures told { (as_held (F.told self.new.files) ≡ as_held (F.told self.old.files))
            ⊎ (as_held (F.told self.new.files) ≡ made_sure (as_held (F.told self.old.files))) }
        ensures known { OnOk result (self.new.durable ≢ Durable.Unknown) }
        ensures there { self.new.there ≡ true }
        ensures stopped { IsErrOf result Fault.Stopped ↔ IsTrue (F.is_stopped self.new.files) }
    {
        match self.durable {
            Durable::Now | Durable::Old => Ok(()),
            Durable::Unknown => self.secure(),
        }
    }

    /// Writes a text beside the tables, of which one is durable.
    pub(crate) fn prepare(&mut self, text: &[u8]) -> Result<(), Fault>
        requires runs { IsFalse (F.is_stopped self.old.files) }
        ensures told { (as_held (F.told self.new.files) ≡ as_held (F.told self.old.files))
            ⊎ (as_held (F.told self.new.files) ≡ made_sure (as_held (F.told self.old.files))) }
        ensures known { OnOk result (self.new.durable ≢ Durable.Unknown) }
        ensures there { OnOk result (self.new.there ≡ true) }
        ensures beside { OnOk result (ForSome (files_of (F.told self.new.files)) (IsBeside text.now)) }
        ensures whole { OnOk result (is_torn text.now ≡ false) }
        ensures stopped { IsErrOf result Fault.Stopped ↔ IsTrue (F.is_stopped self.new.files) }
    {
        if is_torn(text) || !self.has_tables() {
            return Err(Fault::Failed);
        }
        self.find_durable()?;
        self.files.write_beside(text)
    }
}
