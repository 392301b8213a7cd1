// The files of texts.
ghost use Rattle.std.specs.Prelude.{◌≡◌, None, Some, IfOk, option_map, if◌then◌else◌};
ghost use Rattle.folder.specs.Files.{beside_is, file_of, freed, is_torn, made, named, or_older, swapped_if, text_in};

use folder::{TextName, is_torn};
use lab_base::Memory;
use std::alloc::Global;
use std::marker::Model;

/// The files of texts in a folder. Contracts see the bytes of each that is there.
#[derive(Drop)]
pub(crate) struct Texts {
    tables: Option<Vec<u8>>,
    beside: Option<Vec<u8>>,
    older: Option<Vec<u8>>,
}

impl Model for Texts {
    ghost use Rattle.std.specs.Prelude.{option_map};
    ghost use Rattle.folder.specs.Files.{Files};

    ghost Value = { Files };

    ghost view = { λ texts. record {
      tables = option_map (λ bytes. bytes.items) texts.tables;
      beside = option_map (λ bytes. bytes.items) texts.beside;
      older = option_map (λ bytes. bytes.items) texts.older;
    } };
}

/// A copy of bytes.
pub(crate) fn copied(alloc: Global, bytes: &[u8]) -> Result<Vec<u8>, Memory>
    ensures { IfOk result (λ copy. copy.items ≡ bytes.now) }
{
    let mut copy = Vec::new(alloc);
    copy.extend_from_slice(bytes)?;
    Ok(copy)
}

/// A text that was written whole; else the older one, where that was.
fn whole_or<'a>(bytes: &'a [u8], older: &'a Option<Vec<u8>>, torn: &'a [u8]) -> &'a [u8]
    ensures { result.now ≡ (if is_torn bytes.now then or_older (option_map (λ bytes. bytes.items) older.now) torn.now else bytes.now) }
{
    if !is_torn(bytes) {
        return bytes;
    }
    match older {
        Some(old) => { if is_torn(old) { torn } else { old } }
        None => torn,
    }
}

impl Texts {
    /// No file.
    pub(crate) fn none() -> Texts
        ensures { result ≡ record { tables = None; beside = None; older = None } }
    {
        Texts {
            tables: None,
            beside: None,
            older: None,
        }
    }

    /// An older text, in the place of one that has the name of the tables and was not written whole.
    #[tactic(auto, using(crate::proofs::Left::alone, crate::proofs::Left::older))]
    pub(crate) fn after_loss(alloc: Global, text: Vec<u8>) -> Result<Texts, Memory>
        ensures { IfOk result (λ texts. text_in texts ≡ text.items) }
    {
        let mut torn = Vec::new(alloc);
        torn.push(0)?;
        if is_torn(&text) {
            return Ok(Texts {
                tables: Some(text),
                beside: None,
                older: None,
            });
        }
        Ok(Texts {
            tables: Some(torn),
            beside: None,
            older: Some(text),
        })
    }

    fn file(&self, name: TextName) -> &Option<Vec<u8>>
        ensures { option_map (λ bytes. bytes.items) result.now ≡ file_of name self.now }
    {
        match name {
            TextName::Tables => &self.tables,
            TextName::Beside => &self.beside,
            TextName::Older => &self.older,
        }
    }

    /// A copy of a file.
    pub(crate) fn bytes(&self, alloc: Global, name: TextName) -> Result<Option<Vec<u8>>, Memory>
        ensures { IfOk result (λ found. option_map (λ bytes. bytes.items) found ≡ file_of name self.now) }
    {
        match self.file(name) {
            Some(bytes) => Ok(Some(copied(alloc, bytes)?)),
            None => Ok(None),
        }
    }

    /// The text that they stand for.
    pub(crate) fn text(&self) -> &[u8]
        ensures { result.now ≡ text_in self.now }
    {
        match &self.tables {
            Some(bytes) => whole_or(bytes, &self.older, bytes),
            None => match &self.beside {
                Some(bytes) => whole_or(bytes, &self.older, &[]),
                None => &[],
            },
        }
    }

    /// Makes an empty `tables` where there is none.
    pub(crate) fn make(&mut self, alloc: Global)
        ensures { self.new ≡ made self.old }
    {
        if self.tables.is_none() {
            self.tables = Some(Vec::new(alloc));
        }
    }

    /// Gives a file the name `tables`.
    pub(crate) fn name(&mut self, from: TextName)
        ensures { self.new ≡ named from self.old }
    {
        match from {
            TextName::Tables => {}
            TextName::Beside => self.tables = self.beside.take(),
            TextName::Older => self.tables = self.older.take(),
        }
    }

    /// Puts a text beside the tables.
    pub(crate) fn put_beside(&mut self, text: Vec<u8>)
        ensures { self.new ≡ beside_is (Some text.items) self.old }
    {
        self.beside = Some(text);
    }

    /// Takes the name `tables` from its file, which is kept as the older one or removed.
    fn free(&mut self, keep: bool)
        ensures { self.new ≡ freed keep self.old }
    {
        if keep {
            self.older = self.tables.take();
        } else {
            self.tables = None;
        }
    }

    /// Takes the name `tables` from its file, and gives it to the one beside, or to none.
    pub(crate) fn swap(&mut self, keep: bool, swap: bool)
        ensures { self.new ≡ swapped_if swap keep self.old }
    {
        self.free(keep);
        if swap {
            self.tables = self.beside.take();
        }
    }
}
