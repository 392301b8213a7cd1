ghost use Rattle.std.specs.Prelude.{◌≡◌, IfOk, string_bytes};
ghost use Rattle.folder.specs.Names.{inside, name_of_side, names_in};

use crate::folder_files::TextName;
use lab_base::Memory;
use plant::Side;
use std::alloc::Global;
use std::marker::Model;

/// The names of a lab's folder and its files.
#[derive(Drop)]
pub struct Paths {
    folder: String,
    /// The folder that the folder lies in.
    parent: String,
    a: String,
    b: String,
    tables: String,
    /// Where the tables are written, before they take the place of the old ones.
    beside: String,
    /// Where a durable text of the tables is kept, while a newer one isn't.
    old: String,
}

impl Model for Paths {
    ghost use Rattle.std.specs.Prelude.{string_bytes};
    ghost use Rattle.folder.specs.Names.{Names};

    ghost Value = { Names };

    ghost view = { λ paths. record {
      folder = string_bytes paths.folder;
      parent = string_bytes paths.parent;
      a = string_bytes paths.a;
      b = string_bytes paths.b;
      tables = string_bytes paths.tables;
      beside = string_bytes paths.beside;
      old = string_bytes paths.old;
    } };
}

/// A name after the folder's.
fn joined(alloc: Global, folder: &str, name: &str) -> Result<String, Memory>
    ensures { IfOk result (λ path. string_bytes path ≡ inside folder.now name.now) }
{
    let mut path = String::from_str(alloc, folder)?;
    path.push('/')?;
    path.push_str(name)?;
    Ok(path)
}

impl Paths {
    /// The names in a folder of that name.
    pub fn new(alloc: Global, folder: &str) -> Result<Paths, Memory>
        ensures { IfOk result (λ paths. paths ≡ names_in folder.now) }
    {
        Ok(Paths {
            folder: String::from_str(alloc, folder)?,
            parent: joined(alloc, folder, "..")?,
            a: joined(alloc, folder, "journal.a")?,
            b: joined(alloc, folder, "journal.b")?,
            tables: joined(alloc, folder, "tables")?,
            beside: joined(alloc, folder, "tables.new")?,
            old: joined(alloc, folder, "tables.old")?,
        })
    }

    pub fn folder(&self) -> &str
        ensures { result.now ≡ self.now.folder }
    {
        self.folder.as_str()
    }

    /// The folder that the folder lies in.
    pub fn parent(&self) -> &str
        ensures { result.now ≡ self.now.parent }
    {
        self.parent.as_str()
    }

    /// The file of a side.
    pub fn side(&self, side: Side) -> &str
        ensures { result.now ≡ name_of_side side self.now }
    {
        match side {
            Side::A => self.a.as_str(),
            Side::B => self.b.as_str(),
        }
    }

    /// The file of a text.
    pub fn text(&self, name: TextName) -> &str
        ensures tables { name ≡ TextName.Tables → result.now ≡ self.now.tables }
        ensures beside { name ≡ TextName.Beside → result.now ≡ self.now.beside }
        ensures older { name ≡ TextName.Older → result.now ≡ self.now.old }
    {
        match name {
            TextName::Tables => self.tables.as_str(),
            TextName::Beside => self.beside.as_str(),
            TextName::Older => self.old.as_str(),
        }
    }
}
