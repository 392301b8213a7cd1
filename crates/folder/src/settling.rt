// The text of a folder by its files, which has the name `tables` again where a run was cut off.
ghost use Rattle.std.specs.Prelude.{◌≡◌, ◌↔◌, [], None, Some, false, true, IfOk, IsErrOf, IsTrue, OnOk};
ghost use Rattle.std.specs.Option.{ForSome};
ghost use Rattle.folder.specs.Files.{HasTables, as_held, file_of, files_of, is_torn, text_in};

use crate::folder_files::{FolderFiles, TextName};
use plant::Fault;
use std::alloc::Global;

/// Whether a file was not written whole.
pub fn is_torn(bytes: &[u8]) -> bool
    ensures { result ≡ is_torn bytes.now }
{
    bytes.contains(&0)
}

/// Makes an empty `tables`, which is the text where no other is.
fn begin<F: FolderFiles>(files: &mut F, alloc: Global) -> Result<Vec<u8>, Fault>
    requires { ForSome (F.told files.old) (λ k. (k.files.tables ≡ None) × (text_in k.files ≡ [])) }
    ensures told { as_held (F.told files.new) ≡ as_held (F.told files.old) }
    ensures text { ForSome (F.told files.old) (λ k. IfOk result (λ bytes. bytes.items ≡ text_in k.files)) }
    ensures there { OnOk result (ForSome (files_of (F.told files.new)) HasTables) }
    ensures stopped { IsErrOf result Fault.Stopped ↔ IsTrue (F.is_stopped files.new) }
    ensures still { F.is_stopped files.new ≡ F.is_stopped files.old }
{
    files.make_tables()?;
    Ok(Vec::new(alloc))
}

/// Gives the text that counts the name of the tables.
fn take<F: FolderFiles>(files: &mut F, from: TextName, bytes: Vec<u8>) -> Result<Vec<u8>, Fault>
    requires { ForSome (F.told files.old) (λ k. (file_of from k.files ≡ Some bytes.items) × (text_in k.files ≡ bytes.items) × (is_torn bytes.items ≡ false)) }
    ensures told { as_held (F.told files.new) ≡ as_held (F.told files.old) }
    ensures text { ForSome (F.told files.old) (λ k. IfOk result (λ bytes. bytes.items ≡ text_in k.files)) }
    ensures there { OnOk result (ForSome (files_of (F.told files.new)) HasTables) }
    ensures stopped { IsErrOf result Fault.Stopped ↔ IsTrue (F.is_stopped files.new) }
    ensures still { F.is_stopped files.new ≡ F.is_stopped files.old }
{
    files.name_tables(from)?;
    Ok(bytes)
}

/// The older text in the place of a torn one that has the name of the tables.
fn settle_torn<F: FolderFiles>(files: &mut F, torn: Vec<u8>) -> Result<Vec<u8>, Fault>
    requires { ForSome (F.told files.old) (λ k. (k.files.tables ≡ Some torn.items) × (is_torn torn.items ≡ true)) }
    ensures told { as_held (F.told files.new) ≡ as_held (F.told files.old) }
    ensures text { ForSome (F.told files.old) (λ k. IfOk result (λ bytes. bytes.items ≡ text_in k.files)) }
    ensures there { OnOk result (ForSome (files_of (F.told files.new)) HasTables) }
    ensures stopped { IsErrOf result Fault.Stopped ↔ IsTrue (F.is_stopped files.new) }
    ensures still { F.is_stopped files.new ≡ F.is_stopped files.old }
{
    match files.bytes(TextName::Older)? {
        Some(bytes) => {
            if is_torn(&bytes) {
                Ok(torn)
            } else {
                take(files, TextName::Older, bytes)
            }
        }
        None => Ok(torn),
    }
}

/// The older text in the place of a torn one that was to take the name of the tables, which no file has.
fn settle_older<F: FolderFiles>(
    files: &mut F,
    alloc: Global,
    torn: Vec<u8>,
) -> Result<Vec<u8>, Fault>
    requires { ForSome (F.told files.old) (λ k. (k.files.tables ≡ None) × (k.files.beside ≡ Some torn.items) × (is_torn torn.items ≡ true)) }
    ensures told { as_held (F.told files.new) ≡ as_held (F.told files.old) }
    ensures text { ForSome (F.told files.old) (λ k. IfOk result (λ bytes. bytes.items ≡ text_in k.files)) }
    ensures there { OnOk result (ForSome (files_of (F.told files.new)) HasTables) }
    ensures stopped { IsErrOf result Fault.Stopped ↔ IsTrue (F.is_stopped files.new) }
    ensures still { F.is_stopped files.new ≡ F.is_stopped files.old }
{
    match files.bytes(TextName::Older)? {
        Some(bytes) => {
            if is_torn(&bytes) {
                begin(files, alloc)
            } else {
                take(files, TextName::Older, bytes)
            }
        }
        None => begin(files, alloc),
    }
}

/// The text that was to take the name of the tables, which no file has.
fn settle_beside<F: FolderFiles>(files: &mut F, alloc: Global) -> Result<Vec<u8>, Fault>
    requires { ForSome (F.told files.old) (λ k. k.files.tables ≡ None) }
    ensures told { as_held (F.told files.new) ≡ as_held (F.told files.old) }
    ensures text { ForSome (F.told files.old) (λ k. IfOk result (λ bytes. bytes.items ≡ text_in k.files)) }
    ensures there { OnOk result (ForSome (files_of (F.told files.new)) HasTables) }
    ensures stopped { IsErrOf result Fault.Stopped ↔ IsTrue (F.is_stopped files.new) }
    ensures still { F.is_stopped files.new ≡ F.is_stopped files.old }
{
    match files.bytes(TextName::Beside)? {
        Some(bytes) => {
            if is_torn(&bytes) {
                settle_older(files, alloc, bytes)
            } else {
                take(files, TextName::Beside, bytes)
            }
        }
        None => begin(files, alloc),
    }
}

/// The text of the folder, whose file has the name of the tables after it. It stays the same where this fails.
pub(crate) fn settle<F: FolderFiles>(files: &mut F, alloc: Global) -> Result<Vec<u8>, Fault>
    ensures told { as_held (F.told files.new) ≡ as_held (F.told files.old) }
    ensures text { ForSome (F.told files.old) (λ k. IfOk result (λ bytes. bytes.items ≡ text_in k.files)) }
    ensures there { OnOk result (ForSome (files_of (F.told files.new)) HasTables) }
    ensures stopped { IsErrOf result Fault.Stopped ↔ IsTrue (F.is_stopped files.new) }
    ensures still { F.is_stopped files.new ≡ F.is_stopped files.old }
{
    match files.bytes(TextName::Tables)? {
        Some(bytes) => {
            if is_torn(&bytes) {
                settle_torn(files, bytes)
            } else {
                Ok(bytes)
            }
        }
        None => settle_beside(files, alloc),
    }
}
