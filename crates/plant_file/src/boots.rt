// Boot states as words.
ghost use Rattle.std.specs.Prelude.{◌≡◌};
ghost use Rattle.plant_file.specs.Entries.{moved};
ghost use Rattle.plant_file.specs.Lines.{boot_of, boot_word};

use lab_base::{Boot, Kind};

/// The word of a boot state, as replies have it.
pub(crate) fn boot_word(state: Boot) -> &'static [u8]
    ensures { result.now ≡ boot_word state }
{
    match state {
        Boot::Off => b"OFF",
        Boot::Shutdown => b"SHUTDOWN",
        Boot::Booting => b"BOOTING",
        Boot::TbSetup => b"TBSETUP",
        Boot::IsUp => b"ISUP",
    }
}

/// The boot state of a word; `word` where it is none.
pub(crate) fn boot_in(word: &[u8]) -> Result<Boot, Kind>
    ensures { result ≡ boot_of word.now }
{
    if word == b"OFF".as_slice() {
        Ok(Boot::Off)
    } else if word == b"SHUTDOWN".as_slice() {
        Ok(Boot::Shutdown)
    } else if word == b"BOOTING".as_slice() {
        Ok(Boot::Booting)
    } else if word == b"TBSETUP".as_slice() {
        Ok(Boot::TbSetup)
    } else if word == b"ISUP".as_slice() {
        Ok(Boot::IsUp)
    } else {
        Err(Kind::Word)
    }
}

/// The boot state after a poll.
pub(crate) fn moved(state: Boot) -> Boot
    ensures { result ≡ moved state }
{
    match state {
        Boot::Booting => Boot::TbSetup,
        Boot::TbSetup => Boot::IsUp,
        Boot::Off | Boot::Shutdown | Boot::IsUp => state,
    }
}
