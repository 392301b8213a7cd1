// The names of the parts of a link or LAN.
ghost use Rattle.std.specs.Prelude.{◌≡◌, ◌<◌, ◌≤◌, ◌+◌, ◌++◌, ◌^◌, ◌-◌, IfOk, length, true, decimal};
ghost use Rattle.std.specs.List.{list_all};
ghost use Rattle.lab_base.specs.Names.{is_name, is_name_byte};

use lab_base::{MAX_NAME, Memory, Name, Text};
use std::alloc::Global;

/// The most digits of a number in a name.
const NUMBER_DIGITS: usize = 3;

/// The name of these bytes.
pub(crate) fn named(bytes: &[u8]) -> Name
    requires { is_name bytes.now ≡ true }
    ensures { result ≡ bytes.now }
{
    Name::read(bytes).unwrap()
}

/// The name of a link or LAN with a mark after it.
pub(crate) fn marked(alloc: Global, link: Name, mark: &[u8]) -> Result<Name, Memory>
    requires few { length link + length mark.now ≤ MAX_NAME }
    requires bytes { list_all is_name_byte mark.now ≡ true }
    ensures { IfOk result (λ name. name ≡ link ++ mark.now) }
{
    let mut text = Text::from_slice(alloc, link.bytes())?;
    text.push_bytes(mark)?;
    Ok(named(text.bytes()))
}

/// The name of a link or LAN with a mark and a number after it.
pub(crate) fn numbered(alloc: Global, link: Name, mark: &[u8], number: u64) -> Result<Name, Memory>
    requires few { length link + length mark.now ≤ MAX_NAME - NUMBER_DIGITS }
    requires bytes { list_all is_name_byte mark.now ≡ true }
    requires number { number < 10 ^ NUMBER_DIGITS }
    ensures { IfOk result (λ name. name ≡ link ++ (mark.now ++ decimal number)) }
{
    let mut text = Text::from_slice(alloc, link.bytes())?;
    text.push_bytes(mark)?;
    text.push_number(number)?;
    Ok(named(text.bytes()))
}
