//! The checks of a command's words.

ghost use Rattle.std.specs.Prelude.{◌≡◌};
ghost use Rattle.ns_build.specs.Checks as checks;

use lab_base::{Kind, Name, Text};

/// Refuses by that fault where the test holds.
pub(crate) fn refuse(kind: Kind, test: bool) -> Result<(), Kind>
    ensures { result ≡ checks.refuse kind test }
{
    if test { Err(kind) } else { Ok(()) }
}

/// The value; the fault where there is none.
pub(crate) fn need<T: Drop>(kind: Kind, value: Option<T>) -> Result<T, Kind>
    ensures { result ≡ checks.need kind value }
{
    match value {
        Some(value) => Ok(value),
        None => Err(kind),
    }
}

/// The word at an index, from 0; the empty word where there is none.
pub(crate) fn word_at(words: &[Text], index: usize) -> &[u8]
    ensures { result.now ≡ checks.word_at words.now index }
{
    match words.get(index) {
        Some(word) => word.bytes(),
        None => &[],
    }
}

/// Refuses another number of words.
pub(crate) fn counted(count: usize, words: &[Text]) -> Result<(), Kind>
    ensures { result ≡ checks.counted count words.now }
{
    refuse(Kind::Arity, words.len() != count)
}

/// The name in a word; the fault where it is none.
#[tactic(auto, unfolding(crate::specs::Checks::name_in))]
pub(crate) fn name_in(word: &[u8]) -> Result<Name, Kind>
    ensures { result ≡ checks.name_in word.now }
{
    match Name::read(word) {
        Ok(name) => Ok(name),
        Err(_) => Err(Kind::Name),
    }
}

/// The bandwidth in a word, in kbps.
#[tactic(auto, unfolding(crate::specs::Checks::bandwidth_in))]
pub(crate) fn bandwidth_in(word: &[u8]) -> Result<u64, Kind>
    ensures { result ≡ checks.bandwidth_in word.now }
{
    need(Kind::Bandwidth, ns_words::bandwidth(word))
}

/// The delay in a word, in microseconds.
#[tactic(auto, unfolding(crate::specs::Checks::delay_in))]
pub(crate) fn delay_in(word: &[u8]) -> Result<u32, Kind>
    ensures { result ≡ checks.delay_in word.now }
{
    need(Kind::Delay, ns_words::delay(word))
}

/// The loss in a word, in millionths.
#[tactic(auto, unfolding(crate::specs::Checks::loss_in))]
pub(crate) fn loss_in(word: &[u8]) -> Result<u32, Kind>
    ensures { result ≡ checks.loss_in word.now }
{
    need(Kind::Loss, ns_words::loss(word))
}

/// The flag in a word, which is `0` or `1`.
#[tactic(auto, unfolding(crate::specs::Checks::flag_in))]
pub(crate) fn flag_in(word: &[u8]) -> Result<bool, Kind>
    ensures { result ≡ checks.flag_in word.now }
{
    if word == b"0".as_slice() {
        Ok(false)
    } else if word == b"1".as_slice() {
        Ok(true)
    } else {
        Err(Kind::Number)
    }
}

/// The IPv4 address in a word.
#[tactic(auto, unfolding(crate::specs::Checks::address_in))]
pub(crate) fn address_in(word: &[u8]) -> Result<u32, Kind>
    ensures { result ≡ checks.address_in word.now }
{
    need(Kind::Ip, ns_words::address(word))
}

/// The name that a variable gives.
#[tactic(auto, unfolding(crate::specs::Checks::object_name_in))]
pub(crate) fn object_name_in(variable: &[u8]) -> Result<Name, Kind>
    ensures { result ≡ checks.object_name_in variable.now }
{
    need(Kind::Name, ns_words::object_name(variable))
}
