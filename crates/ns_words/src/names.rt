//! The names of nodes, links and LANs.

ghost use Rattle.std.specs.Prelude.{◌≡◌, ◌↔◌, ◌≤◌, ◌+◌, ◌++◌, ℕ, List, length, IfSome, Some, option_map};
ghost use Rattle.std.specs.List.{list_all};
ghost use Rattle.arrayvec.specs.ArrayVec.{array_vec_len};
ghost use Rattle.virt_topo.specs.Topos.{is_word_byte, HasForm};
ghost use Rattle.ns_words.specs.Objects.{is_index_byte, is_word, is_index, plain_of, indexed_of};
ghost use Rattle.ns_words.specs.Objects.{closed_of, named_of, object_name_of, IsObjectName, numbered_prefix, numbered_name_of};
ghost use Rattle.ns_words.specs.Seen.{named_if, numbered_letter};

use arrayvec::ArrayVec;
use lab_base::{Name, Parts, parted};

/// The most bytes of an object's name.
const MAX_OBJECT_NAME: usize = 26;

/// The kind of an object that is named by its number, if no variable names it.
#[derive(Clone, Copy, PartialEq, Eq)]
pub enum Numbered {
    Node,
    /// A link or a LAN.
    Link,
}

fn is_word_byte(byte: u8) -> bool
    ensures { result ≡ is_word_byte byte }
{
    byte.is_ascii_alphanumeric() || byte == b'_'
}

fn is_index_byte(byte: u8) -> bool
    ensures { result ≡ is_index_byte byte }
{
    is_word_byte(byte) || byte == b'-'
}

fn has_word_bytes(bytes: &[u8]) -> bool
    ensures { result ≡ list_all is_word_byte bytes.now }
{
    bytes.iter().all(|byte| is_word_byte(*byte))
}

fn has_index_bytes(bytes: &[u8]) -> bool
    ensures { result ≡ list_all is_index_byte bytes.now }
{
    bytes.iter().all(|byte| is_index_byte(*byte))
}

fn is_word(bytes: &[u8]) -> bool
    ensures { result ≡ is_word bytes.now }
{
    !bytes.is_empty() && has_word_bytes(bytes)
}

fn is_index(bytes: &[u8]) -> bool
    ensures { result ≡ is_index bytes.now }
{
    !bytes.is_empty() && has_index_bytes(bytes)
}

/// The name of these bytes, if they are one of at most 26 bytes.
fn name_in(bytes: &[u8]) -> Option<Name>
    ensures { result ≡ named_if bytes.now }
{
    if bytes.len() <= MAX_OBJECT_NAME {
        return Name::read(bytes).ok();
    }
    None
}

fn extend(bytes: &mut ArrayVec<u8, MAX_OBJECT_NAME>, more: &[u8])
    requires { array_vec_len bytes.old + length more.now ≤ MAX_OBJECT_NAME }
    ensures { bytes.new.items ≡ bytes.old.items ++ more.now }
{
    bytes.try_extend_from_slice(more).unwrap()
}

/// The name of three pieces, if they make one of at most 26 bytes.
fn joined(first: &[u8], second: &[u8], third: &[u8]) -> Option<Name>
    ensures { result ≡ named_if (first.now ++ second.now ++ third.now) }
{
    let len = first.len().saturating_add(second.len());
    if len.saturating_add(third.len()) > MAX_OBJECT_NAME {
        return None;
    }
    let mut bytes = ArrayVec::<u8, MAX_OBJECT_NAME>::new();
    extend(&mut bytes, first);
    extend(&mut bytes, second);
    extend(&mut bytes, third);
    name_in(bytes.as_slice())
}

fn plain_name(variable: &[u8]) -> Option<Name>
    ensures { result ≡ plain_of variable.now }
{
    if is_word(variable) {
        name_in(variable)
    } else {
        None
    }
}

fn indexed_name(variable: &[u8], index: &[u8]) -> Option<Name>
    ensures { result ≡ indexed_of variable.now index.now }
{
    if is_word(variable) && is_index(index) {
        return joined(variable, b"-", index);
    }
    None
}

fn closed_name(variable: &[u8], parts: Option<Parts<'_>>) -> Option<Name>
    ensures { result ≡ closed_of variable.now (option_map (λ parts. (parts.before.now, parts.behind.now)) parts.entry) }
{
    let parts = parts?;
    if parts.behind.is_empty() {
        return indexed_name(variable, parts.before);
    }
    None
}

fn named(variable: &[u8], parts: Option<Parts<'_>>) -> Option<Name>
    ensures { result ≡ named_of variable.now (option_map (λ parts. (parts.before.now, parts.behind.now)) parts.entry) }
{
    match parts {
        Some(parts) => closed_name(parts.before, parted(parts.behind, b')')),
        None => plain_name(variable),
    }
}

/// The name that its first variable gives an object: `v` for `v`, and `v-i` for `v(i)`, at most 26 bytes. None where the variable gives no name.
pub fn object_name(variable: &[u8]) -> Option<Name>
    ensures value { result ≡ object_name_of variable.now }
    ensures exact { (name : List ℕ) → (result ≡ Some name) ↔ IsObjectName variable.now name }
    ensures asked { (numbered : List ℕ) → IfSome result (λ name. HasForm numbered name) }
{
    named(variable, parted(variable, b'('))
}

fn numbered_letter(of: Numbered) -> &'static [u8]
    ensures { result.now ≡ numbered_letter of }
{
    match of {
        Numbered::Node => b"n",
        Numbered::Link => b"l",
    }
}

/// The name of an object without a variable: `tb.nK` for the K-th node, `tb.lK` for the K-th link or LAN.
pub fn numbered_name(of: Numbered, k: u16) -> Name
    ensures value { result ≡ numbered_name_of of k }
    ensures asked { HasForm (numbered_prefix of) result }
{
    let mut buffer = itoa::Buffer::new();
    joined(b"tb.", numbered_letter(of), buffer.format(k).as_bytes()).unwrap()
}
