//! The interpreter's own commands.

ghost use Rattle.std.specs.Prelude.{◌≡◌};
ghost use Rattle.tcl_eval.specs.Forms.{is_text, own, own_of};

use lab_base::Text;

/// A command of the interpreter's own.
#[derive(Clone, Copy, Drop)]
pub enum Own {
    Set,
    Incr,
    Append,
    Lappend,
    Expr,
    If,
    For,
    Foreach,
}

/// Whether a name is this word.
fn is_word(name: &[u8], word: &[u8]) -> bool
    ensures { result ≡ is_text name.now word.now }
{
    name == word
}

/// The own command of that name, if there is one.
fn named_command(name: &[u8]) -> Option<Own>
    ensures { result ≡ own_of name.now }
{
    if is_word(name, b"set") {
        Some(Own::Set)
    } else if is_word(name, b"incr") {
        Some(Own::Incr)
    } else if is_word(name, b"append") {
        Some(Own::Append)
    } else if is_word(name, b"lappend") {
        Some(Own::Lappend)
    } else if is_word(name, b"expr") {
        Some(Own::Expr)
    } else if is_word(name, b"if") {
        Some(Own::If)
    } else if is_word(name, b"for") {
        Some(Own::For)
    } else if is_word(name, b"foreach") {
        Some(Own::Foreach)
    } else {
        None
    }
}

/// The own command that these words begin with, if there is one.
pub fn own_command(words: &[Text]) -> Option<Own>
    ensures { result ≡ own words.now }
{
    match words {
        [name, ..] => named_command(name.bytes()),
        [] => None,
    }
}
