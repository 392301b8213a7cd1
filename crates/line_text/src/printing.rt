// Parts of canonical lines.
ghost use Rattle.std.specs.Prelude.{◌≡◌, ◌++◌, ◌∷◌, true, decimal, OnOk};
ghost use Rattle.lab_base.specs.Names.{is_name};
ghost use Rattle.line_text.specs.Printing.{with_number};

use lab_base::{Memory, Name, Text};

/// A space and a word.
pub fn push_word(text: &mut Text, word: &[u8]) -> Result<(), Memory>
    ensures { OnOk result (text.new ≡ text.old ++ 32 ∷ word.now) }
{
    text.push(b' ')?;
    text.push_bytes(word)
}

/// A space and a number.
pub fn push_count(text: &mut Text, number: u64) -> Result<(), Memory>
    ensures { OnOk result (text.new ≡ text.old ++ 32 ∷ decimal number) }
{
    text.push(b' ')?;
    text.push_number(number)
}

/// A space and a name.
pub fn push_field(text: &mut Text, name: &Name) -> Result<(), Memory>
    ensures text { OnOk result (text.new ≡ text.old ++ 32 ∷ name.now) }
    ensures named { OnOk result (is_name name.now ≡ true) }
{
    text.push(b' ')?;
    text.push_bytes(name.bytes())
}

/// A space, a name, a colon and a number.
pub fn push_numbered(text: &mut Text, name: &Name, number: u64) -> Result<(), Memory>
    ensures text { OnOk result (text.new ≡ text.old ++ 32 ∷ with_number (name.now, number)) }
    ensures named { OnOk result (is_name name.now ≡ true) }
{
    text.push(b' ')?;
    text.push_bytes(name.bytes())?;
    text.push(b':')?;
    text.push_number(number)
}
