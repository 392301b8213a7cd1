//! Openings of operands.

ghost use Rattle.std.specs.Prelude.{◌≡◌, ◌<◌, ◌≤◌, true, length, drop};
ghost use Rattle.tcl_words.specs.Tokens.{begins_with};
ghost use Rattle.tcl_eval.specs.Operators.{opening_of};

/// The opening of an operand in an expression.
#[derive(Clone, Copy, Drop)]
pub enum Opening {
    /// A `!` that isn't the start of `!=`.
    Not,
    Minus,
    Parenthesis,
    Digits,
    Dollar,
    Bracket,
    /// No operand begins so.
    Nothing,
}

fn first_opening(rest: &[u8]) -> Opening
    ensures { result ≡ opening_of rest.now }
{
    let Some((byte, more)) = rest.split_first() else {
        return Opening::Nothing;
    };
    match *byte {
        b'!' if more.first() != Some(&b'=') => Opening::Not,
        b'-' => Opening::Minus,
        b'(' => Opening::Parenthesis,
        b'0'..=b'9' => Opening::Digits,
        b'$' => Opening::Dollar,
        b'[' => Opening::Bracket,
        _ => Opening::Nothing,
    }
}

/// The opening of the operand at a place.
pub fn opening_at(text: &[u8], at: usize) -> Opening
    requires { at ≤ length text.now }
    ensures opening { result ≡ opening_of (drop at text.now) }
{
    first_opening(&text[at..])
}

fn begins_with_parenthesis(rest: &[u8]) -> bool
    ensures { result ≡ begins_with 41 rest.now }
{
    rest.first() == Some(&b')')
}

/// Whether a parenthesis is closed at a place.
pub fn closes_at(text: &[u8], at: usize) -> bool
    requires { at ≤ length text.now }
    ensures closes { result ≡ begins_with 41 (drop at text.now) }
    ensures inside { result ≡ true → at < length text.now }
{
    begins_with_parenthesis(&text[at..])
}
