// The heads of sides that were shut or cut.
ghost use Rattle.std.specs.Prelude.{◌≡◌};
ghost use Rattle.lab_sides.specs.Heads.{shut_head, is_cut};

use journal_disk::{HEADER, Head, OPEN, head_after};

/// The head of a side as if its header gate were open.
pub fn shut_head(bytes: &[u8]) -> Head
    ensures { result ≡ shut_head bytes.now }
{
    if bytes.is_empty() {
        return Head::Blank;
    }
    head_after(&bytes[1..])
}

/// Whether a side ends within its header, whose gate is open.
pub fn is_cut(bytes: &[u8]) -> bool
    ensures { result ≡ is_cut bytes.now }
{
    match bytes.get(0) {
        Some(gate) => bytes.len() < HEADER && *gate == OPEN,
        None => false,
    }
}
