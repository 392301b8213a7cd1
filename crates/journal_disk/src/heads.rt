// The heads of sides, and the side that is live by them.
ghost use Rattle.std.specs.Prelude.{◌≡◌, ◌≤◌, ◌∷◌, length, take};
ghost use Rattle.journal_model.specs.Journals.{head, live};
ghost use Rattle.journal_rec.specs.Payloads.{number};
ghost use Rattle.journal_disk.specs.Heads.{seen, seen_live, place_of, later};

use plant::Side;

/// The open gate. Every other byte is a closed one.
pub const OPEN: u8 = 0xa5;

/// The eight bytes behind the header gate, by which a side is known as a journal.
const MAGIC: [u8; 8] = *b"LABJRNL1";

/// The length of a header, with the gate of the first record after it.
pub const HEADER: usize = 18;

/// The head of a side: the bytes up to the first record.
#[derive(Clone, Copy, PartialEq, Eq)]
pub enum Head {
    /// No journal: the header gate is closed, or the side is shorter than a header.
    Blank,
    /// No header: its gate is open, and the bytes after it are others.
    Foreign,
    /// The head of a journal of that epoch.
    Headed(u64),
}

/// The side that the journal is on.
#[derive(Clone, Copy)]
pub enum LiveSide {
    /// On no side yet.
    New,
    On(Side),
    /// A side holds no journal, nor is it blank; or both are of one epoch.
    Wrong(Side),
}

/// The epoch at the front of these bytes.
pub fn epoch_in(bytes: &[u8]) -> u64
    requires { 8 ≤ length bytes.now }
    ensures { result ≡ number (take 8 bytes.now) }
{
    u64::from_le_bytes([
        bytes[0], bytes[1], bytes[2], bytes[3], bytes[4], bytes[5], bytes[6], bytes[7],
    ])
}

/// The head of a side with these bytes behind its open header gate.
pub fn head_after(bytes: &[u8]) -> Head
    ensures { result ≡ seen (head (OPEN ∷ bytes.now)) }
{
    if bytes.len() < HEADER - 1 {
        return Head::Blank;
    }
    if bytes[..8] != MAGIC[..] {
        return Head::Foreign;
    }
    Head::Headed(epoch_in(&bytes[8..]))
}

/// The head of a side with these bytes.
#[tactic(auto, using(crate::proofs::Walking::is_open))]
pub fn head_of(bytes: &[u8]) -> Head
    ensures { result ≡ seen (head bytes.now) }
{
    if bytes.is_empty() || bytes[0] != OPEN {
        return Head::Blank;
    }
    head_after(&bytes[1..])
}

/// The side that the journal is on, by both heads.
fn place_of(a: Head, b: Head) -> LiveSide
    ensures { result ≡ place_of a b }
{
    match a {
        Head::Foreign => LiveSide::Wrong(Side::A),
        Head::Blank => match b {
            Head::Foreign => LiveSide::Wrong(Side::B),
            Head::Blank => LiveSide::New,
            Head::Headed(_) => LiveSide::On(Side::B),
        },
        Head::Headed(m) => match b {
            Head::Foreign => LiveSide::Wrong(Side::B),
            Head::Blank => LiveSide::On(Side::A),
            Head::Headed(n) => later(m, n),
        },
    }
}

/// Which of two epochs is the later one.
fn later(m: u64, n: u64) -> LiveSide
    ensures { result ≡ later m n }
{
    if m == n {
        LiveSide::Wrong(Side::A)
    } else if n < m {
        LiveSide::On(Side::A)
    } else {
        LiveSide::On(Side::B)
    }
}

/// Where the journal stands, by the bytes of both sides.
#[tactic(auto, using(crate::proofs::Placing::place_live))]
pub fn place_in(a: &[u8], b: &[u8]) -> LiveSide
    ensures { result ≡ seen_live (live (head a.now) (head b.now)) }
{
    place_of(head_of(a), head_of(b))
}
