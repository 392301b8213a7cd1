ghost use Rattle.std.specs.Prelude.{◌≡◌};
ghost use Rattle.lab_base.specs.Kinds.{rank, word_of, both_of};

use crate::Memory;
use std::alloc::{AllocError, AllocFailed};

/// The kind of a fault in a line.
/// The kinds of a ptop, top or solution text come first, in the order in which they are tried. Then come those of Tcl words and their evaluation,
/// those of NS commands, and those of the expansion of networks.
#[derive(Clone, Copy, Debug, PartialEq, Eq)]
pub enum Kind {
    Word,
    Fields,
    Name,
    Number,
    Range,
    Twice,
    Unknown,
    Ends,
    Port,
    Cycle,
    Same,
    Pipe,
    Limit,
    Empty,
    Missing,
    Quote,
    Brace,
    Bracket,
    AfterQuote,
    AfterBrace,
    Escape,
    Variable,
    Command,
    Arity,
    Zero,
    Overflow,
    Syntax,
    List,
    Many,
    Deep,
    Long,
    Unsupported,
    Node,
    Link,
    Bandwidth,
    Delay,
    Loss,
    Time,
    Event,
    Ip,
    NotRun,
    Address,
    Subnet,
    Shape,
}

impl Kind {
    /// The word that a `bad` reply has for the kind.
    pub fn word(self) -> &'static str
        ensures { result.now ≡ word_of self }
    {
        match self {
            Kind::Word => "word",
            Kind::Fields => "fields",
            Kind::Name => "name",
            Kind::Number => "number",
            Kind::Range => "range",
            Kind::Twice => "twice",
            Kind::Unknown => "unknown",
            Kind::Ends => "ends",
            Kind::Port => "port",
            Kind::Cycle => "cycle",
            Kind::Same => "same",
            Kind::Pipe => "pipe",
            Kind::Limit => "limit",
            Kind::Empty => "empty",
            Kind::Missing => "missing",
            Kind::Quote => "quote",
            Kind::Brace => "brace",
            Kind::Bracket => "bracket",
            Kind::AfterQuote => "after-quote",
            Kind::AfterBrace => "after-brace",
            Kind::Escape => "escape",
            Kind::Variable => "variable",
            Kind::Command => "command",
            Kind::Arity => "arity",
            Kind::Zero => "zero",
            Kind::Overflow => "overflow",
            Kind::Syntax => "syntax",
            Kind::List => "list",
            Kind::Many => "many",
            Kind::Deep => "deep",
            Kind::Long => "long",
            Kind::Unsupported => "unsupported",
            Kind::Node => "node",
            Kind::Link => "link",
            Kind::Bandwidth => "bandwidth",
            Kind::Delay => "delay",
            Kind::Loss => "loss",
            Kind::Time => "time",
            Kind::Event => "event",
            Kind::Ip => "ip",
            Kind::NotRun => "not-run",
            Kind::Address => "address",
            Kind::Subnet => "subnet",
            Kind::Shape => "shape",
        }
    }
}

/// A fault of a text, with the number of its line, from 1.
#[derive(Clone, Copy, Debug, PartialEq, Eq)]
pub struct TextFault {
    pub line: u32,
    pub kind: Kind,
}

/// The reason why a text was not read.
#[derive(Clone, Copy, Debug, PartialEq, Eq)]
pub enum TextRefused {
    Text(TextFault),
    Memory,
}

impl From<Memory> for TextRefused {
    ghost use Rattle.lab_base.specs.declared.fault.TextRefused.TheVariants as refusals;

    ghost from_gives = { λ _ e. e ≡ refusals.Memory };

    fn from(_error: Memory) -> TextRefused {
        TextRefused::Memory
    }
}

fn rank(kind: Kind) -> u8
    ensures { result ≡ rank kind }
{
    match kind {
        Kind::Word => 0,
        Kind::Fields => 1,
        Kind::Name => 2,
        Kind::Number => 3,
        Kind::Range => 4,
        Kind::Twice => 5,
        Kind::Unknown => 6,
        Kind::Ends => 7,
        Kind::Port => 8,
        Kind::Cycle => 9,
        Kind::Same => 10,
        Kind::Pipe => 11,
        Kind::Limit => 12,
        _ => 13,
    }
}

/// The values of two parts of a line. Of two faults the one that is tried first counts.
pub fn both<A: Drop, B: Drop>(a: Result<A, Kind>, b: Result<B, Kind>) -> Result<(A, B), Kind>
    ensures { result ≡ both_of a b }
{
    match (a, b) {
        (Ok(a), Ok(b)) => Ok((a, b)),
        (Ok(_), Err(kind)) => Err(kind),
        (Err(kind), Ok(_)) => Err(kind),
        (Err(one), Err(other)) => Err(if rank(other) < rank(one) { other } else { one }),
    }
}
