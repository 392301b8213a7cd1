//! Open quotes, braces, brackets and indexes inside a word, and the steps through them.

ghost use Rattle.std.specs.Prelude.{◌≡◌};
ghost use Rattle.tcl_words.specs.Passes.{flaw_of};

use crate::flaw::Flaw;
use lab_base::Kind;

/// The state of a reading inside a bracket: where a next byte would stand.
#[derive(Clone, Copy, Drop)]
pub enum BracketState {
    /// A command would begin here.
    Start,
    /// A word of a command would begin here.
    Between,
    /// The inside of a bare word.
    Inside,
    /// The closing quote of a word stands just before.
    AfterQuote,
    /// The closing brace of a word stands just before.
    AfterBrace,
}

impl BracketState {
    ghost use Rattle.std.specs.Prelude.{◌≡◌};
    ghost use Rattle.tcl_words.specs.Passes.{after_blank};

    /// The state after a blank.
    pub fn after_blank(self) -> BracketState
        ensures { result ≡ after_blank self }
    {
        match self {
            BracketState::Start => BracketState::Start,
            _ => BracketState::Between,
        }
    }
}

/// An open construct, with the place of its first byte.
#[derive(Clone, Copy, Drop)]
pub enum Frame {
    Bracket {
        opened: usize,
        bracket_state: BracketState,
    },
    Quote {
        opened: usize,
    },
    Index {
        opened: usize,
    },
}

/// The next step in an open construct.
#[derive(Clone, Copy, Drop)]
pub enum Step {
    /// The construct goes on.
    Goes {
        frame: Frame,
        at: usize,
    },
    /// Another one opens inside it, and it goes on afterwards.
    Opens {
        inner: Frame,
        at: usize,
        frame: Frame,
    },
    /// The construct closes.
    Closes {
        at: usize,
    },
    /// The construct has a fault.
    Fails(Flaw),
}

/// The fault of a construct that isn't closed.
pub fn unclosed(frame: Frame) -> Flaw
    ensures { result ≡ flaw_of frame }
{
    match frame {
        Frame::Bracket { opened, .. } => Flaw {
            kind: Kind::Bracket,
            at: opened,
        },
        Frame::Quote { opened } => Flaw {
            kind: Kind::Quote,
            at: opened,
        },
        Frame::Index { opened } => Flaw {
            kind: Kind::Bracket,
            at: opened,
        },
    }
}
