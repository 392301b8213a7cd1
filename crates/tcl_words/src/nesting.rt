//! Brackets and indexes, which are passed over.

ghost use Rattle.std.specs.Prelude.{◌≡◌, ◌≢◌, ◌+◌, ◌<◌, ◌≤◌, length, slice_index, Ok, Err, Result, IfOk};
ghost use Rattle.tcl_words.specs.Passes.{InBracket, GoesOn, Passes, Leads, IsForward};
ghost use Rattle.tcl_words.specs.Gives.{Finds};
ghost use Rattle.tcl_words.specs.declared.frame.Frame.TheVariants as frames;
ghost use Rattle.tcl_words.specs.declared.frame.BracketState.TheVariants as places;

use crate::flaw::{Broken, Flaw};
use crate::frame::{BracketState, Frame, Step, unclosed};
use crate::tokens::{Token, blank_at, braces_at, comment_at, ends_command_at, token_at};
use lab_base::Kind;
use std::alloc::Global;

/// The step at a byte that doesn't close the open construct.
fn inner_step(text: &[u8], from: Frame, frame: Frame, at: usize) -> Step
    requires here { at < length text.now }
    requires goes_on { GoesOn text.now from at frame }
    ensures leads { Leads text.now from at result }
    ensures forward { IsForward text.now at result }
{
    match token_at(text, at) {
        Token::Byte => Step::Goes { frame, at: at + 1 },
        Token::Escape { size, .. } => Step::Goes {
            frame,
            at: at + size,
        },
        Token::Wrong => Step::Fails(Flaw {
            kind: Kind::Escape,
            at,
        }),
        Token::Variable { size } => Step::Goes {
            frame,
            at: at + size,
        },
        Token::Braced { size } => Step::Goes {
            frame,
            at: at + size,
        },
        Token::Indexed { size } => Step::Opens {
            inner: Frame::Index {
                opened: at + size - 1,
            },
            at: at + size,
            frame,
        },
        Token::Bracket => Step::Opens {
            inner: Frame::Bracket {
                opened: at,
                bracket_state: BracketState::Start,
            },
            at: at + 1,
            frame,
        },
    }
}

/// The step where a word of a bracket begins or goes on.
fn word_step(text: &[u8], opened: usize, bracket_state: BracketState, at: usize) -> Step
    requires inside { InBracket text.now at }
    requires no_comment { bracket_state ≡ places.Start → slice_index text.now at ≢ 35 }
    ensures leads { Leads text.now (frames.Bracket opened bracket_state) at result }
    ensures forward { IsForward text.now at result }
{
    let here = Frame::Bracket {
        opened,
        bracket_state,
    };
    let inside = Frame::Bracket {
        opened,
        bracket_state: BracketState::Inside,
    };
    match bracket_state {
        BracketState::AfterQuote => Step::Fails(Flaw {
            kind: Kind::AfterQuote,
            at,
        }),
        BracketState::AfterBrace => Step::Fails(Flaw {
            kind: Kind::AfterBrace,
            at,
        }),
        BracketState::Inside => inner_step(text, here, inside, at),
        _ => match text[at] {
            b'"' => Step::Opens {
                inner: Frame::Quote { opened: at },
                at: at + 1,
                frame: Frame::Bracket {
                    opened,
                    bracket_state: BracketState::AfterQuote,
                },
            },
            b'{' => match braces_at(text, at + 1) {
                Some(size) => Step::Goes {
                    frame: Frame::Bracket {
                        opened,
                        bracket_state: BracketState::AfterBrace,
                    },
                    at: at + 1 + size,
                },
                None => Step::Fails(Flaw {
                    kind: Kind::Brace,
                    at,
                }),
            },
            _ => inner_step(text, here, inside, at),
        },
    }
}

/// The step in a bracket.
fn bracket_step(text: &[u8], opened: usize, bracket_state: BracketState, at: usize) -> Step
    requires { at < length text.now }
    ensures leads { Leads text.now (frames.Bracket opened bracket_state) at result }
    ensures forward { IsForward text.now at result }
{
    let start = Frame::Bracket {
        opened,
        bracket_state: BracketState::Start,
    };
    let blank = blank_at(text, at);
    if blank > 0 {
        return Step::Goes {
            frame: Frame::Bracket {
                opened,
                bracket_state: bracket_state.after_blank(),
            },
            at: at + blank,
        };
    }
    if ends_command_at(text, at) {
        return Step::Goes {
            frame: start,
            at: at + 1,
        };
    }
    match text[at] {
        b']' => Step::Closes { at: at + 1 },
        b'#' if bracket_state == BracketState::Start => Step::Goes {
            frame: start,
            at: at + comment_at(text, at),
        },
        _ => word_step(text, opened, bracket_state, at),
    }
}

/// The next step in the open construct, at a place.
fn step_at(text: &[u8], frame: Frame, at: usize) -> Step
    requires { at < length text.now }
    ensures leads { Leads text.now frame at result }
    ensures forward { IsForward text.now at result }
{
    match frame {
        Frame::Bracket {
            opened,
            bracket_state,
        } => bracket_step(text, opened, bracket_state, at),
        Frame::Quote { .. } => {
            if text[at] == b'"' {
                Step::Closes { at: at + 1 }
            } else {
                inner_step(text, frame, frame, at)
            }
        }
        Frame::Index { .. } => {
            if text[at] == b')' {
                Step::Closes { at: at + 1 }
            } else {
                inner_step(text, frame, frame, at)
            }
        }
    }
}

/// The place beyond the end of an open construct, from a place inside it.
pub fn pass(alloc: Global, text: &[u8], frame: Frame, at: usize) -> Result<usize, Broken>
    requires { at ≤ length text.now }
    ensures passes { Finds (λ o. Passes text.now frame at o) result }
    ensures forward { IfOk result (λ end. (at < end) × (end ≤ length text.now)) }
{
    let mut outer = Vec::new(alloc);
    let mut frame = frame;
    let mut at = at;
    while at < text.len() {
        match step_at(text, frame, at) {
            Step::Goes {
                frame: same,
                at: next,
            } => {
                frame = same;
                at = next;
            }
            Step::Opens {
                inner,
                at: next,
                frame: kept,
            } => {
                outer.push(kept)?;
                frame = inner;
                at = next;
            }
            Step::Closes { at: next } => {
                at = next;
                match outer.pop() {
                    Some(kept) => frame = kept,
                    None => return Ok(at),
                }
            }
            Step::Fails(flaw) => return Err(Broken::Flaw(flaw)),
        }
    }
    Err(Broken::Flaw(unclosed(frame)))
}
