//! How often searches ask the cost rule.
use std::cell::Cell;

/// How often a rule was asked: for a mapping alone, by a step and by parts.
#[derive(Clone, Copy)]
pub struct Asked {
    pub whole: u32,
    pub steps: u32,
    pub parts: u32,
}

impl Asked {
    pub fn never() -> Asked {
        Asked {
            whole: 0,
            steps: 0,
            parts: 0,
        }
    }
}

/// Notes that the rule was asked for a mapping alone.
pub fn note_whole(asked: &Cell<Asked>) {
    let mut now = asked.get();
    now.whole = now.whole.saturating_add(1);
    asked.set(now);
}

/// Notes that it was asked by a step.
pub fn note_step(asked: &Cell<Asked>) {
    let mut now = asked.get();
    now.steps = now.steps.saturating_add(1);
    asked.set(now);
}

/// Notes that it was asked by parts.
pub fn note_parts(asked: &Cell<Asked>) {
    let mut now = asked.get();
    now.parts = now.parts.saturating_add(1);
    asked.set(now);
}
