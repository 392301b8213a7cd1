//! Words for answers.
use lab_base::{Boot, Name};
use plant::{Answer, Fault, Side};
use std::str;

/// The letters of a name.
pub fn letters(name: &Name) -> &str {
    str::from_utf8(name.bytes()).unwrap_or("?")
}

pub fn side_word(side: Side) -> &'static str {
    match side {
        Side::A => "A",
        Side::B => "B",
    }
}

pub fn yes_or_no(answer: bool) -> &'static str {
    if answer { "yes" } else { "no" }
}

pub fn boot_word(state: Boot) -> &'static str {
    match state {
        Boot::Off => "OFF",
        Boot::Shutdown => "SHUTDOWN",
        Boot::Booting => "BOOTING",
        Boot::TbSetup => "TBSETUP",
        Boot::IsUp => "ISUP",
    }
}

pub fn fault_word(fault: Fault) -> &'static str {
    match fault {
        Fault::Failed => "failed",
        Fault::Stopped => "stopped",
    }
}

/// The word of a disk's answer.
pub fn done_word(done: Result<(), Fault>) -> &'static str {
    match done {
        Ok(()) => "done",
        Err(fault) => fault_word(fault),
    }
}

/// The word of a device's answer.
pub fn answer_word(answer: Result<Answer, Fault>) -> &'static str {
    match answer {
        Ok(Answer::Done) => "done",
        Ok(Answer::State(state)) => boot_word(state),
        Err(fault) => fault_word(fault),
    }
}
