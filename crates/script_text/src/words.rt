//! The words of replies.

ghost use Rattle.std.specs.Prelude.{◌≡◌};
ghost use Rattle.script_text.specs.Replies.{phase_word, boot_word, rule_word, end_word};

use crate::{FailedEnd, PhaseWord};
use lab_base::Boot;
use virt_topo::Broken;

impl PhaseWord {
    /// The word of a reply.
    pub fn word(self) -> &'static str
        ensures { result.now ≡ phase_word self }
    {
        match self {
            PhaseWord::Out => "out",
            PhaseWord::In => "in",
            PhaseWord::Moving => "moving",
        }
    }
}

pub(crate) fn boot_word(boot: Boot) -> &'static str
    ensures { result.now ≡ boot_word boot }
{
    match boot {
        Boot::Off => "OFF",
        Boot::Shutdown => "SHUTDOWN",
        Boot::Booting => "BOOTING",
        Boot::TbSetup => "TBSETUP",
        Boot::IsUp => "ISUP",
    }
}

pub(crate) fn rule_word(rule: Broken) -> &'static str
    ensures { result.now ≡ rule_word rule }
{
    match rule {
        Broken::F1 => "F1",
        Broken::F2 => "F2",
        Broken::F3 => "F3",
        Broken::F4 => "F4",
        Broken::F5 => "F5",
        Broken::F6 => "F6",
        Broken::F7 => "F7",
        Broken::F8 => "F8",
    }
}

pub(crate) fn end_word(end: FailedEnd) -> &'static str
    ensures { result.now ≡ end_word end }
{
    match end {
        FailedEnd::Out => "out",
        FailedEnd::In => "in",
        FailedEnd::Stuck => "stuck",
    }
}
