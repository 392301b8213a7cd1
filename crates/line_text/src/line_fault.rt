ghost use Rattle.std.specs.Prelude.{◌≡◌};
ghost use Rattle.line_text.specs.Refusals.{refused_at};
ghost use Rattle.line_text.specs.declared.line_fault.LineFault.TheVariants as line_faults;

use lab_base::{Kind, Memory, TextFault, TextRefused};

/// The reason why a line was not taken.
#[derive(Clone, Copy, Debug, PartialEq, Eq)]
pub enum LineFault {
    Kind(Kind),
    Memory,
}

impl From<Memory> for LineFault {
    ghost from_gives = { λ _ e. e ≡ line_faults.Memory };

    fn from(_error: Memory) -> LineFault {
        LineFault::Memory
    }
}

impl From<Kind> for LineFault {
    ghost from_gives = { λ kind e. e ≡ line_faults.Kind kind };

    fn from(kind: Kind) -> LineFault {
        LineFault::Kind(kind)
    }
}

/// The refusal of a text for the fault of the line of that number.
pub fn refusal(line: u32, fault: LineFault) -> TextRefused
    ensures { result ≡ refused_at line fault }
{
    match fault {
        LineFault::Kind(kind) => TextRefused::Text(TextFault { line, kind }),
        LineFault::Memory => TextRefused::Memory,
    }
}
