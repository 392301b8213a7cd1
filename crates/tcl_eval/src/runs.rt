//! The run of a whole text.

ghost use Rattle.std.specs.Prelude.{◌≡◌, ◌<◌, length};
ghost use Rattle.tcl_eval.specs.Runs.{HasRun, last_line_of};

use crate::halts::Halt;
use crate::hosts::Host;
use crate::limits::LEVELS;
use crate::machine::Machine;
use lab_base::{TEXT_LIMIT, TextFault, TextRefused};
use tcl_words::{line_of, split};

/// The end of a run.
#[derive(Clone, Copy, PartialEq, Eq, Drop)]
pub enum Ran {
    /// The host stopped the script, in the command that begins on this line.
    Stopped { line: u32 },
    /// The script ran to its end, which is on this line.
    Ended { line: u32 },
}

/// The last line of a text.
fn last_line(text: &[u8]) -> u32
    requires { length text.now < TEXT_LIMIT }
    ensures { result ≡ last_line_of text.now }
{
    if text.is_empty() {
        1
    } else {
        line_of(text, text.len() - 1)
    }
}

impl<H: Host> Machine<H> {
    ghost use Rattle.tcl_eval.specs.Machines.{seen};

    /// Runs a text at the top level.
    pub fn run_text(&mut self, text: &[u8]) -> Result<Ran, TextRefused>
        requires short { length text.now < TEXT_LIMIT }
        ensures runs { HasRun H.calls H.hears text.now (seen H.objects self.old) (seen H.objects self.new) result }
    {
        let commands = split(self.alloc, text)?;
        for command in &commands {
            let line = command.line;
            match self.command(text, command, LEVELS, line) {
                Ok(_) => {}
                Err(Halt::Stop) => return Ok(Ran::Stopped { line }),
                Err(Halt::Fault(kind)) => {
                    return Err(TextRefused::Text(TextFault { line, kind }));
                }
                Err(Halt::Memory) => return Err(TextRefused::Memory),
            }
        }
        Ok(Ran::Ended {
            line: last_line(text),
        })
    }
}
