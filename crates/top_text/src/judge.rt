// The fault of a line, from the tests of the wiring with it.
ghost use Rattle.line_text.specs.Refusals.{Takes};
ghost use Rattle.virt_topo.specs.declared.wiring.Wiring.{Wiring as AnyWiring};
ghost use Rattle.top_text.specs.Tables.{judged};

use lab_base::Kind;
use line_text::LineFault;

/// The tests of the wiring with one more line.
#[derive(Clone, Copy)]
pub(crate) struct Tests {
    /// Whether something is given twice.
    pub(crate) twice: bool,
    /// Whether each number names something.
    pub(crate) known: bool,
    /// Whether a segment names a virtual node twice.
    pub(crate) same: bool,
    /// Whether a pipe has one end twice, ends of two owners, an end of a multiplexed segment, or an end of an earlier pipe.
    pub(crate) bad_pipe: bool,
    /// Whether the limits are kept.
    pub(crate) within: bool,
}

impl Tests {
    /// The first fault that the tests show, in the order of kinds.
    pub(crate) fn judge(self) -> Result<(), LineFault>
        ensures { (w : AnyWiring) → Takes result w (judged self w) }
    {
        if self.twice {
            return Err(LineFault::Kind(Kind::Twice));
        }
        if !self.known {
            return Err(LineFault::Kind(Kind::Unknown));
        }
        if self.same {
            return Err(LineFault::Kind(Kind::Same));
        }
        if self.bad_pipe {
            return Err(LineFault::Kind(Kind::Pipe));
        }
        if !self.within {
            return Err(LineFault::Kind(Kind::Limit));
        }
        Ok(())
    }
}
