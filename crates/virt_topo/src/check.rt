ghost use Rattle.virt_topo.specs.Soundness.{Answers, wiring_fault};

use crate::known::knows_all;
use crate::limits::keeps_limits;
use crate::pipes::has_bad_pipe;
use crate::repeats::{has_same, has_twice};
use crate::{Wiring, WiringFault};

impl Wiring {
    /// Checks that the wiring is sound; else its first fault.
    pub fn check(&self) -> Result<(), WiringFault>
        ensures { Answers result (wiring_fault self.now) }
    {
        if !keeps_limits(self) {
            return Err(WiringFault::Limit);
        }
        if !knows_all(self) {
            return Err(WiringFault::Unknown);
        }
        if has_twice(self) {
            return Err(WiringFault::Twice);
        }
        if has_same(self) {
            return Err(WiringFault::Same);
        }
        if has_bad_pipe(self) {
            return Err(WiringFault::Pipe);
        }
        if self.nodes.is_empty() {
            return Err(WiringFault::Empty);
        }
        Ok(())
    }
}
