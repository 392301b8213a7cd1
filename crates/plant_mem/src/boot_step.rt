ghost use Rattle.std.specs.Prelude.{◌≡◌};
ghost use Rattle.plant_mem.specs.Boots.{moved, moved_by};

use lab_base::Boot;

/// How far a poll moves the boot state of a node.
#[derive(Clone, Copy)]
pub enum BootStep {
    /// To the next state of a boot.
    Moves,
    /// Not at all.
    Hangs,
    /// To the end of the boot at once.
    Jumps,
}

/// The next state of a boot.
fn moved(state: Boot) -> Boot
    ensures { result ≡ moved state }
{
    match state {
        Boot::Booting => Boot::TbSetup,
        Boot::TbSetup => Boot::IsUp,
        Boot::Off | Boot::Shutdown | Boot::IsUp => state,
    }
}

impl BootStep {
    /// The boot state after a poll.
    pub(crate) fn of(self, state: Boot) -> Boot
        ensures { result ≡ moved_by self state }
    {
        match self {
            BootStep::Moves => moved(state),
            BootStep::Hangs => state,
            BootStep::Jumps => Boot::IsUp,
        }
    }
}
