ghost use Rattle.std.specs.Prelude.{◌≡◌};
ghost use Rattle.plant.specs.Disks.{disk};
ghost use Rattle.plant.specs.declared.step.Side.TheVariants.{A, B};
ghost use Rattle.plant_mem.specs.MemSides.{disk_of};
ghost use Rattle.mem_folder.specs.MemFolders.{trace_of, AreBegun};

use crate::sides::Sides;
use crate::texts::Texts;
use http_server::Log;
use lab_base::Memory;
use plant::{Faults, Step};
use std::alloc::Global;

/// A text that a loss of power may leave, with the history up to the moment when it was last the newest one.
#[derive(Drop)]
pub(crate) struct OldText {
    pub(crate) text: Vec<u8>,
    pub(crate) steps: Log<Step, Sides>,
}

/// A stop that waits.
#[derive(Clone, Copy)]
pub(crate) struct Stop {
    /// The number of calls up to the stop, from 1.
    pub(crate) left: u64,
    /// Whether the call in which the folder stops has its effect.
    pub(crate) is_done: bool,
}

/// The files of a folder in memory. A run over it is cut off as by a kill where its user plans a stop, and it may lose power then.
///
/// Its calls that change something count up to a stop: writes, syncs and cuts of sides, texts that take the name of the tables, and syncs of the
/// text. A call that stops after its effect leaves a text that was to take the name without it.
#[derive(Drop)]
pub struct MemFolder {
    pub(crate) alloc: Global,
    pub(crate) sides: Sides,
    pub(crate) texts: Texts,
    /// The newest stands first.
    pub(crate) olds: Vec<OldText>,
    pub(crate) steps: Log<Step, Sides>,
    pub(crate) marks: Log<Faults, Log<Step, Sides>>,
    pub(crate) stop: Option<Stop>,
    pub(crate) stopped: bool,
    ghost a_is: { disk_of sides.a ≡ disk A (trace_of steps.items) },
    ghost b_is: { disk_of sides.b ≡ disk B (trace_of steps.items) },
    ghost begun: { AreBegun olds.items (trace_of steps.items) },
}

impl MemFolder {
    ghost use Rattle.std.specs.Prelude.{◌≡◌, IfOk, length};
    ghost use Rattle.folder.specs.Lost.{blank};
    ghost use Rattle.mem_folder.specs.MemTold.{held_of};

    /// An empty folder.
    pub fn new(alloc: Global) -> Result<MemFolder, Memory>
        ensures { IfOk result (λ folder. held_of folder ≡ blank) }
    {
        Ok(MemFolder {
            alloc,
            sides: Sides::new(alloc)?,
            texts: Texts::none(),
            olds: Vec::new(alloc),
            steps: Log::new(),
            marks: Log::new(),
            stop: None,
            stopped: false,
        })
    }

    /// Plans a stop in the call of that number from now on, from 1, which has its effect then or not. The run that it cuts off can't start the
    /// folder again: it ends for want of memory.
    pub fn stop_in(&mut self, calls: u64, is_done: bool)
        ensures { held_of self.new ≡ held_of self.old }
    {
        self.stop = Some(Stop {
            left: calls,
            is_done,
        });
    }

    /// Takes the plan of a stop back. A folder that stopped may be started again.
    pub fn no_stop(&mut self)
        ensures { held_of self.new ≡ held_of self.old }
    {
        self.stop = None;
    }

    /// The number of older texts that a loss of power may leave.
    pub fn olds(&self) -> usize
        ensures { result ≡ length (held_of self.now).older }
    {
        self.olds.len()
    }
}
