ghost use Rattle.std.specs.Prelude.{◌≡◌};
ghost use Rattle.script_text.specs.Drills.{drill_of};

use lab_base::{Name, Text};
use plant::{Drill, How, Pick};

/// A command of a script. A block is its lines, each followed by a line feed.
/// A swap with `only_begin` has the word `open` before it: it is begun, and later commands turn it.
#[derive(Drop)]
pub enum Command {
    /// `ptop N`: sets the lab, once, by the ptop text of the next N lines.
    Ptop {
        lines: u16,
        ptop: Text,
    },
    /// `create E N`: makes an experiment, which is then out, by the NS file of the next N lines.
    Create {
        exp: Name,
        lines: u16,
        ns: Text,
    },
    /// `create-top E N`: makes an experiment, which is then out, by the top text of the next N lines.
    CreateTop {
        exp: Name,
        lines: u16,
        top: Text,
    },
    /// `show E`.
    Show {
        exp: Name,
    },
    /// `solve E SEED`: searches a solution for an experiment, which has to be out, on the free rest of the lab.
    Solve {
        exp: Name,
        seed: u64,
    },
    /// `swapin E SEED`: swaps in an experiment, which has to be out, by the solution that `solve` finds.
    Swapin {
        only_begin: bool,
        exp: Name,
        seed: u64,
    },
    /// `swapin-with E N`: swaps in an experiment, which has to be out, by the solution text of the next N lines.
    SwapinWith {
        only_begin: bool,
        exp: Name,
        lines: u16,
        map: Text,
    },
    /// `modify E SEED N`: gives an experiment, which has to be in, the wiring of the NS file of the next N lines.
    /// It searches a solution on the rest that the other experiments leave.
    Modify {
        only_begin: bool,
        exp: Name,
        seed: u64,
        lines: u16,
        ns: Text,
    },
    /// `modify-with E N M`: gives an experiment, which has to be in, the wiring of the top text of the next N lines.
    /// The solution text is the M lines after them.
    ModifyWith {
        only_begin: bool,
        exp: Name,
        top_lines: u16,
        top: Text,
        map_lines: u16,
        map: Text,
    },
    /// `swapout E`: swaps out an experiment, which has to be in.
    Swapout {
        only_begin: bool,
        exp: Name,
    },
    /// `turn E`: one turn of the open swap of an experiment.
    Turn {
        exp: Name,
    },
    /// `finish E`: turns of the open swap of an experiment until it ends, is stuck or stops.
    Finish {
        exp: Name,
    },
    /// `fail DEVICE K HOW`: a drill. The K-th next command to the device fails, K from 1 to 1,000,000.
    Fail {
        device: Name,
        nth: u32,
        how: How,
    },
    /// `fail disk K`: a drill. The K-th next call of the disk fails, K from 1 to 1,000,000.
    FailDisk {
        nth: u32,
    },
    /// `stop K PICK`: a drill. The plant stops at the K-th next write, sync, cut or command, K from 1 to 1,000,000.
    Stop {
        nth: u32,
        pick: Pick,
    },
    /// `play E FROM TO N`: plays the link events of the NS file of the next N lines that are due from FROM on and before TO, in
    /// microseconds from 0 to 10^12.
    Play {
        exp: Name,
        from: u64,
        to: u64,
        lines: u16,
        ns: Text,
    },
    /// `batch NOW N`: serves the runs of the batch text of the next N lines, one after another. The moment NOW is from 0 to 10^12.
    Batch {
        moment: u64,
        lines: u16,
        text: Text,
    },
    /// `delete E`: removes an experiment, which is out.
    Delete {
        exp: Name,
    },
    /// `recover`: settles every experiment that moves and has no open swap.
    Recover,
    /// `status`.
    Status,
    /// `audit`: compares what the devices hold with what the experiments want of them.
    Audit,
}

impl Command {
    /// The failure that a drill plans; None of another command. Drills are planned on the plant; every other command is the controller's.
    pub fn drill(&self) -> Option<Drill>
        ensures { result ≡ drill_of self.now }
    {
        match self {
            Command::Fail { device, nth, how } => Some(Drill::Device {
                name: *device,
                nth: *nth,
                how: *how,
            }),
            Command::FailDisk { nth } => Some(Drill::Disk { nth: *nth }),
            Command::Stop { nth, pick } => Some(Drill::Stop {
                nth: *nth,
                pick: *pick,
            }),
            _ => None,
        }
    }
}
