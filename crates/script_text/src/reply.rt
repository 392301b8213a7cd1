ghost use Rattle.std.specs.Prelude.{◌≡◌};
ghost use Rattle.script_text.specs.Replies.{blames_device, closes};

use lab_base::{Items, Name, Text, TextFault, VlanId, What};
use virt_topo::Broken;

/// The phase of an experiment, as a reply has it.
#[derive(Clone, Copy, PartialEq, Eq)]
pub enum PhaseWord {
    Out,
    In,
    Moving,
}

/// An experiment in the reply to `status`, with the numbers of nodes and of VLAN ids that it claims.
#[derive(Clone, Copy)]
pub struct StatusLine {
    pub exp: Name,
    pub phase: PhaseWord,
    pub nodes: u16,
    pub vlans: u16,
}

/// A segment of an experiment that is in, with its VLAN id.
#[derive(Clone, Copy)]
pub struct TagLine {
    pub segment: Name,
    pub vlan: VlanId,
}

/// A line of an audit: a row that is wanted and missing, one that nobody wants, or a node that is not as it is wanted.
#[derive(Clone, Copy)]
pub enum AuditLine {
    /// `lacks SWITCH PORT VLAN`.
    Lacks {
        switch: Name,
        port: u16,
        vlan: VlanId,
    },
    /// `strange SWITCH PORT VLAN`.
    Strange {
        switch: Name,
        port: u16,
        vlan: VlanId,
    },
    /// `node NAME`.
    Node {
        node: Name,
    },
}

/// The placement of an experiment that is in: its canonical solution text, and a line for each segment.
#[derive(Drop)]
pub struct Placed {
    pub solution: Text,
    pub tags: Items<TagLine>,
}

/// The replies to the runs of a batch, in the order of the runs: their lines, whether one of them closes, whether one blames a
/// device, and whether one tells of a swap that failed.
#[derive(Drop)]
pub struct Served {
    pub lines: Text,
    pub closes: bool,
    pub blames: bool,
    pub fails: bool,
}

/// The end of a swap that failed.
#[derive(Clone, Copy, PartialEq, Eq)]
pub enum FailedEnd {
    /// The experiment is out.
    Out,
    /// The experiment is in, as it was.
    In,
    /// The experiment is stuck: it moves, and its swap doesn't go on.
    Stuck,
}

/// The reply to a command.
#[derive(Drop)]
pub enum Reply {
    /// `lab S N T`: to `ptop`, the numbers of switches, nodes and trunks.
    Lab {
        switches: u16,
        nodes: u16,
        trunks: u16,
    },
    /// `created E N S`: to `create-top`, the numbers of virtual nodes and segments.
    Created {
        exp: Name,
        nodes: u16,
        segments: u16,
    },
    /// `show E PHASE`, the canonical top text, and `end E`.
    /// For an experiment that is in, its canonical solution text and a line `tag SEGMENT VLAN` for each segment stand before `end`.
    Shown {
        exp: Name,
        phase: PhaseWord,
        top: Text,
        placed: Option<Placed>,
    },
    /// `least E COST`, the canonical solution text, and `end E`: to `solve`. All candidates were tried, and none that fits costs less.
    Least {
        exp: Name,
        cost: u64,
        solution: Text,
    },
    /// `local E COST`, the canonical solution text, and `end E`: to `solve`. There are too many candidates to try all. No single change of this one
    /// fits and costs less.
    Local {
        exp: Name,
        cost: u64,
        solution: Text,
    },
    /// `none E`: all candidates were tried, and none fits the free rest of the lab.
    NoneFits {
        exp: Name,
    },
    /// `gave up E`: there are too many candidates to try all, and the first one to start from doesn't fit.
    GaveUp {
        exp: Name,
    },
    /// `deleted E`.
    Deleted {
        exp: Name,
    },
    /// A line `exp E PHASE N V` for each experiment, then `free N V` with the numbers of free nodes and VLAN ids.
    Listed {
        experiments: Items<StatusLine>,
        nodes: u16,
        vlans: u16,
    },
    /// `no lab`.
    NoLab,
    /// `lab is set`: to `ptop`, the second time.
    LabIsSet,
    /// `exists E`.
    Exists {
        exp: Name,
    },
    /// `unknown E`.
    Unknown {
        exp: Name,
    },
    /// `in E`: the experiment is swapped in.
    In {
        exp: Name,
    },
    /// `out E`: the experiment is swapped out.
    Out {
        exp: Name,
    },
    /// `more E`: the experiment's swap has not ended.
    More {
        exp: Name,
    },
    /// `trouble E WHAT`: this turn of the swap met trouble, and the undo begins.
    Trouble {
        exp: Name,
        what: What,
    },
    /// `failed E out WHAT`, `failed E in WHAT`, `failed E stuck WHAT`.
    /// The trouble is `device NAME`, `boot NODE` where the node was late, `boot NODE FROM TO`, or `journal`.
    Failed {
        exp: Name,
        end: FailedEnd,
        what: What,
    },
    /// `recovered D S`: to `recover`, the numbers of experiments that were settled, and of those that are stuck.
    Recovered {
        done: u32,
        stuck: u32,
    },
    /// `played E K`: to `play`, how many events were answered `in E`; and the text of the reply that ended it, if one did, with
    /// whether that closes, and whether it blames a device.
    Played {
        exp: Name,
        played: u64,
        last: Text,
        closes: bool,
        blames: bool,
    },
    /// `wait E AT NEED HAVE TYPE ..`: a run of a batch waits, since promises would not fit at the moment AT. Of these types NEED nodes are
    /// promised then, and HAVE are left.
    Wait {
        exp: Name,
        at: u64,
        need: u32,
        have: u32,
        kinds: Items<Name>,
    },
    /// To `batch`: a line for each run, in the order of the runs.
    Served(Served),
    /// `audit N` and N lines: to `audit`, in what the devices differ from what is wanted of them.
    Audit {
        lines: Items<AuditLine>,
    },
    /// `unread NAME`: to `audit`, that device did not tell what it holds.
    Unread {
        name: Name,
    },
    /// `planned`: to a drill.
    Planned,
    /// `no drill`: the plant takes no drills.
    NoDrill,
    /// `infeasible E RULE SUBJECT`: the first rule that the solution breaks, and its subject.
    Infeasible {
        exp: Name,
        rule: Broken,
        subject: Text,
    },
    /// `is out E`: the experiment has to be in.
    IsOut {
        exp: Name,
    },
    /// `is in E`: the experiment has to be out.
    IsIn {
        exp: Name,
    },
    /// `is moving E`: the experiment may not move.
    IsMoving {
        exp: Name,
    },
    /// `busy E`: the experiment has an open swap.
    Busy {
        exp: Name,
    },
    /// `not open E`: the experiment has no open swap.
    NotOpen {
        exp: Name,
    },
    /// `bad E LINE KIND`: a block has no meaning; the line counts from 1 over all blocks of the command.
    Bad {
        exp: Name,
        fault: TextFault,
    },
    /// `bad ptop LINE KIND`.
    BadPtop {
        fault: TextFault,
    },
    /// `bad batch LINE KIND`.
    BadBatch {
        fault: TextFault,
    },
    /// `full experiments 256`.
    FullExperiments,
    /// `full swaps 16`: so many swaps are open.
    FullSwaps,
    /// `full journal LENGTH`: the journal has that length, and no room for one more record.
    FullJournal {
        length: u64,
    },
    /// `down`: a call on the journal failed.
    Down,
    /// `stopped`: the plant stopped in this command.
    Stopped,
}

impl Reply {
    /// Whether the reply tells that the journal failed. The controller that gave it is of no use then.
    pub fn closes(&self) -> bool
        ensures { result ≡ closes self.now }
    {
        match self {
            Reply::Down => true,
            Reply::Played { closes, .. } => *closes,
            Reply::Served(served) => served.closes,
            Reply::Failed { end, what, .. } => {
                matches!(end, FailedEnd::Stuck) && matches!(what, What::Journal)
            }
            _ => false,
        }
    }
    /// Whether it tells that a command to a device failed, or that a device did not tell what it holds.
    pub fn blames_device(&self) -> bool
        ensures { result ≡ blames_device self.now }
    {
        match self {
            Reply::Failed { what, .. } | Reply::Trouble { what, .. } => {
                matches!(what, What::Device(_))
            }
            Reply::Played { blames, .. } => *blames,
            Reply::Served(served) => served.blames,
            Reply::Unread { .. } => true,
            _ => false,
        }
    }
}
