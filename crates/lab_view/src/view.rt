// The view of a lab.
use lab_base::{Items, Name};

/// The most VLAN ids of a lab.
pub const MAX_IDS: usize = 65_536;

/// How an experiment holds a machine.
#[derive(Clone, Copy, PartialEq, Eq)]
pub enum Held {
    /// It stands there.
    Stands,
    /// It moves, and the machine is of the new mapping alone.
    Comes,
    /// It moves, and the machine is of the old mapping alone.
    Goes,
    /// It moves, and the machine is of both mappings.
    Stays,
}

/// The holder of a machine: the number of its experiment in order of creation, and the virtual nodes that are there.
#[derive(Drop)]
pub struct Seat {
    pub exp: usize,
    pub held: Held,
    pub hosted: Items<Name>,
}

/// A machine, with its types and their counts, the switch of each of its interfaces, and its holder.
#[derive(Drop)]
pub struct Machine {
    pub name: Name,
    pub types: Items<(Name, u16)>,
    pub plugs: Items<usize>,
    pub seat: Option<Seat>,
}

/// A trunk between two switches, with what is claimed of it.
#[derive(Clone, Copy)]
pub struct Trunk {
    pub link: Name,
    pub first: usize,
    pub second: usize,
    pub kbps: u64,
    pub used: u64,
}

/// Where an experiment stands, and which way it moves.
#[derive(Clone, Copy, PartialEq, Eq)]
pub enum Stand {
    Out,
    In,
    /// It moves from nothing to a mapping.
    Comes,
    /// It moves from a mapping to nothing.
    Goes,
    /// It moves from a mapping to another.
    Changes,
}

/// An experiment, with how many machines and VLAN ids it claims.
#[derive(Clone, Copy)]
pub struct Exp {
    pub name: Name,
    pub stand: Stand,
    pub nodes: u16,
    pub ids: u16,
}

/// The view of a lab.
#[derive(Drop)]
pub struct View {
    pub switches: Items<Name>,
    pub machines: Items<Machine>,
    pub trunks: Items<Trunk>,
    /// In order of creation.
    pub experiments: Items<Exp>,
    /// The first VLAN id of the range.
    pub low: u16,
    /// By VLAN id of the range the number of the experiment that claims it.
    pub owners: Items<Option<usize>>,
}
