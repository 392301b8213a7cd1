use crate::{Mapped, Mapping, Wiring};
use lab_base::{Name, Tags};

/// The phase of an experiment.
#[derive(Drop)]
pub enum Phase {
    /// The experiment claims nothing.
    Out,
    /// The experiment stands in the lab with that mapping.
    In {
        mapping: Mapping,
        tags: Tags,
    },
    /// The experiment moves from one mapping to another, where one of the two may be nothing.
    Moving {
        old: Option<Mapped>,
        new: Option<Mapped>,
    },
}

/// An experiment: its name, its wiring and its phase.
#[derive(Drop)]
pub struct Experiment {
    pub name: Name,
    /// The wiring; while a change is on its way, the one that the experiment had before.
    pub wiring: Wiring,
    pub phase: Phase,
}
