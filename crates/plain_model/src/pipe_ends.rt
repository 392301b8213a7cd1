use lab_base::Name;
use std::marker::Model;

/// The ends of a pipe: a node, and two of its interfaces.
#[derive(Drop)]
pub struct PipeEnds {
    pub node: Name,
    pub from: Name,
    pub to: Name,
}

impl Model for PipeEnds {
    ghost use Rattle.plain_model.specs.Isolation.{PipeEnds as EndsSeen};
    ghost use Rattle.plain_model.specs.EndsView.{ends_of};

    ghost Value = { EndsSeen };

    ghost view = { ends_of };
}
