use crate::Owner;
use std::marker::Model;
use swap_plan::Port;

/// A row that a mapping wants, with its owner.
#[derive(Drop)]
pub struct Wanted {
    pub row: Port,
    pub owner: Owner,
}

impl Model for Wanted {
    ghost use Rattle.plain_model.specs.Isolation.{Wanted as WantedSeen};
    ghost use Rattle.plain_model.specs.WantedView.{wanted_of};

    ghost Value = { WantedSeen };

    ghost view = { wanted_of };
}
