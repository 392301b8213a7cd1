use lab_base::Name;
use std::marker::Model;
use swap_plan::Port;

/// A row with the link or LAN that owns it.
#[derive(Drop)]
pub struct Owned {
    pub row: Port,
    pub link: Name,
}

impl Model for Owned {
    ghost use Rattle.lab_model.specs.Wants.{Owned as OwnedSeen};
    ghost use Rattle.plain_model.specs.OwnerView.{owned_of};

    ghost Value = { OwnedSeen };

    ghost view = { owned_of };
}
