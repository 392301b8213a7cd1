use lab_base::Name;
use std::marker::Model;

/// The owner of a row: an experiment, whether its new mapping or its old one wants the row, and the link or LAN.
#[derive(Drop)]
pub struct Owner {
    pub exp: Name,
    pub new: bool,
    pub link: Name,
}

impl Model for Owner {
    ghost use Rattle.lab_model.specs.Isolated.{Owner as OwnerSeen};
    ghost use Rattle.plain_model.specs.OwnerView.{owner_of};

    ghost Value = { OwnerSeen };

    ghost view = { owner_of };
}
