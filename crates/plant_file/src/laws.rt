ghost use Rattle.plant_file.specs.Again.{TablesAgain};
ghost use Rattle.plant_file.specs.Holding.{HoldWorlds};
ghost use Rattle.folder.specs.Lost.{blank};
ghost use Rattle.plant_file.specs.Standing.{Keeps};
ghost use Rattle.plant_file.specs.Stops.{LossesAreStops};

/// The text of tables is read back as them.
pub fn tables_are_read_back()
    ensures { TablesAgain }
{}

/// The tables after a command say what the devices hold after it.
pub fn tables_hold_a_world()
    ensures { HoldWorlds }
{}

/// A blank folder keeps what a plant in a folder keeps, and so does one after a kill or a loss of power: that is as a stop at the moment of the text
/// that is left.
pub fn folders_keep()
    ensures blank { Keeps blank }
    ensures lost { LossesAreStops }
{}
