ghost use Rattle.net_plan.specs.Expansion.{ExpansionsAreSound};
ghost use Rattle.net_plan.specs.Least.{GivesLeast, LacksOne};

/// The address of each end is its own, or the least of its subnet that is neither explicit nor that of an earlier end.
/// Where an expansion refuses for the sake of addresses, some end has no such address.
pub fn addresses_are_least()
    ensures given { GivesLeast }
    ensures none { LacksOne }
{}

/// The wiring of an expansion is sound.
pub fn expansions_are_sound()
    ensures { ExpansionsAreSound }
{}
