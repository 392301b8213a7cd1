// Laws of the definitions.
ghost use Rattle.ns_events.specs.Once.{ScheduleIsOne, AppliedIsOne, GivenAreShaped, ShapesStay, StaysSound};

/// A span of time has one schedule of a list of events.
pub fn schedule_is_one()
    ensures { ScheduleIsOne }
{}

/// An event leaves one wiring.
pub fn applied_is_one()
    ensures { AppliedIsOne }
{}

/// The rates that an event gives to a link or LAN are those that an expansion gives it where it is shaped.
pub fn given_rates_are_shaped()
    ensures { GivenAreShaped }
{}

/// An event leaves each link and LAN as many pipes as it has.
pub fn shapes_stay()
    ensures { ShapesStay }
{}

/// A sound wiring is sound after an event of a sound text, whose rates keep the limits, where the link has the shape that it has in the text.
pub fn wirings_stay_sound()
    ensures { StaysSound }
{}
