// Laws of the judgements of link events.
ghost use Rattle.lab_tasks.specs.EventChanges.{EventsAreChanges};

/// A link event is judged as `modify-with` by two texts: the canonical one of the wiring that the event leaves, and that of the
/// present mapping. So it is undone as a change is. The one refusal beside is that the link lacks the shape that it has in its text.
pub fn link_events()
    ensures { EventsAreChanges }
{}
