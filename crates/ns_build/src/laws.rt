// Laws of the definitions.
ghost use Rattle.ns_build.specs.Once.{MeaningIsOne, AllWordsStand};

/// No text means two things.
pub fn meaning_is_one()
    ensures { MeaningIsOne }
{}

/// The words that commands make stand for the objects made, and for no others, and are no names.
pub fn words_stand_for_objects()
    ensures { AllWordsStand }
{}
