// Laws of the definitions.
ghost use Rattle.ns_words.specs.Once.{BandwidthIsOne, DelayIsOne, LossIsOne, TimeIsOne, AddressIsOne, NameIsOne};

/// A word has at most one value of each kind, and a variable gives at most one name.
pub fn values_are_one()
    ensures bandwidth { BandwidthIsOne }
    ensures delay { DelayIsOne }
    ensures loss { LossIsOne }
    ensures time { TimeIsOne }
    ensures address { AddressIsOne }
    ensures name { NameIsOne }
{}
