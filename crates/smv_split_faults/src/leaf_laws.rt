// Laws of what the pass gives, each the contract of a function that does nothing.
ghost use Rattle.smv_split_faults.specs.Answers.{LeavesHaveSplits, NoneAreLeft};

/// A design without a first fault of splits has none.
pub fn none_are_left()
    ensures { NoneAreLeft }
{}

/// Where a design is as the passes before give it and has no first fault of splits, each of its leaves has the unit's parameters and then those that the splits add, and guards of these.
pub fn leaves_have_splits()
    ensures { LeavesHaveSplits }
{}
