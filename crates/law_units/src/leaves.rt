// Laws of the definitions, each the contract of a function that does nothing.
ghost use Rattle.law_units.specs.LeafInstances.{HeldByLeaves, HoldsByLeaf, LeavesHold};

/// A unit holds if it holds wherever the guards of its leaf hold: at a time, one instance by those of the leaf at its values, and so always; and nothing is lost, since a leaf holds where its unit does.
pub fn units_hold_by_leaves()
    ensures at_times { HeldByLeaves }
    ensures always { HoldsByLeaf }
    ensures back { LeavesHold }
{}
