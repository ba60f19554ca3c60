// Laws of induction, each the contract of a function that does nothing.
ghost use Rattle.law_induction.specs.Laws.{RenamedReadsAlike, StrongerIsSound};

/// An expression with a variable under a new name has the outcome that the expression has where its variable has the value of the new name.
pub fn renamed_reads_alike()
    ensures { RenamedReadsAlike }
{}

/// Where the tree with the strengthened claim is sound, so is the tree.
pub fn stronger_is_sound()
    ensures { StrongerIsSound }
{}
