// Laws of inductive texts, each the contract of a function that does nothing.
ghost use Rattle.law_inductive_texts.specs.Laws.{FaultlessAreInductive, InductionIsSound, OneStronger, NotBothStronger};

/// The claim of an induction can be proved by induction where neither the text nor the strengthened one has a fault of names.
pub fn faultless_are_inductive()
    ensures { FaultlessAreInductive }
{}

/// The theorem: a text is sound where its strengthened text is, and neither has a fault of names.
pub fn induction_is_sound()
    ensures { InductionIsSound }
{}

/// A text has one strengthened text, or none.
pub fn one_stronger()
    ensures one { OneStronger }
    ensures not_both { NotBothStronger }
{}
