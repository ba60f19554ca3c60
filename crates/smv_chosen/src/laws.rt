// Laws of what is assumed.
ghost use Rattle.smv_chosen.specs.Laws.{ClaimsAreAssumed};

/// Each claim of a design is a unit of it, so an assumed claim is the one of its number.
pub fn claims_are_assumed()
    ensures { ClaimsAreAssumed }
{}
