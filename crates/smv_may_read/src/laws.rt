// The laws, each the contract of a function that does nothing.
ghost use Rattle.smv_may_read.specs.Laws.{OthersAreRead, OthersAreReadFor};

/// What an expression that mentions none of some elements reads is none of them, whatever its variables stand for; nor is what a definition reads for an element.
pub fn others_are_read()
    ensures expressions { OthersAreRead }
    ensures definitions { OthersAreReadFor }
{}
