// Laws of places, each the contract of a function that does nothing.
ghost use Rattle.law_places.specs.Laws.{OutcomesArePlaceless, SoundnessIsPlaceless};

/// An expression has the outcome that it has without its places.
pub fn outcomes_are_placeless()
    ensures { OutcomesArePlaceless }
{}

/// Texts that are the same without their places, splits and uses are sound alike.
pub fn soundness_is_placeless()
    ensures { SoundnessIsPlaceless }
{}
