// Laws of the definitions, each the contract of a function that does nothing.
ghost use Rattle.law_obligations.specs.Laws.{ReachedIsLeast, SameTimesAreLeast, ConesAreLeast, NowUsesFall, ScriptsArePlans, ProvedIsSound, ProvedUnitsHold};

/// What is reached from some members is the least set that has them and, with each member, those that follow it.
pub fn reached_is_least<X>()
    ensures { ReachedIsLeast X }
{}

/// The same-time set of a leaf is the least set of families, and the cone of a case the least set of elements.
pub fn sets_are_least()
    ensures same_times { SameTimesAreLeast }
    ensures cones { ConesAreLeast }
{}

/// The uses that are now hold no cycle.
pub fn now_uses_fall()
    ensures { NowUsesFall }
{}

/// The reading of a script is a plan of proof: its premises are what the passes before the search give.
pub fn scripts_are_plans()
    ensures { ScriptsArePlans }
{}

/// Where no case of any leaf has a violating path, every unit holds at every time of every run, for all sizes.
pub fn proved_is_sound()
    ensures scripts { ProvedIsSound }
    ensures designs { ProvedUnitsHold }
{}
