// Laws of a design and one with monitors besides, each the contract of a function that does nothing.
ghost use Rattle.law_watched_runs.specs.Extended.{BasesAreSame, RunsRestrict, RunsExtend, ClaimsSayFormulas, MapsAreKept};

/// What the base definitions of a design allow its elements, those of one with monitors besides do.
pub fn bases_are_same()
    ensures { BasesAreSame }
{}

/// Each run of the design with monitors is one of the design.
pub fn runs_restrict()
    ensures { RunsRestrict }
{}

/// Each run of the design, with monitors, is one of the design with monitors.
pub fn runs_extend()
    ensures { RunsExtend }
{}

/// A formula holds at each time of each run of a design exactly where its claim does in the design with its monitors.
pub fn claims_say_formulas()
    ensures { ClaimsSayFormulas }
{}

/// A map holds at each time of each run of a design exactly where it does in the design with monitors.
pub fn maps_are_kept()
    ensures { MapsAreKept }
{}
