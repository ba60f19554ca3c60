// Laws of claims that are watched by monitors along runs, each the contract of a function that does nothing.
ghost use Rattle.law_watched_runs.specs.Runs.{FormulasGiveClaims, ClaimsGiveFormulas};

/// Where the formula holds at each time of a run, its claim does, be the monitors' values as they may.
pub fn formulas_give_claims()
    ensures { FormulasGiveClaims }
{}

/// Where the claim holds at each time of a run whose monitors keep all in mind, the formula does.
pub fn claims_give_formulas()
    ensures { ClaimsGiveFormulas }
{}
