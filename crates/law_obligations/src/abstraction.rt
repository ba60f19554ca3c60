// Laws of the definitions, each the contract of a function that does nothing.
ghost use Rattle.law_obligations.specs.AbstractionLaws.{CircularInduction, NowUsesFall, NowUsesHaveOrder, PlainTypesArePlaced, ScalarsetsArePlaced, OrdsetsArePlaced, MayKeepsOutcomes, MayKeepsRightSides, MustKeepsRightSides, MapsAreKept, ClaimsAreKept, GuardsCover, LeavesCover, GuardsAreKept, PicturesExist, GrowingClassesCover, CasesCover, LeafCasesCover, OutcomesKeepScopes, ConflictsLeaveOneResult, NoViolatingPathIsSound};

/// The circular rule: where each failure of an instance is shown by a case, no case has a violating path and the uses that are now hold no cycle,
/// every instance of every unit holds at every time of every run.
pub fn circular_induction<State, Instance, Case, Picture>()
    ensures { CircularInduction State Instance Case Picture }
{}

/// The uses that are now hold no cycle.
pub fn now_uses_hold_no_cycle()
    ensures fall { NowUsesFall }
    ensures order { NowUsesHaveOrder }
{}

/// The three facts of a type under a placing, which are all that is used of set types: each value is at one place, each class has exactly one value,
/// and two values compare as one of the answers that their places allow.
pub fn types_are_placed()
    ensures plain { PlainTypesArePlaced }
    ensures scalarsets { ScalarsetsArePlaced }
    ensures ordsets { OrdsetsArePlaced }
{}

/// May keeps what happens, for expressions: the outcome in a state lies where the expression may be in the state's picture.
pub fn may_keeps_outcomes()
    ensures { MayKeepsOutcomes }
{}

/// May keeps what happens, and must keeps what is proved, for right sides: sets, conditionals and comprehensions included.
pub fn right_sides_are_kept()
    ensures may { MayKeepsRightSides }
    ensures must { MustKeepsRightSides }
{}

/// May keeps what happens, and must keeps what is proved, for definitions of elements at numbers, constants and classes, and for claims.
pub fn demands_are_kept()
    ensures maps { MapsAreKept }
    ensures claims { ClaimsAreKept }
{}

/// Guards cover the unit, each alone and all of a leaf together, and are kept in the picture.
pub fn guards_are_kept()
    ensures cover { GuardsCover }
    ensures leaves { LeavesCover }
    ensures kept { GuardsAreKept }
{}

/// Every state has a picture under every placing.
pub fn pictures_exist()
    ensures { PicturesExist }
{}

/// All values of the listed parameters of a scalarset have a case.
pub fn growing_classes_cover()
    ensures { GrowingClassesCover }
{}

/// Every instance of a leaf has a case with a placing: for all sizes of the set types and all values of the parameters, the list of cases
/// has one, and each set type a placing, under which each parameter's value stands at the class that the case gives it.
pub fn cases_cover()
    ensures { CasesCover }
{}

/// The same of the cases of a leaf, by what its choice keeps.
pub fn leaf_cases_cover()
    ensures { LeafCasesCover }
{}

/// An outcome depends on no variable but those that its expression reads.
pub fn outcomes_keep_scopes()
    ensures { OutcomesKeepScopes }
{}

/// The rule of conflicts leaves each `forall` variable at most one value that gives an element a result.
pub fn conflicts_leave_one_result()
    ensures { ConflictsLeaveOneResult }
{}

/// The joined law: where no case of any leaf has a violating path, every unit holds at every time of every run, for all sizes.
pub fn no_violating_path_is_sound()
    ensures { NoViolatingPathIsSound }
{}
