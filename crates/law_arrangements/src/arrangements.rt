// Laws of the definitions, each the contract of a function that does nothing.
ghost use Rattle.law_arrangements.specs.Laws.{DeclaredIsArrangement, DeclaredListsAreSame, ListsOverAreLists, PathsAreShown, PathsAreFound, LengthsAreSame, NoneIsNone, LeastIsLeast, InductiveIsInvariant, InductionHolds, ShutIsNone, ReachedIsShortest, DecisionsAgree, RingsAreShown, RingsAreFound, RingsDiffer, ImagesAreSpent};

/// The declared arrangement is one, and the lists over it are the declared ones.
pub fn declared_lists_are_same()
    ensures arrangement { DeclaredIsArrangement }
    ensures same { DeclaredListsAreSame }
{}

/// The lists of a case over an arrangement are over its places.
pub fn lists_over_are_lists()
    ensures { ListsOverAreLists }
{}

/// A violating path over an arrangement is shown as one of the problem, and for each of the problem there is one over the arrangement, of the same length; so lengths are those over the declared lists.
pub fn paths_are_of_cases()
    ensures shown { PathsAreShown }
    ensures found { PathsAreFound }
    ensures same { LengthsAreSame }
{}

/// So where there is no violating path over an arrangement the problem has none, and a least one is shown as a shortest one.
pub fn lengths_are_of_cases()
    ensures none { NoneIsNone }
    ensures least { LeastIsLeast }
{}

/// A set that is inductive over an arrangement gives one of the case, and leaves no violating path.
pub fn induction_is_of_cases()
    ensures invariant { InductiveIsInvariant }
    ensures holds { InductionHolds }
{}

/// What a search over an arrangement decides is so of the problem, and what one over the declared lists decides, whatever the budgets of the two.
pub fn searches_decide_alike()
    ensures shut { ShutIsNone }
    ensures reached { ReachedIsShortest }
    ensures spent { ImagesAreSpent }
    ensures agree { DecisionsAgree }
{}

/// Rings over an arrangement are those of the problem, but at idle elements; what one of them has and another has not, the problem's have and have not.
pub fn rings_are_of_cases()
    ensures shown { RingsAreShown }
    ensures found { RingsAreFound }
    ensures differ { RingsDiffer }
{}
