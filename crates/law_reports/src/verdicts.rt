// Laws of the definitions, each the contract of a function that does nothing.
ghost use Rattle.law_reports.specs.VerdictLaws.{OneUnitVerdict, OneVerdictEach, ShutCasesHaveNone, ReachedCasesHaveShortest, TrueScriptsAreProved, TrueScriptsAreSound};

/// A leaf has at most one verdict for its budgets, and a script one list of verdicts; over near bits, beside unknown ones.
pub fn one_verdict()
    ensures leaves { OneUnitVerdict }
    ensures scripts { OneVerdictEach }
{}

/// A case that is true has no violating path of abstract states; one that is false at so many steps has one, and none that is shorter.
pub fn verdicts_mean()
    ensures none { ShutCasesHaveNone }
    ensures shortest { ReachedCasesHaveShortest }
{}

/// A checked script whose leaves are all true is proved, so each of its units holds at every time of every run, for all sizes.
pub fn true_scripts_are_sound()
    ensures proved { TrueScriptsAreProved }
    ensures sound { TrueScriptsAreSound }
{}
