// Laws of units at given sizes, each the contract of a function that does nothing.
ghost use Rattle.law_concrete.specs.Laws.{NoPathIsSound, PathsAreOfRuns, RunsAreShown, ShortestPathsAreReal, SoundHasNoPath};

/// A run that breaks an instance is shown by a violating path of its problem.
pub fn runs_are_shown()
    ensures { RunsAreShown }
{}

/// And each violating path shows a run that breaks the instance.
pub fn paths_are_of_runs()
    ensures { PathsAreOfRuns }
{}

/// So where no case has a violating path, no run of these sizes breaks an instance at any time.
pub fn no_path_is_sound()
    ensures { NoPathIsSound }
{}

/// And only there.
pub fn sound_has_no_path()
    ensures { SoundHasNoPath }
{}

/// A shortest violating path of a case is the part, on its elements, of a run in which the case's instance fails at the last time, and no shorter run breaks it.
pub fn shortest_paths_are_real()
    ensures { ShortestPathsAreReal }
{}
