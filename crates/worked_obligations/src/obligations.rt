// Worked scripts, each the contract of a function that does nothing.
ghost use Rattle.worked_obligations.specs.WorkedUnits.{UnitsInOrder};
ghost use Rattle.worked_obligations.specs.WorkedTimes.{TomasuloTimes, ClaimTimes, MapTimes};
ghost use Rattle.worked_obligations.specs.WorkedCones.{IndexedBySignals, RestsReadAsAll, FollowsIndexes, PicksCut, OtherConstants, TargetsAtRests, TomasuloCones};
ghost use Rattle.worked_obligations.specs.WorkedProblems.{SplitHelps, ClaimsAssumeEachOther, MapsBefore, MapsNowAndBefore, WrittenIndex, TomasuloDemands, TomasuloOutput};
ghost use Rattle.worked_obligations.specs.WorkedStates.{MutualExclusion, OutsideTypes, Reductions, AsByHand, ReducedScalarset, Orders};
ghost use Rattle.worked_obligations.specs.WorkedSound.{SplitIsSound, MapsAreSound, MachineIsChecked};

/// Worked units: the Tomasulo machine, and a map between two claims.
pub fn worked_units()
    ensures { UnitsInOrder }
{}

/// Worked times of uses: of the Tomasulo machine, of claims that assume one another, and of two maps that use each other.
pub fn worked_times()
    ensures tomasulo { TomasuloTimes }
    ensures claims { ClaimTimes }
    ensures maps { MapTimes }
{}

/// Worked cones: indexes that are signals, rests, variables, picks, constants, a map at a rest, and the Tomasulo machine.
pub fn worked_cones()
    ensures signals { IndexedBySignals }
    ensures rests { RestsReadAsAll }
    ensures indexes { FollowsIndexes }
    ensures picks { PicksCut }
    ensures constants { OtherConstants }
    ensures at_rests { TargetsAtRests }
    ensures tomasulo { TomasuloCones }
{}

/// Worked problems: leaves whose cases have, or have not, a violating path, and the demands of two leaves of the Tomasulo machine.
pub fn worked_problems()
    ensures split { SplitHelps }
    ensures claims { ClaimsAssumeEachOther }
    ensures maps { MapsBefore }
    ensures now_and_before { MapsNowAndBefore }
    ensures written { WrittenIndex }
    ensures demands { TomasuloDemands }
    ensures output { TomasuloOutput }
{}

/// Worked scripts whose cases are tried with all abstract states, at time 0 and at time 1.
pub fn worked_states()
    ensures exclusion { MutualExclusion }
    ensures outside { OutsideTypes }
    ensures reductions { Reductions }
    ensures by_hand { AsByHand }
    ensures reduced { ReducedScalarset }
    ensures orders { Orders }
{}

/// Worked scripts that pass every premise: a claim that is split and two maps that are proved by each other, which are sound, and the Tomasulo machine, which is where no case has a violating path.
pub fn worked_scripts()
    ensures split { SplitIsSound }
    ensures maps { MapsAreSound }
    ensures machine { MachineIsChecked }
{}
