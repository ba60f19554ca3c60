// Worked cases and their obligations, each the contract of a function that does nothing.
ghost use Rattle.worked_obligations.specs.WorkedRights.{BitTargets, SetTargets, OutsideTargets, Assignments};
ghost use Rattle.worked_obligations.specs.WorkedCases.{ScalarsetCases, ReducedCases, OrdsetCases, RangeCases, SeveralTypes, KeptParameters};
ghost use Rattle.worked_obligations.specs.WorkedObligations.{SplitHelps, OrderIsTotal, SplitOrders, Reductions, WrittenIndex, EachOther, MutualMaps, CertainMaps};
ghost use Rattle.worked_obligations.specs.WorkedConflicts.{PairsShare, NonePairs, NoneStands, PartsStand};
ghost use Rattle.worked_obligations.specs.WorkedSoundness.{SplitPlan, MutualPlan};
ghost use Rattle.worked_obligations.specs.Worked.{RestsCompare, GapsCompare, ReadsAtRests, Quantifiers, Memberships, Operators};

/// Worked expressions in a small case: rests, gaps, elements at a rest, quantifiers, `in`, and the operators.
pub fn worked_expressions()
    ensures rests { RestsCompare }
    ensures gaps { GapsCompare }
    ensures reads { ReadsAtRests }
    ensures quantifiers { Quantifiers }
    ensures memberships { Memberships }
    ensures operators { Operators }
{}

/// Worked right sides and definitions: what they may allow and what they allow for certain.
pub fn worked_right_sides()
    ensures bit_targets { BitTargets }
    ensures set_targets { SetTargets }
    ensures outside_targets { OutsideTargets }
    ensures assignments { Assignments }
{}

/// Worked cases: of scalarsets, whole and reduced, of ordsets, of ranges, of several types side by side, and by what a choice keeps.
pub fn worked_cases()
    ensures scalarsets { ScalarsetCases }
    ensures reduced { ReducedCases }
    ensures ordsets { OrdsetCases }
    ensures ranges { RangeCases }
    ensures several { SeveralTypes }
    ensures kept { KeptParameters }
{}

/// Worked obligations: cases that have, or have not, a violating path.
pub fn worked_obligations()
    ensures split_helps { SplitHelps }
    ensures order_is_total { OrderIsTotal }
    ensures split_orders { SplitOrders }
    ensures reductions { Reductions }
    ensures written_index { WrittenIndex }
    ensures each_other { EachOther }
    ensures mutual_maps { MutualMaps }
    ensures certain_maps { CertainMaps }
{}

/// Worked definitions, with and without conflicts.
pub fn worked_conflicts()
    ensures pairs_share { PairsShare }
    ensures none_pairs { NonePairs }
    ensures none_stands { NoneStands }
    ensures parts_stand { PartsStand }
{}

/// Worked plans of proof, of which the joined law speaks: a claim that is split, and two maps that use each other.
pub fn worked_plans()
    ensures split { SplitPlan }
    ensures mutual { MutualPlan }
{}
