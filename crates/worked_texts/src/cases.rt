// Worked texts, each group a clause of a function that does nothing.
ghost use Rattle.worked_texts.specs.CasesWorked.{AreTimed, HaveCases, HaveDemands, HaveTypes, KeepLimits};
ghost use Rattle.worked_texts.specs.WorkedCases as cases;
ghost use Rattle.worked_texts.specs.WorkedDemands as demands;
ghost use Rattle.worked_texts.specs.WorkedTimes as times;
ghost use Rattle.worked_texts.specs.WorkedTypes as types;

/// The times of the uses of each worked text.
pub fn worked_times()
    ensures rows { AreTimed times.rows }
    ensures cycles { AreTimed times.cycles }
    ensures same_time { AreTimed times.same_time }
    ensures settled { AreTimed times.settled }
    ensures tomasulo { AreTimed times.tomasulo }
{}

/// The cases of the leaves of each worked text.
pub fn worked_cases()
    ensures scalarsets { HaveCases cases.scalarsets }
    ensures declared { HaveCases cases.declared }
    ensures sides { HaveCases cases.sides }
    ensures ordsets { HaveCases cases.ordsets }
    ensures others { HaveCases cases.others }
    ensures kept { HaveCases cases.kept }
    ensures tomasulo { HaveCases cases.tomasulo }
{}

/// The set types in the cases of each worked text, and the leaves with too many parameters or cases.
pub fn worked_types()
    ensures types { HaveTypes types.types }
    ensures parameters { KeepLimits types.parameters }
    ensures numbers { KeepLimits types.numbers }
{}

/// The definitions that are demanded in the cases of each worked text.
pub fn worked_demands()
    ensures itself { HaveDemands demands.itself }
    ensures where_kept { HaveDemands demands.where_kept }
{}
