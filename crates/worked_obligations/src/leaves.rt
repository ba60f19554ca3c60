// Worked leaves, each the contract of a function that does nothing.
ghost use Rattle.worked_obligations.specs.WorkedRead.{MachineIsRead};
ghost use Rattle.worked_obligations.specs.WorkedLeaves.{TomasuloLeaves, Unsplit, SplitOfSplit, Renamed, NoBrackets, PlacesStay, InnerVariables, SplitMap};
ghost use Rattle.worked_obligations.specs.WorkedFaults.{WholeTexts, NoFaults, NoUnits, BaseIsNoUnit, SplitTwice, LeadNowhere, Counts, Unbound, UnboundParameters, Doubled, OtherTypes, Equations, Kinds, Strays, TheFirst};

/// Worked leaves: of the Tomasulo machine, of units without a split, of splits of splits, with names that rename or are left out, with variables of binders, and of a map.
pub fn worked_leaves()
    ensures tomasulo { TomasuloLeaves }
    ensures unsplit { Unsplit }
    ensures splits { SplitOfSplit }
    ensures renamed { Renamed }
    ensures unnamed { NoBrackets }
    ensures places { PlacesStay }
    ensures inner { InnerVariables }
    ensures maps { SplitMap }
{}

/// The Tomasulo machine meets the premises of the laws, so its leaves have the parameters and guards that its splits give.
pub fn worked_machine()
    ensures { MachineIsRead }
{}

/// Worked faults of splits: two whole texts, what is split, the names in brackets and of equations, and the expressions.
pub fn worked_faults()
    ensures texts { WholeTexts }
    ensures none { NoFaults }
    ensures units { NoUnits }
    ensures base { BaseIsNoUnit }
    ensures twice { SplitTwice }
    ensures nowhere { LeadNowhere }
    ensures counts { Counts }
    ensures unbound { Unbound }
    ensures unbound_parameters { UnboundParameters }
    ensures doubled { Doubled }
    ensures types { OtherTypes }
    ensures equations { Equations }
    ensures kinds { Kinds }
    ensures strays { Strays }
    ensures first { TheFirst }
{}
