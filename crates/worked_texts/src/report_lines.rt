// Worked reports, each group a clause of a function that does nothing.
ghost use Rattle.worked_texts.specs.ReportLinesWorked.{WithoutUnits, TrueUnits, UnknownUnits, FalseUnits, ManyUnits, GeneratedDesigns};
ghost use Rattle.worked_texts.specs.Values.{Numbers, Constants, Scalarsets, Ordsets, NothingKept};

/// Reports without units, of true, unknown and false ones, and of several.
pub fn worked_reports()
    ensures empty { WithoutUnits }
    ensures proved { TrueUnits }
    ensures unknown { UnknownUnits }
    ensures shown { FalseUnits }
    ensures several { ManyUnits }
    ensures generated { GeneratedDesigns }
{}

/// Values of each kind, in the lines of cases and times.
pub fn worked_values()
    ensures numbers { Numbers }
    ensures constants { Constants }
    ensures scalarsets { Scalarsets }
    ensures ordsets { Ordsets }
    ensures nothing { NothingKept }
{}
