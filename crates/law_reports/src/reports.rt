// Laws of reports, each the contract of a function that does nothing.
ghost use Rattle.law_reports.specs.Laws.{ReportsTell, OneReport, TrueUnitsAreTrue};

/// A right report tells the verdicts of the units, of which there are no others.
pub fn reports_tell()
    ensures tells { ReportsTell }
    ensures one { OneReport }
    ensures true_units { TrueUnitsAreTrue }
{}
