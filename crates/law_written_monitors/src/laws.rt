// Laws of what is written for the claims of a module, each the contract of a function that does nothing.
ghost use Rattle.law_written_monitors.specs.Laws.{NamesAreNames, ClaimsAreWhole, MonitorsAreWhole, MonitorsAreWritten, MonitorsAreLeft};

/// The first free names are read as themselves.
pub fn names_are_names()
    ensures { NamesAreNames }
{}

/// Each piece of what is written in place of a formula is read alone.
pub fn claims_are_whole()
    ensures { ClaimsAreWhole }
{}

/// So is each piece of what is written before a closing brace.
pub fn monitors_are_whole()
    ensures { MonitorsAreWhole }
{}

/// What is written before a closing brace spells the declarations of the monitors and the layer of their definitions.
pub fn monitors_are_written()
    ensures { MonitorsAreWritten }
{}

/// Claims without monitors add nothing to them.
pub fn monitors_are_left()
    ensures { MonitorsAreLeft }
{}
