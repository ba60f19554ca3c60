// Laws of what is written for a formula, each the contract of a function that does nothing.
ghost use Rattle.law_written_formulas.specs.Laws.{ClaimsAreWritten, DefinitionsAreWritten, TypesAreWritten, MonitorsAreDefined, PiecesAreRead};

/// What is written in place of a formula spells its claim.
pub fn claims_are_written()
    ensures { ClaimsAreWritten }
{}

/// What is written for the next value of a monitor spells its definition.
pub fn definitions_are_written()
    ensures { DefinitionsAreWritten }
{}

/// What is written for the type of a monitor spells it.
pub fn types_are_written()
    ensures { TypesAreWritten }
{}

/// What is written for the definitions of a formula's monitors, both behind the claim's binders, spells them.
pub fn monitors_are_defined()
    ensures { MonitorsAreDefined }
{}

/// Pieces with a blank before each are read as the tokens of each, one behind the other.
pub fn pieces_are_read()
    ensures { PiecesAreRead }
{}
