// Worked bytes.
ghost use Rattle.law_strengthened_claims.specs.WorkedBytes.{ReplacementWritten, NamesAlone};

/// What stands in place of an expression, and which bytes are a name.
pub fn worked_bytes()
    ensures written { ReplacementWritten }
    ensures names { NamesAlone }
{}
