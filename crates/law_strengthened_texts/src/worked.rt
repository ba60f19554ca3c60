// Worked texts.
ghost use Rattle.law_strengthened_texts.specs.Worked.{Lexed, Body, Ends, New, Renamed, NamesLexed, NamesRenamed, Refused, Put, Backwards};

/// A text with its tokens and its claim's expression under a new name, an expression with many names, the refusals, bytes that are put in, and offsets that are carried back.
pub fn strengthened_rows()
    ensures lexed { Lexed }
    ensures body { Body }
    ensures ends { Ends }
    ensures new { New }
    ensures renamed { Renamed }
    ensures names { NamesLexed }
    ensures names_renamed { NamesRenamed }
    ensures refused { Refused }
    ensures put { Put }
    ensures backwards { Backwards }
{}
