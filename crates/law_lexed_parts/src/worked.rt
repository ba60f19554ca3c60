// Worked bytes.
ghost use Rattle.law_lexed_parts.specs.WorkedBytes.{ReadAlone, CommentGoesOn, WhatGoesTogether};

/// Bytes that are read alone, bytes that are not since a line comment goes on, and which bytes go together.
pub fn worked_bytes()
    ensures alone { ReadAlone }
    ensures comment { CommentGoesOn }
    ensures together { WhatGoesTogether }
{}
