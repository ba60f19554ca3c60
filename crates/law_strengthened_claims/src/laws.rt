// Laws of strengthened claims, each the contract of a function that does nothing.
ghost use Rattle.law_strengthened_claims.specs.Laws.{ExchangedIsSound, StrongerIsSpelled};
ghost use Rattle.law_strengthened_claims.specs.Renaming.{RenamedTokensAreSpelled, RenamedBytesAreRead};
ghost use Rattle.law_strengthened_claims.specs.Replacement.{ReplacementIsSound};

/// Tokens in which a variable has a new name, where it follows no `.`, spell the expression under that name.
pub fn renamed_tokens_are_spelled()
    ensures { RenamedTokensAreSpelled }
{}

/// Bytes in which a variable has a new name, where it follows no `.`, are read as the tokens with that name.
pub fn renamed_bytes_are_read()
    ensures { RenamedBytesAreRead }
{}

/// Where the strengthened expression is put in place of that of the one claim of its name, and the text so spelled is sound, so is the text.
pub fn exchanged_is_sound()
    ensures { ExchangedIsSound }
{}

/// The tokens that are written around those of the expression under its new name and of the expression itself spell the strengthened expression.
pub fn stronger_is_spelled()
    ensures { StrongerIsSpelled }
{}

/// The bytes with the replacement spell a tree whose soundness gives that of the text, where the claim can be proved by induction.
pub fn replacement_is_sound()
    ensures { ReplacementIsSound }
{}
