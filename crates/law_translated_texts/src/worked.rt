// Worked texts.
ghost use Rattle.law_translated_texts.specs.Worked.{ToggleLexed, TogglePhrase, ToggleTranslated, CellLexed, CellParts, CellClosing, CellTranslated};

/// A text with one claim over several times: its tokens, its formula and its translation.
pub fn toggle_is_translated()
    ensures lexed { ToggleLexed }
    ensures phrase { TogglePhrase }
    ensures translated { ToggleTranslated }
{}

/// Two modules, of which one has claims over several times.
pub fn cells_are_translated()
    ensures lexed { CellLexed }
    ensures parts { CellParts }
    ensures closing { CellClosing }
    ensures translated { CellTranslated }
{}
